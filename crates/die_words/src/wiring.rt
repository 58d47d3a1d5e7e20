//! How a netlist is wired, as 64 dies of it are settled.
use crate::capture::Registers;
use crate::flat::Gates;
use die_sim::Readers;

/// A netlist's gates, its flip-flops, and the places of the gates that read each net.
#[derive(Drop)]
pub(crate) struct Wired {
    pub(crate) gates: Gates,
    pub(crate) registers: Registers,
    pub(crate) readers: Readers,
}
