//! A die's parts: how it is wired, which a moment leaves as it is, and its nets, which a moment changes.
use crate::cells::Cells;
use crate::image::Binding;
use crate::pending::Pending;
use crate::readers::Readers;
use crate::waiting::Waiting;
use bench_net::Netlist;
use std::sync::Arc;
use tester_types::Level;

/// How a die is wired: its netlist and binding, the gates and readers of that netlist, and the levels of nets at which
/// faults are.
#[derive(Drop)]
pub(crate) struct Wiring {
    pub(crate) net: Arc<Netlist>,
    pub(crate) bind: Arc<Binding>,
    pub(crate) cells: Cells,
    pub(crate) readers: Readers,
    pub(crate) fixed: Vec<Option<Level>>,
}

/// The nets of a die: their levels, the gates that are pending and the flip-flops that wait.
#[derive(Drop)]
pub(crate) struct Nets {
    pub(crate) levels: Vec<Level>,
    pub(crate) pending: Pending,
    pub(crate) waiting: Waiting,
}
