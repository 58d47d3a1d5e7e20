//! A dump that was read.

use crate::names::VarList;
use die_sim::Tape;

/// What a dump is of: its vars, and the tape of the drives.
#[derive(Drop)]
pub struct Dump {
    pub vars: VarList,
    pub tape: Tape,
}
