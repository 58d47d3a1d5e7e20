//! Compiled test programs: code that keeps its loops, and the walk over its cycles.
#![tactic(auto)]

mod beginning;
mod code;
mod counting;
mod course;
mod cycle_sums;
mod exec;
mod instr;
mod laws;
mod packed;
mod parts;
mod rows;
mod walker;

pub use beginning::walk;
pub use code::{Code, PAGE};
pub use counting::cycles;
pub use course::{Course, CourseStep};
pub use cycle_sums::CycleSums;
pub use exec::{CodeExec, CodeExecList};
pub use instr::{Entry, Instr};
pub use laws::{count_is_length, meaning_is_nesting};
pub use packed::{PackedInstr, PackedInstrList, instr_of_bytes, pack};
pub use parts::{CodeChain, CodeChainList, CodeSignal, CodeSignalList, InstrList};
pub use rows::RowList;
pub use tester_types::Direction;
pub use walker::Walk;
