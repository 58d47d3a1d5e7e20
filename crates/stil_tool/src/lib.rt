//! The commands of the program, over any shelf and any sink.
#![tactic(auto)]

mod drill;
mod drill_netlist;
mod drill_plan;
mod drill_program;
mod dump;
mod floor;
mod grade;
mod laws;
mod lot;
mod offline_call;
mod top_call;

pub use laws::{
    alone_lines, one_dump_text, one_grade_text, one_quiet_text, one_text, other_site,
    quiet_is_uncut, text_is_sites, text_without_cuts,
};
pub use offline_call::{USAGE, offline};
pub use stil_program::program;
pub use text_commands::Command;
pub use tool_inputs::{LIMIT, Refusal, Status, no_memory};
pub use top_call::tester;
