//! The program that cuts lots and grades into parts and merges what comes back: real files and standard output around the
//! public call of `lot_parts`.
#![tactic(auto)]

mod run;

use std::process::ExitCode;

fn main(rt: HostRuntime) -> ExitCode {
    ExitCode::from(run::run(&rt).number())
}
