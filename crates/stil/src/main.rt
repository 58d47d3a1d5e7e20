//! The program: real files, standard output and simulated sockets around the public call of `stil_tool`.
#![tactic(auto)]

mod run;

use host_files::FileDesk;
use std::process::ExitCode;

fn main(rt: HostRuntime) -> ExitCode {
    let mut desk = FileDesk::new(&rt);
    ExitCode::from(run::run(&rt, &mut desk).number())
}
