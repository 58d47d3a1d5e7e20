//! Moments, fails, dies, sockets, netlists and plans through the public calls: what no command shows of them.
#![tactic(auto)]

#[cfg(test)]
mod die_tests;
#[cfg(test)]
mod fixture;
#[cfg(test)]
mod moment_tests;
#[cfg(test)]
mod netlist_tests;
#[cfg(test)]
mod plan_tests;
#[cfg(test)]
mod programs;
#[cfg(test)]
mod socket_tests;
#[cfg(test)]
mod strobe_tests;
