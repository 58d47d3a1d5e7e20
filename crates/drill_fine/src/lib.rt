//! The texts of a drill have no fault: its pattern, its netlist and its plan are accepted, and what they say is bound.
#![tactic(auto)]

mod laws;

pub use laws::{
    drill_is_bound, net_is_accepted, pattern_is_accepted, pattern_is_fine, plan_has_four_sites,
    plan_is_accepted,
};
