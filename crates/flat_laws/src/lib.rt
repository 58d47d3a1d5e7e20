//! What the flat text of a code is: it says the whole code but for its chains, and it is refused only where it is beyond a
//! limit.
#![tactic(auto)]

mod laws;

pub use laws::{faults_are_limits, flat_is_fine, program_is_same};
