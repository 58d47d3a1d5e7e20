//! What a command of the program reads, and the line and the status of each refusal: the program, the plan, and the netlists that
//! the plan names, bound to each other.
#![tactic(auto)]

mod ending;
mod inputs;
mod number;
mod ready;
mod refusal;
mod status;

pub use ending::{ended, no_memory};
pub use inputs::{LIMIT, load};
pub use number::read_number;
pub use ready::{ReadyLot, prepare};
pub use refusal::{Refusal, put_refusal, put_stil};
pub use status::Status;
