//! A compiled test program in memory: its instructions packed, a bounded pool of decoded pages that threads share, and
//! cursors that give the cycles of an executive one by one.
#![tactic(auto)]

mod cursor;
mod laws;
mod memory;
mod pool;
mod steps;
mod turn;
mod view;
mod window;

pub use cursor::{Cursor, at};
pub use laws::{one_next, one_whole};
pub use memory::{PassList, PatternMem, PoolPass};
pub use pool::{Fetched, PoolState};
pub use window::Window;
