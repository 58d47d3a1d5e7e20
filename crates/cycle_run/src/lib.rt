//! A try is played at a socket: one cycle, moment by moment, and the cycles of an executive by one loop.
#![tactic(auto)]

mod bench;
mod cycle;
mod drives;
mod feed;
mod lent;
mod moments;
mod place;
mod play;
mod player;
mod seat;
mod sensing;
mod setup;
mod signals;
mod starting;
mod stop;

pub use bench::{Bench, unknown_drives};
pub use cycle::{make_all, make_cycle};
pub use drives::{collect, remember};
pub use feed::Feed;
pub use lent::Lent;
pub use place::Place;
pub use play::play_cycles;
pub use player::Player;
pub use seat::{Seat, Standing, play_at};
pub use setup::{Setup, Until};
pub use signals::bound_signals;
pub use starting::{first_standing, loaded};
pub use stop::Stop;
