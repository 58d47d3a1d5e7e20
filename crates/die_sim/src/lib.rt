//! Dies: what a die is after each moment, exactly, and the socket through which a tester meets a die.
#![tactic(auto)]

mod cells;
mod die;
mod failing_socket;
mod gate;
mod image;
mod laws;
mod moment;
mod pending;
mod readers;
mod settle;
mod sim;
mod socket;
mod steps;
mod table;
mod tape;
mod tape_socket;
mod waiting;
mod wiring;

pub use die::DieState;
pub use failing_socket::FailingSocket;
pub use image::{Bind, BindList, Binding, DieImage, FaultList, StuckAt, is_one_fault};
pub use laws::{one_first_state, one_next_state, one_settling};
pub use pending::Pending;
pub use readers::Readers;
pub use settle::activate_readers;
pub use sim::SimSocket;
pub use socket::{Contact, Socket, SocketBox, SocketFault};
pub use steps::Steps;
pub use tape::Tape;
pub use tape_socket::TapeSocket;
