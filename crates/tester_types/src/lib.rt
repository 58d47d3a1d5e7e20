//! The plain data that all crates of the tester share, and the traits of the outside.
#![tactic(auto)]

mod act;
mod cycle;
mod desk;
mod items;
mod level;
mod mem_shelf;
mod mem_sink;
mod outside;
mod printing;
mod record;
mod record_list;
mod signal;
mod wave;
mod wave_list;
mod wave_search;

pub use act::{ACT_NAMES, act_byte, act_of_byte, look_letter, push_letter};
pub use cycle::{Cycle, LookList, Moment, MomentList, PushList};
pub use desk::{Ask, Desk, Gate, ListDesk, OpenGate, SilentDesk};
pub use items::Items;
pub use level::{Drive, Level};
pub use mem_shelf::MemShelf;
pub use mem_sink::MemSink;
pub use outside::{Failed, NoMemory, Shelf, ShelfFault, Sink, SinkFault};
pub use printing::{Piece, Printed, put_all, put_each};
pub use record::{By, Fail, FailList, Record, Trial, TrialList, Verdict};
pub use record_list::RecordList;
pub use signal::{Direction, direction_byte, direction_of_byte};
pub use wave::{Act, Event, EventList, Look, Push, Table, TableList, Text, TextList, Wave};
pub use wave_list::WaveList;
