//! How the outside of a case fails in one of its runs, and what is wanted of the call then.

use crate::case::Case;
use std::alloc::{AllocError, Global};
use std::fmt;

/// What fails around the call, beside what the case itself says.
#[derive(Clone, Copy, Debug, PartialEq, Eq)]
pub enum Outside {
    /// Nothing more.
    AsSaid,
    /// The load of this number, counted from 1.
    FailingLoad(u64),
    /// Nothing, but the sink takes one byte a put.
    ByteSink,
    /// The put of this number, counted from 1, of a sink that takes one byte a put.
    FailingPut(u64),
    /// That put takes nothing.
    EmptyPut(u64),
}

impl fmt::Display for Outside {
    fn fmt<W: fmt::Write>(&self, f: &mut fmt::Formatter<W>) -> fmt::Result {
        match self {
            Outside::AsSaid => Ok(()),
            Outside::FailingLoad(load) => write!(f, ", whose load {load} fails,"),
            Outside::ByteSink => write!(f, " byte by byte"),
            Outside::FailingPut(put) => write!(f, " byte by byte, whose put {put} fails,"),
            Outside::EmptyPut(put) => write!(f, " byte by byte, whose put {put} takes nothing,"),
        }
    }
}

/// A run of a case: how its outside fails, and the answer that is wanted.
#[derive(Clone, Copy)]
pub struct Wanted<'a> {
    pub outside: Outside,
    pub status: u8,
    pub text: &'a [u8],
}

impl Wanted<'_> {
    /// What the case says itself is wanted, where the outside makes no difference.
    pub fn whole(case: &Case, outside: Outside) -> Wanted<'_> {
        Wanted {
            outside,
            status: case.status,
            text: case.text.as_slice(),
        }
    }

    /// A write fault behind this front of the text.
    pub fn write_fault(outside: Outside, text: &[u8]) -> Wanted<'_> {
        Wanted {
            outside,
            status: 3,
            text,
        }
    }
}

/// The line of a file that isn't read.
pub fn read_fault(alloc: Global, name: &str) -> Result<String, AllocError> {
    format!(in alloc; "read fault {name}\n")
}
