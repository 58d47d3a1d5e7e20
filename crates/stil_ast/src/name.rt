//! Names, references and texts as they are written.

use tester_types::{Items, Text, TextList};

/// The words of UserKeywords statements: a statement that begins with one of them is skipped (IEEE 1450-1999,
/// clause 11).
pub type WordList = TextList;

/// A text in single quotes, without them.
#[derive(Debug, Drop)]
pub struct Quoted {
    pub text: Text,
    /// The line of its first byte, from 1.
    pub line: u32,
}

/// A statement that is a keyword and a name.
#[derive(Debug, Drop)]
pub struct Named {
    pub name: Text,
    /// The statement's line, from 1.
    pub line: u32,
}

/// Such statements in text order.
pub type NamedList = Items<Named>;

/// The indices of `name[first..last]`, upwards or downwards; `name[n]` has n for both.
#[derive(Clone, Copy, Debug, PartialEq, Eq)]
pub struct IndexRange {
    pub first: u32,
    pub last: u32,
}

/// A name, with indices in brackets or without.
#[derive(Debug, Drop)]
pub struct NameRef {
    pub name: Text,
    pub range: Option<IndexRange>,
}

/// A reference to signals (IEEE 1450-1999, clause 6, signal references).
#[derive(Debug, Drop)]
pub enum SigRef {
    /// A name outside quotes.
    Name(NameRef),
    /// A text that is to hold a group expression. It is read where it is used.
    Group(Quoted),
}
