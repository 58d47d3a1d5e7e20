//! A worked case: what a call is given, and what it is to answer.

use std::alloc::{AllocError, AllocFailed, Global};
use tester_types::Ask;

/// What a call is given, and the answer that is wanted.
#[derive(Drop)]
pub struct Case {
    pub title: String,
    pub words: Vec<String>,
    /// Whether only `offline` is called, which needs no tester.
    pub is_offline: bool,
    /// Whether the words are those of the program that cuts lots into parts.
    pub is_divided: bool,
    pub files: Vec<(String, Vec<u8>)>,
    /// The numbers of the loads that fail, counted from 1.
    pub failing_loads: Vec<u64>,
    /// How many bytes the sink takes in all; ample room where nothing is said.
    pub room: Option<usize>,
    /// How many bytes the sink takes in one put at most.
    pub most: usize,
    /// The numbers of the puts that fail, counted from 1.
    pub failing_puts: Vec<u64>,
    /// The numbers of the puts that take nothing.
    pub empty_puts: Vec<u64>,
    /// The files that are loaded, in this order: in a further run each of these loads fails.
    pub loaded: Vec<String>,
    /// Whether there are further runs with a sink of one byte a put, of which one put fails or takes nothing.
    pub is_bytewise: bool,
    /// For each socket the number of the call at which it loses contact, and 0 where it never does.
    pub sockets: Vec<u64>,
    /// What the desk answers, before it says nothing.
    pub asks: Vec<Ask>,
    /// The status that is wanted.
    pub status: u8,
    /// The output that is wanted.
    pub text: Vec<u8>,
}

/// Why a line isn't read.
#[derive(Clone, Copy, Debug, PartialEq, Eq)]
pub enum LineFault {
    NoMemory,
    /// It has none of the forms of a line, or it stands at a wrong place.
    NoForm,
}

impl From<AllocError> for LineFault {
    fn from(_e: AllocError) -> LineFault {
        LineFault::NoMemory
    }
}

impl<T: Drop> From<AllocFailed<T>> for LineFault {
    fn from(_e: AllocFailed<T>) -> LineFault {
        LineFault::NoMemory
    }
}

impl Case {
    /// A case of this title with one socket and a sink with ample room, before it says anything of its own.
    pub fn new(alloc: Global, title: String) -> Result<Case, LineFault> {
        Ok(Case {
            title,
            words: Vec::new(alloc),
            is_offline: false,
            is_divided: false,
            files: Vec::new(alloc),
            failing_loads: Vec::new(alloc),
            room: None,
            most: usize::MAX,
            failing_puts: Vec::new(alloc),
            empty_puts: Vec::new(alloc),
            loaded: Vec::new(alloc),
            is_bytewise: false,
            sockets: vec![in alloc; 0]?,
            asks: Vec::new(alloc),
            status: 0,
            text: Vec::new(alloc),
        })
    }

    /// Takes what a line says of the case.
    pub fn set(&mut self, alloc: Global, keyword: &str, rest: &str) -> Result<(), LineFault> {
        match keyword {
            "words" => self.words = words(alloc, rest)?,
            "word" => self.words.push(String::from_str(alloc, rest)?)?,
            "offline" => self.is_offline = true,
            "divided" => self.is_divided = true,
            "loads" => self.failing_loads = numbers(alloc, rest)?,
            "loaded" => self.loaded = words(alloc, rest)?,
            "sockets" => self.sockets = numbers(alloc, rest)?,
            "desk" => self.asks = asks(alloc, rest)?,
            _ => return self.set_sink(alloc, keyword, rest),
        }
        Ok(())
    }

    /// Takes what a line says of the sink.
    fn set_sink(&mut self, alloc: Global, keyword: &str, rest: &str) -> Result<(), LineFault> {
        match keyword {
            "room" => self.room = Some(size(rest)?),
            "takes" => self.most = size(rest)?,
            "fails" => self.failing_puts = numbers(alloc, rest)?,
            "empty" => self.empty_puts = numbers(alloc, rest)?,
            "bytewise" => self.is_bytewise = true,
            _ => return Err(LineFault::NoForm),
        }
        Ok(())
    }
}

/// The words between blanks.
fn words(alloc: Global, rest: &str) -> Result<Vec<String>, LineFault> {
    let mut words = Vec::new(alloc);
    for word in rest.split_whitespace() {
        words.push(String::from_str(alloc, word)?)?;
    }
    Ok(words)
}

/// The numbers between blanks.
fn numbers(alloc: Global, rest: &str) -> Result<Vec<u64>, LineFault> {
    let mut numbers = Vec::new(alloc);
    for word in rest.split_whitespace() {
        let Ok(number) = word.parse::<u64>() else {
            return Err(LineFault::NoForm);
        };
        numbers.push(number)?;
    }
    Ok(numbers)
}

/// A number of bytes.
fn size(rest: &str) -> Result<usize, LineFault> {
    match rest.parse::<usize>() {
        Ok(size) => Ok(size),
        Err(_) => Err(LineFault::NoForm),
    }
}

/// A number of a status.
pub fn status(rest: &str) -> Result<u8, LineFault> {
    match rest.parse::<u8>() {
        Ok(status) => Ok(status),
        Err(_) => Err(LineFault::NoForm),
    }
}

/// What a desk says: the numbers of the sites that are to stop, and `-` where it says nothing.
fn asks(alloc: Global, rest: &str) -> Result<Vec<Ask>, LineFault> {
    let mut asks = Vec::new(alloc);
    for word in rest.split_whitespace() {
        let ask = match word.parse::<u8>() {
            Ok(site) => Ask::Stop(site),
            Err(_) if word == "-" => Ask::Nothing,
            Err(_) => return Err(LineFault::NoForm),
        };
        asks.push(ask)?;
    }
    Ok(asks)
}
