//! The reading of files of cases, line by line.

use crate::bytes::put_bytes;
use crate::case::{Case, LineFault, status};
use crate::fill::put_filled;
use std::alloc::Global;
use std::mem;

/// Why a file of cases isn't read.
#[derive(Clone, Copy, Debug, PartialEq, Eq)]
pub enum CasesFault {
    NoMemory,
    /// The line of this number, counted from 1, has none of the forms of a line, or stands at a wrong place.
    Line(usize),
}

/// What lines of content belong to.
#[derive(Drop)]
enum Place {
    Nowhere,
    /// The text of this name.
    Text(String),
    /// The case's file of this name.
    File(String),
    /// The output that the case wants.
    Output,
}

/// Lines of content that are put so many times.
#[derive(Drop)]
struct Repeat<'a> {
    times: u64,
    lines: Vec<&'a str>,
}

/// What was read of a file of cases so far.
#[derive(Drop)]
struct CaseReader<'a> {
    alloc: Global,
    /// Texts with their names.
    texts: Vec<(String, Vec<u8>)>,
    cases: Vec<Case>,
    /// The case that isn't ended yet.
    open: Option<Case>,
    place: Place,
    /// What was read of the content of the place.
    content: Vec<u8>,
    repeat: Option<Repeat<'a>>,
}

/// The words of a line, whose parts in braces are filled in.
fn filled(alloc: Global, words: &str) -> Result<String, LineFault> {
    let mut bytes = Vec::new(alloc);
    put_filled(alloc, &mut bytes, words, 0)?;
    match String::from_utf8(bytes) {
        Ok(words) => Ok(words),
        Err(_) => Err(LineFault::NoForm),
    }
}

/// The line that is written where words are none of the forms of a program's commands.
fn usage_named(name: &str) -> Option<&'static [u8]> {
    match name {
        "usage" => Some(stil_tool::USAGE),
        "usage of lots" => Some(lot_parts::USAGE),
        _ => None,
    }
}

/// The text of this name.
fn text_named<'a>(texts: &'a [(String, Vec<u8>)], name: &str) -> Option<&'a [u8]> {
    if let Some(line) = usage_named(name) {
        return Some(line);
    }
    for text in texts {
        if text.0.as_str() == name {
            return Some(text.1.as_slice());
        }
    }
    None
}

/// Whether the line is one of content.
fn is_content(line: &str) -> bool {
    line.starts_with(['|', '~', '=', '<'])
}

impl<'a> CaseReader<'a> {
    fn new(alloc: Global) -> CaseReader<'a> {
        CaseReader {
            alloc,
            texts: Vec::new(alloc),
            cases: Vec::new(alloc),
            open: None,
            place: Place::Nowhere,
            content: Vec::new(alloc),
            repeat: None,
        }
    }

    /// Puts what was read of content where it belongs.
    fn close(&mut self) -> Result<(), LineFault> {
        let content = mem::replace(&mut self.content, Vec::new(self.alloc));
        match mem::replace(&mut self.place, Place::Nowhere) {
            Place::Nowhere => Ok(()),
            Place::Text(name) => Ok(self.texts.push((name, content))?),
            Place::File(name) => match &mut self.open {
                Some(case) => Ok(case.files.push((name, content))?),
                None => Err(LineFault::NoForm),
            },
            Place::Output => match &mut self.open {
                Some(case) => {
                    case.text = content;
                    Ok(())
                }
                None => Err(LineFault::NoForm),
            },
        }
    }

    /// Ends the case that is open.
    fn end_case(&mut self) -> Result<(), LineFault> {
        self.close()?;
        if let Some(case) = self.open.take() {
            self.cases.push(case)?;
        }
        Ok(())
    }

    /// A line of content, in this pass of a repetition.
    fn content_line(&mut self, line: &str, pass: u64) -> Result<(), LineFault> {
        if let Some(name) = line.strip_prefix('<') {
            let Some(text) = text_named(self.texts.as_slice(), name) else {
                return Err(LineFault::NoForm);
            };
            self.content.extend_from_slice(text)?;
            return Ok(());
        }
        if let Some(rest) = line.strip_prefix('~') {
            put_filled(self.alloc, &mut self.content, rest, pass)?;
            return Ok(());
        }
        if let Some(rest) = line.strip_prefix('=') {
            return put_bytes(&mut self.content, rest);
        }
        let Some(rest) = line.strip_prefix('|') else {
            return Err(LineFault::NoForm);
        };
        put_filled(self.alloc, &mut self.content, rest, pass)?;
        Ok(self.content.push(b'\n')?)
    }

    /// The passes of a repetition that ends.
    fn end_repeat(&mut self, repeat: &Repeat) -> Result<(), LineFault> {
        for pass in 0..repeat.times {
            for line in repeat.lines.as_slice() {
                self.content_line(line, pass)?;
            }
        }
        Ok(())
    }

    /// Begins a place of content.
    fn begin(&mut self, place: Place) -> Result<(), LineFault> {
        self.close()?;
        self.place = place;
        Ok(())
    }

    /// Takes what a line says of the case that is open.
    fn set(&mut self, keyword: &str, rest: &str) -> Result<(), LineFault> {
        match &mut self.open {
            Some(case) => case.set(self.alloc, keyword, rest),
            None => Err(LineFault::NoForm),
        }
    }

    /// The status that the open case wants; its output follows.
    fn set_status(&mut self, rest: &str) -> Result<(), LineFault> {
        match &mut self.open {
            Some(case) => case.status = status(rest)?,
            None => return Err(LineFault::NoForm),
        }
        self.begin(Place::Output)
    }

    /// Begins a repetition.
    fn begin_repeat(&mut self, rest: &str) -> Result<(), LineFault> {
        let Ok(times) = rest.parse::<u64>() else {
            return Err(LineFault::NoForm);
        };
        self.repeat = Some(Repeat {
            times,
            lines: Vec::new(self.alloc),
        });
        Ok(())
    }

    /// A line that says something by its first word.
    fn worded_line(&mut self, line: &str) -> Result<(), LineFault> {
        let (keyword, rest) = line.split_once(' ').unwrap_or((line, ""));
        let rest = filled(self.alloc, rest)?;
        match keyword {
            "text" => self.begin(Place::Text(rest)),
            "file" => self.begin(Place::File(rest)),
            "status" => self.set_status(rest.as_str()),
            "repeat" => self.begin_repeat(rest.as_str()),
            "case" => {
                self.end_case()?;
                self.open = Some(Case::new(self.alloc, rest)?);
                Ok(())
            }
            _ => self.set(keyword, rest.as_str()),
        }
    }

    /// The next line of the file.
    fn line(&mut self, line: &'a str) -> Result<(), LineFault> {
        match self.repeat.take() {
            Some(repeat) if line == "end" => self.end_repeat(&repeat),
            Some(mut repeat) => {
                repeat.lines.push(line)?;
                self.repeat = Some(repeat);
                Ok(())
            }
            None if line.is_empty() || line.starts_with('#') => Ok(()),
            None if is_content(line) => self.content_line(line, 0),
            None => self.worded_line(line),
        }
    }
}

/// The cases of a file.
pub fn read_cases(alloc: Global, text: &str) -> Result<Vec<Case>, CasesFault> {
    let mut reader = CaseReader::new(alloc);
    let mut number = 0usize;
    for line in text.lines() {
        number = number.saturating_add(1);
        match reader.line(line) {
            Ok(()) => {}
            Err(LineFault::NoMemory) => return Err(CasesFault::NoMemory),
            Err(LineFault::NoForm) => return Err(CasesFault::Line(number)),
        }
    }
    match reader.end_case() {
        Ok(()) => Ok(reader.cases),
        Err(_) => Err(CasesFault::NoMemory),
    }
}
