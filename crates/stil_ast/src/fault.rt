//! Why a STIL text is refused.

ghost use Rattle.std.specs.Prelude.{◌≡◌, Some, IfOk};
ghost use Rattle.answers.specs.Answers.{Blames};
ghost use Rattle.stil_ast.specs.Data.KindName.{kind_name};
ghost use Rattle.stil_ast.specs.Faults.Found.{fault_at};

use answers::Short;
use std::alloc::{AllocError, Global};
use tester_types::{Items, Text};

/// The kind of a fault of a STIL text.
#[derive(Clone, Copy, Debug, PartialEq, Eq)]
pub enum StilKind {
    BadByte,
    OpenQuote,
    OpenComment,
    OpenBlock,
    OpenStatement,
    StrayClose,
    TooDeep,
    NoHeader,
    Shape,
    LeftOut,
    OutOfRange,
    Twice,
    NoExec,
    UnknownName,
    Cyclic,
    BadExpr,
    ZeroDivisor,
    NotWhole,
    NoPeriod,
    EventOutside,
    EventOrder,
    Width,
    NoData,
    ShiftForm,
    NoTable,
    NoWave,
    TooLarge,
    TooManyCycles,
}

impl StilKind {
    /// The word by which it is printed.
    pub fn name(self) -> &'static str
        ensures { result.now ≡ kind_name self }
    {
        match self {
            StilKind::BadByte => "BadByte",
            StilKind::OpenQuote => "OpenQuote",
            StilKind::OpenComment => "OpenComment",
            StilKind::OpenBlock => "OpenBlock",
            StilKind::OpenStatement => "OpenStatement",
            StilKind::StrayClose => "StrayClose",
            StilKind::TooDeep => "TooDeep",
            StilKind::NoHeader => "NoHeader",
            StilKind::Shape => "Shape",
            StilKind::LeftOut => "LeftOut",
            StilKind::OutOfRange => "OutOfRange",
            StilKind::Twice => "Twice",
            StilKind::NoExec => "NoExec",
            StilKind::UnknownName => "UnknownName",
            StilKind::Cyclic => "Cyclic",
            StilKind::BadExpr => "BadExpr",
            StilKind::ZeroDivisor => "ZeroDivisor",
            StilKind::NotWhole => "NotWhole",
            StilKind::NoPeriod => "NoPeriod",
            StilKind::EventOutside => "EventOutside",
            StilKind::EventOrder => "EventOrder",
            StilKind::Width => "Width",
            StilKind::NoData => "NoData",
            StilKind::ShiftForm => "ShiftForm",
            StilKind::NoTable => "NoTable",
            StilKind::NoWave => "NoWave",
            StilKind::TooLarge => "TooLarge",
            StilKind::TooManyCycles => "TooManyCycles",
        }
    }
}

/// A fault, with the top-level statement in which it stands.
#[derive(Debug, Drop)]
pub struct StilFault {
    pub kind: StilKind,
    /// The keyword of the top-level statement; empty where there is none.
    pub block: Text,
    /// Its name; empty where it has none.
    pub name: Text,
    /// From 1.
    pub line: u32,
}

/// Why a reader gave up.
pub type StilRefusal = Short<StilFault>;

/// A fault of this kind on a line of a top-level statement, as it is to be told.
fn fault_of(
    alloc: Global,
    block: &[u8],
    name: &[u8],
    line: u32,
    kind: StilKind,
) -> Result<StilFault, AllocError>
    ensures { IfOk result
        (λ fault. fault ≡ fault_at (record { block = block.now; name = name.now; line = line }) kind) }
{
    Ok(StilFault {
        kind,
        block: Items::from_slice(alloc, block)?,
        name: Items::from_slice(alloc, name)?,
        line,
    })
}

/// The refusal for a fault of this kind on a line of a top-level statement, whose keyword and name are given; want of memory where
/// there is none for them.
pub fn told(alloc: Global, block: &[u8], name: &[u8], line: u32, kind: StilKind) -> StilRefusal
    ensures { Blames (Some (fault_at (record { block = block.now; name = name.now; line = line }) kind)) result }
{
    match fault_of(alloc, block, name, line, kind) {
        Ok(fault) => Short::Fault(fault),
        Err(_) => Short::NoMemory,
    }
}
