//! Assignments whose names and numbers stand in one list, and whose runs of data stand in another (IEEE 1450-1999,
//! clauses 6 and 21).

ghost use Rattle.std.specs.Prelude.{◌≡◌, ◌++◌, ◌∷◌, ◌↔◌, ◌+◌, ◌<◌, ◌≤◌, ◌^◌, [], IsTrue, IfOk, OnOk, OnErr, length, take, is_ok, if◌then◌else◌};
ghost use Rattle.std.specs.Option.{option_map};
ghost use Rattle.std.specs.Iterator.{item_count};
ghost use Rattle.stil_ast.specs.Data.AssignmentCuts as cuts;
ghost use Rattle.stil_ast.specs.Data.AssignmentCuts.{reference_of, KindFits};
ghost use Rattle.stil_ast.specs.Data.Assignments.{TakesAssignment, assignment_said};
ghost use Rattle.stil_ast.specs.Data.Items.{KeepRepeats};

use crate::body::Assignment;
use crate::data::ItemRun;
use crate::name::{IndexRange, SigRef};
use std::alloc::{AllocError, Global};
use std::marker::Model;

/// What kind of reference to signals some bytes are.
#[derive(Clone, Copy, Debug, PartialEq, Eq)]
pub enum RefKind {
    /// A name without indices.
    Name,
    /// A name with indices.
    Indexed(IndexRange),
    /// The text of a group expression, which begins on this line.
    Group(u32),
}

/// An assignment without its bytes and runs, but with how many they are.
#[derive(Clone, Copy, Debug)]
struct AssignmentHead {
    reference: RefKind,
    bytes: u32,
    runs: u32,
    line: u32,
}

/// What an assignment says, lent by a list.
#[derive(Clone, Copy, Debug)]
pub struct AssignmentParts<'a> {
    pub reference: RefKind,
    /// The name, or the text of the group expression.
    pub bytes: &'a [u8],
    pub runs: &'a [ItemRun],
    /// The statement's line, from 1.
    pub line: u32,
}

/// Assignments in text order. The bytes of their references and their numbers stand in one list, and the runs of their
/// data in another.
#[derive(Debug, Drop)]
pub struct AssignmentList {
    texts: Vec<u8>,
    runs: Vec<ItemRun>,
}

impl Model for AssignmentList {
    ghost use Rattle.std.specs.Prelude.{List};
    ghost use Rattle.stil_ast.specs.declared.body.Assignment.{Assignment};

    ghost Value = { List Assignment };

    ghost use Rattle.stil_ast.specs.Data.AssignmentCuts.{assignments_kept, AreKept};

    ghost view = { λ a. assignments_kept a.texts.items a.runs.items };

    ghost invariant = { λ a. AreKept a.texts.items a.runs.items };
}

/// How many bytes a head has.
const HEAD_SIZE: usize = 11;

impl AssignmentList {
    /// No assignment.
    pub fn new(alloc: Global) -> AssignmentList
        ensures { result ≡ [] }
    {
        AssignmentList {
            texts: Vec::new(alloc),
            runs: Vec::new(alloc),
        }
    }

    /// Adds an assignment. At an error, also where its name or its data are longer than 2^24 - 1, nothing changes.
    pub fn push(&mut self, assignment: &Assignment) -> Result<(), AllocError>
        ensures added { OnOk result (self.new ≡ self.old ++ assignment.now ∷ []) }
        ensures kept { OnErr result (self.new ≡ self.old) }
    {
        self.push_parts(parts_of(assignment))
    }

    /// Adds the assignment that parts say. At an error, also where its name or its data are longer than 2^24 - 1,
    /// nothing changes.
    pub fn push_parts(&mut self, parts: AssignmentParts) -> Result<(), AllocError>
        requires { KeepRepeats parts.runs.now }
        ensures added { OnOk result (self.new ≡ self.old ++ assignment_said parts.entry ∷ []) }
        ensures kept { OnErr result (self.new ≡ self.old) }
    {
        let head = AssignmentHead {
            reference: parts.reference,
            bytes: counted(parts.bytes.len())?,
            runs: counted(parts.runs.len())?,
            line: parts.line,
        };
        let (numbers, size) = kind_numbers(head.reference);
        let front = head_bytes(head);
        add_all(
            &mut self.texts,
            &mut self.runs,
            &front,
            &numbers[..size],
            parts.bytes,
            parts.runs,
        )?;
        Ok(())
    }

    /// Takes all assignments away, and keeps the memory.
    pub fn clear(&mut self)
        ensures { self.new ≡ [] }
    {
        self.texts.clear();
        self.runs.clear();
    }

    /// The same assignments, with exactly the room that they need.
    pub fn copied(&self, alloc: Global) -> Result<AssignmentList, AllocError>
        ensures { IfOk result (λ copy. copy ≡ self.now) }
    {
        Ok(AssignmentList {
            texts: Vec::from_slice(alloc, self.texts.as_slice())?,
            runs: Vec::from_slice(alloc, self.runs.as_slice())?,
        })
    }

    /// How many assignments there are. It goes over them.
    pub fn len(&self) -> usize
        ensures { result ≡ length self.now }
    {
        self.cursor().len()
    }

    /// Whether there is no assignment.
    pub fn is_empty(&self) -> bool
        ensures { IsTrue result ↔ (self.now ≡ []) }
    {
        self.texts.is_empty()
    }

    /// The assignments one after another, without memory.
    pub fn cursor(&self) -> AssignmentCursor<'_>
        ensures { result ≡ self.now }
    {
        AssignmentCursor {
            texts: self.texts.as_slice(),
            runs: self.runs.as_slice(),
        }
    }
}

/// A count that fits three bytes.
fn counted(count: usize) -> Result<u32, AllocError>
    ensures same { IfOk result (λ same. same ≡ count) }
    ensures short { IfOk result (λ same. same < 2 ^ 24) }
{
    if count < 1 << 24 {
        Ok(count as u32)
    } else {
        Err(AllocError)
    }
}

/// A reference as its kind and its bytes.
fn taken_apart(reference: &SigRef) -> (RefKind, &[u8])
    ensures { reference_of result.0 result.1.now ≡ reference.now }
{
    match reference {
        SigRef::Name(named) => match named.range {
            None => (RefKind::Name, named.name.as_slice()),
            Some(range) => (RefKind::Indexed(range), named.name.as_slice()),
        },
        SigRef::Group(quoted) => (RefKind::Group(quoted.line), quoted.text.as_slice()),
    }
}

/// What an assignment says.
fn parts_of(assignment: &Assignment) -> AssignmentParts<'_>
    ensures said { assignment_said result ≡ assignment.now }
    ensures repeats { KeepRepeats result.runs.now }
{
    let (reference, bytes) = taken_apart(&assignment.reference);
    AssignmentParts {
        reference,
        bytes,
        runs: assignment.items.as_slice(),
        line: assignment.line,
    }
}

/// The byte that tells the kind of a reference.
fn kind_code(kind: RefKind) -> u8
    ensures { result ≡ cuts.kind_code kind }
{
    match kind {
        RefKind::Name => 0,
        RefKind::Indexed(_) => 1,
        RefKind::Group(_) => 2,
    }
}

/// A kind's own numbers, and how many bytes they are.
fn kind_numbers(kind: RefKind) -> ([u8; 8], usize)
    ensures numbers { take result.1 result.0 ≡ cuts.kind_numbers kind }
    ensures size { result.1 ≤ 8 }
    ensures fits { KindFits kind }
{
    match kind {
        RefKind::Name => ([0; 8], 0),
        RefKind::Indexed(range) => {
            let [f0, f1, f2, f3] = range.first.to_le_bytes();
            let [l0, l1, l2, l3] = range.last.to_le_bytes();
            ([f0, f1, f2, f3, l0, l1, l2, l3], 8)
        }
        RefKind::Group(line) => {
            let [n0, n1, n2, n3] = line.to_le_bytes();
            ([n0, n1, n2, n3, 0, 0, 0, 0], 4)
        }
    }
}

/// The bytes of a head.
fn head_bytes(head: AssignmentHead) -> [u8; HEAD_SIZE]
    ensures { result ≡ cuts.head_bytes head }
{
    let [b0, b1, b2, _] = head.bytes.to_le_bytes();
    let [r0, r1, r2, _] = head.runs.to_le_bytes();
    let [n0, n1, n2, n3] = head.line.to_le_bytes();
    [
        kind_code(head.reference),
        b0,
        b1,
        b2,
        r0,
        r1,
        r2,
        n0,
        n1,
        n2,
        n3,
    ]
}

/// Adds a head, a kind's own numbers, bytes and runs, or nothing at all.
fn add_all(
    texts: &mut Vec<u8>,
    all_runs: &mut Vec<ItemRun>,
    head: &[u8],
    numbers: &[u8],
    bytes: &[u8],
    runs: &[ItemRun],
) -> Result<(), AllocError>
    requires { length head.now + length numbers.now + length bytes.now < 2 ^ 32 }
    ensures texts { texts.new.items ≡ (if is_ok result
        then texts.old.items ++ head.now ++ numbers.now ++ bytes.now else texts.old.items) }
    ensures runs { all_runs.new.items ≡ (if is_ok result then all_runs.old.items ++ runs.now else all_runs.old.items) }
{
    texts.reserve(head.len() + numbers.len() + bytes.len())?;
    all_runs.extend_from_slice(runs)?;
    texts.extend_from_slice(head).unwrap();
    texts.extend_from_slice(numbers).unwrap();
    texts.extend_from_slice(bytes).unwrap();
    Ok(())
}

/// The number of three bytes from a place on.
fn short_number(bytes: &[u8], at: usize) -> u32
    requires { at + 3 ≤ length bytes.now }
    ensures { result ≡ cuts.short_number at bytes.now }
{
    u32::from_le_bytes([bytes[at], bytes[at + 1], bytes[at + 2], 0])
}

/// The number of four bytes from a place on.
fn long_number(bytes: &[u8], at: usize) -> u32
    requires { at + 4 ≤ length bytes.now }
    ensures { result ≡ cuts.long_number at bytes.now }
{
    u32::from_le_bytes([bytes[at], bytes[at + 1], bytes[at + 2], bytes[at + 3]])
}

/// The kind that a code and the numbers behind a head tell, and what stands behind them.
#[tactic(auto, unfolding(crate::specs::Data::AssignmentCuts::kind_front))]
fn kind_front(code: u8, bytes: &[u8]) -> Option<(RefKind, &[u8])>
    ensures { option_map (λ x. (x.0, x.1.now)) result ≡ cuts.kind_front code bytes.now }
{
    match code {
        0 => Some((RefKind::Name, bytes)),
        1 => {
            if bytes.len() < 8 {
                return None;
            }
            let first = long_number(bytes, 0);
            let last = long_number(bytes, 4);
            Some((RefKind::Indexed(IndexRange { first, last }), &bytes[8..]))
        }
        _ => {
            if bytes.len() < 4 {
                return None;
            }
            Some((RefKind::Group(long_number(bytes, 0)), &bytes[4..]))
        }
    }
}

/// The head that stands in front, and what stands behind it.
#[tactic(auto, unfolding(crate::specs::Data::AssignmentCuts::head_front))]
fn head_front(bytes: &[u8]) -> Option<(AssignmentHead, &[u8])>
    ensures { option_map (λ x. (x.0, x.1.now)) result ≡ cuts.head_front bytes.now }
{
    if bytes.len() < HEAD_SIZE {
        return None;
    }
    match kind_front(bytes[0], &bytes[HEAD_SIZE..]) {
        None => None,
        Some((reference, rest)) => {
            let head = AssignmentHead {
                reference,
                bytes: short_number(bytes, 1),
                runs: short_number(bytes, 4),
                line: long_number(bytes, 7),
            };
            Some((head, rest))
        }
    }
}

/// Assignments that are left to be read, in order.
#[derive(Drop)]
pub struct AssignmentCursor<'a> {
    texts: &'a [u8],
    runs: &'a [ItemRun],
}

impl<'a> Model for AssignmentCursor<'a> {
    ghost use Rattle.std.specs.Prelude.{List};
    ghost use Rattle.stil_ast.specs.declared.body.Assignment.{Assignment};

    ghost Value = { List Assignment };

    ghost use Rattle.stil_ast.specs.Data.AssignmentCuts.{assignments_kept, AreKept};

    ghost view = { λ c. assignments_kept c.texts.now c.runs.now };

    ghost invariant = { λ c. AreKept c.texts.now c.runs.now };
}

impl<'a> AssignmentCursor<'a> {
    /// A second cursor, with the same assignments left.
    pub fn again(&self) -> AssignmentCursor<'a>
        ensures { result ≡ self.now }
    {
        AssignmentCursor {
            texts: self.texts,
            runs: self.runs,
        }
    }

    /// How many assignments are left. It goes over them.
    pub fn len(&self) -> usize
        ensures { result ≡ length self.now }
    {
        let left = AssignmentCursor {
            texts: self.texts,
            runs: self.runs,
        };
        left.count()
    }
}

impl<'a> Iterator for AssignmentCursor<'a> {
    type Item = AssignmentParts<'a>;

    ghost next_gives = { TakesAssignment };

    ghost remaining = { item_count (λ left. left) };

    fn next(&mut self) -> Option<AssignmentParts<'a>> {
        let (head, rest) = head_front(self.texts)?;
        let (bytes, texts) = rest.split_at(head.bytes as usize);
        let (runs, more_runs) = self.runs.split_at(head.runs as usize);
        self.texts = texts;
        self.runs = more_runs;
        Some(AssignmentParts {
            reference: head.reference,
            bytes,
            runs,
            line: head.line,
        })
    }
}
