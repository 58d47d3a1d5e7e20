//! What is asked of a scope: tables, signals and times.

ghost use Rattle.std.specs.Prelude.{◌≡◌, ◌<◌, length, All, IfOk};
ghost use Rattle.text_bytes.specs.Texts.{behind};
ghost use Rattle.stil_ast.specs.Meaning.Tables.{tables_named};
ghost use Rattle.stil_ast.specs.Meaning.Members.{members, reference_kind};
ghost use Rattle.stil_ast.specs.Data.Texts.{name_or_none};
ghost use Rattle.signal_groups.specs.Lookup.{Resolves};
ghost use Rattle.wave_tables.specs.Scope.{timed, IsTimeOf};

use crate::scope::Scope;
use crate::times::ReadTime;
use signal_groups::{RefFault, SignalList};
use std::alloc::{AllocError, Global};
use stil_ast::{ExecDecl, Quoted, SigRef, StilKind, TableDecl, TimingBlock};
use time_expr::{TimeFault, time_of};

impl<'a> Scope<'a> {
    /// The tables in text order.
    pub(crate) fn tables(&self) -> &[&'a TableDecl]
        ensures { behind result.now ≡ (timed self.now).tables }
    {
        self.tables.as_slice()
    }

    /// How many signals there are.
    pub(crate) fn signal_count(&self) -> usize
        ensures { result ≡ length (timed self.now).names.signals }
    {
        self.signals.count()
    }

    /// The same as a short number. More than that is answered as want of memory; no table of signals has so many.
    pub(crate) fn short_count(&self) -> Result<u16, AllocError>
        ensures { IfOk result (λ count. count ≡ length (timed self.now).names.signals) }
    {
        u16::try_from(self.signal_count()).map_err(|_| AllocError)
    }

    /// The signals of a reference, or its fault.
    fn resolved(&self, alloc: Global, reference: &SigRef) -> Result<SignalList, RefFault>
        ensures signals { Resolves (reference_kind (timed self.now).names reference.now)
            (members (timed self.now).names reference.now) result }
        ensures within { IfOk result (λ list. All (λ s. s < length (timed self.now).names.signals) list) }
    {
        self.signals.resolve(alloc, reference)
    }

    /// The signals of a reference, none where it has a fault.
    pub(crate) fn members(
        &self,
        alloc: Global,
        reference: &SigRef,
    ) -> Result<SignalList, AllocError>
        ensures signals { IfOk result (λ list. list ≡ members (timed self.now).names reference.now) }
        ensures within { IfOk result (λ list. All (λ s. s < length (timed self.now).names.signals) list) }
    {
        match self.resolved(alloc, reference) {
            Ok(list) => Ok(list),
            Err(RefFault::NoMemory) => Err(AllocError),
            Err(RefFault::Shape) => Ok(SignalList::from_vec(Vec::new(alloc))),
            Err(RefFault::UnknownName) => Ok(SignalList::from_vec(Vec::new(alloc))),
        }
    }

    /// The fault of a reference, if it has one.
    pub(crate) fn kind(
        &self,
        alloc: Global,
        reference: &SigRef,
    ) -> Result<Option<StilKind>, AllocError>
        ensures { IfOk result (λ kind. kind ≡ reference_kind (timed self.now).names reference.now) }
    {
        match self.resolved(alloc, reference) {
            Ok(_list) => Ok(None),
            Err(RefFault::NoMemory) => Err(AllocError),
            Err(RefFault::Shape) => Ok(Some(StilKind::Shape)),
            Err(RefFault::UnknownName) => Ok(Some(StilKind::UnknownName)),
        }
    }

    /// The time in a text.
    pub(crate) fn time(&self, alloc: Global, quoted: &Quoted) -> Result<ReadTime, AllocError>
        ensures { IfOk result (λ time. IsTimeOf (timed self.now) quoted.now time) }
    {
        let line = quoted.line;
        match time_of(alloc, self.texts, self.vars, quoted) {
            Ok(time) => Ok(ReadTime {
                time: Ok(time),
                line,
            }),
            Err(TimeFault::Refused(kind)) => Ok(ReadTime {
                time: Err(kind),
                line,
            }),
            Err(TimeFault::NoMemory) => Err(AllocError),
        }
    }
}

/// The name of the Timing blocks that an executive means.
pub(crate) fn timing_name(exec: &ExecDecl) -> &[u8]
    ensures { result.now ≡ name_or_none exec.now.timing }
{
    match &exec.timing {
        Some(timing) => timing.name.as_slice(),
        None => &[],
    }
}

/// The tables of the Timing blocks of this name.
pub(crate) fn tables_named<'a>(
    alloc: Global,
    timings: &'a [TimingBlock],
    name: &[u8],
) -> Result<Vec<&'a TableDecl>, AllocError>
    ensures { IfOk result (λ tables. behind tables.items ≡ tables_named timings.now name.now) }
{
    let mut tables = Vec::new(alloc);
    for timing in timings {
        if timing.name.as_slice() == name {
            for table in timing.tables.as_slice() {
                tables.push(table)?;
            }
        }
    }
    Ok(tables)
}
