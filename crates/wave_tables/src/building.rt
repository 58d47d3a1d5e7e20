//! The waveform tables of an executive, or their first fault (IEEE 1450-1999, clause 18).

ghost use Rattle.std.specs.Prelude.{◌≡◌, ◌⊎◌, ◌<◌, Option, Some, None, true, length, slice_get, IfOk, IfErr, MatchResult};
ghost use Rattle.signal_groups.specs.Table.{table_of};
ghost use Rattle.stil_ast.specs.Data.OneText.{AreOfOneText};
ghost use Rattle.stil_ast.specs.Faults.ExecutiveFaults.{timed_of};
ghost use Rattle.stil_ast.specs.Faults.TableFaults.{tables_fault};
ghost use Rattle.stil_ast.specs.Meaning.Executive.{exec_tables, exec_value, table_list, timing_place};
ghost use Rattle.stil_ast.specs.Meaning.Signals.{names_of};
ghost use Rattle.stil_ast.specs.declared.executive.ExecDecl.{ExecDecl};
ghost use Rattle.stil_ast.specs.declared.fault.StilFault.{StilFault};
ghost use Rattle.answers.specs.Answers.{Blames, Finds};
ghost use Rattle.answers.specs.declared.short.Short.TheVariants as refusal;
ghost use Rattle.time_expr.specs.TimeIn.{AreNames};
ghost use Rattle.time_expr.specs.TimesOf.{times_of};
ghost use Rattle.wave_tables.specs.Characters.{are_with_characters};
ghost use Rattle.wave_tables.specs.Scope.{timed};
ghost use Rattle.wave_tables.specs.Built.{tables_in};
ghost use Rattle.wave_tables.specs.Check.{IsAt, FindsAt};

use crate::asked::{tables_named, timing_name};
use crate::judge::check_tables;
use crate::lineage::wholes_of;
use crate::make::made_tables;
use crate::scope::Scope;
use crate::set::WaveSet;
use crate::times::read_tables;
use crate::trouble::Trouble;
use signal_groups::SignalTable;
use std::alloc::Global;
use stil_ast::{Blocks, ExecDecl, StilRefusal, told};
use time_expr::{TimeTexts, Vars};

/// The waveform tables of the executive with this index: those of the Timing blocks that it names, in text order, each
/// with its period and its waves in femtoseconds. The signals are those of the blocks, the variables those of the
/// executive, and the executives before it have `before` waves.
///
/// The first fault in text order refuses. Of one table they come in this order, each at its own line: a name that it
/// inherits is UnknownName, or Cyclic where it leads into a cycle; NoPeriod, or a fault of the period's expression, or
/// OutOfRange outside 1 to 10^12; its own Waveforms, a reference before its events, an event first by its expression,
/// then EventOutside, then EventOrder; EventOutside of an inherited event that still stands; and TooLarge where its
/// waves bring those of all executives above 2^20.
pub fn build(
    alloc: Global,
    blocks: &Blocks,
    exec: usize,
    signals: &SignalTable,
    vars: &Vars,
    texts: &TimeTexts,
    before: u32,
) -> Result<WaveSet, StilRefusal>
    requires text { AreOfOneText blocks.now }
    requires executive { exec < length blocks.now.executives }
    requires signals { signals.now ≡ table_of (names_of blocks.now) }
    requires vars { (e : ExecDecl) → slice_get blocks.now.executives exec ≡ Some e
        → AreNames (exec_value times_of blocks.now e) vars.now }
    ensures found { (e : ExecDecl) → slice_get blocks.now.executives exec ≡ Some e
        → IfOk result (λ set. (tables_fault (timed_of times_of blocks.now e) before ≡ None)
        × (set ≡ table_list times_of blocks.now e)) }
    ensures only { (e : ExecDecl) → slice_get blocks.now.executives exec ≡ Some e
        → tables_fault (timed_of times_of blocks.now e) before ≡ None
        → MatchResult result (λ set. set ≡ table_list times_of blocks.now e) (λ r. r ≡ refusal.NoMemory) }
    ensures fault { (e : ExecDecl) → slice_get blocks.now.executives exec ≡ Some e
        → IfErr result (λ r. (r ≡ refusal.NoMemory)
        ⊎ ((f : StilFault) × (r ≡ refusal.Fault f) × (tables_fault (timed_of times_of blocks.now e) before ≡ Some f))) }
    ensures refused { (e : ExecDecl) (f : StilFault) → slice_get blocks.now.executives exec ≡ Some e
        → tables_fault (timed_of times_of blocks.now e) before ≡ Some f
        → MatchResult result (λ _. ⊥) (λ r. (r ≡ refusal.NoMemory) ⊎ (r ≡ refusal.Fault f)) }
{
    built(alloc, blocks, exec, signals, vars, texts, before)
}

/// The same in one clause.
fn built(
    alloc: Global,
    blocks: &Blocks,
    exec: usize,
    signals: &SignalTable,
    vars: &Vars,
    texts: &TimeTexts,
    before: u32,
) -> Result<WaveSet, StilRefusal>
    requires text { AreOfOneText blocks.now }
    requires executive { exec < length blocks.now.executives }
    requires signals { signals.now ≡ table_of (names_of blocks.now) }
    requires vars { (e : ExecDecl) → slice_get blocks.now.executives exec ≡ Some e
        → AreNames (exec_value times_of blocks.now e) vars.now }
    ensures { (e : ExecDecl) → slice_get blocks.now.executives exec ≡ Some e
        → Finds (tables_fault (timed_of times_of blocks.now e) before)
        (λ set. set ≡ table_list times_of blocks.now e) result }
{
    built_for(
        alloc,
        blocks,
        &blocks.executives.as_slice()[exec],
        signals,
        vars,
        texts,
        before,
    )
}

/// The same for an executive, where waveforms are for waveform characters.
pub(crate) fn built_for(
    alloc: Global,
    blocks: &Blocks,
    exec: &ExecDecl,
    signals: &SignalTable,
    vars: &Vars,
    texts: &TimeTexts,
    before: u32,
) -> Result<WaveSet, StilRefusal>
    requires with_characters { are_with_characters (exec_tables blocks.now exec.now) ≡ true }
    requires signals { signals.now ≡ table_of (names_of blocks.now) }
    requires vars { AreNames (exec_value times_of blocks.now exec.now) vars.now }
    ensures { Finds (tables_fault (timed_of times_of blocks.now exec.now) before)
        (λ set. set ≡ table_list times_of blocks.now exec.now) result }
{
    let tables = tables_named(alloc, blocks.timings.as_slice(), timing_name(exec))?;
    let scope = Scope {
        blocks,
        exec,
        tables,
        signals,
        vars,
        texts,
    };
    match set_of(alloc, &scope, u64::from(before)) {
        Ok(set) => Ok(set),
        Err(trouble) => Err(refusal_of(alloc, exec, trouble)),
    }
}

/// The tables of a scope, or their first fault.
fn set_of(alloc: Global, scope: &Scope, before: u64) -> Result<WaveSet, Trouble>
    ensures { FindsAt (timed scope.now).place (tables_fault (timed scope.now) before)
        (λ set. set ≡ tables_in (timed scope.now)) result }
{
    let wholes = wholes_of(alloc, scope)?;
    let reads = read_tables(alloc, scope, scope.tables())?;
    match check_tables(alloc, scope, &wholes, &reads, before) {
        Err(trouble) => Err(trouble),
        Ok(periods) => {
            let tables = made_tables(alloc, scope, &wholes, &reads, &periods)?;
            Ok(WaveSet::from_vec(tables))
        }
    }
}

/// The refusal for a fault of an executive's tables.
fn refusal_of(alloc: Global, exec: &ExecDecl, trouble: Trouble) -> StilRefusal
    ensures { (fault : Option StilFault) → IsAt (timing_place exec.now) fault trouble → Blames fault result }
{
    match trouble {
        Trouble::NoMemory => StilRefusal::NoMemory,
        Trouble::Fault(at) => told(alloc, b"Timing", timing_name(exec), at.line, at.kind),
    }
}
