//! The executives of a text, or their first fault (IEEE 1450-1999, clauses 16 to 18 and 23).

ghost use Rattle.std.specs.Prelude.{◌≡◌, ◌⊎◌, ◌<◌, ◌+◌, ℕ, Some, None, length, slice_get, IfOk, IfErr, OnOk, MatchResult};
ghost use Rattle.answers.specs.Answers.{Blames, Finds};
ghost use Rattle.signal_groups.specs.Table.{table_of};
ghost use Rattle.stil_ast.specs.Data.OneText.{AreOfOneText};
ghost use Rattle.stil_ast.specs.Faults.ExecutiveFaults.{fifth_fault};
ghost use Rattle.stil_ast.specs.Meaning.Resolved.{outs_of};
ghost use Rattle.stil_ast.specs.Meaning.Signals.{names_of};
ghost use Rattle.stil_ast.specs.declared.executive.ExecDecl.{ExecDecl};
ghost use Rattle.stil_ast.specs.declared.fault.StilFault.{StilFault};
ghost use Rattle.answers.specs.declared.short.Short.TheVariants as refusal;
ghost use Rattle.time_expr.specs.TimesOf.{times_of};
ghost use Rattle.burst_exec.specs.Carried.{IsCarried, HasRun};
ghost use Rattle.burst_exec.specs.Executives.{AreAllOf, IsExecFault};
ghost use Rattle.burst_exec.specs.Gathered.{text_fault, IsTaken, IsGathering};
ghost use Rattle.burst_exec.specs.Held.{trees_in, AreEven};
ghost use Rattle.burst_exec.specs.Patterns.{played_fault};
ghost use Rattle.burst_exec.specs.Staged.{whole_fault, order_of, IsStageOf};

use crate::exec::{Exec, ExecList};
use crate::progress::Progress;
use crate::running::run_all;
use crate::scoping::{Standing, outs_in};
use crate::staging::{Stage, stage_exec};
use crate::trees::Draft;
use pattern_order::BurstNames;
use signal_groups::SignalTable;
use std::alloc::Global;
use stil_ast::{Blocks, ExecDecl, StilRefusal};
use tester_types::Items;
use time_expr::TimeTexts;

/// The executives of a text, in text order, with the tables, the chains and the flat trees that they are compiled from.
/// The signals are those of the blocks.
///
/// The first fault refuses. Executives are judged in text order, and each one first by its names: UnknownName for
/// Categories, Selector, Timing and its burst, in this order, and then for a name in a burst; Cyclic for an entry
/// inside the burst that it names; TooLarge where more than 4,096 patterns run. Then come its variables, its tables and
/// its chains in text order, and the statements of its patterns in the order of their first run, up to a Stop. The
/// limits on waves, and on statements walked and signals assigned, are on all executives so far.
pub fn executives<'a>(
    alloc: Global,
    blocks: &'a Blocks,
    signals: &SignalTable,
) -> Result<ExecList<'a>, StilRefusal>
    requires text { AreOfOneText blocks.now }
    requires signals { signals.now ≡ table_of (names_of blocks.now) }
    ensures found { IfOk result (λ execs. (fifth_fault times_of blocks.now ≡ None) × AreAllOf blocks.now execs) }
    ensures only { fifth_fault times_of blocks.now ≡ None
        → MatchResult result (AreAllOf blocks.now) (λ r. r ≡ refusal.NoMemory) }
    ensures fault { IfErr result (λ r. (r ≡ refusal.NoMemory) ⊎ IsExecFault blocks.now r) }
    ensures refused { (f : StilFault) → fifth_fault times_of blocks.now ≡ Some f
        → MatchResult result (λ _. ⊥) (λ r. (r ≡ refusal.NoMemory) ⊎ (r ≡ refusal.Fault f)) }
{
    gathered(alloc, blocks, signals)
}

/// The same, with what is answered as one fact.
fn gathered<'a>(
    alloc: Global,
    blocks: &'a Blocks,
    signals: &SignalTable,
) -> Result<ExecList<'a>, StilRefusal>
    requires text { AreOfOneText blocks.now }
    requires signals { signals.now ≡ table_of (names_of blocks.now) }
    ensures { Finds (text_fault blocks.now) (AreAllOf blocks.now) result }
{
    let texts = TimeTexts::new(alloc, blocks)?;
    gathered_by(alloc, blocks, &texts, signals)
}

/// The same, with the texts of times that are kept.
fn gathered_by<'a>(
    alloc: Global,
    blocks: &'a Blocks,
    texts: &TimeTexts,
    signals: &SignalTable,
) -> Result<ExecList<'a>, StilRefusal>
    requires text { AreOfOneText blocks.now }
    requires signals { signals.now ≡ table_of (names_of blocks.now) }
    ensures { Finds (text_fault blocks.now) (AreAllOf blocks.now) result }
{
    let outs = outs_in(alloc, signals)?;
    let names = BurstNames::new(alloc, blocks)?;
    let mut progress = Progress::new(alloc);
    let mut execs = Vec::new(alloc);
    match take_all(
        alloc,
        &names,
        texts,
        signals,
        outs.as_slice(),
        &mut progress,
        &mut execs,
    ) {
        Ok(()) => Ok(ExecList { execs }),
        Err(refusal) => Err(refusal),
    }
}

/// Takes all executives, one after another.
fn take_all<'a>(
    alloc: Global,
    names: &BurstNames<'a>,
    texts: &TimeTexts,
    signals: &SignalTable,
    outs: &[bool],
    progress: &mut Progress<'a>,
    execs: &mut Vec<Exec<'a>>,
) -> Result<(), StilRefusal>
    requires text { AreOfOneText names.now }
    requires signals { signals.now ≡ table_of (names_of names.now) }
    requires outs { outs.now ≡ outs_of (names_of names.now) }
    requires carried { IsCarried names.now progress.old }
    requires none { IsGathering names.now 0 progress.old execs.old.items }
    ensures { Finds (text_fault names.now) (λ _. AreAllOf names.now execs.new.items) result }
{
    for exec in 0..names.blocks().executives.len() {
        match take_next(alloc, names, texts, exec, signals, outs, progress, execs) {
            Ok(()) => {}
            Err(refusal) => return Err(refusal),
        }
    }
    Ok(())
}

/// Takes one executive behind others.
fn take_next<'a>(
    alloc: Global,
    names: &BurstNames<'a>,
    texts: &TimeTexts,
    exec: usize,
    signals: &SignalTable,
    outs: &[bool],
    progress: &mut Progress<'a>,
    execs: &mut Vec<Exec<'a>>,
) -> Result<(), StilRefusal>
    requires text { AreOfOneText names.now }
    requires executive { exec < length names.now.executives }
    requires signals { signals.now ≡ table_of (names_of names.now) }
    requires outs { outs.now ≡ outs_of (names_of names.now) }
    requires carried { IsCarried names.now progress.old }
    requires so_far { IsGathering names.now exec progress.old execs.old.items }
    ensures carried { OnOk result (IsCarried names.now progress.new) }
    ensures takes { MatchResult result (λ _. IsGathering names.now (exec + 1) progress.new execs.new.items)
        (Blames (text_fault names.now)) }
{
    let taken = match exec_behind(alloc, names, texts, exec, signals, outs, progress) {
        Ok(taken) => taken,
        Err(refusal) => return Err(refusal),
    };
    execs.push(taken)?;
    Ok(())
}

/// An executive behind others, by its number.
fn exec_behind<'a>(
    alloc: Global,
    names: &BurstNames<'a>,
    texts: &TimeTexts,
    exec: usize,
    signals: &SignalTable,
    outs: &[bool],
    progress: &mut Progress<'a>,
) -> Result<Exec<'a>, StilRefusal>
    requires text { AreOfOneText names.now }
    requires executive { exec < length names.now.executives }
    requires signals { signals.now ≡ table_of (names_of names.now) }
    requires outs { outs.now ≡ outs_of (names_of names.now) }
    requires carried { IsCarried names.now progress.old }
    ensures carried { OnOk result (IsCarried names.now progress.new) }
    ensures taken { (e : ExecDecl) → slice_get names.now.executives exec ≡ Some e
        → Finds (whole_fault names.now progress.old.waves progress.old.walked e)
        (IsTaken names.now e progress.old progress.new) result }
{
    let stage = match stage_exec(
        alloc,
        names,
        texts,
        exec,
        signals,
        progress.waves,
        &mut progress.scans,
    ) {
        Ok(stage) => stage,
        Err(refusal) => return Err(refusal),
    };
    progress.waves = stage.waves;
    let blocks = names.blocks();
    match trees_of(alloc, blocks, &stage, signals, outs, progress) {
        Ok(draft) => held(alloc, &blocks.executives.as_slice()[exec], stage, draft),
        Err(refusal) => Err(refusal),
    }
}

/// The flat trees of an executive's patterns.
fn trees_of<'a>(
    alloc: Global,
    blocks: &'a Blocks,
    stage: &Stage<'a>,
    signals: &SignalTable,
    outs: &[bool],
    progress: &mut Progress<'a>,
) -> Result<Draft<'a>, StilRefusal>
    requires { IsCarried blocks.now progress.old }
    ensures carried { OnOk result (IsCarried blocks.now progress.new) }
    ensures even { IfOk result (λ d. AreEven d.titles.items d.flats.items) }
    ensures runs { (waves : ℕ) (e : ExecDecl) → signals.now ≡ table_of (names_of blocks.now)
        → outs.now ≡ outs_of (names_of blocks.now) → IsStageOf blocks.now waves e stage.now
        → Finds (played_fault blocks.now e (order_of blocks.now e) progress.old.walked)
        (HasRun blocks.now e (order_of blocks.now e) progress.old progress.new) result }
{
    let scan_outs = stage.chains.scan_outs(alloc, signals)?;
    let standing = Standing {
        blocks,
        signals,
        tables: &stage.tables,
        outs,
        scan_outs: scan_outs.as_slice(),
    };
    let mut draft = Draft::new(alloc);
    match run_all(
        alloc,
        &standing,
        stage.order.as_slice(),
        progress,
        &mut draft,
    ) {
        Ok(()) => Ok(draft),
        Err(refusal) => Err(refusal),
    }
}

/// An executive as it is kept.
fn held<'a>(
    alloc: Global,
    decl: &ExecDecl,
    stage: Stage<'a>,
    draft: Draft<'a>,
) -> Result<Exec<'a>, StilRefusal>
    requires { AreEven draft.titles.items draft.flats.items }
    ensures { MatchResult result (λ x. x ≡ record {
      name = decl.now.name;
      line = decl.now.line;
      tables = stage.entry.tables;
      chains = stage.entry.chains;
      trees = trees_in draft.entry.titles.items draft.entry.flats.items;
    }) (λ r. r ≡ refusal.NoMemory) }
{
    Ok(Exec {
        name: Items::from_slice(alloc, decl.name.as_slice())?,
        line: decl.line,
        tables: stage.tables,
        chains: stage.chains,
        titles: draft.titles,
        flats: draft.flats,
    })
}
