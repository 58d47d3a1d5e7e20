//! Blocks by their keywords, each behind those of its kind.

ghost use Rattle.std.specs.Prelude.{◌≡◌, ◌∷◌, ◌++◌, [], OnOk, MatchResult};
ghost use Rattle.stil_tree.specs.Trees.{entry_of};
ghost use Rattle.stil_form.specs.declared.fault.FormFault.TheVariants.{NoMemory};
ghost use Rattle.stil_form.specs.Reading.{AnswersBy};
ghost use Rattle.stil_form.specs.Setting.{setting_of};
ghost use Rattle.stil_read.specs.Top.{tables_in, chains_in, bodies_in, pattern_names, burst_names, selector_names, more_signals, more_groups, more_specs, more_selectors, more_timings, more_scans, more_defs, more_bursts, more_executives, more_patterns};

use block_forms::{Declared, named_block, titled_block};
use pat_read::BodyPlace;
use pattern_blocks::{read_burst_block, read_defs_block, read_exec_block, read_pattern_block};
use scan_blocks::read_scan_block;
use signal_blocks::{read_groups_block, read_signals_block};
use std::alloc::Global;
use stil_ast::{
    Burst, DefBlock, ExecDecl, GroupBlock, Pattern, ScanBlock, Selector, SignalDecl, SpecBlock,
    TimingBlock,
};
use stil_form::{FormFault, FormKind, Reader, first_of};
use stil_tree::Stmt;
use text_bytes::MOST_EXECUTIVES;
use timing_blocks::{read_selector_block, read_spec_block, read_timing_block};

/// Adds one more.
fn add<T: Drop>(list: &mut Vec<T>, one: T) -> Result<(), FormFault>
    ensures { MatchResult result (λ _. list.new.items ≡ list.old.items ++ one ∷ []) (λ e. e ≡ NoMemory) }
{
    list.push(one)?;
    Ok(())
}

/// Adds those of another list.
fn add_all<T: Drop>(list: &mut Vec<T>, more: Vec<T>) -> Result<(), FormFault>
    ensures { MatchResult result (λ _. list.new.items ≡ list.old.items ++ more.items) (λ e. e ≡ NoMemory) }
{
    let mut more = more;
    list.append(&mut more)?;
    Ok(())
}

/// Adds a name without a title.
fn add_name<'a>(alloc: Global, names: &mut Declared<'a>, called: &'a [u8]) -> Result<(), FormFault>
    ensures { MatchResult result (λ _. names.new ≡ names.old ++ ([], called.now) ∷ []) (λ e. e ≡ NoMemory) }
{
    names.add(alloc, b"", called)?;
    Ok(())
}

/// The signals of a Signals block behind others.
#[tactic(auto, unfolding(crate::specs::Top::more_signals))]
pub(crate) fn put_signals(
    alloc: Global,
    reader: &Reader,
    before: &mut Vec<SignalDecl>,
    stmt: &Stmt,
) -> Result<(), FormFault>
    ensures { AnswersBy (λ _. before.new.items) result
        (more_signals (setting_of reader.now) before.old.items (entry_of stmt.now)) }
{
    let one = read_signals_block(alloc, reader, stmt)?;
    add_all(before, one.into_vec())
}

/// A SignalGroups block behind others.
#[tactic(auto, unfolding(crate::specs::Top::more_groups))]
pub(crate) fn put_groups(
    alloc: Global,
    reader: &Reader,
    before: &mut Vec<GroupBlock>,
    stmt: &Stmt,
) -> Result<(), FormFault>
    ensures { AnswersBy (λ _. before.new.items) result
        (more_groups (setting_of reader.now) before.old.items (entry_of stmt.now)) }
{
    let one = read_groups_block(alloc, reader, stmt)?;
    add(before, one)
}

/// A Spec block behind others.
#[tactic(auto, unfolding(crate::specs::Top::more_specs))]
pub(crate) fn put_spec(
    alloc: Global,
    reader: &Reader,
    before: &mut Vec<SpecBlock>,
    stmt: &Stmt,
) -> Result<(), FormFault>
    ensures { AnswersBy (λ _. before.new.items) result
        (more_specs (setting_of reader.now) before.old.items (entry_of stmt.now)) }
{
    let one = read_spec_block(alloc, reader, stmt)?;
    add(before, one)
}

/// A Selector behind others.
#[tactic(auto, unfolding(crate::specs::Top::more_selectors))]
pub(crate) fn put_selector<'a>(
    alloc: Global,
    reader: &Reader<'_, 'a>,
    before: &mut Vec<Selector>,
    names: &mut Declared<'a>,
    stmt: &Stmt,
) -> Result<(), FormFault>
    requires { names.old ≡ selector_names before.old.items }
    ensures list { AnswersBy (λ _. before.new.items) result
        (more_selectors (setting_of reader.now) before.old.items (entry_of stmt.now)) }
    ensures names { OnOk result (names.new ≡ selector_names before.new.items) }
{
    let called = named_block(reader, stmt)?;
    if names.has(b"", called) {
        return Err(FormFault::Refused(FormKind::Twice, first_of(stmt)));
    }
    let one = read_selector_block(alloc, reader, stmt)?;
    add_name(alloc, names, called)?;
    add(before, one)?;
    Ok(())
}

/// A Timing behind others.
#[tactic(auto, unfolding(crate::specs::Top::more_timings))]
pub(crate) fn put_timing<'a>(
    alloc: Global,
    reader: &Reader<'_, 'a>,
    before: &mut Vec<TimingBlock>,
    names: &mut Declared<'a>,
    stmt: &Stmt,
) -> Result<(), FormFault>
    requires { names.old ≡ tables_in before.old.items }
    ensures list { AnswersBy (λ _. before.new.items) result
        (more_timings (setting_of reader.now) before.old.items (entry_of stmt.now)) }
    ensures names { OnOk result (names.new ≡ tables_in before.new.items) }
{
    let one = read_timing_block(alloc, reader, names, stmt)?;
    add(before, one)?;
    Ok(())
}

/// A ScanStructures block behind others.
#[tactic(auto, unfolding(crate::specs::Top::more_scans))]
pub(crate) fn put_scans<'a>(
    alloc: Global,
    reader: &Reader<'_, 'a>,
    before: &mut Vec<ScanBlock>,
    names: &mut Declared<'a>,
    stmt: &Stmt,
) -> Result<(), FormFault>
    requires { names.old ≡ chains_in before.old.items }
    ensures list { AnswersBy (λ _. before.new.items) result
        (more_scans (setting_of reader.now) before.old.items (entry_of stmt.now)) }
    ensures names { OnOk result (names.new ≡ chains_in before.new.items) }
{
    let one = read_scan_block(alloc, reader, names, stmt)?;
    add(before, one)?;
    Ok(())
}

/// A MacroDefs or Procedures block behind others.
#[tactic(auto, unfolding(crate::specs::Top::more_defs))]
pub(crate) fn put_defs<'a>(
    alloc: Global,
    reader: &Reader<'_, 'a>,
    place: BodyPlace,
    before: &mut Vec<DefBlock>,
    names: &mut Declared<'a>,
    stmt: &Stmt,
) -> Result<(), FormFault>
    requires { names.old ≡ bodies_in before.old.items }
    ensures list { AnswersBy (λ _. before.new.items) result
        (more_defs (setting_of reader.now) place before.old.items (entry_of stmt.now)) }
    ensures names { OnOk result (names.new ≡ bodies_in before.new.items) }
{
    let one = read_defs_block(alloc, reader, place, names, stmt)?;
    add(before, one)?;
    Ok(())
}

/// A PatternBurst behind others.
#[tactic(auto, unfolding(crate::specs::Top::more_bursts))]
pub(crate) fn put_burst<'a>(
    alloc: Global,
    reader: &Reader<'_, 'a>,
    before: &mut Vec<Burst>,
    names: &mut Declared<'a>,
    stmt: &Stmt,
) -> Result<(), FormFault>
    requires { names.old ≡ burst_names before.old.items }
    ensures list { AnswersBy (λ _. before.new.items) result
        (more_bursts (setting_of reader.now) before.old.items (entry_of stmt.now)) }
    ensures names { OnOk result (names.new ≡ burst_names before.new.items) }
{
    let called = named_block(reader, stmt)?;
    if names.has(b"", called) {
        return Err(FormFault::Refused(FormKind::Twice, first_of(stmt)));
    }
    let one = read_burst_block(alloc, reader, stmt)?;
    add_name(alloc, names, called)?;
    add(before, one)?;
    Ok(())
}

/// A Pattern behind others.
#[tactic(auto, unfolding(crate::specs::Top::more_patterns))]
pub(crate) fn put_pattern<'a>(
    alloc: Global,
    reader: &Reader<'_, 'a>,
    before: &mut Vec<Pattern>,
    names: &mut Declared<'a>,
    stmt: &Stmt,
) -> Result<(), FormFault>
    requires { names.old ≡ pattern_names before.old.items }
    ensures list { AnswersBy (λ _. before.new.items) result
        (more_patterns (setting_of reader.now) before.old.items (entry_of stmt.now)) }
    ensures names { OnOk result (names.new ≡ pattern_names before.new.items) }
{
    let called = named_block(reader, stmt)?;
    if names.has(b"", called) {
        return Err(FormFault::Refused(FormKind::Twice, first_of(stmt)));
    }
    let one = read_pattern_block(alloc, reader, stmt)?;
    add_name(alloc, names, called)?;
    add(before, one)?;
    Ok(())
}

/// A PatternExec behind others.
#[tactic(auto, unfolding(crate::specs::Top::more_executives))]
pub(crate) fn put_executive(
    alloc: Global,
    reader: &Reader,
    before: &mut Vec<ExecDecl>,
    stmt: &Stmt,
) -> Result<(), FormFault>
    ensures { AnswersBy (λ _. before.new.items) result
        (more_executives (setting_of reader.now) before.old.items (entry_of stmt.now)) }
{
    titled_block(reader, stmt)?;
    if before.len() >= MOST_EXECUTIVES {
        return Err(FormFault::Refused(FormKind::OutOfRange, first_of(stmt)));
    }
    let one = read_exec_block(alloc, reader, stmt)?;
    add(before, one)
}
