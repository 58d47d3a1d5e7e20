//! An executive before the bodies of its patterns are looked at.

ghost use Rattle.std.specs.Prelude.{◌≡◌, ◌<◌, Some, ◌+◌, ◌-◌, ◌^◌, min, sum_by, length, slice_get, OnOk};
ghost use Rattle.signal_groups.specs.Table.{table_of};
ghost use Rattle.stil_ast.specs.Data.OneText.{AreOfOneText};
ghost use Rattle.stil_ast.specs.Meaning.Signals.{names_of};
ghost use Rattle.stil_ast.specs.declared.executive.ExecDecl.{ExecDecl};
ghost use Rattle.wave_tables.specs.Waves.{waves_at};
ghost use Rattle.burst_exec.specs.Booked.{AreBooked};
ghost use Rattle.answers.specs.Answers.{Finds};
ghost use Rattle.burst_exec.specs.Staged.{names_fault, values_fault, waves_fault, ends_fault, staged_fault, order_of, tables_of, chains_of, AreValues, IsStageOf};

use crate::chain_book::ChainBook;
use pattern_order::{BurstNames, PlayOrder, play_order};
use scan_chain::{Chains, scans_of};
use signal_groups::SignalTable;
use std::alloc::Global;
use stil_ast::{Blocks, StilRefusal};
use time_expr::{TimeTexts, Vars, choose};
use wave_tables::WaveSet;

/// An executive: its patterns in running order, its tables and its chains.
#[derive(Drop)]
pub(crate) struct Stage<'a> {
    pub(crate) order: PlayOrder<'a>,
    pub(crate) tables: WaveSet,
    pub(crate) chains: Chains,
    /// How many waves it and the executives before it have, as far as 32 bits count.
    pub(crate) waves: u32,
}

/// How many waves a table has, as far as 32 bits count.
fn waves_at(tables: &WaveSet, table: usize) -> u32
    requires { table < length tables.now }
    ensures { result ≡ min (length (waves_at (slice_get tables.now table))) (2 ^ 32 - 1) }
{
    u32::try_from(tables.waves(table).len()).unwrap_or(u32::MAX)
}

/// How many waves tables have behind so many others, as far as 32 bits count.
fn waves_behind(before: u32, tables: &WaveSet) -> u32
    ensures { result ≡ min (before + sum_by (λ t. length t.waves) tables.now) (2 ^ 32 - 1) }
{
    let mut count = before;
    for table in 0..tables.len() {
        count = count.saturating_add(waves_at(tables, table));
    }
    count
}

/// The patterns of an executive in running order.
fn ordered<'a>(
    alloc: Global,
    names: &BurstNames<'a>,
    exec: usize,
) -> Result<PlayOrder<'a>, StilRefusal>
    requires { exec < length names.now.executives }
    ensures { (e : ExecDecl) → slice_get names.now.executives exec ≡ Some e
        → Finds (names_fault names.now e) (λ order. order ≡ order_of names.now e) result }
{
    play_order(alloc, names, exec)
}

/// The variables of an executive with their values.
fn valued(
    alloc: Global,
    texts: &TimeTexts,
    blocks: &Blocks,
    exec: usize,
) -> Result<Vars, StilRefusal>
    requires { exec < length blocks.now.executives }
    ensures { (e : ExecDecl) → slice_get blocks.now.executives exec ≡ Some e
        → Finds (values_fault blocks.now e) (AreValues blocks.now e) result }
{
    choose(alloc, texts, blocks, exec)
}

/// The tables of an executive behind others.
fn tabled(
    alloc: Global,
    blocks: &Blocks,
    exec: usize,
    signals: &SignalTable,
    vars: &Vars,
    texts: &TimeTexts,
    before: u32,
) -> Result<WaveSet, StilRefusal>
    requires text { AreOfOneText blocks.now }
    requires executive { exec < length blocks.now.executives }
    requires signals { signals.now ≡ table_of (names_of blocks.now) }
    requires vars { (e : ExecDecl) → slice_get blocks.now.executives exec ≡ Some e → AreValues blocks.now e vars.now }
    ensures { (e : ExecDecl) → slice_get blocks.now.executives exec ≡ Some e
        → Finds (waves_fault blocks.now before e) (λ tables. tables ≡ tables_of blocks.now e) result }
{
    wave_tables::build(alloc, blocks, exec, signals, vars, texts, before)
}

/// The chains of an executive.
fn chained<'a>(
    alloc: Global,
    blocks: &'a Blocks,
    exec: usize,
    signals: &SignalTable,
    scans: &mut ChainBook<'a>,
) -> Result<Chains, StilRefusal>
    requires executive { exec < length blocks.now.executives }
    requires signals { signals.now ≡ table_of (names_of blocks.now) }
    requires booked { AreBooked blocks.now scans.old }
    ensures booked { OnOk result (AreBooked blocks.now scans.new) }
    ensures found { (e : ExecDecl) → slice_get blocks.now.executives exec ≡ Some e
        → Finds (ends_fault blocks.now e) (λ chains. chains ≡ chains_of blocks.now e) result }
{
    scans.chains(alloc, blocks, scans_of(blocks, exec), signals)
}

/// The executive with this index, before the bodies of its patterns are looked at. The executives before it have
/// `before` waves.
///
/// The first fault refuses: of its names; then of its variables; then of its tables; then of its chains.
pub(crate) fn stage_exec<'a>(
    alloc: Global,
    names: &BurstNames<'a>,
    texts: &TimeTexts,
    exec: usize,
    signals: &SignalTable,
    before: u32,
    scans: &mut ChainBook<'a>,
) -> Result<Stage<'a>, StilRefusal>
    requires text { AreOfOneText names.now }
    requires executive { exec < length names.now.executives }
    requires signals { signals.now ≡ table_of (names_of names.now) }
    requires booked { AreBooked names.now scans.old }
    ensures booked { OnOk result (AreBooked names.now scans.new) }
    ensures staged { (e : ExecDecl) → slice_get names.now.executives exec ≡ Some e
        → Finds (staged_fault names.now before e) (IsStageOf names.now before e) result }
{
    let order = match ordered(alloc, names, exec) {
        Ok(order) => order,
        Err(refusal) => return Err(refusal),
    };
    let vars = match valued(alloc, texts, names.blocks(), exec) {
        Ok(vars) => vars,
        Err(refusal) => return Err(refusal),
    };
    let tables = match tabled(alloc, names.blocks(), exec, signals, &vars, texts, before) {
        Ok(tables) => tables,
        Err(refusal) => return Err(refusal),
    };
    match chained(alloc, names.blocks(), exec, signals, scans) {
        Ok(chains) => Ok(Stage {
            order,
            waves: waves_behind(before, &tables),
            tables,
            chains,
        }),
        Err(refusal) => Err(refusal),
    }
}
