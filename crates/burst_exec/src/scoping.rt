//! The flat tree of one pattern of an executive.

ghost use Rattle.std.specs.Prelude.{◌≡◌, IfOk};
ghost use Rattle.stil_ast.specs.Meaning.Bursts.{Played};
ghost use Rattle.stil_ast.specs.Meaning.Executive.{titles_of};
ghost use Rattle.stil_ast.specs.Meaning.Resolved.{bodies_named, is_out, outs_of};
ghost use Rattle.stil_ast.specs.Meaning.Signals.{Names};
ghost use Rattle.stil_ast.specs.declared.executive.ExecDecl.{ExecDecl};
ghost use Rattle.signal_groups.specs.Table.{table_of};
ghost use Rattle.macro_expand.specs.Scopes.{titles_in};
ghost use Rattle.pattern_order.specs.Held.{played_by};
ghost use Rattle.answers.specs.Answers.{Finds};
ghost use Rattle.burst_exec.specs.Patterns.{IsStanding, IsScope, pattern_fault, IsExpanded};

use flat_tree::FlatList;
use macro_expand::{BlockTitles, Bodies, PatternScope, expand};
use pattern_order::PlayedPattern;
use signal_groups::SignalTable;
use std::alloc::{AllocError, Global};
use stil_ast::{Blocks, StilRefusal};
use tester_types::Direction;
use wave_tables::WaveSet;

/// What all patterns of an executive stand on.
#[derive(Clone, Copy)]
pub(crate) struct Standing<'s, 'a> {
    pub(crate) blocks: &'a Blocks,
    pub(crate) signals: &'s SignalTable,
    pub(crate) tables: &'s WaveSet,
    /// For each signal, whether its direction is Out.
    pub(crate) outs: &'s [bool],
    /// The signals at which scan chains end, in declared order.
    pub(crate) scan_outs: &'s [u16],
}

/// Whether a direction is Out.
fn is_out(direction: Direction) -> bool
    ensures { result ≡ is_out direction }
{
    matches!(direction, Direction::Out)
}

/// For each signal, whether its direction is Out.
pub(crate) fn outs_in(alloc: Global, signals: &SignalTable) -> Result<Vec<bool>, AllocError>
    ensures { (names : Names) → signals.now ≡ table_of names → IfOk result (λ outs. outs.items ≡ outs_of names) }
{
    let mut outs = Vec::new(alloc);
    for signal in 0..signals.count() {
        outs.push(is_out(signals.direction(signal)))?;
    }
    Ok(outs)
}

/// The names of the blocks in which the bodies of a pattern stand.
pub(crate) fn titles_in<'a>(played: &PlayedPattern<'a>) -> BlockTitles<'a>
    ensures { titles_in result ≡ titles_of (played_by played.now) }
{
    BlockTitles {
        pattern: played.pattern.name.as_slice(),
        macros: played.macros,
        procedures: played.procedures,
    }
}

/// What the names in a pattern are looked up in.
fn scope_in<'s, 'a>(
    standing: &Standing<'s, 'a>,
    macros: &'s Bodies<'a>,
    procedures: &'s Bodies<'a>,
    titles: BlockTitles<'s>,
) -> PatternScope<'s, 'a>
    ensures { (e : ExecDecl) (p : Played) → IsStanding e standing.now
        → macros.now ≡ bodies_named standing.now.blocks.now.macros p.macros
        → procedures.now ≡ bodies_named standing.now.blocks.now.procedures p.procedures
        → titles_in titles.entry ≡ titles_of p
        → IsScope standing.now.blocks.now e p result }
{
    PatternScope {
        signals: standing.signals,
        tables: standing.tables,
        macros,
        procedures,
        titles,
        outs: standing.outs,
        scan_outs: standing.scan_outs,
    }
}

/// The flat tree of a pattern with these macros and procedures, behind so many statements walked and signals assigned.
pub(crate) fn expand_with(
    alloc: Global,
    standing: &Standing,
    macros: &Bodies,
    procedures: &Bodies,
    played: &PlayedPattern,
    walked: &mut u32,
) -> Result<FlatList, StilRefusal>
    ensures { (e : ExecDecl) → IsStanding e standing.now
        → macros.now ≡ bodies_named standing.now.blocks.now.macros played.now.macros.now
        → procedures.now ≡ bodies_named standing.now.blocks.now.procedures played.now.procedures.now
        → Finds (pattern_fault standing.now.blocks.now e (played_by played.now) walked.old)
        (λ flat. IsExpanded standing.now.blocks.now e (played_by played.now) walked.old flat walked.new) result }
{
    let scope = scope_in(standing, macros, procedures, titles_in(played));
    expand(alloc, &scope, &played.pattern.body, walked)
}
