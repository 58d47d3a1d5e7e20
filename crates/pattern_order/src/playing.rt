//! Patterns in running order (IEEE 1450-1999, clause 16).

ghost use Rattle.std.specs.Prelude.{◌≡◌, ◌<◌, ◌==◌, ◌++◌, ◌∷◌, ℕ, Some, None, length, reverse, slice_get, flat_map, IfOk, OnOk, if◌then◌else◌};
ghost use Rattle.stil_ast.specs.Faults.Found.{first_in};
ghost use Rattle.stil_ast.specs.Faults.BurstFaults.{cyclic_fault, mentions};
ghost use Rattle.stil_ast.specs.declared.executive.Burst.{Burst};
ghost use Rattle.pattern_order.specs.Walk.{met, played_at};
ghost use Rattle.pattern_order.specs.Numbers.{IsFirst, played_as};
ghost use Rattle.pattern_order.specs.Walks.{Plays, HasPlayed};
ghost use Rattle.pattern_order.specs.Held.{played_in};
ghost use Rattle.pattern_order.specs.Answer.{AllPlayed};
ghost use Rattle.pattern_order.specs.declared.meaning.Meaning.TheVariants as meaning;
ghost use Rattle.pattern_order.specs.declared.walk.Mark.TheVariants as mark;

use crate::bursts::BurstNames;
use crate::meaning::Meaning;
use crate::walk::{Frame, Mark, Step, Walk};
use std::alloc::{AllocError, Global};
use std::marker::Model;
use stil_ast::Pattern;
use text_bytes::MOST_PATTERNS;

/// A pattern as it is run: with the names of its MacroDefs and its Procedures, which are empty where they are the
/// unnamed ones.
#[derive(Drop)]
pub struct PlayedPattern<'a> {
    pub pattern: &'a Pattern,
    pub macros: &'a [u8],
    pub procedures: &'a [u8],
}

/// The patterns of an executive in running order.
#[derive(Drop)]
pub struct PlayOrder<'a> {
    pub(crate) patterns: Vec<PlayedPattern<'a>>,
}

impl<'a> Model for PlayOrder<'a> {
    ghost use Rattle.std.specs.Prelude.{List};
    ghost use Rattle.stil_ast.specs.Meaning.Bursts.{Played};
    ghost use Rattle.pattern_order.specs.Held.{played_in};

    ghost Value = { List Played };

    ghost use Rattle.std.specs.Coded.{codes};
    ghost use Rattle.stil_ast.specs.Data.WrittenCode.{written_code};
    ghost use Rattle.stil_ast.specs.contracts.body.Step as step;

    ghost coded = { Prim.hlevel (codes, written_code step.the_row.coded) };

    ghost view = { λ o. played_in o.patterns.items };
}

impl<'a> PlayOrder<'a> {
    /// The patterns in running order.
    pub fn as_slice(&self) -> &[PlayedPattern<'a>]
        ensures { played_in result.now ≡ self.now }
    {
        self.patterns.as_slice()
    }
}

/// Puts the pattern that a name names behind the others.
fn play<'a>(
    patterns: &mut Vec<PlayedPattern<'a>>,
    names: &BurstNames<'a>,
    step: &Step<'a>,
) -> Result<(), AllocError>
    requires { (number : ℕ) → step.now.meaning ≡ meaning.Pattern number → number < length names.now.patterns }
    ensures { OnOk result (played_in patterns.new.items
        ≡ played_in patterns.old.items
        ++ played_as names.now step.now.macros.now step.now.procedures.now step.now.meaning) }
{
    if let Meaning::Pattern(number) = step.meaning {
        patterns.push(PlayedPattern {
            pattern: names.pattern(number),
            macros: step.macros,
            procedures: step.procedures,
        })?;
    }
    Ok(())
}

/// The mark of a burst that was walked through: it is passed over from now on if no pattern ran in it.
fn mark_behind(begun: usize, count: usize) -> Mark
    ensures { result ≡ if begun == count then mark.Closed else mark.Fresh }
{
    if begun == count {
        Mark::Closed
    } else {
        Mark::Fresh
    }
}

/// Runs the pattern that the next name of an open burst names, or goes into the burst that it names; or closes the
/// burst behind its last name.
fn play_next<'a>(
    patterns: &mut Vec<PlayedPattern<'a>>,
    walk: &mut Walk<'_, 'a>,
    frame: Frame<'a>,
) -> Result<(), AllocError>
    requires { Plays walk.old.names.now (length patterns.old.items) walk.old.marks.items
        (frame ∷ reverse walk.old.frames.items) }
    ensures names { walk.new.names.now ≡ walk.old.names.now }
    ensures plays { OnOk result (HasPlayed walk.old.names.now (played_in patterns.old.items)
        (frame.entry ∷ reverse walk.old.frames.items) (played_in patterns.new.items) walk.new.marks.items
        (reverse walk.new.frames.items)) }
{
    if frame.next >= frame.burst.items.len() {
        walk.close(frame.number, mark_behind(frame.begun, patterns.len()));
        return Ok(());
    }
    let step = walk.next_in(&frame);
    play(patterns, walk.names, &step)?;
    walk.pass(frame, &step, patterns.len())?;
    Ok(())
}

/// The patterns of a burst in running order; none where they are too many.
pub(crate) fn all_played<'a>(
    alloc: Global,
    names: &BurstNames<'a>,
    number: usize,
) -> Result<Option<Vec<PlayedPattern<'a>>>, AllocError>
    requires first { IsFirst names.now number }
    requires forward { (b : Burst) → slice_get names.now.bursts number ≡ Some b
        → first_in cyclic_fault (mentions names.now (Some b)) ≡ None }
    ensures { (b : Burst) → slice_get names.now.bursts number ≡ Some b
        → IfOk result (λ found. AllPlayed found (flat_map (played_at names.now) (met names.now b))) }
{
    let mut walk = Walk::new(alloc, names, number)?;
    let mut patterns = Vec::new(alloc);
    while let Some(frame) = walk.frames.pop() {
        play_next(&mut patterns, &mut walk, frame)?;
        if patterns.len() > MOST_PATTERNS {
            return Ok(None);
        }
    }
    Ok(Some(patterns))
}
