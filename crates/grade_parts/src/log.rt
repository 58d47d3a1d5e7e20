//! What the text of a part of a grade says, by its lines.

ghost use Rattle.std.specs.Prelude.{◌≡◌, ◌⊎◌, ℕ, List, true, MatchResult, length};
ghost use Rattle.std.specs.List.{flat_map};
ghost use Rattle.part_lines.specs.Lines.{ended};
ghost use Rattle.part_lines.specs.LineFault.{IsLineFault};
ghost use Rattle.part_lines.specs.declared.fault.LineFault.TheVariants.{NoMemory, Line};
ghost use Rattle.grade_parts.specs.Log.{GradeLog as Said, Stuck, is_good, found_in};
ghost use Rattle.grade_parts.specs.Turns.{IsPartBehind, HasGood, IsPartOf};
ghost use Rattle.grade_parts.specs.Held.{lines_of, AreHeld};
ghost use Rattle.grade_parts.specs.Step.{Knows};
ghost use Rattle.grade_parts.specs.Reads.{said_good, IsGoodSaid, ReadsPart};

use crate::reading::read_text;
use crate::told::Told;
use part_lines::LineFault;
use std::marker::Model;

/// The lines of a grade's text, as slices of it: a contract sees the line of the good die and those of the faults.
#[derive(Drop)]
pub struct GradeLog<'a> {
    /// The line of the good die.
    good: &'a [u8],
    /// The lines of the faults, each with its line feed.
    faults: &'a [u8],
    /// How many faults there are.
    count: u64,
    /// How many of them some cycle finds.
    found: u64,
}

impl<'a> Model for GradeLog<'a> {
    ghost use Rattle.std.specs.Prelude.{◌≡◌, true};
    ghost use Rattle.grade_parts.specs.Log.{GradeLog as Said, is_good};
    ghost use Rattle.grade_parts.specs.Held.{lines_of, AreHeld};

    ghost Value = { Said };

    ghost view = { λ log. record { good = log.good.now; faults = lines_of log.faults.now } };

    ghost invariant = { λ log. (is_good log.good.now ≡ true) × AreHeld log.faults.now log.count log.found };
}

impl<'a> GradeLog<'a> {
    /// The log of these lines.
    pub(crate) fn of(good: &'a [u8], faults: &'a [u8], count: u64, found: u64) -> GradeLog<'a>
        requires good { is_good good.now ≡ true }
        requires held { AreHeld faults.now count found }
        ensures line { result.good ≡ good.now }
        ensures faults { result.faults ≡ lines_of faults.now }
    {
        GradeLog {
            good,
            faults,
            count,
            found,
        }
    }

    /// Reads the text of a part of a grade, behind parts that told of these faults; it may be the last one. Its good die has
    /// this line, where one is handed over. A fault is the first line up to which no text of such a part begins as this one
    /// does. Of what was told nothing is promised behind a fault.
    pub fn read(
        text: &'a [u8],
        good: Option<&[u8]>,
        told: &mut Told<'a>,
        last: bool,
    ) -> Result<GradeLog<'a>, LineFault>
        requires good { IsGoodSaid (said_good good) }
        ensures reads { (before : List Stuck) → Knows told.old before
            → ReadsPart (said_good good.entry) before last text.now told.new result }
        ensures only { (before told' : List Stuck) (log : Said) → Knows told.old before
            → IsPartBehind before last text.now log told' → HasGood (said_good good.entry) log
            → MatchResult result (λ l. l ≡ log) (λ e. e ≡ NoMemory) }
        ensures refused { (before : List Stuck) (n : ℕ) → Knows told.old before
            → IsLineFault (IsPartOf (said_good good.entry) before last) text.now n
            → MatchResult result (λ _. ⊥) (λ e. (e ≡ NoMemory) ⊎ (e ≡ Line n)) }
    {
        read_text(text, good, told, last)
    }

    /// The line of the good die, without its line feed.
    pub fn good(&self) -> &'a [u8]
        ensures line { result.now ≡ self.now.good }
        ensures is_good { is_good result.now ≡ true }
    {
        self.good
    }

    /// The lines of the faults.
    pub fn faults(&self) -> &'a [u8]
        ensures { result.now ≡ flat_map ended self.now.faults }
    {
        self.faults
    }

    /// How many faults there are.
    pub fn count(&self) -> u64
        ensures { result ≡ length self.now.faults }
    {
        self.count
    }

    /// How many faults some cycle finds.
    pub fn found(&self) -> u64
        ensures { result ≡ found_in self.now.faults }
    {
        self.found
    }
}
