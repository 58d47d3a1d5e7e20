//! Laws of what can be printed.

ghost use Rattle.std.specs.Prelude.{List};
ghost use Rattle.tester_types.specs.Records.{SiteRecords, records_of};
ghost use Rattle.tester_types.specs.declared.record.Record.{Record};
ghost use Rattle.lot_plan.specs.Bound.{Bound};
ghost use Rattle.lot_plan.specs.Refusal.{IsBound};
ghost use Rattle.site_meaning.specs.Part.{part_of};
ghost use Rattle.site_meaning.specs.Records.{Sound};
ghost use Rattle.datalog.specs.Printable.{AreSound, IsPrintable, ArePrintable};

/// A sound record of a bound plan has all that its text needs, and so has a book of sound records.
pub fn sound_is_printable()
    ensures alone { (plan : Bound) (entry : Record) → IsBound plan → Sound (part_of plan entry.site) entry
        → IsPrintable plan.program plan entry }
    ensures book { (plan : Bound) (book : List SiteRecords) → IsBound plan → AreSound plan book
        → ArePrintable plan.program plan (records_of book) }
{}
