//! Laws of every interleaving of what happens at the sites of a lot.

ghost use Rattle.std.specs.Prelude.{Bool, List};
ghost use Rattle.tester_types.specs.declared.record.Record.{Record};
ghost use Rattle.packed_code.specs.Conditions.{IsProgram};
ghost use Rattle.lot_plan.specs.Refusal.{IsBound};
ghost use Rattle.floor_core.specs.World.{World, Event};
ghost use Rattle.floor_core.specs.Filing.{KeepsJournal};
ghost use Rattle.floor_core.specs.Interleavings.{IsEachAlone, IsJournal, AreTotals};

/// Whatever happens, and in whatever order: the journal's records of each site, in order, are the journal of the site
/// alone.
pub fn alone_law()
    ensures { (world : World) → (events : List Event) → IsEachAlone world events }
{}

/// Whatever happens, and in whatever order: no two records of the journal are of one die, each is sound and tells the
/// world's contacts alone, and at each site live stops rise and are no more than the stops that were asked for.
pub fn records_law()
    ensures { (world : World) → IsProgram world.plan.program → IsBound world.plan → (events : List Event)
        → IsJournal world events }
{}

/// Whatever happens, and in whatever order: the totals over the sites' records are the counts of the journal's dies.
pub fn totals_law()
    ensures { (world : World) → IsProgram world.plan.program → IsBound world.plan → (events : List Event)
        → (counts : Record → Bool) → AreTotals world events counts }
{}

/// Whatever happens, and in whatever order: a book of the plan has room for the journal, and once the journal's records
/// are filed into it one after another, it has at each site the journal's records of it.
pub fn book_law()
    ensures { (world : World) → IsProgram world.plan.program → IsBound world.plan → (events : List Event)
        → KeepsJournal world events }
{}
