//! What polls and records tell of tapes and of contacts.

ghost use Rattle.std.specs.Prelude.{◌≡◌, ℕ, false, Some, None};
ghost use Rattle.site_meaning.specs.Part.{Part};
ghost use Rattle.site_meaning.specs.Polls.{Seat, Arises, rests, arrived, poll};
ghost use Rattle.site_run.specs.Contact.{IsLostInPoll, IsInBatch};
ghost use Rattle.site_run.specs.Taped.{Tapes};

/// A poll that loses no contact puts its drive calls behind those of the touchdown so far; where it ends the touchdown, the
/// record tells all of them, each try by the number of its cycles.
pub fn polls_are_taped()
    ensures { (part : Part) (seat : Seat) → Arises part seat → rests part seat ≡ false
        → Tapes part seat (poll part None seat) }
{}

/// Contact that a poll loses is lost at an instant of the batch that it runs, at which it calls its socket, or at 0 where
/// the die can't be loaded.
pub fn contacts_are_in_batches()
    ensures { (part : Part) (seat : Seat) (at : ℕ) → IsLostInPoll part seat at
        → IsInBatch part seat at (arrived part (Some at) seat) }
{}
