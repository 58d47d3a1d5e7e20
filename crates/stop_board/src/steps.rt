//! The rule of a board's table, and what each kind of step tells the seat that makes it.

ghost use Rattle.stop_board.specs.Rule.{IsKept, first_view};
ghost use Rattle.stop_board.specs.Steps.{Asks, Polls, Finishes, Looks, desk_after_making, site_made, desk_after_ending, spent};

use crate::view::View;
use atomic_table::{Join, Play, Split, TableRule};

/// The rule that holds between any two steps.
pub struct Law;

impl TableRule<(), View, ()> for Law {
    ghost holds = { λ _ s. IsKept s };

    ghost first = { λ _. first_view };
}

/// The desk adds 1 to a site's word.
pub struct Ask;

impl Play<(), View> for Ask {
    ghost then = { Asks };
}

/// A site's seat loads its word.
pub struct Poll;

impl Play<(), View> for Poll {
    ghost then = { Polls };
}

/// A site's seat adds 1 to the number of finished seats.
pub struct Finish;

impl Play<(), View> for Finish {
    ghost then = { Finishes };
}

/// The desk loads the number of finished seats.
pub struct Look;

impl Play<(), View> for Look {
    ghost then = { Looks };
}

/// The desk's seat makes the next site's.
pub struct Make;

impl Split<View> for Make {
    ghost left = { desk_after_making };

    ghost right = { site_made };
}

/// The desk's seat takes in a site's.
pub struct End;

impl Join<View> for End {
    ghost both = { desk_after_ending };

    ghost spent = { spent };
}
