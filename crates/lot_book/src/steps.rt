//! The rule of the table in which a book stands, and what each kind of step tells the seat that makes it.

ghost use Rattle.floor_core.specs.Book.{planned};
ghost use Rattle.lot_book.specs.Rule.{IsKept, first_view};
ghost use Rattle.lot_book.specs.Steps.{Takes, Gives, opener_after_making, share_made, opener_after_ending, spent};

use crate::view::View;
use atomic_table::{Join, Play, Split, TableRule};
use floor_core::BookState;
use lot_plan::BoundPlan;

/// The rule that holds between any two steps.
pub struct Law;

impl TableRule<BookState, View, BoundPlan> for Law {
    ghost holds = { λ _ s. IsKept s };

    ghost first = { λ plan. first_view (planned plan.rows) };
}

/// A share tries to take the turn: it takes the book, or finds that another share has it.
pub struct Take;

impl Play<BookState, View> for Take {
    ghost then = { Takes };
}

/// A share gives the turn back, and the book with it.
pub struct Give;

impl Play<BookState, View> for Give {
    ghost then = { Gives };
}

/// The opener's seat makes the share of the next site.
pub struct Make;

impl Split<View> for Make {
    ghost left = { opener_after_making };

    ghost right = { share_made };
}

/// The opener's seat takes in a share.
pub struct End;

impl Join<View> for End {
    ghost both = { opener_after_ending };

    ghost spent = { spent };
}
