//! The rule of the table in which a pool stands, and what each kind of step tells the seat that makes it.

ghost use Rattle.std.specs.Arc.{arc_value};
ghost use Rattle.pattern_mem.specs.Rule.{IsKept, first_view};
ghost use Rattle.pattern_mem.specs.Steps.{Takes, Gives, opener_after_making, pass_made};

use crate::pool::PoolState;
use crate::view::View;
use atomic_table::{Play, Split, TableRule};
use packed_code::Code;
use std::sync::Arc;

/// What the table of a pool is opened with: the code, and how many decoded pages there is room for.
pub(crate) type Opening = (Arc<Code>, u16);

/// The rule that holds between any two steps.
pub struct Law;

impl TableRule<PoolState, View, Opening> for Law {
    ghost holds = { λ _ s. IsKept s };

    ghost first = { λ opening. first_view (record { code = arc_value opening.0; frames = opening.1 }) };
}

/// A pass tries to take the turn: it takes the pool, or finds that another pass has it.
pub struct Take;

impl Play<PoolState, View> for Take {
    ghost then = { Takes };
}

/// A pass gives the turn back, and the pool with it.
pub struct Give;

impl Play<PoolState, View> for Give {
    ghost then = { Gives };
}

/// The opener's seat makes a pass.
pub struct Make;

impl Split<View> for Make {
    ghost left = { opener_after_making };

    ghost right = { pass_made };
}
