//! The signals of a moment that are still to be asked for.

ghost use Rattle.std.specs.Prelude.{◌≡◌};
ghost use Rattle.tester_types.specs.declared.cycle.Moment.{Moment};
ghost use Rattle.strobe_check.specs.Ahead.{Stands};

use crate::run::are_sorted;
use tester_types::{Look, Moment};

/// Where the asking for the signals that are to be sensed at a moment stands: from this signal on, with the looks that are
/// left.
#[derive(Drop)]
pub struct Ahead<'a> {
    pub(crate) looks: &'a [(u16, Look)],
    pub(crate) sorted: bool,
    pub(crate) signal: usize,
}

impl<'a> Ahead<'a> {
    /// From the first signal on.
    pub fn of(moment: &'a Moment) -> Ahead<'a>
        ensures stands { Stands moment.now result }
        ensures first { result.signal ≡ 0 }
    {
        Ahead::of_looks(moment.looks.as_slice())
    }

    /// From the first signal on, of a moment with these looks.
    pub fn of_looks(looks: &'a [(u16, Look)]) -> Ahead<'a>
        ensures stands { (moment : Moment) → moment.looks ≡ looks.now → Stands moment result }
        ensures first { result.signal ≡ 0 }
    {
        Ahead {
            looks,
            sorted: are_sorted(looks),
            signal: 0,
        }
    }
}
