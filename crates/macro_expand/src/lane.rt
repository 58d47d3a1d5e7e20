//! What is left of the argument of one signal.

ghost use Rattle.std.specs.Prelude.{◌≡◌, ◌<◌, ◌≤◌, ◌-◌, ◌^◌, List, All, length, drop, slice_index_or, slice_set};
ghost use Rattle.std.specs.Option.{option_map};
ghost use Rattle.stil_ast.specs.Meaning.Arguments.{Entry, first_of, one_taken, dealt_out, entry_of};
ghost use Rattle.stil_ast.specs.Meaning.Shift.{column};
ghost use Rattle.macro_expand.specs.Lanes.{left_of, argument_in, arguments_in, given_left, lane_len, IsSound, Fits, no_lane};

use crate::characters::Characters;

/// What is left of the argument of one signal: padding, every `width`-th character from `place` up to `end` of those of
/// all arguments, and padding. So many were taken.
#[derive(Clone, Copy)]
pub(crate) struct Lane {
    width: usize,
    place: usize,
    end: usize,
    front: usize,
    back: usize,
    taken: u32,
}

impl Lane {
    /// The lane of a signal without an argument.
    pub(crate) fn empty() -> Lane
        ensures { result ≡ no_lane }
    {
        Lane {
            width: 1,
            place: 0,
            end: 0,
            front: 0,
            back: 0,
            taken: 0,
        }
    }

    /// How many were taken.
    pub(crate) fn taken(self) -> u32
        ensures { result ≡ self.taken }
    {
        self.taken
    }

    /// How much is left.
    pub(crate) fn len(self) -> usize
        requires { IsSound self }
        ensures { result ≡ lane_len self }
    {
        self.front + self.end.saturating_sub(self.place).div_ceil(self.width) + self.back
    }

    /// What stands first in what is left: `Some(None)` is padding.
    pub(crate) fn first(self, characters: &Characters) -> Option<Option<u8>>
        requires { Fits characters.now self }
        ensures { option_map entry_of result ≡ first_of (left_of characters.now self) }
    {
        if self.front > 0 {
            Some(None)
        } else if self.place < self.end {
            Some(Some(characters.at(self.place)))
        } else if self.back > 0 {
            Some(None)
        } else {
            None
        }
    }

    /// The lane once its first entry is taken, if it has one.
    pub(crate) fn advanced(self) -> Lane
        requires { self.taken < 2 ^ 32 - 1 }
        ensures fits { (characters : List Entry) → Fits characters self → Fits characters result }
        ensures taken { (characters : List Entry) → Fits characters self → argument_in characters result
            ≡ one_taken (argument_in characters self) (left_of characters self) }
    {
        let taken = self.taken + 1;
        if self.front > 0 {
            Lane {
                front: self.front - 1,
                taken,
                ..self
            }
        } else if self.place < self.end {
            Lane {
                place: self.place.saturating_add(self.width),
                taken,
                ..self
            }
        } else if self.back > 0 {
            Lane {
                back: self.back - 1,
                taken,
                ..self
            }
        } else {
            self
        }
    }

    /// The lane padded to so many entries, at the end of an Out signal and else in front.
    pub(crate) fn padded(self, is_out: bool, count: usize) -> Lane
        requires { IsSound self }
        ensures fits { (characters : List Entry) → Fits characters self → Fits characters result }
        ensures column { (characters : List Entry) → Fits characters self → left_of characters result
            ≡ column is_out count (left_of characters self) }
        ensures taken { result.taken ≡ self.taken }
    {
        let missing = count.saturating_sub(self.len());
        if is_out {
            Lane {
                back: self.back + missing,
                ..self
            }
        } else {
            Lane {
                front: self.front + missing,
                ..self
            }
        }
    }
}

/// The lane of a signal.
pub(crate) fn lane_at(lanes: &[Lane], signal: u16) -> Lane
    ensures { result ≡ slice_index_or lanes.now signal no_lane }
{
    match lanes.get(usize::from(signal)) {
        Some(lane) => *lane,
        None => Lane::empty(),
    }
}

/// Gives a signal another lane. Past the last signal nothing changes.
pub(crate) fn put(lanes: &mut Vec<Lane>, signal: u16, lane: Lane)
    ensures { lanes.new.items ≡ slice_set lanes.old.items signal lane }
{
    let at = usize::from(signal);
    if at < lanes.len() {
        lanes[at] = lane;
    }
}

/// Deals the characters from one place up to another to signals in turn.
pub(crate) fn deal(lanes: &mut Vec<Lane>, from: usize, end: usize, signals: &[u16])
    ensures fits { (characters : List Entry) → length characters ≡ end → All (Fits characters) lanes.old.items
        → All (Fits characters) lanes.new.items }
    ensures dealt { (characters : List Entry) → length characters ≡ end → arguments_in characters lanes.new.items
        ≡ dealt_out (drop from characters) (length signals.now) 0 signals.now
        (arguments_in characters lanes.old.items) }
{
    for (place, signal) in signals.iter().enumerate() {
        let lane = Lane {
            width: signals.len(),
            place: from.saturating_add(place),
            end,
            ..Lane::empty()
        };
        put(lanes, *signal, lane);
    }
}
