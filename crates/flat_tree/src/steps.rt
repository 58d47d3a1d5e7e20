//! The steps of a flat tree one after another, lent by it.

ghost use Rattle.std.specs.Prelude.{◌≡◌, ◌∷◌, ◌+◌, ◌<◌, ◌≤◌, List, length};
ghost use Rattle.std.specs.Iterator.{at_most};
ghost use Rattle.stil_ast.specs.Meaning.Flat.{Flat};
ghost use Rattle.flat_tree.specs.Counts.{item_count};
ghost use Rattle.flat_tree.specs.Slots.{next_count, slots_flat, whole_front};
ghost use Rattle.flat_tree.specs.Items.{item_front, TakesItem};
ghost use Rattle.flat_tree.specs.declared.flat.Slot.{Slot};
ghost use Rattle.flat_tree.specs.declared.flat.Slot.TheVariants.{Next};

use crate::flat::{FlatList, Slot, Whole};
use crate::place::Origin;
use std::marker::Model;

/// A step of a flat tree.
#[derive(Clone, Copy)]
pub enum FlatItem<'t> {
    /// The table from here on, by its number.
    Table(u16),
    /// A signal, by its number, has this waveform character from here on.
    Character(u16, u8),
    /// A signal has again what it had when the innermost save round it began.
    Back(u16),
    /// A vector with its mark, and where its V stands.
    Cycle(u32, Origin),
    /// Runs the body this often.
    Repeat(u64, &'t FlatList),
    /// Runs the body once; `true`: a procedure's, behind which table and characters are put back.
    Save(bool, &'t FlatList),
}

impl FlatList {
    /// Its steps in running order, without memory.
    pub fn steps(&self) -> FlatSteps<'_>
        ensures { result ≡ self.now }
    {
        FlatSteps {
            slots: self.slots.as_slice(),
            wholes: self.wholes.as_slice(),
        }
    }
}

/// The steps of a flat tree that are left, in running order. A contract sees it as the `Flat` that they are.
#[derive(Drop)]
pub struct FlatSteps<'t> {
    slots: &'t [Slot],
    wholes: &'t [Whole],
}

impl<'t> Model for FlatSteps<'t> {
    ghost use Rattle.std.specs.Prelude.{◌≡◌, length};
    ghost use Rattle.stil_ast.specs.Meaning.Flat.{Flat};

    ghost Value = { Flat };

    ghost use Rattle.flat_tree.specs.FlatCode.{flat_code};

    ghost coded = { flat_code };

    ghost use Rattle.flat_tree.specs.Slots.{slots_flat, wholes_in};

    ghost view = { λ s. slots_flat s.slots.now s.wholes.now };

    ghost invariant = { λ s. wholes_in s.slots.now ≡ length s.wholes.now };
}

impl<'t> Iterator for FlatSteps<'t> {
    type Item = FlatItem<'t>;

    ghost next_gives = { TakesItem };

    ghost remaining = { λ left. at_most (item_count left) };

    fn next(&mut self) -> Option<FlatItem<'t>> {
        let (slot, slots) = self.slots.split_first()?;
        let (item, wholes) = step_of(*slot, self.wholes);
        self.slots = slots;
        self.wholes = wholes;
        Some(item)
    }
}

/// The step that stands at a slot, and the wholes for the slots behind it.
fn step_of<'t>(slot: Slot, wholes: &'t [Whole]) -> (FlatItem<'t>, &'t [Whole])
    requires { next_count slot ≤ length wholes.now }
    ensures step { (slots : List Slot) → slots_flat (slot ∷ slots) wholes.now
        ≡ item_front result.0 (slots_flat slots result.1.now) }
    ensures left { length wholes.now ≡ next_count slot + length result.1.now }
{
    match slot {
        Slot::Table(table) => (FlatItem::Table(table), wholes),
        Slot::Character(character, signal) => (FlatItem::Character(signal, character), wholes),
        Slot::Back(signal) => (FlatItem::Back(signal), wholes),
        Slot::Next => first_of(wholes),
    }
}

/// The first of wholes, and the others.
fn first_of(wholes: &[Whole]) -> (FlatItem<'_>, &[Whole])
    requires { 0 < length wholes.now }
    ensures step { (slots : List Slot) → slots_flat (Next ∷ slots) wholes.now
        ≡ item_front result.0 (slots_flat slots result.1.now) }
    ensures left { length wholes.now ≡ 1 + length result.1.now }
{
    match wholes.split_first() {
        Some((whole, others)) => (item_of(whole), others),
        None => unreachable!(),
    }
}

/// A vector, a loop or a save, lent.
fn item_of(whole: &Whole) -> FlatItem<'_>
    ensures { (rest : Flat) → item_front result rest ≡ whole_front whole.now rest }
{
    match whole {
        Whole::Cycle(mark, place) => FlatItem::Cycle(*mark, *place),
        Whole::Repeat(count, body) => FlatItem::Repeat(*count, &**body),
        Whole::Save(putting, body) => FlatItem::Save(*putting, &**body),
    }
}
