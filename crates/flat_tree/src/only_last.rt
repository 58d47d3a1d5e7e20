//! The last of the assignments between which nothing uses them.

ghost use Rattle.std.specs.Prelude.{◌≡◌, ◌<◌, ◌≤◌, ℕ, IfOk, length, take, drop, slice_index_or, vec_len};
ghost use Rattle.std.specs.List.{AllZip};
ghost use Rattle.stil_ast.specs.Meaning.ExecutiveData.{IsSameFlat};
ghost use Rattle.flat_tree.specs.Lean.{IsLean};
ghost use Rattle.flat_tree.specs.declared.flat.Slot.{Slot};
ghost use Rattle.flat_tree.specs.declared.flat.Slot.TheVariants.{Table, Character, Back};
ghost use Rattle.flat_tree.specs.Leaning.{AreMade, IsLeaned, Leans, slots_if};

use crate::ahead::Ahead;
use crate::flat::{FlatList, Slot, Whole};
use std::alloc::{AllocError, Global};

impl FlatList {
    /// Keeps only the last assignment of the table, and of each of so many signals, between two vectors, loops or
    /// saves, at every depth. The tree that is left does the same and takes as few instructions. The call takes time in
    /// proportion to the items, and beside them no memory but a mark for each signal.
    pub fn only_last(self, alloc: Global, signals: usize) -> Result<FlatList, AllocError>
        ensures same { IfOk result (λ f. IsSameFlat f self) }
        ensures lean { IfOk result (λ f. IsLean signals f) }
    {
        let mut ahead = Ahead::new(alloc, signals)?;
        let mut list = self;
        lean_list(&mut list, &mut ahead);
        Ok(list)
    }
}

/// The same of a list in its place, whatever was set ahead of it.
#[cycle(lean)]
fn lean_list(list: &mut FlatList, ahead: &mut Ahead)
    ensures same { IsSameFlat list.new list.old }
    ensures lean { IsLean (length ahead.old.signals) list.new }
    ensures count { length ahead.new.signals ≡ length ahead.old.signals }
{
    lean_wholes(&mut list.wholes, ahead);
    let kept = lean_slots(&mut list.slots, ahead);
    drop_front(&mut list.slots, kept);
}

/// Makes the bodies of loops and saves lean in their places.
#[cycle(lean)]
fn lean_wholes(wholes: &mut Vec<Whole>, ahead: &mut Ahead)
    ensures leaned { AllZip (IsLeaned (length ahead.old.signals)) wholes.new.items wholes.old.items }
    ensures count { length ahead.new.signals ≡ length ahead.old.signals }
{
    let mut place = wholes.len();
    while 0 < place {
        place -= 1;
        lean_whole(&mut wholes[place], ahead);
    }
}

/// Makes the body of a loop or of a save lean in its place.
#[cycle(lean)]
fn lean_whole(whole: &mut Whole, ahead: &mut Ahead)
    ensures leaned { IsLeaned (length ahead.old.signals) whole.new whole.old }
    ensures count { length ahead.new.signals ≡ length ahead.old.signals }
{
    match whole {
        Whole::Cycle(_, _) => {}
        Whole::Repeat(_, body) => lean_list(body, ahead),
        Whole::Save(_, body) => lean_list(body, ahead),
    }
}

/// Goes through slots from their end, and gathers at the end those that are kept. Gives where these begin.
fn lean_slots(slots: &mut Vec<Slot>, ahead: &mut Ahead) -> usize
    ensures made { AreMade (length ahead.old.signals) ahead.new (drop result slots.new.items) slots.old.items }
    ensures within { result ≤ vec_len slots.new }
{
    ahead.forget();
    let mut place = slots.len();
    let mut kept = place;
    while 0 < place {
        place -= 1;
        let stays = slot_stays(slots[place], ahead);
        kept = kept_from(slots, place, kept, stays);
    }
    kept
}

/// Whether a slot stays. An assignment goes where what it sets is set ahead, and nothing is ahead of another step.
fn slot_stays(slot: Slot, ahead: &mut Ahead) -> bool
    ensures { Leans slot ahead.old ahead.new result }
{
    match slot {
        Slot::Table(_) => table_stays(ahead),
        Slot::Character(_, signal) => signal_stays(signal, ahead),
        Slot::Back(signal) => signal_stays(signal, ahead),
        Slot::Next => {
            ahead.forget();
            true
        }
    }
}

/// Whether a table stays.
fn table_stays(ahead: &mut Ahead) -> bool
    ensures { (t : ℕ) → Leans (Table t) ahead.old ahead.new result }
{
    if ahead.has_table() {
        return false;
    }
    ahead.set_table();
    true
}

/// Whether a signal's character stays, or that which it gets back.
fn signal_stays(signal: u16, ahead: &mut Ahead) -> bool
    ensures character { (c : ℕ) → Leans (Character c signal) ahead.old ahead.new result }
    ensures back { Leans (Back signal) ahead.old ahead.new result }
{
    if ahead.has(signal) {
        return false;
    }
    ahead.set(signal);
    true
}

/// Puts the slot at a place in front of those that are kept, if it stays. Gives where these begin now.
fn kept_from(slots: &mut Vec<Slot>, place: usize, kept: usize, stays: bool) -> usize
    requires behind { place < kept }
    requires within { kept ≤ vec_len slots.old }
    ensures before { take place slots.new.items ≡ take place slots.old.items }
    ensures made { (d : Slot) → drop result slots.new.items
        ≡ slots_if stays (slice_index_or slots.old.items place d) (drop kept slots.old.items) }
    ensures size { length slots.new.items ≡ length slots.old.items }
    ensures behind { place ≤ result }
    ensures within { result ≤ vec_len slots.new }
{
    if !stays {
        return kept;
    }
    slots.swap(place, kept - 1);
    kept - 1
}

/// Drops the slots in front of a place.
fn drop_front(slots: &mut Vec<Slot>, kept: usize)
    requires { kept ≤ vec_len slots.old }
    ensures { slots.new.items ≡ drop kept slots.old.items }
{
    slots.rotate_left(kept);
    let count = slots.len() - kept;
    slots.truncate(count);
}
