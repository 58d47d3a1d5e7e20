//! A flat tree in two lists: its steps in running order, and of those that aren't assignments what they are.

ghost use Rattle.std.specs.Prelude.{◌≡◌, ◌==◌, ◌++◌, ◌∷◌, [], OnErr, OnOk, is_ok, if◌then◌else◌};
ghost use Rattle.stil_ast.specs.Meaning.Flat.{done, table as at_table, character as at_character, back, cycle, repeat, save};
ghost use Rattle.stil_ast.specs.Meaning.Flattening.{joined};
ghost use Rattle.flat_tree.specs.Counts.{item_count};
ghost use Rattle.flat_tree.specs.Slots.{next_count, slots_flat, whole_front};
ghost use Rattle.flat_tree.specs.declared.flat.Slot.TheVariants.{Next};

use crate::place::Origin;
use std::alloc::{AllocError, Global};
use std::marker::Model;

/// A step of a flat tree in its list: what is assigned, or that the next of the other steps stands here.
#[derive(Clone, Copy)]
pub(crate) enum Slot {
    /// The table from here on, by its number.
    Table(u16),
    /// This waveform character has a signal, by its number, from here on.
    Character(u8, u16),
    /// A signal has again what it had when the innermost save round it began.
    Back(u16),
    /// A vector, a loop or a save.
    Next,
}

const _: () = prove!(size_of::<Slot>() == 4);

/// A step that isn't an assignment.
#[cycle(flat)]
#[derive(Drop)]
pub(crate) enum Whole {
    /// A vector with its mark, and where its V stands.
    Cycle(u32, Origin),
    /// Runs the body this often.
    Repeat(u64, Box<FlatList>),
    /// Runs the body once; `true`: a procedure's, behind which table and characters are put back.
    Save(bool, Box<FlatList>),
}

/// A flat tree: steps in running order. A contract sees it as the `Flat` of the language's definitions.
#[cycle(flat)]
#[derive(Drop)]
pub struct FlatList {
    pub(crate) slots: Vec<Slot>,
    pub(crate) wholes: Vec<Whole>,
}

impl Model for FlatList {
    ghost use Rattle.std.specs.Prelude.{◌≡◌, length};
    ghost use Rattle.stil_ast.specs.Meaning.Flat.{Flat};

    ghost Value = { Flat };

    ghost use Rattle.flat_tree.specs.FlatCode.{flat_code};

    ghost coded = { flat_code };

    ghost use Rattle.flat_tree.specs.Counts.{body_count};
    ghost use Rattle.flat_tree.specs.Slots.{slots_flat, wholes_in};

    ghost view = { λ f. slots_flat f.slots.items f.wholes.items };

    ghost invariant = { λ f. wholes_in f.slots.items ≡ length f.wholes.items };

    ghost size = { body_count };

    ghost use Rattle.flat_tree.specs.SlotsFall.{most_le-body_count};

    ghost size_decreases = { λ f h. most_le-body_count f.slots.items f.wholes.items h };
}

impl FlatList {
    /// A tree that does nothing.
    pub fn new(alloc: Global) -> FlatList
        ensures { result ≡ done }
    {
        FlatList {
            slots: Vec::new(alloc),
            wholes: Vec::new(alloc),
        }
    }

    /// How many items stand at its top.
    pub fn len(&self) -> usize
        ensures { result ≡ item_count self.now }
    {
        self.slots.len()
    }

    /// Whether it does nothing.
    pub fn is_empty(&self) -> bool
        ensures { result ≡ (item_count self.now == 0) }
    {
        self.slots.is_empty()
    }

    /// At its end stands an assignment. An error leaves it as it was.
    fn push_slot(&mut self, slot: Slot) -> Result<(), AllocError>
        requires { next_count slot ≡ 0 }
        ensures made { OnOk result (self.new ≡ joined self.old (slots_flat (slot ∷ []) [])) }
        ensures kept { OnErr result (self.new ≡ self.old) }
    {
        self.slots.push(slot)?;
        Ok(())
    }

    /// At its end stands a vector, a loop or a save. An error leaves it as it was.
    fn push_whole(&mut self, whole: Whole) -> Result<(), AllocError>
        ensures made { OnOk result (self.new ≡ joined self.old (whole_front whole done)) }
        ensures kept { OnErr result (self.new ≡ self.old) }
    {
        add_whole(&mut self.slots, &mut self.wholes, whole)?;
        Ok(())
    }

    /// At its end the table is set. An error leaves it as it was.
    pub fn push_table(&mut self, table: u16) -> Result<(), AllocError>
        ensures made { OnOk result (self.new ≡ joined self.old (at_table table done)) }
        ensures kept { OnErr result (self.new ≡ self.old) }
    {
        self.push_slot(Slot::Table(table))
    }

    /// At its end a signal gets a character. An error leaves it as it was.
    pub fn push_character(&mut self, signal: u16, character: u8) -> Result<(), AllocError>
        ensures made { OnOk result (self.new ≡ joined self.old (at_character signal character done)) }
        ensures kept { OnErr result (self.new ≡ self.old) }
    {
        self.push_slot(Slot::Character(character, signal))
    }

    /// At its end a signal gets what it had when the innermost save began. An error leaves it as it was.
    pub fn push_back(&mut self, signal: u16) -> Result<(), AllocError>
        ensures made { OnOk result (self.new ≡ joined self.old (back signal done)) }
        ensures kept { OnErr result (self.new ≡ self.old) }
    {
        self.push_slot(Slot::Back(signal))
    }

    /// At its end stands a vector with its mark, whose V stands in this place. An error leaves it as it was.
    pub fn push_cycle(&mut self, mark: u32, place: Origin) -> Result<(), AllocError>
        ensures made { OnOk result (self.new ≡ joined self.old (cycle mark place done)) }
        ensures kept { OnErr result (self.new ≡ self.old) }
    {
        self.push_whole(Whole::Cycle(mark, place))
    }

    /// At its end a body is run so often. An error leaves it as it was.
    pub fn push_repeat(&mut self, count: u64, body: FlatList) -> Result<(), AllocError>
        ensures made { OnOk result (self.new ≡ joined self.old (repeat count body done)) }
        ensures kept { OnErr result (self.new ≡ self.old) }
    {
        let alloc = *self.slots.allocator();
        let body = Box::new(alloc, body)?;
        self.push_whole(Whole::Repeat(count, body))
    }

    /// At its end a body is run in a save, behind which the state is put back or not. An error leaves it as it was.
    pub fn push_save(&mut self, putting: bool, body: FlatList) -> Result<(), AllocError>
        ensures made { OnOk result (self.new ≡ joined self.old (save putting body done)) }
        ensures kept { OnErr result (self.new ≡ self.old) }
    {
        let alloc = *self.slots.allocator();
        let body = Box::new(alloc, body)?;
        self.push_whole(Whole::Save(putting, body))
    }

    /// At its end stands another tree. An error leaves it as it was.
    pub fn append(&mut self, more: FlatList) -> Result<(), AllocError>
        ensures made { OnOk result (self.new ≡ joined self.old more) }
        ensures kept { OnErr result (self.new ≡ self.old) }
    {
        let slots = more.slots;
        let mut wholes = more.wholes;
        add_all(
            &mut self.slots,
            &mut self.wholes,
            slots.as_slice(),
            &mut wholes,
        )?;
        Ok(())
    }
}

/// Adds a whole behind others, and a slot for it, or nothing at all.
fn add_whole(slots: &mut Vec<Slot>, wholes: &mut Vec<Whole>, whole: Whole) -> Result<(), AllocError>
    ensures slots { slots.new.items ≡ (if is_ok result then slots.old.items ++ Next ∷ [] else slots.old.items) }
    ensures wholes { wholes.new.items ≡ (if is_ok result then wholes.old.items ++ whole ∷ [] else wholes.old.items) }
{
    slots.reserve(1)?;
    wholes.push(whole)?;
    slots.push(Slot::Next).unwrap();
    Ok(())
}

/// Adds slots and wholes behind others, or nothing at all.
fn add_all(
    slots: &mut Vec<Slot>,
    wholes: &mut Vec<Whole>,
    more: &[Slot],
    others: &mut Vec<Whole>,
) -> Result<(), AllocError>
    ensures slots { slots.new.items ≡ (if is_ok result then slots.old.items ++ more.now else slots.old.items) }
    ensures wholes { wholes.new.items
        ≡ (if is_ok result then wholes.old.items ++ others.old.items else wholes.old.items) }
{
    slots.reserve(more.len())?;
    wholes.append(others)?;
    slots.extend_from_slice(more).unwrap();
    Ok(())
}
