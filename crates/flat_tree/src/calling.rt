//! What a call leaves in a flat tree: nothing where its body has neither a vector nor a Loop.

ghost use Rattle.std.specs.Prelude.{◌≡◌, IfOk, OnErr, OnOk};
ghost use Rattle.stil_ast.specs.Meaning.Flat.{done};
ghost use Rattle.stil_ast.specs.Meaning.Flattening.{joined};
ghost use Rattle.flat_tree.specs.Slots.{whole_front, wholes_flat};
ghost use Rattle.flat_tree.specs.Kept.{has_vector, loops_in, call_front};

use crate::flat::{FlatList, Whole};
use std::alloc::{AllocError, Global};

impl FlatList {
    /// At its end stands what a call of a body leaves: a save that puts the state back, where the body has a vector, else
    /// its loops alone. An error leaves it as it was.
    pub fn push_call(&mut self, body: FlatList) -> Result<(), AllocError>
        ensures made { OnOk result (self.new ≡ joined self.old (call_front body done)) }
        ensures kept { OnErr result (self.new ≡ self.old) }
    {
        if body.has_vector() {
            return self.push_save(true, body);
        }
        let alloc = *self.slots.allocator();
        let loops = loops_of(alloc, body)?;
        self.append(loops)
    }

    /// Whether a vector stands in it, at any depth.
    #[cycle(vector)]
    fn has_vector(&self) -> bool
        ensures { result ≡ has_vector self.now }
    {
        any_vector(self.wholes.as_slice())
    }
}

/// Whether a vector is or stands in one of vectors, loops and saves. The search ends at the first.
#[cycle(vector)]
fn any_vector(wholes: &[Whole]) -> bool
    ensures { result ≡ has_vector (wholes_flat wholes.now) }
{
    for whole in wholes {
        if whole_has_vector(whole) {
            return true;
        }
    }
    false
}

/// Whether a vector is or stands in one of them.
#[cycle(vector)]
fn whole_has_vector(whole: &Whole) -> bool
    ensures { result ≡ has_vector (whole_front whole.now done) }
{
    match whole {
        Whole::Cycle(_, _) => true,
        Whole::Repeat(_, body) => body.has_vector(),
        Whole::Save(_, body) => body.has_vector(),
    }
}

/// The loops of a tree alone, with their loops alone in them.
#[cycle(loops)]
fn loops_of(alloc: Global, body: FlatList) -> Result<FlatList, AllocError>
    ensures { IfOk result (λ f. f ≡ loops_in body) }
{
    let mut loops = FlatList::new(alloc);
    add_loops(alloc, &mut loops, body.wholes)?;
    Ok(loops)
}

/// Behind a tree stand the loops of others.
#[cycle(loops)]
fn add_loops(alloc: Global, loops: &mut FlatList, wholes: Vec<Whole>) -> Result<(), AllocError>
    ensures { OnOk result (loops.new ≡ joined loops.old (loops_in (wholes_flat wholes.items))) }
{
    for whole in wholes {
        add_loop(alloc, loops, whole)?;
    }
    Ok(())
}

/// Behind a tree stands a loop with its loops alone in it, or stand the loops in a save.
#[cycle(loops)]
fn add_loop(alloc: Global, loops: &mut FlatList, whole: Whole) -> Result<(), AllocError>
    ensures { OnOk result (loops.new ≡ joined loops.old (loops_in (whole_front whole done))) }
{
    match whole {
        Whole::Cycle(_, _) => Ok(()),
        Whole::Repeat(count, body) => {
            let inner = loops_of(alloc, Box::into_inner(body))?;
            loops.push_repeat(count, inner)
        }
        Whole::Save(_, body) => {
            let body = Box::into_inner(body);
            add_loops(alloc, loops, body.wholes)
        }
    }
}
