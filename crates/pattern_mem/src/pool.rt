//! The pool: the pages of a code that were asked for last, decoded.

ghost use Rattle.std.specs.Prelude.{◌≡◌, ◌<◌, ◌≤◌, Some, IfOk, OnOk, OnErr, length, nat_eq, slice_get};
ghost use Rattle.std.specs.Map.{lookup};
ghost use Rattle.std.specs.Arc.{arc_value};
ghost use Rattle.packed_code.specs.Cycles.{pages_of};
ghost use Rattle.pattern_mem.specs.Pool.{new_pool, basis_of, page_at, is_held, answered, asked, IsPool};

use crate::window::Window;
use lru::LruCache;
use packed_code::{Code, Instr, PAGE};
use std::alloc::{AllocError, Global};
use std::marker::Model;
use std::num::NonZeroUsize;
use std::sync::Arc;
use tester_types::{Items, NoMemory};

/// Whether the page that was asked for was in the pool.
#[derive(Clone, Copy, Debug, PartialEq, Eq)]
pub enum Fetched {
    /// It was.
    Hit,
    /// It wasn't, and was decoded.
    Miss,
}

/// A code and those of its pages that were asked for last, decoded, at most as many as it has frames.
/// Contracts see it as its code, its entries with the last first, and its frames.
#[derive(Drop)]
pub struct PoolState {
    alloc: Global,
    code: Arc<Code>,
    cache: LruCache<u32, Items<Instr>>,
}

impl Model for PoolState {
    ghost use Rattle.std.specs.Arc.{arc_value};
    ghost use Rattle.pattern_mem.specs.Pool.{Pool, pool_of, IsPool};

    ghost Value = { Pool };

    ghost view = { λ p. pool_of (arc_value p.code) p.cache };

    ghost invariant = { λ p. IsPool (pool_of (arc_value p.code) p.cache) };
}

impl PoolState {
    /// A pool without entries over this code, with room for so many decoded pages. It is an `Err` only for want of
    /// memory.
    pub fn new(alloc: Global, code: Arc<Code>, frames: u16) -> Result<PoolState, NoMemory>
        requires frames { (1 ≤ frames) × (frames ≤ 256) }
        ensures { IfOk result (λ pool. pool ≡ new_pool (arc_value code) frames) }
    {
        let Some(room) = NonZeroUsize::new(usize::from(frames)) else {
            unreachable!()
        };
        let cache = LruCache::new(alloc, room)?;
        let _valid = cache.len();
        Ok(PoolState { alloc, code, cache })
    }

    /// Shows a page in the window, decoded. The page is then first among the entries; where it wasn't among them and there
    /// was no more room, the last is dropped. It is an `Err` only for want of memory, and all is as it was then.
    pub fn fetch(&mut self, page: u32, window: &mut Window) -> Result<Fetched, NoMemory>
        requires { page < length (pages_of self.old.code) }
        ensures window { OnOk result (window.new ≡ Some (page, page_at self.old.code page)) }
        ensures entries { OnOk result (self.new ≡ asked self.old page) }
        ensures answer { IfOk result (λ fetched. fetched ≡ answered (is_held page self.old)) }
        ensures window_as_it_was { OnErr result (window.new ≡ window.old) }
        ensures entries_as_they_were { OnErr result (self.new ≡ self.old) }
        ensures basis { basis_of self.new ≡ basis_of self.old }
        ensures pool { IsPool self.new }
    {
        match self.hold(page) {
            Ok(fetched) => {
                self.show(page, window);
                Ok(fetched)
            }
            Err(fault) => Err(fault),
        }
    }

    /// Puts a page first among the entries.
    fn hold(&mut self, page: u32) -> Result<Fetched, NoMemory>
        requires { page < length (pages_of self.old.code) }
        ensures entries { OnOk result (self.new ≡ asked self.old page) }
        ensures answer { IfOk result (λ fetched. fetched ≡ answered (is_held page self.old)) }
        ensures entries_as_they_were { OnErr result (self.new ≡ self.old) }
        ensures basis { basis_of self.new ≡ basis_of self.old }
        ensures pool { IsPool self.new }
    {
        if self.cache.promote(&page) {
            let _valid = self.cache.len();
            return Ok(Fetched::Hit);
        }
        let instrs = decoded(self.alloc, &self.code, page)?;
        self.cache.put(page, instrs)?;
        let _valid = self.cache.len();
        Ok(Fetched::Miss)
    }

    /// Shows the page of the first entry in the window.
    fn show(&self, page: u32, window: &mut Window)
        requires { lookup (nat_eq page) self.now.entries ≡ Some (page_at self.now.code page) }
        ensures { window.new ≡ Some (page, page_at self.now.code page) }
    {
        if let Some(instrs) = self.cache.peek(&page) {
            window.show(page, instrs.as_slice());
        }
    }
}

/// A page of a code, decoded.
fn decoded(alloc: Global, code: &Code, page: u32) -> Result<Items<Instr>, AllocError>
    requires { page < length (pages_of code.now) }
    ensures { IfOk result (λ instrs. slice_get (pages_of code.now) page ≡ Some instrs) }
{
    let mut instrs = Vec::with_capacity(alloc, PAGE)?;
    for packed in code.page(page) {
        instrs.push(packed.instr())?;
    }
    Ok(Items::from_vec(instrs))
}
