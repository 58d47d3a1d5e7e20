//! The window of a cursor: one decoded page.

ghost use Rattle.std.specs.Prelude.{◌≡◌, ◌<◌, ◌≤◌, Some, None, IfOk, length, slice_get};
ghost use Rattle.pattern_mem.specs.Pool.{is_of, shown};

use packed_code::{Instr, PAGE};
use std::alloc::{AllocError, Global};
use std::marker::Model;
use tester_types::NoMemory;

/// Room for one decoded page. Contracts see it as the page's number and its instructions, or as `None` where it has no
/// page.
#[derive(Drop)]
pub struct Window {
    number: u32,
    held: bool,
    instrs: Vec<Instr>,
}

impl Model for Window {
    ghost use Rattle.std.specs.Prelude.{ℕ, List, Option, Some, None, ◌≤◌, cond};
    ghost use Rattle.std.specs.Vec.{vec_capacity};
    ghost use Rattle.packed_code.specs.declared.instr.Instr.{Instr};
    ghost use Rattle.pattern_mem.specs.Pool.{seen};

    ghost Value = { Option (ℕ × List Instr) };

    ghost view = { λ w. seen w.held w.number w.instrs.items };

    ghost invariant = { λ w. 256 ≤ vec_capacity w.instrs };
}

impl Window {
    /// A window without a page. It is an `Err` only for want of memory.
    pub fn new(alloc: Global) -> Result<Window, NoMemory>
        ensures { IfOk result (λ window. window ≡ None) }
    {
        Ok(Window {
            number: 0,
            held: false,
            instrs: Vec::with_capacity(alloc, PAGE)?,
        })
    }

    /// Whether it has the page of this number.
    #[inline(always)]
    pub(crate) fn has(&self, number: u32) -> bool
        ensures { result ≡ is_of number self.now }
    {
        self.held && self.number == number
    }

    /// The instruction at a place of its page.
    #[inline(always)]
    pub(crate) fn instr(&self, place: usize) -> Instr
        requires { place < length (shown self.now) }
        ensures { slice_get (shown self.now) place ≡ Some result }
    {
        self.instrs[place]
    }

    /// Puts a page in place of the one that it has. It takes no memory.
    pub(crate) fn show(&mut self, number: u32, page: &[Instr])
        requires { length page.now ≤ 256 }
        ensures { self.new ≡ Some (number, page.now) }
    {
        self.number = number;
        self.held = true;
        self.instrs.clear();
        if self.instrs.extend_from_slice(page).is_err() {
            unreachable!()
        }
    }
}
