//! How many cycles instructions run, without unrolling them: a count that begins at their end.

ghost use Rattle.std.specs.Prelude.{◌≡◌, ◌<◌, [], ◌∷◌, List, length, map, slice_index_or};
ghost use Rattle.packed_code.specs.Meaning.{body_counts};
ghost use Rattle.packed_code.specs.Count.{HasRoom, capped, capped_on_top, capped_closed};

use crate::instr::Instr;
use std::marker::Model;
use text_bytes::MOST_CYCLES;

/// The numbers of cycles of the bodies that stand one in the other at a place, from there to their ends. Instructions are
/// put in front of it, the last one first. No number goes above one more than the most that an executive may run.
/// Contracts see it as these numbers, that of the innermost body first.
#[derive(Drop)]
pub struct CycleSums {
    sums: [u64; 65],
    height: usize,
}

impl Model for CycleSums {
    ghost use Rattle.std.specs.Prelude.{◌≡◌, ℕ, List, ◌≤◌, length};
    ghost use Rattle.packed_code.specs.Count.{stack};

    ghost Value = { List ℕ };

    ghost view = { λ s. stack s.height s.sums };

    ghost invariant = { λ s. (s.height ≤ 65) × (length s.sums ≡ 65) };
}

impl CycleSums {
    /// One body without a cycle.
    pub fn new() -> CycleSums
        ensures { result ≡ 0 ∷ [] }
    {
        CycleSums {
            sums: [0; 65],
            height: 1,
        }
    }

    /// The number of the innermost body.
    pub fn top(&self) -> u64
        requires { 0 < length self.now }
        ensures { result ≡ slice_index_or self.now 0 0 }
    {
        self.sums[self.height - 1]
    }

    /// A body begins, seen from its end.
    fn open(&mut self)
        requires { length self.old < 65 }
        ensures { self.new ≡ 0 ∷ self.old }
    {
        self.sums[self.height] = 0;
        self.height += 1;
    }

    /// The innermost body gets so many cycles more.
    fn run(&mut self, times: u32)
        requires { 0 < length self.old }
        ensures { self.new ≡ capped_on_top times self.old }
    {
        let body = self.sums[self.height - 1];
        self.sums[self.height - 1] = at_most(u64::from(times).saturating_add(body));
    }

    /// The innermost body runs so many times over, before the one round it goes on.
    fn close(&mut self, times: u64)
        requires { 1 < length self.old }
        ensures { self.new ≡ capped_closed times self.old }
    {
        let body = self.sums[self.height - 1];
        self.height -= 1;
        let after = self.sums[self.height - 1];
        self.sums[self.height - 1] = at_most(times.saturating_mul(body).saturating_add(after));
    }

    /// Puts an instruction in front.
    pub fn put(&mut self, instr: Instr)
        requires { HasRoom instr (length self.old) }
        ensures { (rest : List Instr) → self.old ≡ map capped (body_counts rest)
            → self.new ≡ map capped (body_counts (instr ∷ rest)) }
    {
        match instr {
            Instr::Run { times, .. } => self.run(times),
            Instr::Loop { times } => self.close(times),
            Instr::End => self.open(),
            Instr::Done => *self = CycleSums::new(),
        }
    }
}

/// The number, or one more than the most cycles of an executive where it is above.
fn at_most(cycles: u64) -> u64
    ensures { result ≡ capped cycles }
{
    cycles.min(MOST_CYCLES + 1)
}
