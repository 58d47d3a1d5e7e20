//! How many cycles packed instructions run, without unrolling them.

ghost use Rattle.std.specs.Prelude.{◌≡◌, ◌+◌, min, false};
ghost use Rattle.text_bytes.specs.Limits.{most_cycles};
ghost use Rattle.packed_code.specs.Meaning.{cycle_count};
ghost use Rattle.packed_code.specs.Whole.{IsRest};

use crate::cycle_sums::CycleSums;
use crate::packed::PackedInstr;

/// How many cycles the instructions of an executive run, or one more than the most where they are more.
pub fn cycles(code: &[PackedInstr]) -> u64
    requires { IsRest 0 false code.now }
    ensures { result ≡ min (cycle_count code.now) (most_cycles + 1) }
{
    let mut sums = CycleSums::new();
    let mut at = code.len();
    while at > 0 {
        at -= 1;
        sums.put(code[at].instr());
    }
    sums.top()
}
