//! The beginning of a walk.

ghost use Rattle.std.specs.Prelude.{◌≡◌, ◌<◌, length};
ghost use Rattle.packed_code.specs.Walk.{IsOver, cycles_left};
ghost use Rattle.packed_code.specs.Cycles.{cycles_of};

use crate::code::Code;
use crate::walker::Walk;

/// A walk over the cycles of an executive, which gives them one by one from the first on.
pub fn walk(code: &Code, exec: u16) -> Walk
    requires { exec < length code.now.execs }
    ensures over { IsOver code.now result }
    ensures coming { cycles_left code.now result ≡ cycles_of code.now exec }
{
    Walk::begun(code, exec)
}
