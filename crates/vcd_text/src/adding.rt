//! Calls that are added to a tape, which is given room in step with them.

ghost use Rattle.std.specs.Prelude.{◌≡◌, ◌∷◌, ◌++◌, [], OnOk, OnErr};

use die_sim::Tape;
use tester_types::{Drive, NoMemory};

/// The most room that a tape is given at once.
const MOST_ROOM: usize = 1 << 30;

/// Adds a call to a tape, which is given as much room again as its calls have taken, where it needs some.
pub fn add_call(tape: &mut Tape, at: u128, drives: &[(u16, Drive)]) -> Result<(), NoMemory>
    ensures added { OnOk result (tape.new.calls ≡ tape.old.calls ++ (at, drives.now) ∷ []) }
    ensures kept { OnErr result (tape.new.calls ≡ tape.old.calls) }
{
    if drives.len() >= MOST_ROOM {
        return Err(NoMemory);
    }
    let needed = drives.len() + 1;
    if (tape.left() as usize) < needed {
        let again = tape.len().saturating_mul(2);
        tape.reserve(needed.max(again).min(MOST_ROOM) as u32)?;
    }
    tape.add(at, drives);
    Ok(())
}
