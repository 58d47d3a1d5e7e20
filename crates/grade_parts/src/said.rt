//! What the line of a fault says.

ghost use Rattle.std.specs.Prelude.{◌≡◌, Bool, true, MatchOption};
ghost use Rattle.part_lines.specs.Lines.{is_one_line};
ghost use Rattle.grade_parts.specs.Log.{is_cycle, Stuck, Tells};
ghost use Rattle.grade_parts.specs.Step.{level_digit, stuck_of};

use crate::reading::behind;
use part_lines::{is_named, last_word};
use text_bytes::are_digits;

/// Whether these bytes tell a first failing cycle.
pub(crate) fn is_cycle(bytes: &[u8]) -> bool
    ensures { result ≡ is_cycle bytes.now }
{
    are_digits(bytes) || bytes == b"none".as_slice()
}

/// The net of the line of a fault, and whether it is stuck at 1; nothing where the line is none of a fault.
pub(crate) fn told_fault(line: &[u8]) -> Option<(&[u8], bool)>
    requires { is_one_line line.now ≡ true }
    ensures { MatchOption result ((stuck : Stuck) → Tells line.now stuck → ⊥)
        (λ said. Tells line.now (stuck_of said.0.now said.1)) }
{
    let (front, cycle) = last_word(line)?;
    if !is_cycle(cycle) {
        return None;
    }
    let (front, level) = last_word(front)?;
    let value = told_value(level)?;
    let net = behind(front, b"fault ")?;
    if !is_named(net) {
        return None;
    }
    Some((net, value))
}

/// The level that a word tells: whether it is 1.
fn told_value(word: &[u8]) -> Option<bool>
    ensures { MatchOption result ((value : Bool) → word.now ≡ level_digit value → ⊥)
        (λ value. word.now ≡ level_digit value) }
{
    match word {
        b"0" => Some(false),
        b"1" => Some(true),
        _ => None,
    }
}
