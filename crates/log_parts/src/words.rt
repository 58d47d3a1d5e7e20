//! The bin that a line of a datalog tells.

ghost use Rattle.std.specs.Prelude.{◌≡◌, ◌≤◌, ℕ, IfSome, IfNone, IsTrue, ◌↔◌};
ghost use Rattle.log_parts.specs.Step.{bin_words};

use part_lines::is_printed;
use tester_types::Piece;

/// The bin that a line tells, 1 to 99.
pub(crate) fn told_bin(line: &[u8]) -> Option<u8>
    ensures found { IfSome result (λ bin. (1 ≤ bin) × (bin ≤ 99) × (line.now ≡ bin_words bin)) }
    ensures none { IfNone result ((bin : ℕ) → 1 ≤ bin → bin ≤ 99 → line.now ≡ bin_words bin → ⊥) }
{
    for bin in 1..100 {
        if tells_bin(line, bin) {
            return Some(bin);
        }
    }
    None
}

/// Whether a line tells this bin.
fn tells_bin(line: &[u8], bin: u8) -> bool
    ensures { IsTrue result ↔ (line.now ≡ bin_words bin) }
{
    is_printed(
        line,
        &[Piece::Text(b"bin "), Piece::Number(u128::from(bin))],
    )
}
