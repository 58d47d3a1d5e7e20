//! Numbers among the words of the command line.

ghost use Rattle.std.specs.Prelude.{◌≡◌, ℕ, ◌≤◌, ◌<◌, decimal, IfSome, IfNone, ◌↔◌, IsTrue};

use itoa::Buffer;

/// The number between these that the word spells in decimal digits.
pub fn read_number(word: &str, least: u8, most: u8) -> Option<u8>
    requires { most < 255 }
    ensures found { IfSome result (λ n. (least ≤ n) × (n ≤ most) × (word.now ≡ decimal n)) }
    ensures none { IfNone result ((n : ℕ) → least ≤ n → n ≤ most → word.now ≡ decimal n → ⊥) }
{
    for number in least..most + 1 {
        if is_spelled(word, number) {
            return Some(number);
        }
    }
    None
}

/// Whether the word spells the number.
fn is_spelled(word: &str, number: u8) -> bool
    ensures { IsTrue result ↔ (word.now ≡ decimal number) }
{
    word == Buffer::new().format(number)
}
