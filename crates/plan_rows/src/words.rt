//! Numbers and texts as the fields of a record spell them.

ghost use Rattle.std.specs.Prelude.{◌≡◌, MatchOption, None, Some, length, nat_le, nat_lt, ◌&&◌};
ghost use Rattle.std.specs.List.{list_all};
ghost use Rattle.std.specs.Str.{bytes_eq};
ghost use Rattle.text_bytes.specs.Bytes.{is_printing};
ghost use Rattle.plan_rows.specs.Words.{number_in, name_of, net_of};

use text_bytes::{LONGEST_LABEL, LONGEST_NAME, all_printable, are_digits, is_printing, number_of};

/// The most digits of a number that is told from greater ones.
const MOST_DIGITS: usize = 20;

/// Whether a field is this word.
pub(crate) fn is_word(bytes: &[u8], word: &[u8]) -> bool
    ensures { result ≡ bytes_eq bytes.now word.now }
{
    bytes == word
}

/// The number that a field is, if it is decimal digits; more than 20 of them are beyond every range.
pub(crate) fn number_in(bytes: &[u8]) -> Option<u64>
    ensures { result ≡ number_in bytes.now }
{
    if !are_digits(bytes) {
        None
    } else if bytes.len() > MOST_DIGITS {
        Some(u64::MAX)
    } else {
        Some(number_of(bytes))
    }
}

/// Whether it is 1 to this many bytes.
fn has_length(most: usize, bytes: &[u8]) -> bool
    ensures { result ≡ (nat_lt 0 (length bytes.now) && nat_le (length bytes.now) most) }
{
    !bytes.is_empty() && bytes.len() <= most
}

/// Whether each byte shows in print.
fn all_printing(bytes: &[u8]) -> bool
    ensures { result ≡ list_all is_printing bytes.now }
{
    bytes.iter().all(|byte| is_printing(*byte))
}

/// The name of a die or a file: 1 to 255 bytes from 0x21 to 0x7E.
pub(crate) fn name_of(bytes: &[u8]) -> Option<&[u8]>
    ensures { MatchOption result (name_of bytes.now ≡ None) (λ name. name_of bytes.now ≡ Some name.now) }
{
    if has_length(LONGEST_LABEL, bytes) && all_printing(bytes) {
        Some(bytes)
    } else {
        None
    }
}

/// The name of a signal or a net: 1 to 1,024 bytes from 0x20 to 0x7E.
pub(crate) fn net_of(bytes: &[u8]) -> Option<&[u8]>
    ensures { MatchOption result (net_of bytes.now ≡ None) (λ net. net_of bytes.now ≡ Some net.now) }
{
    if has_length(LONGEST_NAME, bytes) && all_printable(bytes) {
        Some(bytes)
    } else {
        None
    }
}
