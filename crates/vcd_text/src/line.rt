//! One line of a dump, read.

ghost use Rattle.std.specs.Prelude.{◌≡◌, ◌+◌, ◌*◌, ◌-◌, ◌^◌, ◌<◌, ◌≤◌, [], ◌∷◌, ◌++◌, ◌&&◌, nat_le, ℕ, true, List, IfSome, IfNone, length, codes, decimal, fold, min, take};
ghost use Rattle.text_bytes.specs.Limits.{longest_name, most_signals};
ghost use Rattle.tester_types.specs.declared.level.Drive.{Drive as AnyDrive};
ghost use Rattle.vcd_text.specs.Dump.{Line as AnyLine, spelled, is_plain, id_of, value_of, named, change};
ghost use Rattle.vcd_text.specs.Standing.{FitsLine, IsHeadLine};
ghost use Rattle.vcd_text.specs.Seen.{seen};
ghost use Rattle.vcd_text.specs.Digits.{number_by};

use crate::name::{is_plain, number_of};
use itoa::Buffer;
use tester_types::Drive;
use text_bytes::LONGEST_NAME;

/// What a line of a dump says.
#[derive(Clone, Copy, Debug)]
pub(crate) enum Line<'a> {
    Timescale,
    Scope,
    /// A var: its signal's number, and its name.
    Named(u16, &'a [u8]),
    Upscope,
    Definitions,
    /// The instant of a call.
    At(u128),
    /// A drive of a signal.
    Change(u16, Drive),
}

/// The number of decimal digits; one beyond 2^128 - 1 is read as that.
fn number_by(digits: &[u8]) -> u128
    ensures { result ≡ number_by digits.now }
{
    let mut number = 0u128;
    for digit in digits {
        let digit = u128::from(digit.saturating_sub(b'0'));
        number = number.saturating_mul(10).saturating_add(digit);
    }
    number
}

/// The instant that decimal digits without a leading zero spell.
fn instant_of(digits: &[u8]) -> Option<u128>
    ensures found { IfSome result (λ n. digits.now ≡ decimal n) }
    ensures none { IfNone result ((n : ℕ) → n < 2 ^ 128 → digits.now ≡ decimal n → ⊥) }
{
    let number = number_by(digits);
    if Buffer::new().format(number).as_bytes() == digits {
        Some(number)
    } else {
        None
    }
}

/// The value of a byte.
fn drive_of(value: u8) -> Option<Drive>
    ensures found { IfSome result (λ drive. value ≡ value_of drive) }
    ensures none { IfNone result ((drive : AnyDrive) → value ≡ value_of drive → ⊥) }
{
    match value {
        b'0' => Some(Drive::Down),
        b'1' => Some(Drive::Up),
        b'z' => Some(Drive::Off),
        b'x' => Some(Drive::Unknown),
        _ => None,
    }
}

/// The line of a value and a short name.
fn change_of(value: u8, id: &[u8]) -> Option<Line<'_>>
    ensures found { IfSome result (λ line. FitsLine (seen line) × (value ∷ id.now ≡ spelled (seen line))) }
    ensures none { IfNone result ((signal : ℕ) (drive : AnyDrive) → signal < most_signals
        → value ∷ id.now ≡ spelled (change signal drive) → ⊥) }
{
    match (drive_of(value), number_of(id)) {
        (Some(drive), Some(signal)) => Some(Line::Change(signal, drive)),
        _ => None,
    }
}

/// The short name in front of a space, and what is behind it.
fn front_id(text: &[u8]) -> Option<(u16, &[u8])>
    ensures found { IfSome result (λ x. (x.0 < most_signals) × (text.now ≡ id_of x.0 ++ (codes " " ++ x.1.now))) }
    ensures none { IfNone result ((signal : ℕ) (rest : List ℕ) → signal < most_signals
        → text.now ≡ id_of signal ++ (codes " " ++ rest) → ⊥) }
{
    let (id, rest) = match text {
        [_, b' ', rest @ ..] => (&text[..1], rest),
        [_, _, b' ', rest @ ..] => (&text[..2], rest),
        _ => return None,
    };
    match number_of(id) {
        Some(signal) => Some((signal, rest)),
        None => None,
    }
}

/// What stands in front of the end of a line.
fn front_of_end(text: &[u8]) -> Option<&[u8]>
    ensures found { IfSome result (λ front. text.now ≡ front.now ++ codes " $end") }
    ensures none { IfNone result ((front : List ℕ) → text.now ≡ front ++ codes " $end" → ⊥) }
{
    text.strip_suffix(b" $end")
}

/// Whether a name is plain and not too long.
fn is_short_plain(name: &[u8]) -> bool
    ensures { result ≡ (is_plain name.now && nat_le (length name.now) longest_name) }
{
    is_plain(name) && name.len() <= LONGEST_NAME
}

/// The name in front of the end of a line.
fn name_in(text: &[u8]) -> Option<&[u8]>
    ensures found { IfSome result (λ name. (is_plain name.now ≡ true) × (length name.now ≤ longest_name)
        × (text.now ≡ name.now ++ codes " $end")) }
    ensures none { IfNone result ((name : List ℕ) → is_plain name ≡ true → length name ≤ longest_name
        → text.now ≡ name ++ codes " $end" → ⊥) }
{
    match front_of_end(text) {
        Some(name) => {
            if is_short_plain(name) {
                Some(name)
            } else {
                None
            }
        }
        None => None,
    }
}

/// The line of a var.
fn named_of(text: &[u8]) -> Option<Line<'_>>
    ensures found { IfSome result (λ line. FitsLine (seen line) × (text.now ≡ spelled (seen line))) }
    ensures none { IfNone result ((signal : ℕ) (name : List ℕ) → FitsLine (named signal name)
        → text.now ≡ spelled (named signal name) → ⊥) }
{
    match behind_start(text) {
        Some(rest) => var_of(rest),
        None => None,
    }
}

/// What stands behind the first words of a var's line.
fn behind_start(text: &[u8]) -> Option<&[u8]>
    ensures found { IfSome result (λ rest. text.now ≡ codes "$var wire 1 " ++ rest.now) }
    ensures none { IfNone result ((rest : List ℕ) → text.now ≡ codes "$var wire 1 " ++ rest → ⊥) }
{
    text.strip_prefix(b"$var wire 1 ")
}

/// The line of a var behind its first words.
fn var_of(text: &[u8]) -> Option<Line<'_>>
    ensures found { IfSome result (λ line.
        FitsLine (seen line) × (codes "$var wire 1 " ++ text.now ≡ spelled (seen line))) }
    ensures none { IfNone result ((signal : ℕ) (name : List ℕ) → FitsLine (named signal name)
        → text.now ≡ id_of signal ++ (codes " " ++ (name ++ codes " $end")) → ⊥) }
{
    match front_id(text) {
        Some((signal, rest)) => match name_in(rest) {
            Some(name) => Some(Line::Named(signal, name)),
            None => None,
        },
        None => None,
    }
}

/// The line that begins with `$`.
fn head_line_of(text: &[u8]) -> Option<Line<'_>>
    ensures found { IfSome result (λ line. FitsLine (seen line) × (text.now ≡ spelled (seen line))) }
    ensures none { IfNone result ((line : AnyLine) → FitsLine line → IsHeadLine line → text.now ≡ spelled line → ⊥) }
{
    if text == b"$timescale 1 fs $end".as_slice() {
        Some(Line::Timescale)
    } else if text == b"$scope module die $end".as_slice() {
        Some(Line::Scope)
    } else if text == b"$upscope $end".as_slice() {
        Some(Line::Upscope)
    } else if text == b"$enddefinitions $end".as_slice() {
        Some(Line::Definitions)
    } else {
        named_of(text)
    }
}

/// What a line says, without its line feed.
pub(crate) fn line_of(text: &[u8]) -> Option<Line<'_>>
    ensures found { IfSome result (λ line. FitsLine (seen line) × (text.now ≡ spelled (seen line))) }
    ensures none { IfNone result ((line : AnyLine) → FitsLine line → text.now ≡ spelled line → ⊥) }
{
    match text {
        [b'#', digits @ ..] => match instant_of(digits) {
            Some(instant) => Some(Line::At(instant)),
            None => None,
        },
        [b'$', ..] => head_line_of(text),
        [value, id @ ..] => change_of(*value, id),
        [] => None,
    }
}
