//! The acts of waveforms, each by its letter, its names and the number that stands for it in a saved program
//! (IEEE 1450-1999, clause 18).

ghost use Rattle.std.specs.Prelude.{◌≡◌};
ghost use Rattle.tester_types.specs.Acts.{act_code, act_of, look_letter, push_letter};

use crate::wave::{Act, Look, Push};

/// The acts, by their letters and their long names; an `x` is an `X`.
pub const ACT_NAMES: [(&[u8], Act); 25] = [
    (b"D", Act::Push(Push::Down)),
    (b"ForceDown", Act::Push(Push::Down)),
    (b"U", Act::Push(Push::Up)),
    (b"ForceUp", Act::Push(Push::Up)),
    (b"Z", Act::Push(Push::Off)),
    (b"ForceOff", Act::Push(Push::Off)),
    (b"N", Act::Push(Push::Unknown)),
    (b"ForceUnknown", Act::Push(Push::Unknown)),
    (b"P", Act::Push(Push::Prior)),
    (b"ForcePrior", Act::Push(Push::Prior)),
    (b"L", Act::Look(Look::Low)),
    (b"CompareLow", Act::Look(Look::Low)),
    (b"H", Act::Look(Look::High)),
    (b"CompareHigh", Act::Look(Look::High)),
    (b"T", Act::Look(Look::Off)),
    (b"CompareOff", Act::Look(Look::Off)),
    (b"X", Act::Look(Look::Close)),
    (b"x", Act::Look(Look::Close)),
    (b"CompareUnknown", Act::Look(Look::Close)),
    (b"l", Act::Look(Look::LowWindow)),
    (b"CompareLowWindow", Act::Look(Look::LowWindow)),
    (b"h", Act::Look(Look::HighWindow)),
    (b"CompareHighWindow", Act::Look(Look::HighWindow)),
    (b"t", Act::Look(Look::OffWindow)),
    (b"CompareOffWindow", Act::Look(Look::OffWindow)),
];

/// The letter of a drive.
pub fn push_letter(push: Push) -> &'static [u8]
    ensures { result.now ≡ push_letter push }
{
    match push {
        Push::Down => b"D",
        Push::Up => b"U",
        Push::Off => b"Z",
        Push::Unknown => b"N",
        Push::Prior => b"P",
    }
}

/// The letter of a look (IEEE 1450-1999, the event characters).
pub fn look_letter(look: Look) -> &'static [u8]
    ensures { result.now ≡ look_letter look }
{
    match look {
        Look::Low => b"L",
        Look::High => b"H",
        Look::Off => b"T",
        Look::LowWindow => b"l",
        Look::HighWindow => b"h",
        Look::OffWindow => b"t",
        Look::Close => b"X",
    }
}

/// An act's number.
pub fn act_byte(act: Act) -> u8
    ensures { result ≡ act_code act }
{
    match act {
        Act::Push(Push::Down) => 1,
        Act::Push(Push::Up) => 2,
        Act::Push(Push::Off) => 3,
        Act::Push(Push::Unknown) => 4,
        Act::Push(Push::Prior) => 5,
        Act::Look(Look::Low) => 6,
        Act::Look(Look::High) => 7,
        Act::Look(Look::Close) => 8,
        Act::Look(Look::Off) => 9,
        Act::Look(Look::LowWindow) => 10,
        Act::Look(Look::HighWindow) => 11,
        Act::Look(Look::OffWindow) => 12,
    }
}

/// The act of a number.
pub fn act_of_byte(byte: u8) -> Option<Act>
    ensures { result ≡ act_of byte }
{
    match byte {
        1 => Some(Act::Push(Push::Down)),
        2 => Some(Act::Push(Push::Up)),
        3 => Some(Act::Push(Push::Off)),
        4 => Some(Act::Push(Push::Unknown)),
        5 => Some(Act::Push(Push::Prior)),
        6 => Some(Act::Look(Look::Low)),
        7 => Some(Act::Look(Look::High)),
        8 => Some(Act::Look(Look::Close)),
        9 => Some(Act::Look(Look::Off)),
        10 => Some(Act::Look(Look::LowWindow)),
        11 => Some(Act::Look(Look::HighWindow)),
        12 => Some(Act::Look(Look::OffWindow)),
        _ => None,
    }
}
