//! The pattern of a drill.

ghost use Rattle.std.specs.Prelude.{◌≡◌, ◌≤◌, ◌<◌, ◌++◌, ◌*◌, ◌-◌, length, codes, nat_lt, if◌then◌else◌, IfOk, OnOk};
ghost use Rattle.text_bytes.specs.Limits.{most_bytes};
ghost use Rattle.drill_fine.specs.Texts.{driven_bit, vector_line};
ghost use Rattle.drill_fine.specs.Texts.{stil_head, stil_tail, stil_text};

use std::alloc::{AllocError, Global};

/// What stands before the vectors.
const HEAD: &[u8] = b"STIL 1.0;\n\
    Signals { d In; ck In; q Out; }\n\
    Timing { WaveformTable w { Period '100ns'; Waveforms {\n\
    d { 01 { '0ns' D/U; } }\n\
    ck { P { '0ns' D; '50ns' U; } }\n\
    q { LHX { '40ns' L/H/X; } }\n\
    } } }\n\
    Pattern p { W w;\n";

/// What stands behind the vectors.
const TAIL: &[u8] = b"}\n\
    PatternBurst b { PatList { p; } }\n\
    PatternExec { PatternBurst b; }\n";

/// The pattern of the drill of this number.
pub(crate) fn stil_text(alloc: Global, number: u8) -> Result<Vec<u8>, AllocError>
    ensures text { IfOk result (λ text. text.items ≡ stil_text number) }
    ensures few { IfOk result (λ text. length text.items ≤ most_bytes) }
{
    let mut text = with_head(alloc)?;
    for place in 0..500 * u64::from(number) {
        put_vector(&mut text, u64::from(number), place)?;
    }
    put_tail(&mut text)?;
    Ok(text)
}

/// The text that stands before the vectors.
#[tactic(auto, unfolding(drill_fine::specs::Texts::stil_head))]
fn with_head(alloc: Global) -> Result<Vec<u8>, AllocError>
    ensures { IfOk result (λ text. text.items ≡ stil_head) }
{
    Vec::from_slice(alloc, HEAD)
}

/// Puts what stands behind the vectors.
#[tactic(auto, unfolding(drill_fine::specs::Texts::stil_tail))]
fn put_tail(text: &mut Vec<u8>) -> Result<(), AllocError>
    ensures { OnOk result (text.new.items ≡ text.old.items ++ stil_tail) }
{
    text.extend_from_slice(TAIL)
}

/// Puts the line of a vector.
#[tactic(auto, unfolding(drill_fine::specs::Texts::vector_line))]
fn put_vector(text: &mut Vec<u8>, number: u64, place: u64) -> Result<(), AllocError>
    requires number { number < 256 }
    requires place { place < 127500 }
    ensures { OnOk result (text.new.items ≡ text.old.items ++ vector_line number place) }
{
    text.extend_from_slice(b"V { d=")?;
    text.extend_from_slice(bit_character(number, place, b"1", b"0"))?;
    text.extend_from_slice(b"; ck=P; q=")?;
    text.extend_from_slice(look_letter(number, place))?;
    text.extend_from_slice(b"; }\n")
}

/// The character of `q` in a vector.
fn look_letter(number: u64, place: u64) -> &'static [u8]
    requires number { number < 256 }
    requires place { place < 127500 }
    ensures { result.now ≡ (if nat_lt place number then codes "X"
        else if driven_bit number (place - number) then codes "H" else codes "L") }
{
    if place < number {
        b"X"
    } else {
        bit_character(number, place - number, b"H", b"L")
    }
}

/// The character for what a vector drives: one where `d` is high, and the other where it is low.
fn bit_character(number: u64, place: u64, high: &'static [u8], low: &'static [u8]) -> &'static [u8]
    requires number { number < 256 }
    requires place { place < 127500 }
    ensures { result.now ≡ (if driven_bit number place then high.now else low.now) }
{
    if (place * place + number) % 7 < 3 {
        high
    } else {
        low
    }
}
