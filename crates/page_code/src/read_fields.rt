//! Reading fields of a saved program: bytes, numbers and texts, each with the bytes behind it.

ghost use Rattle.std.specs.Prelude.{◌≡◌, ◌&&◌, true, nat_le, nat_lt, length, IfOk};
ghost use Rattle.std.specs.List.{list_all};
ghost use Rattle.std.specs.Int.{w16, w32, w64};
ghost use Rattle.page_code.specs.declared.fault.Refusal.TheVariants.{BadCode};
ghost use Rattle.answers.specs.declared.short.Short.TheVariants.{Fault};
ghost use Rattle.text_bytes.specs.Bytes.{is_character};
ghost use Rattle.page_code.specs.Fields.{Gives, byte_at, piece_at, number_at, checked};
ghost use Rattle.page_code.specs.Reading.{raw_text_at, text_at, name_at};

use crate::fault::{ReadError, Refusal};
use std::alloc::Global;
use tester_types::Text;
use text_bytes::{LONGEST_NAME, all_printable, is_character};

/// A condition fails at the first of these bytes.
pub(crate) fn bad(bytes: &[u8]) -> ReadError
    ensures { result ≡ Fault (BadCode (length bytes.now)) }
{
    ReadError::Fault(Refusal::BadCode(bytes.len()))
}

/// A byte.
pub(crate) fn byte(bytes: &[u8]) -> Result<(u8, &[u8]), ReadError>
    ensures { Gives (λ x. (x.0, x.1.now)) result (byte_at bytes.now) }
{
    match bytes {
        [] => Err(ReadError::Fault(Refusal::Torn)),
        [byte, rest @ ..] => Ok((*byte, rest)),
    }
}

/// So many bytes.
pub(crate) fn piece(size: usize, bytes: &[u8]) -> Result<(&[u8], &[u8]), ReadError>
    ensures read { Gives (λ x. (x.0.now, x.1.now)) result (piece_at size bytes.now) }
    ensures size { IfOk result (λ x. length x.0.now ≡ size) }
{
    if bytes.len() < size {
        return Err(ReadError::Fault(Refusal::Torn));
    }
    Ok(bytes.split_at(size))
}

/// A number of 16 bits.
#[tactic(auto, unfolding(crate::specs::Fields::number_at))]
pub(crate) fn number16(bytes: &[u8]) -> Result<(u16, &[u8]), ReadError>
    ensures { Gives (λ x. (x.0, x.1.now)) result (number_at w16 bytes.now) }
{
    if bytes.len() < 2 {
        return Err(ReadError::Fault(Refusal::Torn));
    }
    let (front, rest) = bytes.split_at(2);
    Ok((u16::from_le_bytes([front[0], front[1]]), rest))
}

/// A number of 32 bits.
#[tactic(auto, unfolding(crate::specs::Fields::number_at))]
pub(crate) fn number32(bytes: &[u8]) -> Result<(u32, &[u8]), ReadError>
    ensures { Gives (λ x. (x.0, x.1.now)) result (number_at w32 bytes.now) }
{
    if bytes.len() < 4 {
        return Err(ReadError::Fault(Refusal::Torn));
    }
    let (front, rest) = bytes.split_at(4);
    let number = u32::from_le_bytes([front[0], front[1], front[2], front[3]]);
    Ok((number, rest))
}

/// A number of 64 bits.
#[tactic(auto, unfolding(crate::specs::Fields::number_at))]
pub(crate) fn number64(bytes: &[u8]) -> Result<(u64, &[u8]), ReadError>
    ensures { Gives (λ x. (x.0, x.1.now)) result (number_at w64 bytes.now) }
{
    if bytes.len() < 8 {
        return Err(ReadError::Fault(Refusal::Torn));
    }
    let (front, rest) = bytes.split_at(8);
    let number = u64::from_le_bytes([
        front[0], front[1], front[2], front[3], front[4], front[5], front[6], front[7],
    ]);
    Ok((number, rest))
}

/// A byte of at most so much.
pub(crate) fn byte_to(most: u8, bytes: &[u8]) -> Result<(u8, &[u8]), ReadError>
    ensures { Gives (λ x. (x.0, x.1.now)) result (checked byte_at (λ n. nat_le n most) bytes.now) }
{
    let (number, rest) = byte(bytes)?;
    if number > most {
        return Err(bad(bytes));
    }
    Ok((number, rest))
}

/// A number of 16 bits of at most so much.
pub(crate) fn number16_to(most: u16, bytes: &[u8]) -> Result<(u16, &[u8]), ReadError>
    ensures { Gives (λ x. (x.0, x.1.now)) result (checked (number_at w16) (λ n. nat_le n most) bytes.now) }
{
    let (number, rest) = number16(bytes)?;
    if number > most {
        return Err(bad(bytes));
    }
    Ok((number, rest))
}

/// A number of 16 bits below a limit.
pub(crate) fn number16_below(limit: usize, bytes: &[u8]) -> Result<(u16, &[u8]), ReadError>
    ensures { Gives (λ x. (x.0, x.1.now)) result (checked (number_at w16) (λ n. nat_lt n limit) bytes.now) }
{
    let (number, rest) = number16(bytes)?;
    if number as usize >= limit {
        return Err(bad(bytes));
    }
    Ok((number, rest))
}

/// A number of 32 bits of at most so much.
pub(crate) fn number32_to(most: u32, bytes: &[u8]) -> Result<(u32, &[u8]), ReadError>
    ensures { Gives (λ x. (x.0, x.1.now)) result (checked (number_at w32) (λ n. nat_le n most) bytes.now) }
{
    let (number, rest) = number32(bytes)?;
    if number > most {
        return Err(bad(bytes));
    }
    Ok((number, rest))
}

/// A letter or a digit.
pub(crate) fn character(bytes: &[u8]) -> Result<(u8, &[u8]), ReadError>
    ensures { Gives (λ x. (x.0, x.1.now)) result (checked byte_at is_character bytes.now) }
{
    let (character, rest) = byte(bytes)?;
    if !is_character(character) {
        return Err(bad(bytes));
    }
    Ok((character, rest))
}

/// A length and that many bytes, not judged yet.
#[tactic(auto, unfolding(crate::specs::Reading::raw_text_at))]
pub(crate) fn raw_text(bytes: &[u8]) -> Result<(&[u8], &[u8]), ReadError>
    ensures { Gives (λ x. (x.0.now, x.1.now)) result (raw_text_at bytes.now) }
{
    let (length, rest) = number16_to(LONGEST_NAME as u16, bytes)?;
    piece(length as usize, rest)
}

/// A text.
#[tactic(auto, unfolding(crate::specs::Reading::text_at))]
pub(crate) fn text(alloc: Global, bytes: &[u8]) -> Result<(Text, &[u8]), ReadError>
    ensures { Gives (λ x. (x.0, x.1.now)) result (text_at (λ text. true) bytes.now) }
{
    let (raw, rest) = raw_text(bytes)?;
    if !all_printable(raw) {
        return Err(bad(bytes));
    }
    Ok((Text::from_slice(alloc, raw)?, rest))
}

/// A text that is not empty.
#[tactic(auto, unfolding(crate::specs::Reading::text_at))]
pub(crate) fn name(alloc: Global, bytes: &[u8]) -> Result<(Text, &[u8]), ReadError>
    ensures { Gives (λ x. (x.0, x.1.now)) result (name_at bytes.now) }
{
    let (raw, rest) = raw_text(bytes)?;
    if !all_printable(raw) || raw.is_empty() {
        return Err(bad(bytes));
    }
    Ok((Text::from_slice(alloc, raw)?, rest))
}
