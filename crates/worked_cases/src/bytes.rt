//! Lines of bytes, each as two hex digits.

use crate::case::LineFault;

/// The value of a hex digit.
fn digit_of(letter: u8) -> Option<u8> {
    match letter {
        b'0'..=b'9' => Some(letter - b'0'),
        b'A'..=b'F' => Some(letter - b'A' + 10),
        _ => None,
    }
}

/// The byte of two hex digits.
fn byte_of(pair: &[u8]) -> Option<u8> {
    match pair {
        [high, low] => Some((digit_of(*high)? << 4) | digit_of(*low)?),
        _ => None,
    }
}

/// Puts the bytes of a line, between whose pairs of hex digits there may be blanks.
pub fn put_bytes(content: &mut Vec<u8>, line: &str) -> Result<(), LineFault> {
    for word in line.split_whitespace() {
        for pair in word.as_bytes().chunks(2) {
            let Some(byte) = byte_of(pair) else {
                return Err(LineFault::NoForm);
            };
            content.push(byte)?;
        }
    }
    Ok(())
}
