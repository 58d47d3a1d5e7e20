//! What drives a net: the gates, each with its keyword, and how many nets it takes.

ghost use Rattle.std.specs.Prelude.{◌≡◌};
ghost use Rattle.std.specs.Str.{str_eq_ignore_ascii_case};
ghost use Rattle.bench_net.specs.Gates.{function_of, is_single, takes_not};

use crate::nets::Nets;
use text_bytes::MOST_INPUTS;

/// The functions of gates. `Buf` is both BUF and BUFF.
#[derive(Debug, Clone, Copy, PartialEq, Eq)]
pub enum GateKind {
    And,
    Nand,
    Or,
    Nor,
    Xor,
    Xnor,
    Not,
    Buf,
}

/// What a line computes its net by: a gate, or DFF, a flip-flop.
#[derive(Debug, Clone, Copy, PartialEq, Eq)]
pub(crate) enum Function {
    Logic(GateKind),
    Register,
}

/// What drives a net: nothing inside, a flip-flop whose D pin is the net of that number, or a gate
/// that reads these nets in written order.
#[derive(Debug, Drop)]
pub enum Driver {
    Input,
    Dff(u32),
    Gate(GateKind, Nets),
}

/// Whether the word is this keyword, in any case of its letters.
pub(crate) fn is_word(word: &[u8], keyword: &[u8]) -> bool
    ensures { result ≡ str_eq_ignore_ascii_case word.now keyword.now }
{
    word.eq_ignore_ascii_case(keyword)
}

/// The function of a keyword.
pub(crate) fn function_of(word: &[u8]) -> Option<Function>
    ensures { result ≡ function_of word.now }
{
    if is_word(word, b"AND") {
        Some(Function::Logic(GateKind::And))
    } else if is_word(word, b"NAND") {
        Some(Function::Logic(GateKind::Nand))
    } else if is_word(word, b"OR") {
        Some(Function::Logic(GateKind::Or))
    } else if is_word(word, b"NOR") {
        Some(Function::Logic(GateKind::Nor))
    } else if is_word(word, b"XOR") {
        Some(Function::Logic(GateKind::Xor))
    } else if is_word(word, b"XNOR") {
        Some(Function::Logic(GateKind::Xnor))
    } else if is_word(word, b"NOT") {
        Some(Function::Logic(GateKind::Not))
    } else if is_word(word, b"BUF") || is_word(word, b"BUFF") {
        Some(Function::Logic(GateKind::Buf))
    } else if is_word(word, b"DFF") {
        Some(Function::Register)
    } else {
        None
    }
}

/// Whether a gate takes exactly one net.
fn is_single(kind: GateKind) -> bool
    ensures { result ≡ is_single kind }
{
    matches!(kind, GateKind::Not | GateKind::Buf)
}

/// Whether a function can't take so many nets.
pub(crate) fn takes_not(function: Function, pins: usize) -> bool
    ensures { result ≡ takes_not function pins }
{
    match function {
        Function::Logic(kind) if is_single(kind) => pins != 1,
        Function::Logic(_) => pins > MOST_INPUTS,
        Function::Register => pins != 1,
    }
}
