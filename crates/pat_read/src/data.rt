//! Data of an assignment (IEEE 1450-1999, clause 21).

ghost use Rattle.std.specs.Prelude.{◌≡◌, ◌⊎◌, ◌++◌, List, [], map, replicate, Ok, IfOk, IfErr, OnOk, MatchResult, MatchOption, None, Some};
ghost use Rattle.std.specs.List.{list_any};
ghost use Rattle.stil_form.specs.Lexeme.{lexeme_of, lexeme_at};
ghost use Rattle.stil_ast.specs.Meaning.Statements.{Item, a_character};
ghost use Rattle.stil_ast.specs.Data.Items.{item_of};
ghost use Rattle.pat_read.specs.declared.fault.DataFault.{DataFault};
ghost use Rattle.pat_read.specs.declared.fault.DataFault.TheVariants.{NoMemory};
ghost use Rattle.pat_read.specs.Fault.{DataAnswers};
ghost use Rattle.pat_read.specs.Data.{times_by, unit_of, repeat_said, unit_said, item_said, said_by, said_behind, ended, data_of, IsDataFault};

use crate::fault::DataFault;
use std::alloc::{AllocError, Global};
use stil_ast::{VecItem, VecText};
use stil_form::{Part, SignKind, part_of};
use stil_lex::Token;
use text_bytes::{MOST_REPEATS, number_by};

/// What the next token of data is to be.
#[derive(Clone, Copy, Debug, PartialEq, Eq)]
pub(crate) enum Awaited {
    /// An item.
    Item,
    /// A word that stands directly behind a `\`, which ends at this place.
    Repeat(u32),
    /// The unit, which stands this often.
    OfUnit(u64),
}

/// How often `rN` repeats.
fn times_by(word: &[u8]) -> Option<u64>
    ensures { result ≡ times_by word.now }
{
    match word {
        [b'r', digits @ ..] => number_by(digits),
        _ => None,
    }
}

/// The unit that a part is.
fn unit_of(part: &Part) -> Option<VecItem>
    ensures { MatchOption result (unit_of (lexeme_of part.now) ≡ None)
        (λ item. unit_of (lexeme_of part.now) ≡ Some (item_of item)) }
{
    match *part {
        Part::Sign(SignKind::Hash) => Some(VecItem::Take),
        Part::Sign(SignKind::Percent) => Some(VecItem::Peek),
        Part::Word([byte]) if *byte != b'_' => Some(VecItem::Character(*byte)),
        _ => None,
    }
}

/// Adds the characters of a word.
fn push_characters(items: &mut VecText, word: &[u8]) -> Result<(), AllocError>
    ensures { OnOk result (items.new ≡ items.old ++ map a_character word.now) }
{
    for byte in word {
        items.push(VecItem::Character(*byte), 1)?;
    }
    Ok(())
}

/// Takes a part, which ends at this place, as an item.
fn take_item(items: &mut VecText, part: &Part, end: u32) -> Result<Awaited, DataFault>
    ensures { DataAnswers (λ next. (items.new, next)) result
        (said_behind items.old (item_said (lexeme_of part.now) end)) }
{
    match *part {
        Part::Word(word) => {
            if word.contains(&b'_') {
                return Err(DataFault::Shape);
            }
            push_characters(items, word)?;
            Ok(Awaited::Item)
        }
        Part::Sign(SignKind::Hash) => {
            items.push(VecItem::Take, 1)?;
            Ok(Awaited::Item)
        }
        Part::Sign(SignKind::Percent) => {
            items.push(VecItem::Peek, 1)?;
            Ok(Awaited::Item)
        }
        Part::Sign(SignKind::Backslash) => Ok(Awaited::Repeat(end)),
        _ => Err(DataFault::Shape),
    }
}

/// Takes a part behind a `\`.
fn take_repeat(adjacent: bool, part: &Part) -> Result<Awaited, DataFault>
    ensures { DataAnswers (λ next. ([], next)) result (repeat_said adjacent (lexeme_of part.now)) }
{
    let Part::Word(word) = *part else {
        return Err(DataFault::Shape);
    };
    match times_by(word) {
        Some(times) if adjacent => Ok(Awaited::OfUnit(times)),
        // by its first letter a form of data that this profile leaves out, or none
        _ => match word {
            [first, ..] if b"hdlmjew".contains(first) => Err(DataFault::LeftOut),
            _ => Err(DataFault::Shape),
        },
    }
}

/// Takes a part as a unit that stands so often.
fn take_unit(items: &mut VecText, times: u64, part: &Part) -> Result<Awaited, DataFault>
    ensures { DataAnswers (λ next. (items.new, next)) result
        (said_behind items.old (unit_said times (unit_of (lexeme_of part.now)))) }
{
    let Some(item) = unit_of(part) else {
        return Err(DataFault::Shape);
    };
    if times > MOST_REPEATS {
        return Err(DataFault::OutOfRange);
    }
    items.push(item, times as u32)?;
    Ok(Awaited::Item)
}

/// Takes the next token of data.
fn take_token(
    items: &mut VecText,
    awaited: Awaited,
    bytes: &[u8],
    token: &Token,
) -> Result<Awaited, DataFault>
    ensures { DataAnswers (λ next. (items.new, next)) result
        (said_behind items.old (said_by bytes.now awaited token.now)) }
{
    let part = part_of(bytes, token);
    match awaited {
        Awaited::Item => take_item(items, &part, token.end),
        Awaited::Repeat(place) => take_repeat(token.start == place, &part),
        Awaited::OfUnit(times) => take_unit(items, times, &part),
    }
}

/// Takes the data that tokens spell.
pub(crate) fn take_data(
    items: &mut VecText,
    bytes: &[u8],
    tokens: &[Token],
) -> Result<(), DataFault>
    requires { items.old ≡ [] }
    ensures { DataAnswers (λ _. items.new) result (data_of bytes.now tokens.now) }
{
    let mut awaited = Awaited::Item;
    for token in tokens {
        awaited = take_token(items, awaited, bytes, token)?;
    }
    match awaited {
        Awaited::Item => Ok(()),
        Awaited::Repeat(_) => Err(DataFault::Shape),
        Awaited::OfUnit(_) => Err(DataFault::Shape),
    }
}

/// The data that tokens spell.
fn read_data(alloc: Global, bytes: &[u8], tokens: &[Token]) -> Result<VecText, DataFault>
    ensures { DataAnswers (λ read. read) result (data_of bytes.now tokens.now) }
{
    let mut items = VecText::with_capacity(alloc, tokens.len())?;
    take_data(&mut items, bytes, tokens)?;
    Ok(items)
}

/// Only tests call it: the items that tokens spell, words without `_`, `#`, `%`, and `\rN` with its unit behind it. They are
/// kept as runs, in memory that grows with the number of tokens and characters.
///
/// The first fault from the left counts: a token without a form is `Shape`, a form of the standard that this profile
/// leaves out is `LeftOut`, and more than 1,048,576 times is `OutOfRange`, which is judged with the unit.
pub fn vec_data(alloc: Global, bytes: &[u8], tokens: &[Token]) -> Result<VecText, DataFault>
    ensures found { IfOk result (λ read. data_of bytes.now tokens.now ≡ Ok read) }
    ensures only { (items : List Item) → data_of bytes.now tokens.now ≡ Ok items
        → MatchResult result (λ read. read ≡ items) (λ fault. fault ≡ NoMemory) }
    ensures fault { IfErr result (λ fault. (fault ≡ NoMemory) ⊎ IsDataFault bytes.now tokens.now fault) }
    ensures refused { (fault : DataFault) → IsDataFault bytes.now tokens.now fault
        → MatchResult result (λ _. ⊥) (λ e. (e ≡ NoMemory) ⊎ (e ≡ fault)) }
{
    read_data(alloc, bytes, tokens)
}
