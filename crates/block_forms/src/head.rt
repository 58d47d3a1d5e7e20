//! What stands behind the keyword of a statement.

ghost use Rattle.std.specs.Prelude.{◌≡◌, ℕ, List, None, Some, Result, is_some, MatchOption, not};
ghost use Rattle.std.specs.Borrow.{Bor};
ghost use Rattle.stil_tree.specs.Trees.{entry_of};
ghost use Rattle.stil_form.specs.declared.fault.FormKind.{FormKind};
ghost use Rattle.stil_form.specs.Reading.{AnswersBy};
ghost use Rattle.stil_form.specs.Setting.{setting_of, at_statement};
ghost use Rattle.stil_form.specs.Lexeme.{lexeme_of, lexemes};
ghost use Rattle.pat_read.specs.Statements as statements;
ghost use Rattle.block_forms.specs.Heads as heads;
ghost use Rattle.block_forms.specs.Heads.{Says, only_of, where_so};

use stil_form::{
    FormFault, FormKind, Part, Reader, Source, first_of, first_part, has_block, head_at, is_word,
    name_of,
};
use stil_tree::Stmt;

/// Whether a head begins with this keyword.
pub fn is_first(keyword: &[u8], head: Source) -> bool
    ensures { result ≡ heads.is_first keyword.now (lexemes head.entry) }
{
    match first_part(head) {
        Some((one, _)) => is_word(&one, keyword),
        None => false,
    }
}

/// The one part of a head, if there is just one.
pub fn only_part<'a>(rest: Source<'a>) -> Option<Part<'a>>
    ensures { MatchOption result (only_of (lexemes rest.entry) ≡ None)
        (λ part. only_of (lexemes rest.entry) ≡ Some (lexeme_of part)) }
{
    let (part, behind) = first_part(rest)?;
    match behind.tokens {
        [] => Some(part),
        _ => None,
    }
}

/// The one name behind a keyword.
pub fn only_name<'a>(rest: Source<'a>) -> Result<&'a [u8], FormKind>
    ensures { Says (λ called. called.now) result (statements.only_name (lexemes rest.entry)) }
{
    match only_part(rest) {
        Some(part) => name_of(&part).ok_or(FormKind::Shape),
        None => Err(FormKind::Shape),
    }
}

/// The one name behind a keyword; it may be `""` for the unnamed block.
pub fn name_or_empty<'a>(rest: Source<'a>) -> Result<&'a [u8], FormKind>
    ensures { Says (λ called. called.now) result (heads.name_or_empty (lexemes rest.entry)) }
{
    match only_part(rest) {
        Some(Part::Name(called @ [])) => Ok(called),
        Some(part) => name_of(&part).ok_or(FormKind::Shape),
        None => Err(FormKind::Shape),
    }
}

/// The one text behind a keyword.
pub fn only_text<'a>(rest: Source<'a>) -> Result<&'a [u8], FormKind>
    ensures { Says (λ bytes. bytes.now) result (heads.only_text (lexemes rest.entry)) }
{
    match only_part(rest) {
        Some(Part::Text(bytes)) => Ok(bytes),
        _ => Err(FormKind::Shape),
    }
}

/// What stands behind the first part of a head.
pub fn behind_first<'a>(head: Source<'a>) -> Source<'a>
    ensures { lexemes result ≡ heads.behind_first (lexemes head.entry) }
{
    match first_part(head) {
        Some((_, rest)) => rest,
        None => head,
    }
}

/// What stands behind a statement's keyword.
pub fn rest_at<'a>(reader: &Reader<'_, 'a>, stmt: &Stmt) -> Source<'a>
    ensures { lexemes result ≡ heads.rest_at (setting_of reader.now) (entry_of stmt.now) }
{
    behind_first(head_at(reader.source, stmt))
}

/// What a statement says, as a fault of the statement where it has no form, or no block.
pub fn with_block<'a>(stmt: &Stmt, said: Result<&'a [u8], FormKind>) -> Result<&'a [u8], FormFault>
    ensures { (wanted : Result (List ℕ) FormKind) → Says (λ (b : Bor (List ℕ)). b.now) said.entry wanted
        → AnswersBy (λ (b : Bor (List ℕ)). b.now) result
        (at_statement (entry_of stmt.now).first (where_so (is_some (entry_of stmt.now).body) wanted)) }
{
    if !has_block(stmt) {
        return Err(FormFault::Refused(FormKind::Shape, first_of(stmt)));
    }
    said.map_err(|kind| FormFault::Refused(kind, first_of(stmt)))
}

/// What a statement says, as a fault of the statement where it has no form, or a block.
pub fn without_block<'a>(
    stmt: &Stmt,
    said: Result<&'a [u8], FormKind>,
) -> Result<&'a [u8], FormFault>
    ensures { (wanted : Result (List ℕ) FormKind) → Says (λ (b : Bor (List ℕ)). b.now) said.entry wanted
        → AnswersBy (λ (b : Bor (List ℕ)). b.now) result
        (at_statement (entry_of stmt.now).first (where_so (not (is_some (entry_of stmt.now).body)) wanted)) }
{
    if has_block(stmt) {
        return Err(FormFault::Refused(FormKind::Shape, first_of(stmt)));
    }
    said.map_err(|kind| FormFault::Refused(kind, first_of(stmt)))
}

/// A keyword and a name, with a block: the name.
pub fn named_block<'a>(reader: &Reader<'_, 'a>, stmt: &Stmt) -> Result<&'a [u8], FormFault>
    ensures { AnswersBy (λ called. called.now) result (heads.named_block (setting_of reader.now) (entry_of stmt.now)) }
{
    with_block(stmt, only_name(rest_at(reader, stmt)))
}

/// A keyword and a title, which may be left away, with a block: the title.
pub fn titled_block<'a>(reader: &Reader<'_, 'a>, stmt: &Stmt) -> Result<&'a [u8], FormFault>
    ensures { AnswersBy (λ called. called.now) result (heads.titled_block (setting_of reader.now) (entry_of stmt.now)) }
{
    let rest = rest_at(reader, stmt);
    match rest.tokens {
        [] => with_block(stmt, Ok(b"")),
        _ => with_block(stmt, name_or_empty(rest)),
    }
}

/// A keyword alone, with a block.
pub fn bare_block<'a>(reader: &Reader<'_, 'a>, stmt: &Stmt) -> Result<&'a [u8], FormFault>
    ensures { AnswersBy (λ called. called.now) result (heads.bare_block (setting_of reader.now) (entry_of stmt.now)) }
{
    match rest_at(reader, stmt).tokens {
        [] if has_block(stmt) => Ok(b""),
        _ => Err(FormFault::Refused(FormKind::Shape, first_of(stmt))),
    }
}
