//! The statements at the top level (IEEE 1450-1999, clauses 8 to 13).

ghost use Rattle.std.specs.Prelude.{◌≡◌, ℕ, List, map, OnOk};
ghost use Rattle.answers.specs.Reading.{stepping};
ghost use Rattle.stil_tree.specs.Trees.{entry_of};
ghost use Rattle.stil_form.specs.declared.fault.FormFault.TheVariants.{Refused};
ghost use Rattle.stil_form.specs.Lexeme.{lexeme_at, lexemes};
ghost use Rattle.stil_form.specs.Reading.{Answers, AnswersBy};
ghost use Rattle.stil_form.specs.Setting.{setting, setting_of, at_statement};
ghost use Rattle.pat_read.specs.Statements.{is_there};
ghost use Rattle.stil_read.specs.Reads.{blocks_by, top_by, AreNames};
ghost use Rattle.stil_read.specs.Top.{no_blocks, word_in, words_in, words_said, keyword_step, top_step, is_stil_1_0, start};

use crate::kept::put_block;
use crate::keyword::{KEYWORDS, Keyword};
use crate::read::{Lists, Names};
use block_forms::{bare_block, behind_first, first_keyword};
use std::alloc::Global;
use std::mem;
use stil_form::{
    FormFault, FormKind, Part, Reader, SignKind, Source, Words, first_of, first_part, has_block,
    head_at, is_word, part_of, skips,
};
use stil_lex::Token;
use stil_tree::Stmt;

/// The fault of a statement.
pub(crate) fn refused(kind: FormKind, stmt: &Stmt) -> FormFault
    ensures { result ≡ Refused kind (entry_of stmt.now).first }
{
    FormFault::Refused(kind, first_of(stmt))
}

/// The word that a token of the statement with this first token is.
fn word_at<'a>(first: u32, bytes: &'a [u8], token: &Token) -> Result<&'a [u8], FormFault>
    ensures { AnswersBy (λ word. word.now) result
        (at_statement first (is_there (word_in (lexeme_at bytes.now token.now)))) }
{
    match part_of(bytes, token) {
        Part::Word(word) => Ok(word),
        _ => Err(FormFault::Refused(FormKind::Shape, first)),
    }
}

/// These words, and those that are tokens of the statement with this first one.
fn words_in<'a>(words: Words<'a>, first: u32, rest: Source<'a>) -> Result<Words<'a>, FormFault>
    ensures { Answers result (words_in first words.entry (lexemes rest.entry)) }
{
    let mut words = words;
    for token in rest.tokens {
        let word = word_at(first, rest.bytes, token)?;
        words = words.with(word)?;
    }
    Ok(words)
}

/// These words, and those of a UserKeywords statement.
fn read_words<'a>(source: Source<'a>, words: Words<'a>, stmt: &Stmt) -> Result<Words<'a>, FormFault>
    ensures { Answers result
        (words_said (setting source.entry.bytes.now source.entry.tokens.now words.entry) (entry_of stmt.now)) }
{
    if has_block(stmt) {
        return Err(refused(FormKind::Shape, stmt));
    }
    let rest = behind_first(head_at(source, stmt));
    match rest.tokens {
        [] => Err(refused(FormKind::Shape, stmt)),
        _ => words_in(words, first_of(stmt), rest),
    }
}

/// These words, and those of a UserKeywords statement.
fn put_words<'a>(
    alloc: Global,
    source: Source<'a>,
    words: &mut Words<'a>,
    stmt: &Stmt,
) -> Result<(), FormFault>
    ensures { AnswersBy (λ _. words.new) result
        (words_said (setting source.entry.bytes.now source.entry.tokens.now words.old) (entry_of stmt.now)) }
{
    let before = mem::replace(words, Words::new(alloc));
    let read = read_words(source, before, stmt)?;
    let _none = mem::replace(words, read);
    Ok(())
}

/// What stands behind a statement of this keyword.
fn take_keyword<'a>(
    alloc: Global,
    source: Source<'a>,
    found: Keyword,
    words: &mut Words<'a>,
    lists: &mut Lists,
    names: &mut Names<'a>,
    stmt: &Stmt,
) -> Result<(), FormFault>
    requires { AreNames lists.old names.old }
    ensures step { AnswersBy (λ _. top_by words.new lists.new) result
        (keyword_step (setting source.entry.bytes.now source.entry.tokens.now words.old) (top_by words.old lists.old)
        (entry_of stmt.now) found) }
    ensures names { OnOk result (AreNames lists.new names.new) }
{
    let reader = Reader { source, words };
    match found {
        Keyword::Header => {
            bare_block(&reader, stmt)?;
            Ok(())
        }
        Keyword::UserKeywords => put_words(alloc, source, words, stmt),
        Keyword::UserFunctions => Ok(()),
        Keyword::Stil => Err(refused(FormKind::Shape, stmt)),
        other => put_block(alloc, &reader, other, lists, names, stmt),
    }
}

/// What stands behind a statement at the top level.
fn take<'a>(
    alloc: Global,
    source: Source<'a>,
    words: &mut Words<'a>,
    lists: &mut Lists,
    names: &mut Names<'a>,
    stmt: &Stmt,
) -> Result<(), FormFault>
    requires { AreNames lists.old names.old }
    ensures step { AnswersBy (λ _. top_by words.new lists.new) result
        (top_step source.entry.bytes.now source.entry.tokens.now (top_by words.old lists.old) (entry_of stmt.now)) }
    ensures names { OnOk result (AreNames lists.new names.new) }
{
    let reader = Reader { source, words };
    if skips(&reader, stmt) {
        return Ok(());
    }
    match first_keyword(&KEYWORDS, head_at(source, stmt)) {
        Some(found) => take_keyword(alloc, source, found, words, lists, names, stmt),
        None => Err(refused(FormKind::LeftOut, stmt)),
    }
}

/// What stands behind these statements at the top level.
fn take_all<'a>(
    alloc: Global,
    source: Source<'a>,
    words: &mut Words<'a>,
    lists: &mut Lists,
    names: &mut Names<'a>,
    stmts: &[Stmt],
) -> Result<(), FormFault>
    requires { AreNames lists.old names.old }
    ensures { AnswersBy (λ _. top_by words.new lists.new) result
        (stepping (top_step source.entry.bytes.now source.entry.tokens.now) (top_by words.old lists.old)
        (map entry_of stmts.now)) }
{
    for stmt in stmts {
        take(alloc, source, words, lists, names, stmt)?;
    }
    Ok(())
}

/// The blocks of all statements at the top level, but for the header.
pub(crate) fn read_statements<'a>(
    alloc: Global,
    source: Source<'a>,
    lists: &mut Lists,
    stmts: &[Stmt],
) -> Result<(), FormFault>
    requires { blocks_by lists.old ≡ no_blocks }
    ensures { (words : List (List ℕ)) × AnswersBy (λ _. top_by words lists.new) result
        (stepping (top_step source.entry.bytes.now source.entry.tokens.now) start (map entry_of stmts.now)) }
{
    let mut words = Words::new(alloc);
    let mut names = Names::new(alloc);
    take_all(alloc, source, &mut words, lists, &mut names, stmts)
}

/// Whether a head is that of the header of this version.
pub(crate) fn is_header(head: Source) -> bool
    ensures { result ≡ is_stil_1_0 (lexemes head.entry) }
{
    let Some((stil, rest)) = first_part(head) else {
        return false;
    };
    let Some((major, rest)) = first_part(rest) else {
        return false;
    };
    let Some((Part::Sign(SignKind::Dot), rest)) = first_part(rest) else {
        return false;
    };
    let Some((minor, rest)) = first_part(rest) else {
        return false;
    };
    rest.tokens.is_empty()
        && is_word(&stil, b"STIL")
        && is_word(&major, b"1")
        && is_word(&minor, b"0")
}
