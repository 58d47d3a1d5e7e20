//! PatternBurst blocks and their PatLists (IEEE 1450-1999, clause 17).

ghost use Rattle.std.specs.Prelude.{◌≡◌, ◌∷◌, ◌++◌, [], Ok, IfOk, map};
ghost use Rattle.std.specs.List.{list_any};
ghost use Rattle.stil_tree.specs.Trees.{entry_of};
ghost use Rattle.stil_form.specs.Reading.{Answers, AnswersBy};
ghost use Rattle.stil_form.specs.Setting.{setting_of, lexemes_at, at_statement};
ghost use Rattle.stil_ast.specs.Data.BlockForms.{is_macros_word, is_procedures_word, is_scans_word};
ghost use Rattle.stil_ast.specs.declared.executive.BurstItem.{BurstItem};
ghost use Rattle.pat_read.specs.Statements as statements;
ghost use Rattle.pattern_blocks.specs.Bursts as bursts;
ghost use Rattle.pattern_blocks.specs.Bursts.{item_on, stands_already, items_in};
ghost use Rattle.pattern_blocks.specs.Working.{named_step, left_out, entry_step, burst_step};

use block_forms::{
    bare_block, first_keyword, name_or_empty, named_block, only_name, rest_at, with_one,
    without_block,
};
use std::alloc::{AllocError, Global};
use stil_ast::{Burst, BurstItem, BurstItemList, BurstWord};
use stil_form::{
    FormFault, FormKind, Reader, StepForm, first_of, head_at, inner_of, line_at,
    read_unskipped_steps,
};
use stil_tree::Stmt;
use tester_types::Items;

/// What the names behind a keyword are the names of.
const BURST_WORDS: [(&[u8], BurstWord); 5] = [
    (b"SignalGroups", BurstWord::SignalGroups),
    (b"MacroDefs", BurstWord::MacroDefs),
    (b"Procedures", BurstWord::Procedures),
    (b"ScanStructures", BurstWord::ScanStructures),
    (b"PatList", BurstWord::Entry),
];

/// A name on the line of its statement.
fn item_on(
    alloc: Global,
    reader: &Reader,
    stmt: &Stmt,
    word: BurstWord,
    called: &[u8],
) -> Result<BurstItem, AllocError>
    ensures { IfOk result (λ item. item ≡ item_on (setting_of reader.now) (entry_of stmt.now) word called.now) }
{
    Ok(BurstItem {
        word,
        name: Items::from_slice(alloc, called)?,
        line: line_at(reader.source.tokens, first_of(stmt) as usize),
    })
}

fn is_macros(word: BurstWord) -> bool
    ensures { result ≡ is_macros_word word }
{
    matches!(word, BurstWord::MacroDefs)
}

fn is_procedures(word: BurstWord) -> bool
    ensures { result ≡ is_procedures_word word }
{
    matches!(word, BurstWord::Procedures)
}

fn is_scans(word: BurstWord) -> bool
    ensures { result ≡ is_scans_word word }
{
    matches!(word, BurstWord::ScanStructures)
}

fn has_macros(before: &[BurstItem]) -> bool
    ensures { result ≡ list_any (λ (i : BurstItem). is_macros_word i.word) before.now }
{
    before.iter().any(|item| is_macros(item.word))
}

fn has_procedures(before: &[BurstItem]) -> bool
    ensures { result ≡ list_any (λ (i : BurstItem). is_procedures_word i.word) before.now }
{
    before.iter().any(|item| is_procedures(item.word))
}

fn has_scans(before: &[BurstItem]) -> bool
    ensures { result ≡ list_any (λ (i : BurstItem). is_scans_word i.word) before.now }
{
    before.iter().any(|item| is_scans(item.word))
}

/// Whether a word that may stand once stands already. It is asked at most twice for each such word, as the second
/// refuses the text.
fn stands_already(word: BurstWord, before: &[BurstItem]) -> bool
    ensures { result ≡ stands_already word before.now }
{
    match word {
        BurstWord::SignalGroups | BurstWord::Entry => false,
        BurstWord::MacroDefs => has_macros(before),
        BurstWord::Procedures => has_procedures(before),
        BurstWord::ScanStructures => has_scans(before),
    }
}

/// The names up to a statement with this word.
fn named_step(
    alloc: Global,
    reader: &Reader,
    before: BurstItemList,
    stmt: &Stmt,
    word: BurstWord,
) -> Result<BurstItemList, FormFault>
    ensures { Answers result (named_step (setting_of reader.now) before (entry_of stmt.now) word) }
{
    let called = without_block(stmt, name_or_empty(rest_at(reader, stmt)))?;
    if stands_already(word, before.as_slice()) {
        return Err(FormFault::Refused(FormKind::Twice, first_of(stmt)));
    }
    let item = item_on(alloc, reader, stmt, word, called)?;
    Ok(with_one(before, item)?)
}

/// Statements in the block of an entry, which are left out.
#[derive(Clone, Copy)]
struct LeftOutForm {}

impl StepForm for LeftOutForm {
    type State = BurstItemList;

    ghost step = { λ _ before e. left_out before e };

    fn take(
        &self,
        _alloc: Global,
        _before: BurstItemList,
        stmt: &Stmt,
    ) -> Result<BurstItemList, FormFault> {
        Err(FormFault::Refused(FormKind::LeftOut, first_of(stmt)))
    }
}

/// The one name of an entry.
fn entry_name<'a>(reader: &Reader<'_, 'a>, stmt: &Stmt) -> Result<&'a [u8], FormFault>
    ensures { AnswersBy (λ called. called.now) result (at_statement (entry_of stmt.now).first
        (statements.only_name (lexemes_at (setting_of reader.now) (entry_of stmt.now)))) }
{
    match only_name(head_at(reader.source, stmt)) {
        Ok(called) => Ok(called),
        Err(kind) => Err(FormFault::Refused(kind, first_of(stmt))),
    }
}

/// Entries of a PatList.
#[derive(Clone, Copy)]
struct EntryForm<'k, 'a> {
    reader: Reader<'k, 'a>,
}

impl StepForm for EntryForm<'_, '_> {
    type State = BurstItemList;

    ghost step = { λ form before e. entry_step (setting_of form.reader) before e };

    fn take(
        &self,
        alloc: Global,
        before: BurstItemList,
        stmt: &Stmt,
    ) -> Result<BurstItemList, FormFault> {
        let called = entry_name(&self.reader, stmt)?;
        let item = item_on(alloc, &self.reader, stmt, BurstWord::Entry, called)?;
        let items = with_one(before, item)?;
        read_unskipped_steps(alloc, &LeftOutForm {}, &self.reader, items, inner_of(stmt))
    }
}

/// Statements of a PatternBurst.
#[derive(Clone, Copy)]
struct BurstForm<'k, 'a> {
    reader: Reader<'k, 'a>,
}

impl StepForm for BurstForm<'_, '_> {
    type State = BurstItemList;

    ghost step = { λ form before e. burst_step (setting_of form.reader) before e };

    fn take(
        &self,
        alloc: Global,
        before: BurstItemList,
        stmt: &Stmt,
    ) -> Result<BurstItemList, FormFault> {
        let reader = &self.reader;
        match first_keyword(&BURST_WORDS, head_at(reader.source, stmt)) {
            None => Err(FormFault::Refused(FormKind::LeftOut, first_of(stmt))),
            Some(BurstWord::Entry) => {
                bare_block(reader, stmt)?;
                let form = EntryForm { reader: *reader };
                read_unskipped_steps(alloc, &form, reader, before, inner_of(stmt))
            }
            Some(word) => named_step(alloc, reader, before, stmt, word),
        }
    }
}

/// Before the first statement.
fn no_items(alloc: Global) -> BurstItemList
    ensures { result ≡ [] }
{
    Items::from_vec(Vec::new(alloc))
}

/// The names of a burst.
fn read_items(alloc: Global, reader: &Reader, stmts: &[Stmt]) -> Result<BurstItemList, FormFault>
    ensures { Answers result (items_in (setting_of reader.now) (map entry_of stmts.now)) }
{
    let form = BurstForm { reader: *reader };
    read_unskipped_steps(alloc, &form, reader, no_items(alloc), stmts)
}

/// The PatternBurst that a statement is.
pub fn read_burst_block(alloc: Global, reader: &Reader, stmt: &Stmt) -> Result<Burst, FormFault>
    ensures { Answers result (bursts.burst_block (setting_of reader.now) (entry_of stmt.now)) }
{
    let called = named_block(reader, stmt)?;
    let items = read_items(alloc, reader, inner_of(stmt))?;
    let name = Items::from_slice(alloc, called)?;
    Ok(Burst { name, items })
}
