//! ScanStructures blocks (IEEE 1450-1999, clause 20).

ghost use Rattle.std.specs.Prelude.{◌≡◌, ◌∷◌, ◌++◌, [], Ok, IfOk, is_some, map};
ghost use Rattle.stil_tree.specs.Trees.{entry_of};
ghost use Rattle.stil_form.specs.Reading.{Answers, AnswersBy};
ghost use Rattle.stil_form.specs.Setting.{setting_of, at_statement};
ghost use Rattle.stil_form.specs.Lexeme.{lexemes};
ghost use Rattle.scan_blocks.specs.declared.chain.ChainWord.TheVariants as word;
ghost use Rattle.block_forms.specs.Heads.{Says, under};
ghost use Rattle.scan_blocks.specs.Chains as chains;

use crate::cells::{index_of, read_cells};
use block_forms::{
    Declared, first_keyword, is_first, named_block, named_on, only_name, rest_at, titled_block,
};
use std::alloc::{AllocError, Global};
use stil_ast::{CellsDecl, ChainDecl, ChainStmt, ChainStmtList, ScanBlock};
use stil_form::{
    FormFault, FormKind, Reader, Source, first_of, first_part, has_block, head_at, inner_of,
    line_at, skips,
};
use stil_tree::Stmt;
use tester_types::Items;
use text_bytes::{MOST_CELLS, MOST_CHAINS};

/// The keywords of a ScanChain.
#[derive(Clone, Copy, Debug, PartialEq, Eq)]
pub(crate) enum ChainWord {
    Length,
    In,
    Out,
    Cells,
    Inversion,
}

/// What a statement of a ScanChain says: its keyword, and the statement, where it has an effect.
#[derive(Drop)]
pub(crate) struct ChainSaid {
    word: ChainWord,
    effect: Option<ChainStmt>,
}

/// The keywords of a ScanChain.
const CHAIN_WORDS: [(&[u8], ChainWord); 5] = [
    (b"ScanLength", ChainWord::Length),
    (b"ScanIn", ChainWord::In),
    (b"ScanOut", ChainWord::Out),
    (b"ScanCells", ChainWord::Cells),
    (b"ScanInversion", ChainWord::Inversion),
];

fn word_number(word: ChainWord) -> u8
    ensures { result ≡ chains.word_number word }
{
    match word {
        ChainWord::Length => 0,
        ChainWord::In => 1,
        ChainWord::Out => 2,
        ChainWord::Cells => 3,
        ChainWord::Inversion => 4,
    }
}

fn has_word(before: &[ChainSaid], word: ChainWord) -> bool
    ensures { result ≡ chains.has_word before.now word }
{
    before
        .iter()
        .any(|said| word_number(word) == word_number(said.word))
}

/// One number behind a keyword.
fn only_number(rest: Source) -> Result<u64, FormKind>
    ensures { Says (λ number. number) result (chains.only_number (lexemes rest.entry)) }
{
    let Some((one, rest)) = first_part(rest) else {
        return Err(FormKind::Shape);
    };
    match rest.tokens {
        [] => index_of(&one).ok_or(FormKind::Shape),
        _ => Err(FormKind::Shape),
    }
}

/// A length in cells.
fn length_said(rest: Source) -> Result<Option<ChainStmt>, FormKind>
    ensures { Says (λ said. said) result (chains.length_by (chains.only_number (lexemes rest.entry))) }
{
    let number = only_number(rest)?;
    if number <= MOST_CELLS as u64 {
        Ok(Some(ChainStmt::Length(number as u32)))
    } else {
        Err(FormKind::OutOfRange)
    }
}

/// An inversion.
fn inversion_said(rest: Source) -> Result<Option<ChainStmt>, FormKind>
    ensures { Says (λ said. said) result (chains.inversion_by (chains.only_number (lexemes rest.entry))) }
{
    match only_number(rest) {
        Ok(_) => Ok(None),
        Err(kind) => Err(kind),
    }
}

/// What a statement says that has its effect by itself.
fn at_stmt(
    stmt: &Stmt,
    said: Result<Option<ChainStmt>, FormKind>,
) -> Result<Option<ChainStmt>, FormFault>
    ensures { Answers result (at_statement (entry_of stmt.now).first said) }
{
    match said {
        Ok(said) => Ok(said),
        Err(kind) => Err(FormFault::Refused(kind, first_of(stmt))),
    }
}

/// The signal at the first cell.
fn in_said(alloc: Global, reader: &Reader, stmt: &Stmt) -> Result<Option<ChainStmt>, FormFault>
    ensures { Answers result (chains.stmt_said (setting_of reader.now) (entry_of stmt.now) word.In) }
{
    match only_name(rest_at(reader, stmt)) {
        Ok(called) => Ok(Some(ChainStmt::In(named_on(alloc, reader, stmt, called)?))),
        Err(kind) => Err(FormFault::Refused(kind, first_of(stmt))),
    }
}

/// The signal at the last cell.
fn out_said(alloc: Global, reader: &Reader, stmt: &Stmt) -> Result<Option<ChainStmt>, FormFault>
    ensures { Answers result (chains.stmt_said (setting_of reader.now) (entry_of stmt.now) word.Out) }
{
    match only_name(rest_at(reader, stmt)) {
        Ok(called) => Ok(Some(ChainStmt::Out(named_on(alloc, reader, stmt, called)?))),
        Err(kind) => Err(FormFault::Refused(kind, first_of(stmt))),
    }
}

/// What a statement with this keyword says, which has no block.
fn plain_said(
    alloc: Global,
    reader: &Reader,
    stmt: &Stmt,
    word: ChainWord,
) -> Result<Option<ChainStmt>, FormFault>
    ensures { Answers result
        (chains.plain_said (setting_of reader.now) (entry_of stmt.now) word (is_some (entry_of stmt.now).body)) }
{
    if has_block(stmt) {
        return Err(FormFault::Refused(FormKind::Shape, first_of(stmt)));
    }
    match word {
        ChainWord::Length => at_stmt(stmt, length_said(rest_at(reader, stmt))),
        ChainWord::In => in_said(alloc, reader, stmt),
        ChainWord::Out => out_said(alloc, reader, stmt),
        ChainWord::Cells => {
            let cells = read_cells(alloc, first_of(stmt), rest_at(reader, stmt))?;
            let line = line_at(reader.source.tokens, first_of(stmt) as usize);
            Ok(Some(ChainStmt::Cells(CellsDecl { cells, line })))
        }
        ChainWord::Inversion => at_stmt(stmt, inversion_said(rest_at(reader, stmt))),
    }
}

/// What a statement with this keyword says, behind those before it.
fn judge_stmt(
    alloc: Global,
    reader: &Reader,
    before: &[ChainSaid],
    stmt: &Stmt,
    word: ChainWord,
) -> Result<ChainSaid, FormFault>
    ensures { Answers result (chains.judge_stmt (setting_of reader.now) before.now (word, entry_of stmt.now)) }
{
    let effect = plain_said(alloc, reader, stmt, word)?;
    if has_word(before, word) {
        return Err(FormFault::Refused(FormKind::Twice, first_of(stmt)));
    }
    Ok(ChainSaid { word, effect })
}

/// What the statements of a chain say.
fn read_stmts(alloc: Global, reader: &Reader, stmts: &[Stmt]) -> Result<Vec<ChainSaid>, FormFault>
    ensures { AnswersBy (λ read. read.items) result
        (chains.stmts_in (setting_of reader.now) (map entry_of stmts.now)) }
{
    let mut read = Vec::new(alloc);
    for stmt in stmts {
        if skips(reader, stmt) {
            continue;
        }
        let Some(word) = first_keyword(&CHAIN_WORDS, head_at(reader.source, stmt)) else {
            continue;
        };
        let said = judge_stmt(alloc, reader, read.as_slice(), stmt, word)?;
        read.push(said)?;
    }
    Ok(read)
}

/// The statements that have an effect.
fn effects(alloc: Global, said: Vec<ChainSaid>) -> Result<ChainStmtList, AllocError>
    ensures { IfOk result (λ stmts. stmts ≡ chains.effects_of said.items) }
{
    let stmts = said.into_iter().filter_map(|one| one.effect);
    Ok(Items::from_vec(stmts.collect(alloc)?))
}

/// A chain, whose name is declared with it.
fn read_chain<'a>(
    alloc: Global,
    reader: &Reader<'_, 'a>,
    title: &'a [u8],
    declared: &mut Declared<'a>,
    stmt: &Stmt,
) -> Result<ChainDecl, FormFault>
    ensures read { Answers result
        (chains.chain_said (setting_of reader.now) title.entry.now declared.old (entry_of stmt.now)) }
    ensures declared { IfOk result (λ read. declared.new ≡ declared.old ++ (title.entry.now, read.name) ∷ []) }
{
    if !is_first(b"ScanChain", head_at(reader.source, stmt)) {
        return Err(FormFault::Refused(FormKind::LeftOut, first_of(stmt)));
    }
    let called = named_block(reader, stmt)?;
    if declared.count(title) >= MOST_CHAINS {
        return Err(FormFault::Refused(FormKind::OutOfRange, first_of(stmt)));
    }
    let said = read_stmts(alloc, reader, inner_of(stmt))?;
    let stmts = effects(alloc, said)?;
    let name = Items::from_slice(alloc, called)?;
    let line = line_at(reader.source.tokens, first_of(stmt) as usize);
    declared.add(alloc, title, called)?;
    Ok(ChainDecl { name, stmts, line })
}

/// The chains of a block, whose names are declared with them.
fn read_chains<'a>(
    alloc: Global,
    reader: &Reader<'_, 'a>,
    title: &'a [u8],
    declared: &mut Declared<'a>,
    stmts: &[Stmt],
) -> Result<Vec<ChainDecl>, FormFault>
    ensures read { AnswersBy (λ read. read.items) result
        (chains.chains_in (setting_of reader.now) title.entry.now declared.old (map entry_of stmts.now)) }
    ensures declared { IfOk result
        (λ read. declared.new ≡ declared.old ++ under title.entry.now (chains.names_of read.items)) }
{
    let mut read = Vec::new(alloc);
    for stmt in stmts {
        if skips(reader, stmt) {
            continue;
        }
        let chain = read_chain(alloc, reader, title, declared, stmt)?;
        read.push(chain)?;
    }
    Ok(read)
}

/// The ScanStructures block that a statement is, behind the chains declared so far, each under the title of its block; its own are
/// declared with it.
pub fn read_scan_block<'a>(
    alloc: Global,
    reader: &Reader<'_, 'a>,
    declared: &mut Declared<'a>,
    stmt: &Stmt,
) -> Result<ScanBlock, FormFault>
    ensures read { Answers result
        (chains.scan_block (setting_of reader.now) declared.old (entry_of stmt.now)) }
    ensures declared { IfOk result
        (λ read. declared.new ≡ declared.old ++ under read.name (chains.names_of read.chains)) }
{
    let title = titled_block(reader, stmt)?;
    let read = read_chains(alloc, reader, title, declared, inner_of(stmt))?;
    let name = Items::from_slice(alloc, title)?;
    let chains = Items::from_vec(read);
    Ok(ScanBlock { name, chains })
}
