//! The blocks of a whole text.

ghost use Rattle.std.specs.Prelude.{◌≡◌, ◌⊎◌, [], ◌∷◌, map, Ok, IfOk, IfErr, MatchResult};
ghost use Rattle.stil_tree.specs.Trees.{entries, entry_of, trees};
ghost use Rattle.stil_ast.specs.declared.blocks.Blocks.{Blocks};
ghost use Rattle.stil_ast.specs.Data.Refusal.{StilRefusal};
ghost use Rattle.answers.specs.declared.short.Short.TheVariants as refusal;
ghost use Rattle.stil_read.specs.Reads.{blocks_by};
ghost use Rattle.stil_read.specs.Top.{blocks_of};
ghost use Rattle.stil_read.specs.Text.{IsTextFault, TextAnswers, ended_with};

use crate::read::Lists;
use crate::top::{is_header, read_statements};
use pat_read::refused;
use std::alloc::Global;
use stil_ast::{Blocks, StilFault, StilKind, StilRefusal};
use stil_form::{FormFault, FormKind, Source, first_of, head_at};
use stil_lex::Token;
use stil_tree::{Stmt, StmtList};
use tester_types::Items;

/// The blocks of these lists.
fn blocks_by(lists: Lists) -> Blocks
    ensures { result ≡ blocks_by lists }
{
    Blocks {
        signals: Items::from_vec(lists.signals),
        groups: Items::from_vec(lists.groups),
        specs: Items::from_vec(lists.specs),
        selectors: Items::from_vec(lists.selectors),
        timings: Items::from_vec(lists.timings),
        scans: Items::from_vec(lists.scans),
        macros: Items::from_vec(lists.macros),
        procedures: Items::from_vec(lists.procedures),
        patterns: Items::from_vec(lists.patterns),
        bursts: Items::from_vec(lists.bursts),
        executives: Items::from_vec(lists.executives),
    }
}

/// A fault that stands in no statement.
fn stands_nowhere(alloc: Global, kind: StilKind) -> StilRefusal
    ensures { result ≡ refusal.Fault (record { kind = kind; block = []; name = []; line = 1 }) }
{
    StilRefusal::Fault(StilFault {
        kind,
        block: Items::from_vec(Vec::new(alloc)),
        name: Items::from_vec(Vec::new(alloc)),
        line: 1,
    })
}

/// What is answered where all statements are read into these lists.
fn ended_with(alloc: Global, lists: Lists) -> Result<Blocks, StilRefusal>
    ensures { result ≡ ended_with (blocks_by lists) lists.executives.items }
{
    if lists.executives.is_empty() {
        return Err(stands_nowhere(alloc, StilKind::NoExec));
    }
    Ok(blocks_by(lists))
}

/// The blocks behind the header, which is the first statement.
fn read_behind<'a>(
    alloc: Global,
    source: Source<'a>,
    header: &Stmt,
    stmts: &[Stmt],
) -> Result<Blocks, StilRefusal>
    ensures { TextAnswers source.entry.bytes.now source.entry.tokens.now
        (entry_of header.now ∷ map entry_of stmts.now) result }
{
    if !is_header(head_at(source, header)) {
        return Err(refused(
            alloc,
            source,
            FormFault::Refused(FormKind::NoHeader, first_of(header)),
        ));
    }
    let mut lists = Lists::new(alloc);
    match read_statements(alloc, source, &mut lists, stmts) {
        Ok(()) => ended_with(alloc, lists),
        Err(fault) => Err(refused(alloc, source, fault)),
    }
}

/// The blocks of a text with these statements at the top level.
fn read_text<'a>(alloc: Global, source: Source<'a>, stmts: &[Stmt]) -> Result<Blocks, StilRefusal>
    ensures { TextAnswers source.entry.bytes.now source.entry.tokens.now (map entry_of stmts.now) result }
{
    match stmts {
        [header, rest @ ..] => read_behind(alloc, source, header, rest),
        [] => Err(stands_nowhere(alloc, StilKind::NoHeader)),
    }
}

/// The same, of the statements of a forest.
fn read_forest<'a>(
    alloc: Global,
    source: Source<'a>,
    forest: &StmtList,
) -> Result<Blocks, StilRefusal>
    ensures { TextAnswers source.entry.bytes.now source.entry.tokens.now (entries (trees forest.now)) result }
{
    read_text(alloc, source, forest.as_slice())
}

/// The blocks of a text, by its tokens and its statements.
///
/// The first statement is to be the header, else the fault is `NoHeader`. The first statement in text order that is
/// refused, at any depth, gives the fault: `Shape`, `LeftOut`, `OutOfRange` or `Twice`, with its line, which is its
/// label's where it has one, and the top-level statement in which it stands. A text without an executive is `NoExec`.
/// Blocks of one kind and one name are judged as one. Statements that begin with a word of an earlier UserKeywords
/// statement are skipped, at any place. Lines count from 1.
pub fn read_blocks<'a>(
    alloc: Global,
    bytes: &'a [u8],
    tokens: &'a [Token],
    forest: &StmtList,
) -> Result<Blocks, StilRefusal>
    ensures found { IfOk result (λ read. blocks_of bytes.now tokens.now (entries (trees forest.now)) ≡ Ok read) }
    ensures only { (wanted : Blocks) → blocks_of bytes.now tokens.now (entries (trees forest.now)) ≡ Ok wanted
        → MatchResult result (λ read. read ≡ wanted) (λ e. e ≡ refusal.NoMemory) }
    ensures fault { IfErr result (λ e. (e ≡ refusal.NoMemory)
        ⊎ IsTextFault bytes.now tokens.now (entries (trees forest.now)) e) }
    ensures refused { (fault : StilRefusal) → IsTextFault bytes.now tokens.now (entries (trees forest.now)) fault
        → MatchResult result (λ _. ⊥) (λ e. (e ≡ refusal.NoMemory) ⊎ (e ≡ fault)) }
{
    read_forest(alloc, Source { bytes, tokens }, forest)
}
