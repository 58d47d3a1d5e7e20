//! The statements that are read so far.

ghost use Rattle.std.specs.Prelude.{◌≡◌, ◌⊎◌, ◌+◌, ◌-◌, ◌<◌, ◌≤◌, [], ◌∷◌, ◌++◌, OnOk, MatchResult, Ok, Err, Some, length, map, take, drop};
ghost use Rattle.text_bytes.specs.Limits.{most_bytes};
ghost use Rattle.stil_tree.specs.Signs.{is_sign};
ghost use Rattle.stil_tree.specs.Trees.{trees, trees_from, entry_of, end};
ghost use Rattle.stil_tree.specs.Step.{State, going, ended_by, opened, closed, step_on, outcome};
ghost use Rattle.stil_tree.specs.Memory.{level_of, frames_of, state_of, AreStanding, ended_entry, Gives};
ghost use Rattle.stil_tree.specs.declared.fault.TreeFault.TheVariants.{NoMemory};

use crate::fault::TreeFault;
use crate::stmt::{Stmt, StmtList};
use std::alloc::{AllocError, Global};
use stil_lex::{Token, TokenKind};

/// How many blocks may stand one inside another.
const MOST_LEVELS: usize = 16;

/// A block that is open: how many statements were done before it, and the head of its statement.
#[derive(Clone, Copy)]
pub(crate) struct Open {
    start: usize,
    first: u32,
    count: u32,
}

/// What is read so far.
#[derive(Drop)]
pub(crate) struct Builder {
    /// The open blocks, the innermost last.
    blocks: Vec<Open>,
    /// The statements that are done in them, those of the innermost last.
    done: Vec<Stmt>,
    /// Where the unfinished head begins.
    first: usize,
}

/// Whether the token is this sign.
pub(crate) fn is_sign(token: &Token, byte: u8) -> bool
    ensures { result ≡ is_sign byte token.now }
{
    match token.kind {
        TokenKind::Sign(b) => b == byte,
        _ => false,
    }
}

/// Appends the statement whose head stands from `first` up to `at`, where that isn't empty.
fn push_plain(done: &mut Vec<Stmt>, first: usize, at: usize) -> Result<(), AllocError>
    requires below { first ≤ at }
    requires small { at < most_bytes }
    ensures { OnOk result (map entry_of done.new.items ≡ map entry_of done.old.items
        ++ ended_entry first (at - first)) }
{
    if first < at {
        done.push(Stmt {
            first: first as u32,
            count: (at - first) as u32,
            body: None,
        })?;
    }
    Ok(())
}

/// Makes the last statements, from that of the number `start` on, the block of one statement.
fn close(done: &mut Vec<Stmt>, block: &Open) -> Result<(), AllocError>
    requires { block.now.start ≤ length done.old.items }
    ensures { OnOk result (map entry_of done.new.items
        ≡ take block.now.start (map entry_of done.old.items)
        ++ record {
          first = block.now.first;
          count = block.now.count;
          body = Some (trees_from (drop block.now.start (map entry_of done.old.items)));
        } ∷ []) }
{
    let body = done.split_off(block.start)?;
    done.push(Stmt {
        first: block.first,
        count: block.count,
        body: Some(StmtList::from_vec(body)),
    })?;
    Ok(())
}

impl Builder {
    /// Behind no token.
    pub(crate) fn new(alloc: Global) -> Builder
        ensures state { state_of result ≡ going [] end 0 }
        ensures first { result.first ≡ 0 }
        ensures standing { AreStanding result }
    {
        Builder {
            blocks: Vec::new(alloc),
            done: Vec::new(alloc),
            first: 0,
        }
    }

    /// A `;` with the index `at`.
    fn end_statement(&mut self, at: usize) -> Result<(), TreeFault>
        requires below { self.old.first ≤ at }
        requires small { at < most_bytes }
        requires standing { AreStanding self.old }
        ensures state { Gives result (state_of self.new)
            (going (frames_of self.old) (ended_by (level_of self.old) self.old.first (at - self.old.first)) (at + 1)) }
        ensures first { OnOk result (self.new.first ≡ at + 1) }
        ensures stands { OnOk result (AreStanding self.new) }
    {
        push_plain(&mut self.done, self.first, at)?;
        self.first = at + 1;
        Ok(())
    }

    /// A `{` with the index `at`.
    fn open_block(&mut self, at: usize) -> Result<(), TreeFault>
        requires below { self.old.first ≤ at }
        requires small { at < most_bytes }
        requires standing { AreStanding self.old }
        ensures state { Gives result (state_of self.new)
            (opened at (frames_of self.old) (level_of self.old) self.old.first) }
        ensures first { OnOk result (self.new.first ≡ at + 1) }
        ensures stands { OnOk result (AreStanding self.new) }
    {
        if self.blocks.len() == MOST_LEVELS {
            return Err(TreeFault::TooDeep(at));
        }
        self.blocks.push(Open {
            start: self.done.len(),
            first: self.first as u32,
            count: (at - self.first) as u32,
        })?;
        self.first = at + 1;
        Ok(())
    }

    /// A `}` with the index `at`.
    fn close_block(&mut self, at: usize) -> Result<(), TreeFault>
        requires small { at < most_bytes }
        requires standing { AreStanding self.old }
        ensures state { Gives result (state_of self.new)
            (closed at (frames_of self.old) (level_of self.old) self.old.first) }
        ensures first { OnOk result (self.new.first ≡ at + 1) }
        ensures stands { OnOk result (AreStanding self.new) }
    {
        let Some(block) = self.blocks.pop() else {
            return Err(TreeFault::StrayClose(at));
        };
        if self.first != at {
            return Err(TreeFault::OpenStatement(self.first));
        }
        close(&mut self.done, &block)?;
        self.first = at + 1;
        Ok(())
    }

    /// One token more, which has the index `at`.
    #[tactic(auto, unfolding(crate::specs::Step::step))]
    pub(crate) fn token(&mut self, at: usize, token: &Token) -> Result<(), TreeFault>
        requires below { self.old.first ≤ at }
        requires small { at < most_bytes }
        requires standing { AreStanding self.old }
        ensures state { Gives result (state_of self.new) (step_on at (state_of self.old) token.now) }
        ensures first { OnOk result (self.new.first ≤ at + 1) }
        ensures stands { OnOk result (AreStanding self.new) }
    {
        if is_sign(token, b';') {
            self.end_statement(at)
        } else if is_sign(token, b'{') {
            self.open_block(at)
        } else if is_sign(token, b'}') {
            self.close_block(at)
        } else {
            Ok(())
        }
    }

    /// The statements, or the fault of the end, behind so many tokens.
    pub(crate) fn finish(self, len: usize) -> Result<StmtList, TreeFault>
        ensures { MatchResult result (λ list. outcome len (state_of self) ≡ Ok (trees list))
            (λ e. outcome len (state_of self) ≡ Err e) }
    {
        if let Some(block) = self.blocks.last() {
            let index = block.first as usize + block.count as usize;
            return Err(TreeFault::OpenBlock(index));
        }
        if self.first != len {
            return Err(TreeFault::OpenStatement(self.first));
        }
        Ok(StmtList::from_vec(self.done))
    }
}
