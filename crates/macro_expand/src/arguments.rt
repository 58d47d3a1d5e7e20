//! What is left of the arguments of a body.

ghost use Rattle.std.specs.Prelude.{◌≡◌, ◌<◌, ◌-◌, ◌^◌, [], false, length, replicate, slice_index_or, IfOk, OnOk, OnErr};
ghost use Rattle.std.specs.Option.{option_map};
ghost use Rattle.stil_ast.specs.Data.Items.{items_of};
ghost use Rattle.stil_ast.specs.Meaning.Arguments.{no_argument, argument_of, entries_of, dealt_out, next_entry, next_taken, entry_of};
ghost use Rattle.stil_ast.specs.Meaning.Shift.{passes, with_column, columns};
ghost use Rattle.macro_expand.specs.Lanes.{no_lane};

use crate::characters::Characters;
use crate::lane::{Lane, deal, lane_at, put};
use std::alloc::{AllocError, Global};
use std::marker::Model;
use stil_ast::ItemRun;

/// What is left of the arguments of a macro's or procedure's body, one for each signal. It keeps the runs of what was
/// given; a contract sees the list of the arguments.
#[derive(Drop)]
pub struct Arguments {
    characters: Characters,
    lanes: Vec<Lane>,
}

impl Model for Arguments {
    ghost use Rattle.std.specs.Prelude.{List, All};
    ghost use Rattle.stil_ast.specs.Meaning.Arguments.{Argument};
    ghost use Rattle.macro_expand.specs.Lanes.{arguments_in, Fits};

    ghost Value = { List Argument };

    ghost view = { λ a. arguments_in a.characters a.lanes.items };

    ghost invariant = { λ a. All (Fits a.characters) a.lanes.items };
}

/// So many lanes without an argument.
fn empty_lanes(alloc: Global, count: usize) -> Result<Vec<Lane>, AllocError>
    ensures { IfOk result (λ lanes. lanes.items ≡ replicate count no_lane) }
{
    let mut lanes = Vec::new(alloc);
    for _ in 0..count {
        lanes.push(Lane::empty())?;
    }
    Ok(lanes)
}

/// Whether a signal is Out.
fn is_out(outs: &[bool], signal: u16) -> bool
    ensures { result ≡ slice_index_or outs.now signal false }
{
    match outs.get(usize::from(signal)) {
        Some(is_out) => *is_out,
        None => false,
    }
}

impl Arguments {
    /// No signals, for a pattern's own statements.
    pub fn none(alloc: Global) -> Arguments
        ensures { result ≡ [] }
    {
        Arguments {
            characters: Characters::new(alloc),
            lanes: Vec::new(alloc),
        }
    }

    /// So many signals without an argument.
    pub fn new(alloc: Global, signals: usize) -> Result<Arguments, AllocError>
        ensures { IfOk result (λ args. args ≡ replicate signals no_argument) }
    {
        let lanes = empty_lanes(alloc, signals)?;
        Ok(Arguments {
            characters: Characters::new(alloc),
            lanes,
        })
    }

    /// One argument of a Macro or a Call: its characters are dealt to its signals in turn, and a later argument
    /// replaces what a signal has. At an error nothing changes.
    pub fn give(&mut self, signals: &[u16], runs: &[ItemRun]) -> Result<(), AllocError>
        ensures dealt { OnOk result (self.new
            ≡ dealt_out (entries_of (items_of runs.now)) (length signals.now) 0 signals.now self.old) }
        ensures kept { OnErr result (self.new ≡ self.old) }
    {
        let from = self.characters.len();
        self.characters.push_all(runs)?;
        let end = self.characters.len();
        deal(&mut self.lanes, from, end, signals);
        Ok(())
    }

    /// The next entry of a signal's argument, if something is left of it: `Some(None)` is padding. It takes time in
    /// step with the logarithm of the number of runs.
    pub fn next(&self, signal: u16) -> Option<Option<u8>>
        ensures { option_map entry_of result ≡ next_entry self.now signal }
    {
        lane_at(self.lanes.as_slice(), signal).first(&self.characters)
    }

    /// Takes the next entry of a signal's argument, if something is left of it.
    pub fn take(&mut self, signal: u16)
        requires { (argument_of self.old signal).taken < 2 ^ 32 - 1 }
        ensures { self.new ≡ next_taken self.old signal }
    {
        let lane = lane_at(self.lanes.as_slice(), signal).advanced();
        put(&mut self.lanes, signal, lane);
    }

    /// How many entries of a signal's argument were taken.
    pub fn taken(&self, signal: u16) -> u32
        ensures { result ≡ (argument_of self.now signal).taken }
    {
        lane_at(self.lanes.as_slice(), signal).taken()
    }

    /// How much is left of a signal's argument.
    fn left(&self, signal: u16) -> usize
        ensures { result ≡ length (argument_of self.now signal).left }
    {
        lane_at(self.lanes.as_slice(), signal).len()
    }

    /// How often a Shift runs its body, in which these signals have a `#`: the longest argument that is left.
    pub fn passes(&self, signals: &[u16]) -> usize
        ensures { result ≡ passes signals.now self.now }
    {
        let mut most = 0;
        for signal in signals {
            most = self.left(*signal).max(most);
        }
        most
    }

    /// Makes what is left to a signal a column of so many entries.
    fn lay_column(&mut self, outs: &[bool], count: usize, signal: u16)
        ensures { self.new ≡ with_column outs.now count signal self.old }
    {
        let lane = lane_at(self.lanes.as_slice(), signal).padded(is_out(outs, signal), count);
        put(&mut self.lanes, signal, lane);
    }

    /// Makes what is left to these signals the columns with which the passes of a Shift begin. `outs` says of each
    /// signal whether it is Out. Shorter data are padded, at the end of an Out signal's and else in front.
    pub fn lay_columns(&mut self, outs: &[bool], signals: &[u16])
        ensures { self.new ≡ columns outs.now signals.now self.old }
    {
        let count = self.passes(signals);
        for signal in signals {
            self.lay_column(outs, count, *signal);
        }
    }
}
