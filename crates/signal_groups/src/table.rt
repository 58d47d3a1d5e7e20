//! What is known of the signals and groups of a text.

ghost use Rattle.std.specs.Prelude.{◌≡◌, ◌<◌, ◌≤◌, ◌+◌, ℕ, [], None, Some, Ok, IsTrue, IfSome, IfOk, All, length, slice_get, slice_index_or, slice_set};
ghost use Rattle.text_bytes.specs.Limits.{most_signals};
ghost use Rattle.stil_ast.specs.Meaning.Signals.{Names};
ghost use Rattle.stil_ast.specs.Meaning.Members.{is_based_on, reference_kind, members};
ghost use Rattle.signal_groups.specs.Table.{IsSound, table_of, with_members};
ghost use Rattle.signal_groups.specs.Found.{signals_found};
ghost use Rattle.signal_groups.specs.Lookup.{number_in, place_in, signals_at, plain_ref, Resolves};
ghost use Rattle.signal_groups.specs.Graph.{needed_unless};

use crate::fault::RefFault;
use crate::found::FoundSignals;
use crate::places::{place_among, stands_at};
use crate::resolve::resolved;
use indexmap::IndexSet;
use std::alloc::Global;
use std::marker::Model;
use stil_ast::SigRef;
use tester_types::{Direction, Items, Text};

/// The numbers of signals in order.
pub type SignalList = Items<u16>;

/// What is kept of a signal beside its text.
#[derive(Drop)]
pub(crate) struct Declared {
    pub(crate) base: Option<Text>,
    pub(crate) direction: Direction,
}

/// The signals of a text in declared order, and its groups with their signals. Signals and groups are numbered from 0. It
/// is kept whether no group has the name of a signal.
#[derive(Drop)]
pub struct SignalTable {
    pub(crate) texts: IndexSet<Vec<u8>>,
    pub(crate) declared: Vec<Declared>,
    pub(crate) groups: IndexSet<Vec<u8>>,
    pub(crate) members: Vec<SignalList>,
    pub(crate) apart: bool,
}

impl Model for SignalTable {
    ghost use Rattle.signal_groups.specs.Table.{Table};
    ghost use Rattle.signal_groups.specs.Memory.{table_in, IsHeld};

    ghost Value = { Table };

    ghost view = { table_in };

    ghost invariant = { IsHeld };
}

impl SignalTable {
    /// How many signals there are, at most 1,024.
    pub fn count(&self) -> usize
        ensures count { result ≡ length self.now.texts }
        ensures few { result ≤ most_signals }
    {
        self.texts.len()
    }

    /// The text of a signal.
    pub fn name(&self, signal: usize) -> &[u8]
        requires { signal < length self.now.texts }
        ensures { slice_get self.now.texts signal ≡ Some result.now }
    {
        match self.texts.get_index(signal) {
            Some(text) => text.as_slice(),
            None => unreachable!(),
        }
    }

    /// What a signal is for.
    pub fn direction(&self, signal: usize) -> Direction
        requires { signal < length self.now.texts }
        ensures { slice_get self.now.directions signal ≡ Some result }
    {
        self.declared[signal].direction
    }

    /// The number of the signal of this text.
    pub fn number(&self, name: &[u8]) -> Option<u16>
        ensures number { result ≡ number_in self.now.texts name.now }
        ensures within { IfSome result (λ signal. signal < length self.now.texts) }
    {
        let place = place_among(&self.texts, name)?;
        Some(place as u16)
    }

    /// The number of the group of this name.
    pub(crate) fn group(&self, name: &[u8]) -> Option<usize>
        ensures number { result ≡ number_in self.now.groups name.now }
        ensures within { IfSome result (λ group. group < length self.now.members) }
    {
        place_among(&self.groups, name)
    }

    /// The number of the group of a name that no signal has.
    pub(crate) fn group_alone(&self, name: &[u8]) -> Option<u16>
        ensures { result ≡ needed_unless (number_in self.now.texts name.now) (number_in self.now.groups name.now) None }
    {
        self.soundness();
        if self.number(name).is_some() {
            return None;
        }
        match self.group(name) {
            Some(group) => Some(group as u16),
            None => None,
        }
    }

    /// Gives a group its signals.
    pub(crate) fn set_members(&mut self, group: usize, signals: SignalList)
        requires group { group < length self.old.members }
        requires within { All (λ s. s < length self.old.texts) signals }
        ensures { self.new ≡ with_members self.old (slice_set self.old.members group signals) }
    {
        self.members[group] = signals;
    }

    /// The signals of a group.
    pub(crate) fn members(&self, group: usize) -> &[u16]
        requires { group < length self.now.members }
        ensures members { result.now ≡ slice_index_or self.now.members group [] }
        ensures within { All (λ s. s < length self.now.texts) result.now }
    {
        self.members[group].as_slice()
    }

    /// Whether a signal was declared with brackets under this name.
    pub(crate) fn is_based_on(&self, signal: usize, name: &[u8]) -> bool
        requires { signal < length self.now.texts }
        ensures { result ≡ is_based_on name.now (slice_index_or self.now.bases signal None) }
    {
        self.declared[signal].is_based_on(name)
    }

    /// That the table is within the limits.
    pub fn soundness(&self)
        ensures { IsSound self.now }
    {
        let _texts = &self.texts;
    }

    /// Whether a name without indices stands at a place.
    fn stands_at(&self, place: usize, name: &[u8]) -> bool
        ensures { IsTrue result → place_in self.now name.now ≡ Some place }
    {
        if place < self.texts.len() {
            return stands_at(&self.texts, place, name);
        }
        self.apart && stands_at(&self.groups, place - self.texts.len(), name)
    }

    /// Where a name without indices stands, which is searched for.
    fn searched(&self, name: &[u8]) -> Option<u16>
        ensures { result ≡ place_in self.now name.now }
    {
        self.soundness();
        if let Some(signal) = self.number(name) {
            return Some(signal);
        }
        match self.group(name) {
            Some(group) => Some((self.texts.len() + group) as u16),
            None => None,
        }
    }

    /// Where a name without indices stands, for which it is looked first at the guess.
    fn looked(&self, guess: Option<u16>, name: &[u8]) -> Option<u16>
        ensures { result ≡ place_in self.now name.now }
    {
        match guess {
            Some(place) => {
                if self.stands_at(usize::from(place), name) {
                    return Some(place);
                }
                self.searched(name)
            }
            None => self.searched(name),
        }
    }

    /// Where a name without indices stands: a signal at its number, and a group behind the signals. Where a guess is right it
    /// is found without a search.
    pub fn place(&self, guess: Option<u16>, name: &[u8]) -> Option<u16>
        ensures place { result ≡ place_in self.now name.now }
        ensures signals { (names : Names) → self.now ≡ table_of names → IfSome result (λ place.
            Resolves (reference_kind names (plain_ref name.now)) (members names (plain_ref name.now))
            (Ok (signals_at self.now place))) }
        ensures within { IfSome result (λ place. place < length self.now.texts + length self.now.members) }
    {
        self.soundness();
        self.looked(guess, name)
    }

    /// The signals at a place, without memory.
    pub fn at(&self, place: u16) -> FoundSignals<'_>
        requires { place < length self.now.texts + length self.now.members }
        ensures { signals_found result ≡ signals_at self.now place }
    {
        let count = self.texts.len();
        if usize::from(place) < count {
            FoundSignals::One([place])
        } else {
            FoundSignals::Group(self.members(usize::from(place) - count))
        }
    }

    /// The signals for which a reference stands, in order.
    pub fn resolve(&self, alloc: Global, reference: &SigRef) -> Result<SignalList, RefFault>
        ensures signals { (names : Names) → self.now ≡ table_of names
            → Resolves (reference_kind names reference.now) (members names reference.now) result }
        ensures within { IfOk result (λ signals. All (λ s. s < length self.now.texts) signals) }
    {
        resolved(alloc, self, reference)
    }
}

impl Declared {
    /// Whether this signal was declared with brackets under this name.
    fn is_based_on(&self, name: &[u8]) -> bool
        ensures { result ≡ is_based_on name.now self.now.base }
    {
        match &self.base {
            Some(base) => base.as_slice() == name,
            None => false,
        }
    }
}
