//! What the lines of a grade told of so far.

ghost use Rattle.std.specs.Prelude.{◌≡◌, ◌||◌, ℕ, List, [], OnOk, is_some};
ghost use Rattle.std.specs.Option.{option_map};
ghost use Rattle.std.specs.Str.{bytes_eq};
ghost use Rattle.grade_parts.specs.Step.{has_in, Knows, IsMore, next_by, open_behind, stuck_of};

use indexmap::IndexSet;
use std::alloc::{AllocError, Global};
use std::marker::Model;

/// Which nets the faults so far are of, and which net's fault at 1 comes next.
#[derive(Drop)]
pub struct Told<'a> {
    nets: IndexSet<&'a [u8]>,
    waiting: Option<&'a [u8]>,
}

impl<'a> Model for Told<'a> {
    ghost use Rattle.std.specs.Prelude.{map};
    ghost use Rattle.std.specs.Option.{option_map};
    ghost use Rattle.indexmap.specs.IndexSet.{keys};
    ghost use Rattle.grade_parts.specs.Step.{Known};

    ghost Value = { Known };

    ghost view = { λ t. record {
      nets = map (λ net. net.now) (keys t.nets);
      waiting = option_map (λ net. net.now) t.waiting;
    } };
}

impl<'a> Told<'a> {
    /// Nothing was told yet.
    pub fn new(alloc: Global) -> Told<'a>
        ensures { Knows result [] }
    {
        Told {
            nets: IndexSet::new(alloc),
            waiting: None,
        }
    }

    /// Whether the fault at 1 of some net comes next.
    pub(crate) fn is_waiting(&self) -> bool
        ensures { result ≡ is_some self.now.waiting }
    {
        self.waiting.is_some()
    }

    /// Whether this fault comes next.
    pub(crate) fn comes_next(&self, net: &'a [u8], value: bool) -> bool
        ensures { result ≡ next_by self.now.waiting self.now (stuck_of net.now value) }
    {
        match self.waiting {
            Some(waiting) => value && waiting == net,
            None => !value && !has_net(&self.nets, net),
        }
    }

    /// This fault was told of too.
    pub(crate) fn add(&mut self, net: &'a [u8], value: bool) -> Result<(), AllocError>
        ensures { OnOk result (IsMore self.old self.new (stuck_of net.now value)) }
    {
        add_net(&mut self.nets, net)?;
        self.waiting = waiting_behind(net, value);
        Ok(())
    }
}

/// Keeps a net.
fn add_net<'a>(nets: &mut IndexSet<&'a [u8]>, net: &'a [u8]) -> Result<(), AllocError>
    ensures { OnOk result ((other : List ℕ) → has_in nets.new other
        ≡ (has_in nets.old other || bytes_eq net.now other)) }
{
    nets.insert(net)?;
    Ok(())
}

/// Whether a net is kept.
fn has_net<'a>(nets: &IndexSet<&'a [u8]>, net: &'a [u8]) -> bool
    ensures { result ≡ has_in nets.now net.now }
{
    nets.contains(&net)
}

/// The net that waits for its fault at 1 behind this fault.
fn waiting_behind(net: &[u8], value: bool) -> Option<&[u8]>
    ensures { option_map (λ waiting. waiting.now) result ≡ open_behind (stuck_of net.now value) }
{
    if value { None } else { Some(net) }
}
