//! What is kept of the datalog of a part.

ghost use Rattle.std.specs.Prelude.{◌≡◌, ◌⊎◌, [], ℕ, Vec, IfOk, IfErr, MatchResult, slice_index_or};
ghost use Rattle.datalog.specs.DatalogText.{dies_in};
ghost use Rattle.part_lines.specs.LineFault.{IsLineFault};
ghost use Rattle.part_lines.specs.declared.fault.LineFault.TheVariants as fault;
ghost use Rattle.log_parts.specs.Log.{IsLogOf};
ghost use Rattle.log_parts.specs.Slices.{IsSliced, lent_sites};
ghost use Rattle.log_parts.specs.Step.{AreOneLineEach, IsFaultOf};

use crate::end::{count_of, read_end, read_totals};
use crate::site::read_sites;
use part_lines::{LineFault, Lines};
use std::alloc::Global;
use std::marker::Model;

/// The datalog of a part: the lines of each site's dies, and the bins of all dies.
#[derive(Drop)]
pub struct PartLog<'a> {
    texts: Vec<&'a [u8]>,
    bins: Vec<u8>,
}

impl<'a> Model for PartLog<'a> {
    ghost use Rattle.log_parts.specs.Slices.{SlicedLog, lent};

    ghost Value = { SlicedLog };

    ghost view = { λ l. record { texts = lent l.texts.items; bins = l.bins.items } };
}

impl<'a> PartLog<'a> {
    /// Reads the datalog of dies with these names, site by site; or says the first line up to which no such datalog begins
    /// as the text does.
    pub fn read(
        alloc: Global,
        names: &[Vec<&[u8]>],
        text: &'a [u8],
    ) -> Result<PartLog<'a>, LineFault>
        requires { AreOneLineEach (lent_sites names.now) }
        ensures found { IfOk result (λ log. IsSliced (lent_sites names.now) text.now log) }
        ensures fault { IfErr result (λ e. IsFaultOf (lent_sites names.now) text.now e) }
        ensures only { IsLogOf (lent_sites names.now) text.now → IfErr result (λ e. e ≡ fault.NoMemory) }
        ensures refused { (line : ℕ) → IsLineFault (IsLogOf (lent_sites names.now)) text.now line
            → MatchResult result (λ _. ⊥) (λ e. (e ≡ fault.NoMemory) ⊎ (e ≡ fault.Line line)) }
    {
        read_part(alloc, names, text)
    }

    /// The lines of the dies of the site of this number in the part, and nothing for one that it hasn't.
    pub fn text(&self, site: usize) -> &'a [u8]
        ensures { result.now ≡ slice_index_or self.now.texts site [] }
    {
        match self.texts.get(site) {
            Some(text) => text,
            None => b"",
        }
    }

    /// How many dies fell into the bin.
    pub fn dies_in(&self, bin: u8) -> usize
        ensures { result ≡ dies_in bin self.now.bins }
    {
        count_of(bin, self.bins.as_slice())
    }
}

/// Reads the sites, the totals and the end of a datalog.
fn read_part<'a>(
    alloc: Global,
    names: &[Vec<&[u8]>],
    text: &'a [u8],
) -> Result<PartLog<'a>, LineFault>
    requires { AreOneLineEach (lent_sites names.now) }
    ensures { MatchResult result (IsSliced (lent_sites names.now) text.now)
        (IsFaultOf (lent_sites names.now) text.now) }
{
    let mut lines = Lines::new(text);
    let mut bins = Vec::new(alloc);
    let texts = read_sites(alloc, &mut lines, names, &mut bins)?;
    read_totals(&mut lines, bins.as_slice())?;
    read_end(&lines)?;
    Ok(PartLog { texts, bins })
}
