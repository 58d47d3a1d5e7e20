//! Names that were declared, each under a title, which are looked up by hash.

ghost use Rattle.std.specs.Prelude.{◌≡◌, ◌||◌, ◌&&◌, ◌+◌, ◌<◌, ◌^◌, ℕ, List, [], ◌∷◌, ◌++◌, IfOk, OnOk, if◌then◌else◌};
ghost use Rattle.std.specs.Str.{bytes_eq};
ghost use Rattle.block_forms.specs.Indices.{pairs_of, has_pair, count_in};
ghost use Rattle.block_forms.specs.Heads.{is_declared, count_under};

use indexmap::{IndexMap, IndexSet};
use std::alloc::{AllocError, Global};
use std::marker::Model;
use std::mem;

/// Names under titles, in the order in which they were declared.
#[derive(Drop)]
pub struct Declared<'a> {
    pairs: Vec<(&'a [u8], &'a [u8])>,
    index: IndexSet<(&'a [u8], &'a [u8])>,
    counts: IndexMap<&'a [u8], usize>,
}

impl<'a> Model for Declared<'a> {
    ghost use Rattle.std.specs.Prelude.{◌≡◌, ℕ, List};
    ghost use Rattle.block_forms.specs.Indices.{pairs_of, IsIndexed};

    ghost Value = { List (List ℕ × List ℕ) };

    ghost view = { λ d. pairs_of d.pairs.items };

    ghost invariant = { λ d. IsIndexed (pairs_of d.pairs.items) d.index d.counts };
}

impl<'a> Declared<'a> {
    /// No names.
    pub fn new(alloc: Global) -> Declared<'a>
        ensures { result ≡ [] }
    {
        Declared {
            pairs: Vec::new(alloc),
            index: IndexSet::new(alloc),
            counts: IndexMap::new(alloc),
        }
    }

    /// Whether the name was declared under the title.
    pub fn has(&self, title: &'a [u8], called: &'a [u8]) -> bool
        ensures { result ≡ is_declared self.now title.now called.now }
    {
        self.index.contains(&(title, called))
    }

    /// How many names were declared under the title.
    pub fn count(&self, title: &[u8]) -> usize
        ensures { result ≡ count_under self.now title.now }
    {
        count_in(&self.counts, title)
    }

    /// One more name under a title.
    pub fn with(self, title: &'a [u8], called: &'a [u8]) -> Result<Declared<'a>, AllocError>
        ensures { IfOk result (λ declared. declared ≡ self.entry ++ (title.now, called.now) ∷ []) }
    {
        let Declared {
            mut pairs,
            mut index,
            mut counts,
        } = self;
        add_pair(&mut index, title, called)?;
        add_one(&mut counts, title)?;
        pairs.push((title, called))?;
        Ok(Declared {
            pairs,
            index,
            counts,
        })
    }

    /// Adds a name under a title. Where there is no memory for it, no names are left.
    pub fn add(
        &mut self,
        alloc: Global,
        title: &'a [u8],
        called: &'a [u8],
    ) -> Result<(), AllocError>
        ensures { OnOk result (self.new ≡ self.old ++ (title.now, called.now) ∷ []) }
    {
        let known = mem::replace(self, Declared::new(alloc)).with(title, called)?;
        let _none = mem::replace(self, known);
        Ok(())
    }
}

fn count_in(counts: &IndexMap<&[u8], usize>, title: &[u8]) -> usize
    ensures { result ≡ count_in counts.now title.now }
{
    counts.get(title).copied().unwrap_or(0)
}

fn add_pair<'a>(
    index: &mut IndexSet<(&'a [u8], &'a [u8])>,
    title: &'a [u8],
    called: &'a [u8],
) -> Result<(), AllocError>
    ensures { OnOk result ((other name : List ℕ) → has_pair index.new other name
        ≡ (has_pair index.old other name || (bytes_eq title.now other && bytes_eq called.now name))) }
{
    index.insert((title, called))?;
    Ok(())
}

/// Counts one more name under a title.
fn add_one<'a>(counts: &mut IndexMap<&'a [u8], usize>, title: &'a [u8]) -> Result<(), AllocError>
    requires small { count_in counts.old title.now < 2 ^ 63 }
    ensures { OnOk result ((other : List ℕ) → count_in counts.new other
        ≡ count_in counts.old other + (if bytes_eq title.now other then 1 else 0)) }
{
    let count = count_in(counts, title);
    counts.insert(title, count + 1)?;
    Ok(())
}
