//! The bursts of a text, with what each name in them means, and the names of its categories.

ghost use Rattle.std.specs.Prelude.{◌≡◌, ◌<◌, List, Some, length, map, slice_get, slice_index_or, IfOk};
ghost use Rattle.stil_ast.specs.Faults.BurstFaults.{is_category};
ghost use Rattle.stil_ast.specs.declared.blocks.Pattern.{Pattern};
ghost use Rattle.stil_ast.specs.declared.executive.Burst.{Burst};
ghost use Rattle.stil_ast.specs.declared.executive.BurstItem.{BurstItem};
ghost use Rattle.pattern_order.specs.declared.meaning.Meaning.TheVariants as meaning;
ghost use Rattle.pattern_order.specs.Numbers.{burst_number, meaning_of, meanings_of};

use crate::meaning::Meaning;
use crate::places::{BlockPlaces, Places, categories_of, place_of};
use std::alloc::{AllocError, Global};
use std::marker::Model;
use stil_ast::{Blocks, Burst, Pattern};
use tester_types::Items;

/// The meanings of the names in a burst, in text order.
type MeaningList = Items<Meaning>;

/// The meaning at a place.
fn meaning_at(meanings: &[Meaning], place: usize) -> Meaning
    ensures { result ≡ slice_index_or meanings.now place meaning.Unknown }
{
    meanings.get(place).copied().unwrap_or(Meaning::Unknown)
}

/// The names in a burst by what they mean.
fn meanings_of(
    alloc: Global,
    places: &BlockPlaces,
    burst: &Burst,
) -> Result<MeaningList, AllocError>
    ensures { IfOk result (λ meanings. meanings ≡ meanings_of places.now burst.now) }
{
    let mut meanings = Vec::new(alloc);
    for item in burst.items.as_slice() {
        meanings.push(places.meaning_of(item))?;
    }
    Ok(Items::from_vec(meanings))
}

/// The names in all bursts by what they mean.
fn all_meanings(
    alloc: Global,
    places: &BlockPlaces,
    bursts: &[Burst],
) -> Result<Vec<MeaningList>, AllocError>
    ensures { IfOk result (λ meanings. meanings.items ≡ map (meanings_of places.now) bursts.now) }
{
    let mut meanings = Vec::new(alloc);
    for burst in bursts {
        let of_burst = meanings_of(alloc, places, burst)?;
        meanings.push(of_burst)?;
    }
    Ok(meanings)
}

/// The bursts of a text with the meanings of all names in them, which are looked up once, and the names of its
/// categories.
#[derive(Drop)]
pub struct BurstNames<'a> {
    places: BlockPlaces<'a>,
    categories: Places<'a>,
    meanings: Vec<MeaningList>,
}

impl<'a> Model for BurstNames<'a> {
    ghost use Rattle.std.specs.Prelude.{◌≡◌, map};
    ghost use Rattle.stil_ast.specs.declared.blocks.Blocks.{Blocks};
    ghost use Rattle.pattern_order.specs.Numbers.{meanings_of, AreCategories};

    ghost Value = { Blocks };

    ghost use Rattle.stil_ast.specs.contracts.blocks.Blocks as contract;

    ghost coded = { contract.the_row.coded };

    ghost view = { λ n. n.places };

    ghost invariant = { λ n. (n.meanings.items ≡ map (meanings_of n.places) n.places.bursts)
        × AreCategories n.places n.categories };
}

impl<'a> BurstNames<'a> {
    /// The bursts of these blocks.
    pub fn new(alloc: Global, blocks: &'a Blocks) -> Result<BurstNames<'a>, AllocError>
        ensures { IfOk result (λ names. names ≡ blocks.now) }
    {
        let places = BlockPlaces::new(alloc, blocks)?;
        let categories = categories_of(alloc, blocks)?;
        let meanings = all_meanings(alloc, &places, blocks.bursts.as_slice())?;
        Ok(BurstNames {
            places,
            categories,
            meanings,
        })
    }

    /// The blocks whose bursts they are.
    pub fn blocks(&self) -> &'a Blocks
        ensures { result.now ≡ self.now }
    {
        self.places.blocks()
    }

    /// The number of the burst of a name.
    pub(crate) fn number(&self, name: &[u8]) -> Option<usize>
        ensures { result ≡ burst_number self.now name.now }
    {
        self.places.burst_number(name)
    }

    /// Whether some Spec has a category of this name.
    pub(crate) fn is_category(&self, name: &[u8]) -> bool
        ensures { result ≡ is_category self.now name.now }
    {
        place_of(&self.categories, name).is_some()
    }

    /// How many bursts there are.
    pub(crate) fn count(&self) -> usize
        ensures { result ≡ length self.now.bursts }
    {
        self.blocks().bursts.len()
    }

    /// The burst of a number.
    pub(crate) fn burst(&self, number: usize) -> &'a Burst
        requires { number < length self.now.bursts }
        ensures { slice_get self.now.bursts number ≡ Some result.now }
    {
        &self.blocks().bursts.as_slice()[number]
    }

    /// The pattern of a number.
    pub(crate) fn pattern(&self, number: usize) -> &'a Pattern
        requires { number < length self.now.patterns }
        ensures { slice_get self.now.patterns number ≡ Some result.now }
    {
        &self.blocks().patterns.as_slice()[number]
    }

    /// What the name at a place in a burst means.
    pub(crate) fn meaning(&self, number: usize, place: usize) -> Meaning
        requires { number < length self.now.bursts }
        ensures { (b : Burst) (i : BurstItem) → slice_get self.now.bursts number ≡ Some b
            → slice_get b.items place ≡ Some i → result ≡ meaning_of self.now i }
    {
        meaning_at(self.meanings[number].as_slice(), place)
    }
}
