//! The blocks of a text by their names, which are looked up by hash.

ghost use Rattle.std.specs.Prelude.{◌≡◌, ◌||◌, ℕ, List, Some, None, IfOk, OnOk, position, is_some, if◌then◌else◌};
ghost use Rattle.std.specs.List.{list_any};
ghost use Rattle.std.specs.Option.{option_or};
ghost use Rattle.std.specs.Str.{bytes_eq};
ghost use Rattle.stil_ast.specs.Data.Texts.{same};
ghost use Rattle.stil_ast.specs.Faults.BurstFaults.{has_block};
ghost use Rattle.pattern_order.specs.Numbers.{place_in, is_called, has_category, AreCategories, burst_number, meaning_of, entry_meaning, block_meaning};

use crate::meaning::Meaning;
use indexmap::IndexMap;
use std::alloc::{AllocError, Global};
use std::marker::Model;
use stil_ast::{
    Blocks, Burst, BurstItem, BurstWord, Category, DefBlock, GroupBlock, Pattern, ScanBlock,
    SpecBlock,
};

/// What has a name.
pub(crate) trait HasName {
    ghost use Rattle.std.specs.Prelude.{◌≡◌, ℕ, List};

    ghost called: { Self → List ℕ };

    /// Its name.
    fn name(&self) -> &[u8]
        ensures { result.now ≡ called self.now };
}

impl HasName for Pattern {
    ghost called = { λ p. p.name };

    fn name(&self) -> &[u8] {
        self.name.as_slice()
    }
}

impl HasName for Burst {
    ghost called = { λ b. b.name };

    fn name(&self) -> &[u8] {
        self.name.as_slice()
    }
}

impl HasName for GroupBlock {
    ghost called = { λ g. g.name };

    fn name(&self) -> &[u8] {
        self.name.as_slice()
    }
}

impl HasName for DefBlock {
    ghost called = { λ d. d.name };

    fn name(&self) -> &[u8] {
        self.name.as_slice()
    }
}

impl HasName for ScanBlock {
    ghost called = { λ s. s.name };

    fn name(&self) -> &[u8] {
        self.name.as_slice()
    }
}

impl HasName for Category {
    ghost called = { λ c. c.name };

    fn name(&self) -> &[u8] {
        self.name.as_slice()
    }
}

/// The place of each name among others, which are counted from 0.
pub type Places<'a> = IndexMap<&'a [u8], usize>;

/// The place of a name, if it has one.
pub fn place_of(places: &Places, name: &[u8]) -> Option<usize>
    ensures { result ≡ place_in places.now name.now }
{
    places.get(name).copied()
}

/// Gives a name this place, unless it has one.
pub fn add_place<'a>(
    places: &mut Places<'a>,
    name: &'a [u8],
    place: usize,
) -> Result<(), AllocError>
    ensures { OnOk result ((called : List ℕ) → place_in places.new called
        ≡ option_or (place_in places.old called) (if bytes_eq name.now called then Some place else None)) }
{
    if places.contains_key(name) {
        return Ok(());
    }
    places.insert(name, place)?;
    Ok(())
}

/// The first place of each name.
fn places_of<'a, T: HasName>(alloc: Global, items: &'a [T]) -> Result<Places<'a>, AllocError>
    ensures { IfOk result (λ places. (name : List ℕ) → place_in places name
        ≡ position (λ i. same (T.called i) name) items.now) }
{
    let mut places = IndexMap::new(alloc);
    for (place, item) in items.iter().enumerate() {
        add_place(&mut places, item.name(), place)?;
    }
    Ok(places)
}

/// Gives the names of these categories places among those before.
fn add_categories<'a>(places: &mut Places<'a>, categories: &'a [Category]) -> Result<(), AllocError>
    ensures { OnOk result ((name : List ℕ) → is_some (place_in places.new name)
        ≡ (is_some (place_in places.old name) || list_any (is_called name) categories.now)) }
{
    for (place, category) in categories.iter().enumerate() {
        add_place(places, category.name(), place)?;
    }
    Ok(())
}

/// A place for the name of each category of each Spec.
fn category_places<'a>(alloc: Global, specs: &'a [SpecBlock]) -> Result<Places<'a>, AllocError>
    ensures { IfOk result (λ places. (name : List ℕ) → is_some (place_in places name)
        ≡ list_any (has_category name) specs.now) }
{
    let mut places = IndexMap::new(alloc);
    for spec in specs {
        add_categories(&mut places, spec.categories.as_slice())?;
    }
    Ok(places)
}

/// A place for the name of each category of these blocks.
pub(crate) fn categories_of<'a>(alloc: Global, blocks: &'a Blocks) -> Result<Places<'a>, AllocError>
    ensures { IfOk result (λ places. AreCategories blocks.now places) }
{
    category_places(alloc, blocks.specs.as_slice())
}

/// What an entry of a PatList means.
fn entry_meaning(patterns: &Places, bursts: &Places, name: &[u8]) -> Meaning
    ensures { result ≡ entry_meaning (place_in patterns.now name.now) (place_in bursts.now name.now) }
{
    match place_of(patterns, name) {
        Some(pattern) => Meaning::Pattern(pattern),
        None => match place_of(bursts, name) {
            Some(burst) => Meaning::Burst(burst),
            None => Meaning::Unknown,
        },
    }
}

/// The blocks of a text with the place of each name of each kind.
#[derive(Drop)]
pub(crate) struct BlockPlaces<'a> {
    blocks: &'a Blocks,
    patterns: Places<'a>,
    bursts: Places<'a>,
    groups: Places<'a>,
    macros: Places<'a>,
    procedures: Places<'a>,
    scans: Places<'a>,
}

impl<'a> Model for BlockPlaces<'a> {
    ghost use Rattle.stil_ast.specs.declared.blocks.Blocks.{Blocks};
    ghost use Rattle.pattern_order.specs.Numbers.{ArePlaces};

    ghost Value = { Blocks };

    ghost use Rattle.stil_ast.specs.contracts.blocks.Blocks as contract;

    ghost coded = { contract.the_row.coded };

    ghost view = { λ f. f.blocks.now };

    ghost invariant = { λ f. ArePlaces f.blocks.now f.patterns f.bursts f.groups f.macros f.procedures f.scans };
}

impl<'a> BlockPlaces<'a> {
    /// The blocks of a text, by their names.
    pub(crate) fn new(alloc: Global, blocks: &'a Blocks) -> Result<BlockPlaces<'a>, AllocError>
        ensures { IfOk result (λ places. places ≡ blocks.now) }
    {
        Ok(BlockPlaces {
            blocks,
            patterns: places_of(alloc, blocks.patterns.as_slice())?,
            bursts: places_of(alloc, blocks.bursts.as_slice())?,
            groups: places_of(alloc, blocks.groups.as_slice())?,
            macros: places_of(alloc, blocks.macros.as_slice())?,
            procedures: places_of(alloc, blocks.procedures.as_slice())?,
            scans: places_of(alloc, blocks.scans.as_slice())?,
        })
    }

    /// The blocks.
    pub(crate) fn blocks(&self) -> &'a Blocks
        ensures { result.now ≡ self.now }
    {
        self.blocks
    }

    /// The number of the burst of a name.
    pub(crate) fn burst_number(&self, name: &[u8]) -> Option<usize>
        ensures { result ≡ burst_number self.now name.now }
    {
        place_of(&self.bursts, name)
    }

    /// Whether a name in a burst names a block of its kind; an entry, a pattern.
    fn has_block(&self, word: BurstWord, name: &[u8]) -> bool
        ensures { result ≡ has_block self.now word name.now }
    {
        match word {
            BurstWord::SignalGroups => place_of(&self.groups, name).is_some(),
            BurstWord::MacroDefs => place_of(&self.macros, name).is_some(),
            BurstWord::Procedures => place_of(&self.procedures, name).is_some(),
            BurstWord::ScanStructures => place_of(&self.scans, name).is_some(),
            BurstWord::Entry => place_of(&self.patterns, name).is_some(),
        }
    }

    /// What a name in a burst means.
    pub(crate) fn meaning_of(&self, item: &BurstItem) -> Meaning
        ensures { result ≡ meaning_of self.now item.now }
    {
        if matches!(item.word, BurstWord::Entry) {
            entry_meaning(&self.patterns, &self.bursts, item.name.as_slice())
        } else if self.has_block(item.word, item.name.as_slice()) {
            Meaning::Block
        } else {
            Meaning::Unknown
        }
    }
}
