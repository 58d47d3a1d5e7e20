//! What a table has from the tables that it inherits.

ghost use Rattle.std.specs.Prelude.{◌≡◌, ◌<◌, ◌||◌, ℕ, [], ◌∷◌, ◌++◌, Option, Some, None, not, true, false, map, flat_map, length, slice_get, slice_index_or, position, replicate, IfOk, OnOk, IfSome};
ghost use Rattle.std.specs.List.{list_all};
ghost use Rattle.std.specs.Option.{option_to_list};
ghost use Rattle.text_bytes.specs.Texts.{behind};
ghost use Rattle.stil_ast.specs.Data.Texts.{same};
ghost use Rattle.stil_ast.specs.Meaning.Tables.{inherited_by, lineage, table_of};
ghost use Rattle.wave_tables.specs.Scope.{timed};
ghost use Rattle.wave_tables.specs.Sources.{Fills};
ghost use Rattle.wave_tables.specs.declared.lineage.Whole.{Whole};
ghost use Rattle.wave_tables.specs.Lineage.{IsPeriod, HasOf, IsOver, AreMadeAt, AddsAt, Adds, AreWhole, is_there};

use crate::own::own_slots;
use crate::scope::Scope;
use crate::source::{Source, fill};
use crate::times::ReadTime;
use std::alloc::{AllocError, Global};
use stil_ast::{Quoted, TableDecl};
use tester_types::Items;

/// What a table has in all: which waveform counts for each signal and character, and its period if it has one.
#[derive(Drop)]
pub(crate) struct Whole {
    pub slots: Vec<Option<Source>>,
    pub period: Option<ReadTime>,
}

/// Slots with what stands under the empty ones.
fn filled(slots: Vec<Option<Source>>, under: &[Option<Source>]) -> Vec<Option<Source>>
    ensures { Fills slots.items under.now result.items }
{
    let mut slots = slots;
    fill(&mut slots, under);
    slots
}

/// The period of a text that may be missing.
fn period_of(
    alloc: Global,
    scope: &Scope,
    period: &Option<Quoted>,
) -> Result<Option<ReadTime>, AllocError>
    ensures { IfOk result (λ read. IsPeriod (timed scope.now) period.now read) }
{
    match period {
        Some(quoted) => Ok(Some(scope.time(alloc, quoted)?)),
        None => Ok(None),
    }
}

/// What a table has of its own.
fn own_whole(
    alloc: Global,
    scope: &Scope,
    number: u16,
    table: &TableDecl,
) -> Result<Whole, AllocError>
    requires { slice_get (timed scope.now).tables number ≡ Some table.now }
    ensures { IfOk result (λ whole. HasOf (timed scope.now) (number ∷ []) whole) }
{
    let slots = own_slots(alloc, scope, number, table)?;
    let period = period_of(alloc, scope, &table.period)?;
    Ok(Whole { slots, period })
}

/// A table over one that it inherits.
fn over(top: Whole, under: &Whole) -> Whole
    ensures { IsOver top under.now result }
{
    Whole {
        slots: filled(top.slots, &under.slots),
        period: top.period.or(under.period),
    }
}

/// Whether all of these tables are there.
fn all_there(wholes: &[Option<Whole>], tables: &[usize]) -> bool
    ensures { result ≡ list_all (λ k. is_there wholes.now k) tables.now }
{
    tables.iter().all(|table| wholes.get(*table).is_some_and(|whole| whole.is_some()))
}

/// For each table whether all that it inherits are there.
fn ready(
    alloc: Global,
    wholes: &[Option<Whole>],
    inherits: &[Items<usize>],
) -> Result<Vec<bool>, AllocError>
    ensures { IfOk result (λ list. list.items ≡ map (λ ks. list_all (λ k. is_there wholes.now k) ks) inherits.now) }
{
    let mut list = Vec::with_capacity(alloc, inherits.len())?;
    for tables in inherits {
        list.push(all_there(wholes, tables.as_slice()))?;
    }
    Ok(list)
}

/// The place of the table of this name.
fn place_of(tables: &[&TableDecl], name: &[u8]) -> Option<usize>
    ensures { result ≡ position (λ t. same t.now.name name.now) tables.now }
{
    tables
        .iter()
        .position(|table| table.name.as_slice() == name)
}

/// The number of the table of this name.
pub(crate) fn table_of(tables: &[&TableDecl], name: &[u8]) -> Option<usize>
    ensures { result ≡ table_of (behind tables.now) name.now }
{
    place_of(tables, name)
}

/// Appends a number that is there.
fn push_found(list: &mut Vec<usize>, found: Option<usize>) -> Result<(), AllocError>
    ensures { OnOk result (list.new.items ≡ list.old.items ++ option_to_list found) }
{
    if let Some(number) = found {
        list.push(number)?;
    }
    Ok(())
}

/// The tables that a table inherits, in text order.
fn inherited(
    alloc: Global,
    tables: &[&TableDecl],
    table: &TableDecl,
) -> Result<Items<usize>, AllocError>
    ensures { IfOk result (λ list. list ≡ inherited_by (behind tables.now) (Some table.now)) }
{
    let mut list = Vec::new(alloc);
    for named in table.inherits.as_slice() {
        push_found(&mut list, table_of(tables, named.name.as_slice()))?;
    }
    Ok(Items::from_vec(list))
}

/// The same for each table.
fn each_inherited(alloc: Global, tables: &[&TableDecl]) -> Result<Vec<Items<usize>>, AllocError>
    ensures { IfOk result (λ list. list.items
        ≡ map (λ t. inherited_by (behind tables.now) (Some t)) (behind tables.now)) }
{
    let mut list = Vec::with_capacity(alloc, tables.len())?;
    for table in tables {
        list.push(inherited(alloc, tables, table)?)?;
    }
    Ok(list)
}

/// A table over one of those that it inherits.
fn over_inherited(top: Whole, wholes: &[Option<Whole>], table: usize) -> Whole
    ensures { (under : Whole) → slice_index_or wholes.now table None ≡ Some under → IsOver top under result }
{
    match wholes.get(table) {
        Some(Some(under)) => over(top, under),
        Some(None) | None => top,
    }
}

/// A table over all that it inherits.
fn made(
    alloc: Global,
    scope: &Scope,
    number: u16,
    table: &TableDecl,
    inherits: &[usize],
    wholes: &[Option<Whole>],
) -> Result<Whole, AllocError>
    requires { slice_get (timed scope.now).tables number ≡ Some table.now }
    ensures { IfOk result (λ whole. AreMadeAt (timed scope.now) wholes.now inherits.now
        → HasOf (timed scope.now) (flat_map (lineage (timed scope.now).tables) inherits.now ++ (number ∷ [])) whole) }
{
    let mut whole = own_whole(alloc, scope, number, table)?;
    let mut left = inherits.len();
    while left > 0 {
        left -= 1;
        whole = over_inherited(whole, wholes, inherits[left]);
    }
    Ok(whole)
}

/// Puts a table where there is none; whether it did.
fn add_one(
    alloc: Global,
    scope: &Scope,
    inherits: &[Items<usize>],
    wholes: &mut [Option<Whole>],
    number: usize,
) -> Result<bool, AllocError>
    requires same { length wholes.old ≡ length (timed scope.now).tables }
    requires each { length inherits.now ≡ length (timed scope.now).tables }
    ensures length { OnOk result (length wholes.new ≡ length wholes.old) }
    ensures others { OnOk result ((k : ℕ) → (number ≡ k → ⊥)
        → slice_index_or wholes.new k None ≡ slice_index_or wholes.old k None) }
    ensures kept { IfOk result (λ added. added ≡ false → wholes.new ≡ wholes.old) }
    ensures there { IfOk result (λ added. number < length wholes.old → is_there wholes.new number ≡ true) }
    ensures was { IfOk result (λ added. is_there wholes.old number ≡ true → wholes.new ≡ wholes.old) }
    ensures has { IfOk result (λ added. added ≡ true → (whole : Whole)
        → slice_index_or wholes.new number None ≡ Some whole
        → AreMadeAt (timed scope.now) wholes.old (slice_index_or inherits.now number [])
        → HasOf (timed scope.now) (flat_map (lineage (timed scope.now).tables) (slice_index_or inherits.now number [])
        ++ (number ∷ [])) whole) }
{
    if number >= wholes.len() || wholes[number].is_some() {
        return Ok(false);
    }
    let tables = scope.tables();
    let short = u16::try_from(number).map_err(|_| AllocError)?;
    let whole = made(
        alloc,
        scope,
        short,
        tables[number],
        inherits[number].as_slice(),
        wholes,
    )?;
    wholes[number] = Some(whole);
    Ok(true)
}

/// Puts a table in where it is ready and there is none; whether it did.
fn add_if(
    alloc: Global,
    scope: &Scope,
    inherits: &[Items<usize>],
    wholes: &mut [Option<Whole>],
    number: usize,
    is_ready: bool,
) -> Result<bool, AllocError>
    requires same { length wholes.old ≡ length (timed scope.now).tables }
    requires each { length inherits.now ≡ length (timed scope.now).tables }
    ensures { IfOk result (λ added. AddsAt (timed scope.now) inherits.now is_ready number wholes.old wholes.new added) }
{
    if is_ready {
        add_one(alloc, scope, inherits, wholes, number)
    } else {
        Ok(false)
    }
}

/// Puts each table in that is ready; whether there was one that wasn't there.
fn add_ready(
    alloc: Global,
    scope: &Scope,
    inherits: &[Items<usize>],
    wholes: &mut [Option<Whole>],
    ready: &[bool],
) -> Result<bool, AllocError>
    requires same { length wholes.old ≡ length (timed scope.now).tables }
    requires each { length inherits.now ≡ length (timed scope.now).tables }
    ensures { IfOk result (λ added. Adds (timed scope.now) inherits.now ready.now wholes.old wholes.new added) }
{
    let mut added = false;
    for (number, is_ready) in ready.iter().enumerate() {
        let more = add_if(alloc, scope, inherits, wholes, number, *is_ready)?;
        added = either(added, more);
    }
    Ok(added)
}

fn either(first: bool, second: bool) -> bool
    ensures { result ≡ (first || second) }
{
    first || second
}

/// Puts the tables in that are ready, until a round finds none: those that lead into no cycle are there then.
fn add_rounds(
    alloc: Global,
    scope: &Scope,
    inherits: &[Items<usize>],
    wholes: &mut [Option<Whole>],
) -> Result<(), AllocError>
    requires none { (k : ℕ) → slice_index_or wholes.old k None ≡ None }
    requires same { length wholes.old ≡ length (timed scope.now).tables }
    requires each { inherits.now ≡ map (λ d. inherited_by (timed scope.now).tables (Some d)) (timed scope.now).tables }
    ensures { OnOk result (AreWhole (timed scope.now) wholes.new) }
{
    for _round in 0..=inherits.len() {
        let found = ready(alloc, wholes, inherits)?;
        if !add_ready(alloc, scope, inherits, wholes, found.as_slice())? {
            return Ok(());
        }
    }
    // Each round but the last finds a table, so there are no more rounds than tables.
    Err(AllocError)
}

/// So many places without a table.
fn none_yet(alloc: Global, count: usize) -> Result<Vec<Option<Whole>>, AllocError>
    ensures { IfOk result (λ wholes. wholes.items ≡ replicate count None) }
{
    let mut wholes = Vec::with_capacity(alloc, count)?;
    for _place in 0..count {
        wholes.push(None)?;
    }
    Ok(wholes)
}

/// What each table has in all, none for those that lead into a cycle.
pub(crate) fn wholes_of(alloc: Global, scope: &Scope) -> Result<Vec<Option<Whole>>, AllocError>
    ensures { IfOk result (λ wholes. AreWhole (timed scope.now) wholes.items) }
{
    let tables = scope.tables();
    let inherits = each_inherited(alloc, tables)?;
    let mut wholes = none_yet(alloc, tables.len())?;
    add_rounds(alloc, scope, &inherits, &mut wholes)?;
    Ok(wholes)
}
