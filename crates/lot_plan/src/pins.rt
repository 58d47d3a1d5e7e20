//! What each signal needs, by the rows of a plan.
ghost use Rattle.std.specs.Prelude.{◌≡◌, ◌<◌, ◌≤◌, ℕ, List, None, Some, if◌then◌else◌, map, length, slice_get, IfOk, OnOk};
ghost use Rattle.std.specs.Option.{option_copied, option_map_or, option_or, option_and_then};
ghost use Rattle.std.specs.List.{find, position};
ghost use Rattle.std.specs.Str.{bytes_eq};
ghost use Rattle.text_bytes.specs.Limits.{most_signals};
ghost use Rattle.text_bytes.specs.Texts.{behind};
ghost use Rattle.indexmap.specs.IndexMap.{get_by};
ghost use Rattle.lot_plan.specs.Needs.{clock_of, has_name, is_clock_name, role_of, needs_of};
ghost use Rattle.lot_plan.specs.Views.{needed_by, row_in};

use crate::pin::{Pin, Role};
use crate::rows::{clock_of, each_of};
use indexmap::IndexMap;
use packed_code::{Code, CodeSignal, CodeSignalList, Direction};
use plan_rows::{BindRow, Row};
use std::alloc::Global;
use tester_types::{Items, NoMemory};

/// The bind rows of a plan, by the names of their signals.
type BindRows<'a> = IndexMap<&'a [u8], &'a BindRow>;

/// The signals of a program.
pub(crate) fn signals_of(alloc: Global, code: &Code) -> Result<CodeSignalList, NoMemory>
    ensures all { IfOk result (λ signals. signals ≡ code.now.signals) }
    ensures few { IfOk result (λ signals. length signals ≤ most_signals) }
{
    let mut signals = Vec::new(alloc);
    for number in 0..code.signals() {
        signals.push(signal_of(alloc, code, number)?)?;
    }
    Ok(Items::from_vec(signals))
}

/// A signal of a program.
fn signal_of(alloc: Global, code: &Code, number: u16) -> Result<CodeSignal, NoMemory>
    requires { number < length code.now.signals }
    ensures { IfOk result (λ signal. slice_get code.now.signals number ≡ Some signal) }
{
    Ok(CodeSignal {
        name: Items::from_slice(alloc, code.signal_name(number))?,
        direction: code.direction(number),
    })
}

/// Puts a bind row behind the others, unless its signal has one.
fn add_row<'a>(rows: &mut BindRows<'a>, row: &'a BindRow) -> Result<(), NoMemory>
    ensures { OnOk result ((name : List ℕ) →
        row_in rows.new name
        ≡ option_or (row_in rows.old name) (if bytes_eq name row.now.signal then Some row.now else None)) }
{
    let name = row.signal.as_slice();
    if rows.contains_key(name) {
        return Ok(());
    }
    rows.insert(name, row)?;
    Ok(())
}

/// Bind rows by the names of their signals.
fn by_names<'a>(alloc: Global, rows: &[&'a BindRow]) -> Result<BindRows<'a>, NoMemory>
    ensures { IfOk result (λ found. (name : List ℕ) →
        row_in found name ≡ find (λ b. bytes_eq name b.signal) (behind rows.now)) }
{
    let mut found = IndexMap::new(alloc);
    for row in rows {
        add_row(&mut found, row)?;
    }
    Ok(found)
}

/// The name of a signal's net: what its bind row says, else its own name.
fn net_name<'a>(rows: &BindRows<'a>, name: &'a [u8]) -> Option<&'a [u8]>
    ensures { option_copied result ≡ option_map_or (λ r. r.net) (row_in rows.now name.now) (Some name.now) }
{
    match rows.get(name) {
        Some(row) => named_by(row),
        None => Some(name),
    }
}

/// The net that a bind row names.
fn named_by(row: &BindRow) -> Option<&[u8]>
    ensures { option_copied result ≡ row.now.net }
{
    match &row.net {
        Some(net) => Some(net.as_slice()),
        None => None,
    }
}

/// Whether the plan's clock has this name.
fn is_clock(clock: Option<&[u8]>, name: &[u8]) -> bool
    ensures { result ≡ is_clock_name (option_copied clock.entry) name.now }
{
    match clock {
        Some(clock) => name == clock,
        None => false,
    }
}

/// What a signal does with its net.
fn role_of(is_clock: bool, direction: Direction) -> Role
    ensures { result ≡ role_of is_clock direction }
{
    if is_clock {
        return Role::Clock;
    }
    match direction {
        Direction::In => Role::Input,
        Direction::Out => Role::Output,
        Direction::InOut => Role::Either,
        Direction::Supply | Direction::Pseudo => Role::Nothing,
    }
}

/// What a signal needs.
fn pin_of<'a>(clock: Option<&'a [u8]>, rows: &BindRows<'a>, signal: &'a CodeSignal) -> Pin<'a>
    ensures { needed_by result ≡ record {
      name = signal.now.name;
      role = role_of (is_clock_name (option_copied clock.entry) signal.now.name) signal.now.direction;
      net = option_map_or (λ r. r.net) (row_in rows.now signal.now.name) (Some signal.now.name);
    } }
{
    let name = signal.name.as_slice();
    Pin {
        name,
        role: role_of(is_clock(clock, name), signal.direction),
        net: net_name(rows, name),
    }
}

/// What the signals need, in declared order.
pub(crate) fn pins_of<'a>(
    alloc: Global,
    rows: &'a [Row],
    signals: &'a [CodeSignal],
) -> Result<Vec<Pin<'a>>, NoMemory>
    ensures { IfOk result (λ pins. map needed_by pins.items ≡ needs_of rows.now signals.now) }
{
    let clock = clock_of(rows);
    let binds = each_of::<BindRow>(alloc, rows)?;
    let found = by_names(alloc, &binds)?;
    let mut pins = Vec::new(alloc);
    for signal in signals {
        pins.push(pin_of(clock, &found, signal))?;
    }
    Ok(pins)
}

/// The number of the signal of this name.
pub(crate) fn place_of(signals: &[CodeSignal], name: &[u8]) -> Option<u16>
    requires { length signals.now ≤ most_signals }
    ensures { result ≡ position (has_name name.now) signals.now }
{
    let place = signals
        .iter()
        .position(|signal| name == signal.name.as_slice())?;
    Some(place as u16)
}

/// The number of the clock, none where the plan has no clock.
pub(crate) fn clock_number(rows: &[Row], signals: &[CodeSignal]) -> Option<u16>
    requires { length signals.now ≤ most_signals }
    ensures { result ≡ clock_of rows.now signals.now }
{
    match clock_of(rows) {
        Some(clock) => place_of(signals, clock),
        None => None,
    }
}
