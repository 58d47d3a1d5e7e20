//! The lines of a text, their nets as numbers.
ghost use Rattle.std.specs.Prelude.{◌≡◌, ℕ, ◌≤◌, None, Some, ◌∷◌, List, map, fold, length, OnOk, IfOk};
ghost use Rattle.std.specs.List.{position};
ghost use Rattle.std.specs.Str.{bytes_eq};
ghost use Rattle.text_bytes.specs.Texts.{added, key_texts};
ghost use Rattle.text_bytes.specs.Limits.{most_nets};
ghost use Rattle.bench_net.specs.Circuit.{number};
ghost use Rattle.bench_net.specs.Net.{named, names, function_driver};
ghost use Rattle.bench_net.specs.Numbers.{numbered, IsNumber, AreNumbers, IsNumbered};
ghost use Rattle.bench_net.specs.declared.gate.Function.TheVariants.{Register};
ghost use Rattle.bench_net.specs.Views.{form_of, texts};

use crate::gate::{Driver, Function};
use crate::line::Line;
use crate::nets::Nets;
use indexmap::IndexSet;
use std::alloc::{AllocError, Global};
use text_bytes::MOST_NETS;

/// What a line says of nets by their numbers: nothing, what drives one, or that one is an output.
#[derive(Drop)]
pub(crate) enum Numbered {
    Nothing,
    Drives(u32, Driver),
    Shows(u32),
}

/// Where a name stands among these.
fn place_in(names: &IndexSet<Vec<u8>>, name: &[u8]) -> Option<usize>
    ensures { result ≡ position (bytes_eq name.now) (key_texts names.now.keys) }
{
    names.get_index_of(name)
}

/// The number of a net, or how many there are where none has the name.
#[tactic(auto, using(crate::proofs::NetLemmas::number_from_some, crate::proofs::NetLemmas::number_from_none))]
pub(crate) fn number(names: &IndexSet<Vec<u8>>, name: &[u8]) -> usize
    ensures { result ≡ number (key_texts names.now.keys) name.now }
{
    match place_in(names, name) {
        Some(place) => place,
        None => names.len(),
    }
}

/// A number as a netlist keeps it, if it is within the limit of nets.
fn kept(number: usize) -> u32
    ensures { number ≤ most_nets → result ≡ number }
{
    number.min(MOST_NETS) as u32
}

/// The number of a net, whose name is put behind the others where it is new.
fn add(alloc: Global, names: &mut IndexSet<Vec<u8>>, name: &[u8]) -> Result<u32, AllocError>
    ensures names { OnOk result (key_texts names.new.keys ≡ added (key_texts names.old.keys) name.now) }
    ensures number { IfOk result (λ n. IsNumber (key_texts names.old.keys) name.now n) }
{
    let place = number(names, name);
    if place < names.len() {
        return Ok(kept(place));
    }
    let owned = Vec::from_slice(alloc, name)?;
    names.insert(owned)?;
    Ok(kept(place))
}

/// The numbers of nets, whose names are put behind the others where they are new.
fn numbers(alloc: Global, names: &mut IndexSet<Vec<u8>>, pins: &[&[u8]]) -> Result<Nets, AllocError>
    ensures names { OnOk result (key_texts names.new.keys
        ≡ fold added (key_texts names.old.keys) (texts pins.now)) }
    ensures numbers { IfOk result (λ nets. AreNumbers (key_texts names.old.keys) (texts pins.now) nets) }
{
    let mut nets = Vec::new(alloc);
    let mut rest = pins;
    while let [pin, more @ ..] = rest {
        let net = add(alloc, names, pin)?;
        nets.push(net)?;
        rest = more;
    }
    Ok(Nets::from_vec(nets))
}

/// The flip-flop of the first of these nets.
fn flip_flop(nets: &[u32]) -> Driver
    ensures { result ≡ function_driver Register nets.now }
{
    match nets {
        [] => Driver::Input,
        [net, ..] => Driver::Dff(*net),
    }
}

/// A function of these nets as a driver.
fn function_driver(function: Function, nets: Nets) -> Driver
    ensures { result ≡ function_driver function nets }
{
    match function {
        Function::Logic(kind) => Driver::Gate(kind, nets),
        Function::Register => flip_flop(nets.as_slice()),
    }
}

/// What a line says, the names of its nets put behind the others where they are new.
fn numbered_line(
    alloc: Global,
    names: &mut IndexSet<Vec<u8>>,
    line: &Line<'_>,
) -> Result<Numbered, AllocError>
    ensures names { OnOk result (key_texts names.new.keys
        ≡ fold added (key_texts names.old.keys) (named (form_of line.now))) }
    ensures line { IfOk result (λ l. IsNumbered (key_texts names.old.keys) (form_of line.now) l) }
{
    match line {
        Line::Nothing => Ok(Numbered::Nothing),
        Line::Input(net) => {
            let number = add(alloc, names, net)?;
            Ok(Numbered::Drives(number, Driver::Input))
        }
        Line::Output(net) => {
            let number = add(alloc, names, net)?;
            Ok(Numbered::Shows(number))
        }
        Line::Gate(net, function, pins) => {
            let number = add(alloc, names, net)?;
            let nets = numbers(alloc, names, pins.as_slice())?;
            Ok(Numbered::Drives(number, function_driver(*function, nets)))
        }
    }
}

/// The nets' names, in the order in which the lines first name them, and what each line says, which counts where the names are
/// within the limit.
pub(crate) fn numbered_lines(
    alloc: Global,
    lines: &[Line<'_>],
) -> Result<(IndexSet<Vec<u8>>, Vec<Numbered>), AllocError>
    ensures names { IfOk result (λ made. key_texts made.0.keys ≡ names (map form_of lines.now)) }
    ensures lines { IfOk result (λ made. length (names (map form_of lines.now)) ≤ most_nets
        → made.1.items ≡ map (numbered (names (map form_of lines.now))) (map form_of lines.now)) }
{
    let mut names = IndexSet::new(alloc);
    let mut said = Vec::new(alloc);
    let mut rest = lines;
    while let [line, more @ ..] = rest {
        let numbered = numbered_line(alloc, &mut names, line)?;
        said.push(numbered)?;
        rest = more;
    }
    Ok((names, said))
}
