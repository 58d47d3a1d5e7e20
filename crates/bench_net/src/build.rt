//! What is wrong with the lines of a text.
ghost use Rattle.std.specs.Prelude.{◌≡◌, ◌==◌, not, slice_index, None, true, map};
ghost use Rattle.std.specs.Option.{option_map};
ghost use Rattle.std.specs.List.{find, list_all, flat_map};
ghost use Rattle.text_bytes.specs.Texts.{key_texts};
ghost use Rattle.bench_net.specs.Net.{used, wrong_arity, arity_fault};
ghost use Rattle.bench_net.specs.Numbers.{lacks, looped, loop_fault};
ghost use Rattle.bench_net.specs.Circuit.{number};
ghost use Rattle.bench_net.specs.Views.{form_of, texts};

use crate::gate::takes_not;
use crate::line::Line;
use crate::numbers::number;
use indexmap::IndexSet;

/// The net of a line whose function can't take so many nets.
fn wrong_arity<'a>(line: &Line<'a>) -> Option<&'a [u8]>
    ensures { option_map (λ n. n.now) result ≡ wrong_arity (form_of line.now) }
{
    match line {
        Line::Gate(net, function, pins) if takes_not(*function, pins.len()) => Some(*net),
        _ => None,
    }
}

/// The net of the first line whose function can't take so many nets.
pub(crate) fn first_wrong_arity<'a>(lines: &[Line<'a>]) -> Option<&'a [u8]>
    ensures { option_map (λ n. n.now) result ≡ arity_fault (map form_of lines.now) }
{
    let mut rest = lines;
    while let [line, more @ ..] = rest {
        if let Some(net) = wrong_arity(line) {
            return Some(net);
        }
        rest = more;
    }
    None
}

/// Whether no line gives a net a driver: by its number it is known which nets are driven.
fn lacks(names: &IndexSet<Vec<u8>>, driven: &[bool], net: &[u8]) -> bool
    ensures { result ≡ lacks (key_texts names.now.keys) driven.now net.now }
{
    let place = number(names, net);
    !(place < driven.len() && driven[place])
}

/// The first of these nets that has no driver.
fn missing_in<'a>(names: &IndexSet<Vec<u8>>, driven: &[bool], uses: &[&'a [u8]]) -> Option<&'a [u8]>
    ensures { option_map (λ n. n.now) result ≡ find (lacks (key_texts names.now.keys) driven.now) (texts uses.now) }
{
    let mut rest = uses;
    while let [net, more @ ..] = rest {
        if lacks(names, driven, net) {
            return Some(*net);
        }
        rest = more;
    }
    None
}

/// The first net that a line uses and that has no driver.
fn missing_use<'a>(names: &IndexSet<Vec<u8>>, driven: &[bool], line: &Line<'a>) -> Option<&'a [u8]>
    ensures { option_map (λ n. n.now) result
        ≡ find (lacks (key_texts names.now.keys) driven.now) (used (form_of line.now)) }
{
    match line {
        Line::Output(net) if lacks(names, driven, net) => Some(*net),
        Line::Gate(_, _, pins) => missing_in(names, driven, pins.as_slice()),
        _ => None,
    }
}

/// The first net, in text order, that is used and has no driver.
#[tactic(auto, using(crate::proofs::KeyLemmas::find_append_some, crate::proofs::KeyLemmas::find_append_none))]
fn first_missing<'a>(
    names: &IndexSet<Vec<u8>>,
    driven: &[bool],
    lines: &[Line<'a>],
) -> Option<&'a [u8]>
    ensures { option_map (λ n. n.now) result
        ≡ find (lacks (key_texts names.now.keys) driven.now) (flat_map used (map form_of lines.now)) }
{
    let mut rest = lines;
    while let [line, more @ ..] = rest {
        match missing_use(names, driven, line) {
            Some(net) => return Some(net),
            None => rest = more,
        }
    }
    None
}

/// Whether each net is driven.
fn all_driven(driven: &[bool]) -> bool
    ensures { result ≡ list_all (λ one. one) driven.now }
{
    driven.iter().all(|one| *one)
}

/// The first net, in text order, that is used and has no driver. No line is looked at where each net is driven.
pub(crate) fn missing<'a>(
    names: &IndexSet<Vec<u8>>,
    driven: &[bool],
    lines: &[Line<'a>],
) -> Option<&'a [u8]>
    requires { list_all (λ one. one) driven.now ≡ true
        → find (lacks (key_texts names.now.keys) driven.now) (flat_map used (map form_of lines.now)) ≡ None }
    ensures { option_map (λ n. n.now) result
        ≡ find (lacks (key_texts names.now.keys) driven.now) (flat_map used (map form_of lines.now)) }
{
    if all_driven(driven) {
        return None;
    }
    first_missing(names, driven, lines)
}

/// The net of a line whose gate waits for a gate in the end.
fn looped<'a>(names: &IndexSet<Vec<u8>>, left: &[usize], line: &Line<'a>) -> Option<&'a [u8]>
    ensures { option_map (λ n. n.now) result
        ≡ looped (key_texts names.now.keys) left.now (form_of line.now) }
{
    match line {
        Line::Gate(net, _, _) if waits(names, left, net) => Some(*net),
        _ => None,
    }
}

/// Whether the gate of a net waits for a gate.
fn waits(names: &IndexSet<Vec<u8>>, left: &[usize], net: &[u8]) -> bool
    ensures { result ≡ not (slice_index left.now (number (key_texts names.now.keys) net.now) == 0) }
{
    let place = number(names, net);
    place < left.len() && left[place] != 0
}

/// Whether no gate waits for a gate.
fn none_waits(left: &[usize]) -> bool
    ensures { result ≡ list_all (λ count. count == 0) left.now }
{
    left.iter().all(|count| *count == 0)
}

/// The net of the first line whose gate waits for a gate in the end. No line is looked at where none waits.
pub(crate) fn first_loop<'a>(
    names: &IndexSet<Vec<u8>>,
    left: &[usize],
    lines: &[Line<'a>],
) -> Option<&'a [u8]>
    ensures { option_map (λ n. n.now) result
        ≡ loop_fault (key_texts names.now.keys) left.now (map form_of lines.now) }
{
    if none_waits(left) {
        return None;
    }
    let mut rest = lines;
    while let [line, more @ ..] = rest {
        if let Some(net) = looped(names, left, line) {
            return Some(net);
        }
        rest = more;
    }
    None
}
