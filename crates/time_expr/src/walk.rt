//! Evaluates a variable, or the first variable without a value that it needs.

ghost use Rattle.std.specs.Prelude.{◌≡◌, false};
ghost use Rattle.stil_ast.specs.Data.Places.{Place};
ghost use Rattle.stil_ast.specs.Meaning.Variables.{placed};
ghost use Rattle.time_expr.specs.TimesOf.{times_of};
ghost use Rattle.text_bytes.specs.Texts.{is_among};
ghost use Rattle.indexmap.specs.IndexSet.{keys};
ghost use Rattle.time_expr.specs.Picked.{place_of, variable_of};
ghost use Rattle.time_expr.specs.Path.{last_of};
ghost use Rattle.time_expr.specs.Choosing.{IsOpen, GoesBy, GoesUnless, Steps, IsFresh, evaluated, AreKnown, IsWalked};

use crate::picked::{Picked, Spot};
use crate::selected::{add_name, is_kept};
use crate::stop::{Stop, Variables, refused, text_value};
use expr_text::{Fraction, Vars};
use indexmap::IndexSet;
use std::alloc::Global;
use stil_ast::{StilKind, StilRefusal};

/// Why a variable has no value under the values known so far.
#[derive(Drop)]
pub(crate) enum Step<'a> {
    /// The evaluation is refused.
    Ends(StilRefusal),
    /// This variable, whose name is met at this spot, is needed first.
    Down(&'a Picked<'a>, Spot<'a>),
}

/// The value of a text at a spot by the values known so far.
fn step_in<'a>(
    alloc: Global,
    variables: &Variables<'a>,
    vars: &Vars,
    text: &[u8],
    spot: Spot<'a>,
) -> Result<Fraction, Step<'a>>
    ensures { (p : Place) → Steps variables.now vars.now (GoesBy variables.now vars.now)
        (λ names. placed (place_of spot.entry) (times_of.value names text.now)) p result }
{
    match text_value(alloc, variables, vars, text) {
        Ok(value) => Ok(value),
        Err(Stop::NoMemory) => Err(Step::Ends(StilRefusal::NoMemory)),
        Err(Stop::Fault(kind)) => Err(Step::Ends(refused(alloc, spot, kind))),
        Err(Stop::Needs(next)) => Err(Step::Down(next, spot)),
    }
}

/// The value of a variable that isn't being evaluated already, by the values known so far.
pub(crate) fn own_step<'a>(
    alloc: Global,
    variables: &Variables<'a>,
    vars: &Vars,
    here: &'a Picked<'a>,
    spot: Spot<'a>,
) -> Result<Fraction, Step<'a>>
    ensures { Steps variables.now vars.now (GoesBy variables.now vars.now)
        (evaluated false (variable_of here.now)) (place_of spot.entry) result }
{
    match here.text {
        Some(text) => {
            let own = Spot {
                spec: here.spec,
                line: text.line,
            };
            step_in(alloc, variables, vars, text.text.as_slice(), own)
        }
        None => Err(Step::Ends(refused(alloc, spot, StilKind::UnknownName))),
    }
}

/// The value of a variable whose name is met at a spot, by the values known so far, while these are being evaluated.
fn look<'a>(
    alloc: Global,
    variables: &Variables<'a>,
    vars: &Vars,
    running: &IndexSet<&'a [u8]>,
    here: &'a Picked<'a>,
    spot: Spot<'a>,
) -> Result<Fraction, Step<'a>>
    ensures steps { Steps variables.now vars.now
        (GoesUnless (is_among (keys running.now) here.now.name.now) variables.now vars.now)
        (evaluated (is_among (keys running.now) here.now.name.now) (variable_of here.now))
        (place_of spot.entry) result }
    ensures fresh { IsFresh (is_among (keys running.now) here.now.name.now) result }
{
    if is_kept(running, here.name) {
        return Err(Step::Ends(refused(alloc, spot, StilKind::Cyclic)));
    }
    own_step(alloc, variables, vars, here, spot)
}

/// A variable, and the spot where its name is met.
#[derive(Clone, Copy)]
struct Visit<'a> {
    variable: &'a Picked<'a>,
    spot: Spot<'a>,
}

/// The last visit of a path, or the first of all.
fn last_of<'a>(path: &[Visit<'a>], first: Visit<'a>) -> Visit<'a>
    ensures { result ≡ last_of path.now first.entry }
{
    path.last().copied().unwrap_or(first)
}

/// Evaluates a variable whose name is met at a spot, or the first variable without a value that it needs. Answers which
/// variable it is and its value, or the refusal of the name.
pub(crate) fn walk<'a>(
    alloc: Global,
    variables: &Variables<'a>,
    vars: &Vars,
    start: &'a Picked<'a>,
    spot: Spot<'a>,
) -> Result<(&'a Picked<'a>, Fraction), StilRefusal>
    requires known { AreKnown variables.now vars.now }
    requires start { IsOpen variables.now vars.now (variable_of start.now) }
    ensures { IsWalked variables.now vars.now (place_of spot.entry) start.now.name.now result }
{
    let first = Visit {
        variable: start,
        spot,
    };
    let mut running = IndexSet::new(alloc);
    let mut path = Vec::new(alloc);
    loop {
        let here = last_of(&path, first);
        match look(alloc, variables, vars, &running, here.variable, here.spot) {
            Ok(value) => return Ok((here.variable, value)),
            Err(Step::Ends(refusal)) => return Err(refusal),
            Err(Step::Down(variable, spot)) => {
                add_name(&mut running, here.variable.name)?;
                path.push(Visit { variable, spot })?;
            }
        }
    }
}
