//! Values of variables in an order in which the names that a variable needs stand before it, so that each text is
//! evaluated once.

ghost use Rattle.std.specs.Prelude.{IfOk, IfSome, OnOk};
ghost use Rattle.time_expr.specs.Picked.{variable_of};
ghost use Rattle.time_expr.specs.Choosing.{AreKnown, HasOwnValue, IsNext};

use crate::names::names_of;
use crate::picked::Picked;
use crate::stop::{Variables, spot_of};
use crate::walk::own_step;
use expr_text::{Expr, Fraction, Vars, read_expr};
use std::alloc::{AllocError, Global};

/// How many names each variable waits for, and which variables wait for each.
#[derive(Drop)]
struct Waiting {
    left: Vec<usize>,
    readers: Vec<Vec<usize>>,
}

/// The places of the variables of these names.
fn places_of(
    alloc: Global,
    variables: &Variables,
    names: &[&[u8]],
) -> Result<Vec<usize>, AllocError> {
    let mut places = Vec::new(alloc);
    for name in names {
        if let Some(place) = variables.place(name) {
            places.push(place)?;
        }
    }
    Ok(places)
}

/// The places of the variables that an expression names, as often as it names them.
fn places_in(alloc: Global, variables: &Variables, expr: &Expr) -> Result<Vec<usize>, AllocError> {
    let names = names_of(alloc, expr)?;
    places_of(alloc, variables, &names)
}

/// The places of the variables that a text names, which is read.
fn places_read(
    alloc: Global,
    variables: &Variables,
    text: &[u8],
) -> Result<Vec<usize>, AllocError> {
    match read_expr(alloc, text) {
        Ok(expr) => places_in(alloc, variables, &expr),
        Err(_) => Ok(Vec::new(alloc)),
    }
}

/// The places of the variables that a variable's text names, as often as it names them.
fn named_places(
    alloc: Global,
    variables: &Variables,
    variable: &Picked,
) -> Result<Vec<usize>, AllocError> {
    let Some(text) = variable.text else {
        return Ok(Vec::new(alloc));
    };
    match variables.kept(text.text.as_slice()) {
        Some(expr) => places_in(alloc, variables, expr),
        None => places_read(alloc, variables, text.text.as_slice()),
    }
}

/// Lets a variable wait for those at these places.
fn add_readers(
    readers: &mut [Vec<usize>],
    places: &[usize],
    reader: usize,
) -> Result<(), AllocError> {
    for place in places {
        if let Some(waiting) = readers.get_mut(*place) {
            waiting.push(reader)?;
        }
    }
    Ok(())
}

/// As many lists of readers as there are variables, with none in them so far.
fn no_readers(alloc: Global, count: usize) -> Result<Vec<Vec<usize>>, AllocError> {
    let mut readers = Vec::new(alloc);
    for _ in 0..count {
        readers.push(Vec::new(alloc))?;
    }
    Ok(readers)
}

/// Lets the variable at a place wait for those that it names.
fn wait_for(
    alloc: Global,
    variables: &Variables,
    waiting: &mut Waiting,
    reader: usize,
    variable: &Picked,
) -> Result<(), AllocError> {
    let places = named_places(alloc, variables, variable)?;
    waiting.left.push(places.len())?;
    add_readers(&mut waiting.readers, &places, reader)
}

/// Lets each variable wait for those that it names.
fn wait_for_all(
    alloc: Global,
    variables: &Variables,
    waiting: &mut Waiting,
) -> Result<(), AllocError> {
    for (reader, variable) in variables.picked().iter().enumerate() {
        wait_for(alloc, variables, waiting, reader, variable)?;
    }
    Ok(())
}

/// What each variable waits for.
fn waiting_of(alloc: Global, variables: &Variables) -> Result<Waiting, AllocError> {
    let readers = no_readers(alloc, variables.picked().len())?;
    let mut waiting = Waiting {
        left: Vec::new(alloc),
        readers,
    };
    wait_for_all(alloc, variables, &mut waiting)?;
    Ok(waiting)
}

/// The variables that wait for nothing.
fn ready_of(alloc: Global, left: &[usize]) -> Result<Vec<usize>, AllocError> {
    let mut ready = Vec::new(alloc);
    for (place, count) in left.iter().enumerate() {
        if *count == 0 {
            ready.push(place)?;
        }
    }
    Ok(ready)
}

/// Lets a variable wait for one name fewer. Says whether it waits for nothing now.
fn waits_no_more(left: &mut [usize], reader: usize) -> bool {
    match left.get_mut(reader) {
        Some(count) => {
            *count = count.saturating_sub(1);
            *count == 0
        }
        None => false,
    }
}

/// Lets these variables wait for one name fewer.
fn release(
    left: &mut [usize],
    readers: &[usize],
    ready: &mut Vec<usize>,
) -> Result<(), AllocError> {
    for reader in readers {
        if waits_no_more(left, *reader) {
            ready.push(*reader)?;
        }
    }
    Ok(())
}

/// The value of a variable, where all that it needs has a value.
fn own_value<'a>(
    alloc: Global,
    variables: &Variables<'a>,
    vars: &Vars,
    variable: &'a Picked<'a>,
) -> Option<Fraction>
    ensures { IfSome result (λ value. HasOwnValue vars.now (variable_of variable.now) value) }
{
    let Ok(value) = own_step(alloc, variables, vars, variable, spot_of(variable)) else {
        return None;
    };
    Some(value)
}

/// The variable of a name with its value, where the name has none so far and all that the variable needs has.
fn ready_value<'a>(
    alloc: Global,
    variables: &Variables<'a>,
    vars: &Vars,
    name: &[u8],
) -> Option<(&'a Picked<'a>, Fraction)>
    ensures { IfSome result (λ found. IsNext variables.now vars.now (variable_of found.0.now) found.1) }
{
    if vars.get(name).is_some() {
        return None;
    }
    let variable = variables.get(name)?;
    let value = own_value(alloc, variables, vars, variable)?;
    Some((variable, value))
}

/// Adds the value of a name, where all that it needs has a value. Says whether it did.
fn add_ready(
    alloc: Global,
    variables: &Variables,
    vars: &mut Vars,
    name: &[u8],
) -> Result<bool, AllocError>
    requires { AreKnown variables.now vars.old }
    ensures { OnOk result (AreKnown variables.now vars.new) }
{
    let Some(found) = ready_value(alloc, variables, vars, name) else {
        return Ok(false);
    };
    vars.add(alloc, found.0.name, found.1)?;
    Ok(true)
}

/// Adds the values of the variables in the order in which they come to wait for nothing.
fn add_in_turn(
    alloc: Global,
    variables: &Variables,
    waiting: &mut Waiting,
    ready: &mut Vec<usize>,
    vars: &mut Vars,
) -> Result<(), AllocError>
    requires { AreKnown variables.now vars.old }
    ensures { OnOk result (AreKnown variables.now vars.new) }
{
    let picked = variables.picked();
    for turn in 0..picked.len() {
        let Some(place) = ready.get(turn).copied() else {
            return Ok(());
        };
        let Some(variable) = picked.get(place) else {
            return Ok(());
        };
        if !add_ready(alloc, variables, vars, variable.name)? {
            continue;
        }
        if let Some(readers) = waiting.readers.get(place) {
            release(&mut waiting.left, readers, ready)?;
        }
    }
    Ok(())
}

/// Adds the values of the variables that need no variable without a value.
fn add_ordered(alloc: Global, variables: &Variables, vars: &mut Vars) -> Result<(), AllocError>
    requires { AreKnown variables.now vars.old }
    ensures { OnOk result (AreKnown variables.now vars.new) }
{
    let mut waiting = waiting_of(alloc, variables)?;
    let mut ready = ready_of(alloc, &waiting.left)?;
    add_in_turn(alloc, variables, &mut waiting, &mut ready, vars)
}

/// The values of the variables that need no variable without a value.
pub(crate) fn ordered_values(alloc: Global, variables: &Variables) -> Result<Vars, AllocError>
    ensures { IfOk result (λ vars. AreKnown variables.now vars) }
{
    let mut vars = Vars::new(alloc);
    add_ordered(alloc, variables, &mut vars)?;
    Ok(vars)
}
