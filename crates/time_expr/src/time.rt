//! Times in texts, where names stand for values.

ghost use Rattle.std.specs.Prelude.{◌≡◌, ◌⊎◌, Ok, Err, IfOk, IfErr};
ghost use Rattle.stil_ast.specs.declared.fault.StilKind.{StilKind};
ghost use Rattle.time_expr.specs.NamedValue.{kind_of};
ghost use Rattle.time_expr.specs.TimeIn.{HasTime, IsValueIn};
ghost use Rattle.time_expr.specs.declared.time.TimeFault.TheVariants as time;

use crate::texts::TimeTexts;
use expr_text::{ExprFault, Fraction, Vars, read_expr, value, whole_fs};
use std::alloc::Global;
use stil_ast::{Quoted, StilKind};

/// Why there is no time; or want of memory.
#[derive(Clone, Copy, PartialEq, Eq, Debug)]
pub enum TimeFault {
    NoMemory,
    /// The text has a fault of this kind.
    Refused(StilKind),
}

/// The kind of a fault of an expression.
pub(crate) fn kind_of(fault: ExprFault) -> StilKind
    ensures { result ≡ kind_of fault }
{
    match fault {
        ExprFault::NoMemory | ExprFault::BadExpr => StilKind::BadExpr,
        ExprFault::OutOfRange => StilKind::OutOfRange,
        ExprFault::UnknownName => StilKind::UnknownName,
        ExprFault::ZeroDivisor => StilKind::ZeroDivisor,
    }
}

/// The value of a text, which is read.
fn value_read(alloc: Global, vars: &Vars, text: &[u8]) -> Result<Fraction, ExprFault>
    ensures { IsValueIn vars.now text.now result }
{
    match read_expr(alloc, text) {
        Ok(expr) => value(&expr, vars),
        Err(fault) => Err(fault),
    }
}

/// The value of a text, which is read unless its expression is kept.
fn value_in(
    alloc: Global,
    texts: &TimeTexts,
    vars: &Vars,
    text: &[u8],
) -> Result<Fraction, ExprFault>
    ensures { IsValueIn vars.now text.now result }
{
    match texts.kept(text) {
        Some(expr) => value(expr, vars),
        None => value_read(alloc, vars, text),
    }
}

/// The time in a text, a whole number of femtoseconds, where names stand for these values.
///
/// A text that spells no expression is BadExpr, and a number on the way that is too large is OutOfRange. A name that
/// stands for no value is UnknownName, and a divisor that is 0 is ZeroDivisor. A value that is no whole number of
/// femtoseconds is NotWhole.
pub fn time_of(
    alloc: Global,
    texts: &TimeTexts,
    vars: &Vars,
    quoted: &Quoted,
) -> Result<i128, TimeFault>
    ensures found { IfOk result (λ time. HasTime vars.now quoted.now (Ok time)) }
    ensures fault { IfErr result (λ e. (e ≡ time.NoMemory)
        ⊎ ((kind : StilKind) × (e ≡ time.Refused kind) × HasTime vars.now quoted.now (Err kind))) }
{
    match value_in(alloc, texts, vars, quoted.text.as_slice()) {
        Ok(value) => whole_fs(&value).ok_or(TimeFault::Refused(StilKind::NotWhole)),
        Err(ExprFault::NoMemory) => Err(TimeFault::NoMemory),
        Err(fault) => Err(TimeFault::Refused(kind_of(fault))),
    }
}
