//! The names in an expression.

ghost use Rattle.std.specs.Prelude.{◌≡◌, ◌++◌, IfOk, OnOk};
ghost use Rattle.std.specs.Option.{option_copied};
ghost use Rattle.text_bytes.specs.Texts.{behind};
ghost use Rattle.time_expr.specs.Names.{names_of, link_names, operand_names, first_missing};

use expr_text::{Expr, Operator, Vars};
use std::alloc::{AllocError, Global};

/// Adds the names in an expression, from the left.
#[cycle(names)]
fn add_names<'e>(names: &mut Vec<&'e [u8]>, expr: &'e Expr) -> Result<(), AllocError>
    ensures { OnOk result (behind names.new.items ≡ behind names.old.items ++ names_of expr.now) }
{
    match expr {
        Expr::Number(_, _) => Ok(()),
        Expr::Name(name) => {
            names.push(name.as_slice())?;
            Ok(())
        }
        Expr::Chain(first, rest) => {
            add_names(names, first)?;
            add_link_names(names, rest)?;
            Ok(())
        }
        Expr::Extreme(_, first, rest) => {
            add_names(names, first)?;
            add_operand_names(names, rest)?;
            Ok(())
        }
    }
}

/// Adds the names in the operands of a chain.
#[cycle(names)]
fn add_link_names<'e>(
    names: &mut Vec<&'e [u8]>,
    links: &'e [(Operator, Expr)],
) -> Result<(), AllocError>
    ensures { OnOk result (behind names.new.items ≡ behind names.old.items ++ link_names links.now) }
{
    for link in links {
        add_names(names, &link.1)?;
    }
    Ok(())
}

/// Adds the names in several operands.
#[cycle(names)]
fn add_operand_names<'e>(names: &mut Vec<&'e [u8]>, operands: &'e [Expr]) -> Result<(), AllocError>
    ensures { OnOk result (behind names.new.items ≡ behind names.old.items ++ operand_names operands.now) }
{
    for operand in operands {
        add_names(names, operand)?;
    }
    Ok(())
}

/// The names in an expression, from the left.
pub(crate) fn names_of(alloc: Global, expr: &Expr) -> Result<Vec<&[u8]>, AllocError>
    ensures { IfOk result (λ names. behind names.items ≡ names_of expr.now) }
{
    let mut names = Vec::new(alloc);
    add_names(&mut names, expr)?;
    Ok(names)
}

/// The first of these names that has no value.
fn missing_of<'e>(names: &[&'e [u8]], vars: &Vars) -> Option<&'e [u8]>
    ensures { option_copied result ≡ first_missing vars.now (behind names.now) }
{
    for name in names {
        if vars.get(name).is_none() {
            return Some(name);
        }
    }
    None
}

/// The first name in an expression that has no value.
pub(crate) fn first_missing<'e>(
    alloc: Global,
    expr: &'e Expr,
    vars: &Vars,
) -> Result<Option<&'e [u8]>, AllocError>
    ensures { IfOk result (λ missing. option_copied missing ≡ first_missing vars.now (names_of expr.now)) }
{
    let names = names_of(alloc, expr)?;
    Ok(missing_of(&names, vars))
}
