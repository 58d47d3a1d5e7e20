//! Exact times: fractions of femtoseconds, and the expressions that have them as their values.
#![tactic(auto)]

mod bounded;
mod byte;
mod expr;
mod fault;
mod fraction;
mod front;
mod laws;
mod number;
mod read;
mod reader;
mod sum;
mod token;
mod unit;
mod vars;

pub use expr::{Bound, Expr, Operator, value};
pub use fault::ExprFault;
pub use fraction::{Fraction, whole_fs};
pub use laws::{
    differences_are_rational, greater_is_greatest, lesser_is_least, one_spelling_each,
    one_value_each, products_are_rational, quotients_are_rational, sums_are_rational,
    whole_numbers_in_units,
};
pub use read::read_expr;
pub use unit::Unit;
pub use vars::Vars;
