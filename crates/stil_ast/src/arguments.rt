//! Arguments of a macro or a procedure (IEEE 1450-1999, clause 24).

ghost use Rattle.std.specs.Prelude.{◌≡◌, IfOk};

use crate::assignment_list::AssignmentList;
use std::alloc::{AllocError, Global};
use std::marker::Model;

/// The arguments that `Macro` or `Call` gives. They are boxed, so that the many statements that have none are small; a
/// contract sees the list.
#[derive(Debug, Drop)]
pub struct ArgumentList {
    list: Box<AssignmentList>,
}

impl Model for ArgumentList {
    ghost use Rattle.std.specs.Prelude.{List};
    ghost use Rattle.stil_ast.specs.declared.body.Assignment.{Assignment};

    ghost Value = { List Assignment };

    ghost view = { λ a. a.list.value };
}

impl ArgumentList {
    /// These arguments.
    pub fn new(alloc: Global, list: AssignmentList) -> Result<ArgumentList, AllocError>
        ensures { IfOk result (λ arguments. arguments ≡ list) }
    {
        let list = Box::new(alloc, list)?;
        Ok(ArgumentList { list })
    }

    /// Their list.
    pub fn as_list(&self) -> &AssignmentList
        ensures { result.now ≡ self.now }
    {
        &self.list
    }
}
