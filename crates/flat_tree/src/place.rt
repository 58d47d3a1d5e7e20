//! Where a V of a pattern stands.

use std::marker::Model;

/// The kinds of bodies: a pattern's own statements, those of a macro, those of a procedure.
#[derive(Clone, Copy, Debug, PartialEq, Eq)]
pub enum BodyKind {
    Pattern,
    Macro,
    Procedure,
}

/// In a body of which kind a statement stands, and on which line, from 1. A contract sees it as an `Origin` of the
/// language's definitions.
#[derive(Clone, Copy)]
pub struct Origin {
    pub body: BodyKind,
    pub line: u32,
}

impl Model for Origin {
    ghost use Rattle.stil_ast.specs.Data.Places.{Origin as Place};

    ghost Value = { Place };

    ghost use Rattle.flat_tree.specs.Origins.{origin_of, fields_of, fields_of-origin_of};

    ghost view = { origin_of };

    ghost inverse = { fields_of };

    ghost inverse_ok = { λ a h. fields_of-origin_of a };
}
