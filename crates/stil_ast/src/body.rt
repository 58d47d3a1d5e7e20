//! Bodies of patterns, macros and procedures (IEEE 1450-1999, clauses 22 to 24).

use crate::arguments::ArgumentList;
use crate::assignment_list::AssignmentList;
use crate::data::VecText;
use crate::name::SigRef;
use std::marker::Model;
use tester_types::Text;

/// `ref = data;`.
#[derive(Debug, Drop)]
pub struct Assignment {
    pub reference: SigRef,
    pub items: VecText,
    /// The statement's line, from 1.
    pub line: u32,
}

/// A statement without statements in it.
#[derive(Debug, Drop)]
pub enum Step {
    /// `W`: the table from here on.
    Wave(Text),
    /// `V`: assigns, and makes a vector.
    Vector(AssignmentList),
    /// `C`: assigns.
    Condition(AssignmentList),
    /// Runs the body of this macro with these arguments.
    Macro(Text, ArgumentList),
    /// Runs the body of this procedure with these arguments.
    Call(Text, ArgumentList),
    BreakPoint,
    IddqTestPoint,
    /// Ends the executive; only at a pattern's top level.
    Stop,
}

/// What a statement does.
#[cycle(body)]
#[derive(Drop)]
pub enum PatAction {
    Step(Step),
    /// Runs the body this often.
    Loop(u64, PatBody),
    /// Runs the body once for each character of the arguments that it takes.
    Shift(PatBody),
}

/// A statement of a body.
#[cycle(body)]
#[derive(Drop)]
pub struct PatStmt {
    /// The line of its label, else of its first word, from 1.
    pub line: u32,
    pub action: PatAction,
}

/// Statements in text order; a contract sees them as plain data.
#[cycle(body)]
#[derive(Drop)]
pub struct PatBody {
    stmts: Vec<PatStmt>,
}

impl Model for PatBody {
    ghost use Rattle.stil_ast.specs.Data.Written.{Written, written_size};

    ghost Value = { Written };

    ghost use Rattle.stil_ast.specs.Data.WrittenCode.{written_code};
    ghost use Rattle.stil_ast.specs.contracts.body.Step as step;

    ghost coded = { written_code step.the_row.coded };

    ghost use Rattle.stil_ast.specs.Data.Bodies.{written_of};

    ghost view = { λ b. written_of b.stmts.items };

    ghost size = { written_size };

    ghost use Rattle.stil_ast.specs.Data.BodiesFall.{most_le-written_size};

    ghost size_decreases = { λ b h. most_le-written_size b.stmts.items };
}

impl PatBody {
    ghost use Rattle.std.specs.Prelude.{◌≡◌};
    ghost use Rattle.stil_ast.specs.Data.Bodies.{written_of};
    ghost use Rattle.stil_ast.specs.Data.Written.{statement_count};

    /// The body of these statements.
    pub fn from_vec(stmts: Vec<PatStmt>) -> PatBody
        ensures { result ≡ written_of stmts.items }
    {
        PatBody { stmts }
    }

    /// Gives its statements back.
    pub fn into_vec(self) -> Vec<PatStmt>
        ensures { written_of result.items ≡ self }
    {
        self.stmts
    }

    /// How many statements stand at its top level.
    pub fn len(&self) -> usize
        ensures { result ≡ statement_count self.now }
    {
        self.stmts.len()
    }

    /// Its statements.
    pub fn as_slice(&self) -> &[PatStmt]
        ensures { written_of result.now ≡ self.now }
    {
        self.stmts.as_slice()
    }
}
