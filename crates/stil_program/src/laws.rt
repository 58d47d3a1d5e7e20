//! What follows from the definitions of a text's first fault and of its code.

ghost use Rattle.std.specs.Prelude.{◌≡◌, ℕ, List, Option, None, length};
ghost use Rattle.stil_ast.specs.Meaning.State.{start_of};
ghost use Rattle.stil_ast.specs.Meaning.Running.{outside};
ghost use Rattle.stil_ast.specs.Meaning.Signals.{names_of};
ghost use Rattle.stil_ast.specs.Meaning.Executive.{table_list, parts, executive_of};
ghost use Rattle.stil_ast.specs.Faults.CodeFaults.{trees_fault};
ghost use Rattle.stil_ast.specs.Faults.ExecutiveFaults.{exec_fault};
ghost use Rattle.stil_ast.specs.declared.blocks.Blocks.{Blocks};
ghost use Rattle.stil_ast.specs.declared.executive.ExecDecl.{ExecDecl};
ghost use Rattle.stil_ast.specs.declared.fault.StilFault.{StilFault};
ghost use Rattle.time_expr.specs.TimesOf.{times_of};
ghost use Rattle.stil_program.specs.Program.{IsTextFault, CodeKeepsLoops, CodeIsShallow};
ghost use Rattle.stil_program.specs.Runs.{runs_fault};

/// A text has one first fault, or none.
pub fn one_text_fault()
    ensures { (bytes : List ℕ) (fault other : Option StilFault) → IsTextFault bytes fault → IsTextFault bytes other
        → fault ≡ other }
{}

/// An executive of a text's code has one instruction more at most than the least that keep the loops of the text's own
/// trees.
pub fn code_keeps_loops()
    ensures { CodeKeepsLoops }
{}

/// The sixth pass looks at what the patterns of an executive run to, vector by vector in time order: the fault that is
/// looked for in its flat trees is that of the first faulty vector of these runs, where the fifth pass finds none.
pub fn sixth_pass_is_over_runs()
    ensures { (blocks : Blocks) (before : List ExecDecl) (e : ExecDecl) → exec_fault times_of blocks before e ≡ None
        → trees_fault (table_list times_of blocks e) (executive_of times_of blocks e).trees
        (start_of (length (names_of blocks).signals))
        ≡ runs_fault (table_list times_of blocks e) (parts blocks e)
        (outside (start_of (length (names_of blocks).signals))) }
{}

/// No Loop of an executive has a single pass, and its Loops nest no deeper than the measure of its trees allows.
pub fn code_is_shallow()
    ensures { CodeIsShallow }
{}
