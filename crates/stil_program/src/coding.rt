//! The code of a text, from its bytes.

ghost use Rattle.std.specs.Prelude.{◌≡◌, ◌≤◌, ◌⊎◌, length, map, None, Some, IfOk, IfErr, MatchResult};
ghost use Rattle.text_bytes.specs.Limits.{most_bytes};
ghost use Rattle.stil_ast.specs.Data.OneText.{AreOfOneText};
ghost use Rattle.stil_ast.specs.declared.executive.ExecDecl.{ExecDecl};
ghost use Rattle.stil_ast.specs.declared.fault.StilFault.{StilFault};
ghost use Rattle.answers.specs.declared.short.Short.TheVariants as refusal;
ghost use Rattle.answers.specs.Answers.{Finds};
ghost use Rattle.stil_program.specs.Program.{IsTextFault, IsBlocksCode, IsProgramOf, IsCompiledText, IsRefusal};
ghost use Rattle.stil_program.specs.Working.{first_fault, IsCompiledOf, Answers};
ghost use Rattle.stil_program.specs.declared.text.CompiledText.{CompiledText};

use crate::reading::read_text;
use crate::text::CompiledText;
use burst_exec::executives;
use cycle_comp::compile;
use packed_code::Code;
use std::alloc::{AllocError, Global};
use stil_ast::{Blocks, ExecDecl, StilRefusal};

/// The lines of executives.
fn lines_of(alloc: Global, execs: &[ExecDecl]) -> Result<Vec<u32>, AllocError>
    ensures { IfOk result (λ lines. lines.items ≡ map (λ (e : ExecDecl). e.line) execs.now) }
{
    let mut lines = Vec::new(alloc);
    for exec in execs {
        lines.push(exec.line)?;
    }
    Ok(lines)
}

/// A code with the lines of executives.
fn with_lines(alloc: Global, execs: &[ExecDecl], code: Code) -> Result<CompiledText, StilRefusal>
    ensures { MatchResult result
        (λ c. (c.code ≡ code) × (c.lines.items ≡ map (λ (e : ExecDecl). e.line) execs.now))
        (λ e. e ≡ refusal.NoMemory) }
{
    match lines_of(alloc, execs) {
        Ok(lines) => Ok(CompiledText { code, lines }),
        Err(_) => Err(StilRefusal::NoMemory),
    }
}

/// The code of blocks: of their signals and groups, and of their executives.
fn code_of(alloc: Global, blocks: &Blocks) -> Result<Code, StilRefusal>
    requires { AreOfOneText blocks.now }
    ensures { Finds (first_fault blocks.now) (IsBlocksCode blocks.now) result }
{
    let signals = signal_groups::build(alloc, blocks)?;
    let execs = executives(alloc, blocks, &signals)?;
    compile(alloc, &signals, execs)
}

/// The code of blocks, with the lines of their executives.
fn compiled_of(alloc: Global, blocks: &Blocks) -> Result<CompiledText, StilRefusal>
    requires { AreOfOneText blocks.now }
    ensures { Finds (first_fault blocks.now) (IsCompiledOf blocks.now) result }
{
    let code = code_of(alloc, blocks)?;
    with_lines(alloc, blocks.executives.as_slice(), code)
}

/// The code of a text with the lines of its executives, from its bytes.
fn compiled_from(alloc: Global, bytes: &[u8]) -> Result<CompiledText, StilRefusal>
    requires { length bytes.now ≤ most_bytes }
    ensures { Answers bytes.now (λ (c : CompiledText). IsCompiledText bytes.now c.code c.lines.items) result }
{
    let blocks = read_text(alloc, bytes)?;
    compiled_of(alloc, &blocks)
}

/// The code of a text, with the line of each of its executives, or its first fault.
///
/// The passes come one after another, and each is asked where those before it have no fault: tokens, statements and
/// blocks, for which see `read_text`; signals and groups; executives, for which see `executives`; and what they are
/// compiled to, for which see `compile`. A text has at most 16,777,216 bytes.
pub fn compiled(alloc: Global, bytes: &[u8]) -> Result<CompiledText, StilRefusal>
    requires { length bytes.now ≤ most_bytes }
    ensures found { IfOk result (λ c. IsCompiledText bytes.now c.code c.lines.items) }
    ensures fine { IsTextFault bytes.now None → IfErr result (λ e. e ≡ refusal.NoMemory) }
    ensures fault { IfErr result (λ e. (e ≡ refusal.NoMemory) ⊎ IsRefusal bytes.now e) }
    ensures refused { (fault : StilFault) → IsTextFault bytes.now (Some fault)
        → MatchResult result (λ _. ⊥) (λ e. (e ≡ refusal.NoMemory) ⊎ (e ≡ refusal.Fault fault)) }
{
    compiled_from(alloc, bytes)
}

/// The code of a text, or its first fault, as `compiled` has it.
pub fn program(alloc: Global, bytes: &[u8]) -> Result<Code, StilRefusal>
    requires { length bytes.now ≤ most_bytes }
    ensures found { IfOk result (λ code. IsProgramOf bytes.now code) }
    ensures fine { IsTextFault bytes.now None → IfErr result (λ e. e ≡ refusal.NoMemory) }
    ensures fault { IfErr result (λ e. (e ≡ refusal.NoMemory) ⊎ IsRefusal bytes.now e) }
    ensures refused { (fault : StilFault) → IsTextFault bytes.now (Some fault)
        → MatchResult result (λ _. ⊥) (λ e. (e ≡ refusal.NoMemory) ⊎ (e ≡ refusal.Fault fault)) }
{
    let text = compiled(alloc, bytes)?;
    Ok(text.code)
}
