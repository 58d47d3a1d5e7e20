//! Texts with few enough cycles to be printed one by one.

ghost use Rattle.std.specs.Prelude.{◌≡◌, ◌<◌, ◌≤◌, IfOk, IfSome, IfNone, MatchResult, length};
ghost use Rattle.text_bytes.specs.Limits.{most_listed, most_bytes};
ghost use Rattle.stil_ast.specs.Faults.Found.{fault_at};
ghost use Rattle.stil_ast.specs.Faults.BurstFaults.{exec_place};
ghost use Rattle.stil_ast.specs.declared.fault.StilKind.TheVariants.{TooManyCycles};
ghost use Rattle.code_listing.specs.Text.{cycles_among};
ghost use Rattle.text_commands.specs.FewCycles.{Crosses, IsListedCode, IsListRefused, IsToldOf};

use page_code::Code;
use std::alloc::{AllocError, Global};
use stil_ast::{StilFault, StilKind, StilRefusal};
use stil_program::{CompiledText, compiled};
use tester_types::Text;
use text_bytes::MOST_LISTED;

/// The first executive up to which a code has more cycles than are printed.
fn crossing(code: &Code) -> Option<u16>
    ensures found { IfSome result (Crosses code.now) }
    ensures none { IfNone result (cycles_among code.now.execs ≤ most_listed) }
{
    let _conditions = code.signals();
    let mut total: u64 = 0;
    for exec in 0..code.execs() {
        total += code.cycles(exec);
        if total > MOST_LISTED {
            return Some(exec);
        }
    }
    None
}

/// The fault of too many cycles at the executive of this name and line.
fn fault_of(alloc: Global, name: &[u8], line: u32) -> Result<StilFault, AllocError>
    ensures { IfOk result (λ fault. fault ≡ fault_at (exec_place name.now line) TooManyCycles) }
{
    let block = Text::from_slice(alloc, b"PatternExec")?;
    let name = Text::from_slice(alloc, name)?;
    Ok(StilFault {
        kind: StilKind::TooManyCycles,
        block,
        name,
        line,
    })
}

/// The refusal of too many cycles at an executive of a text.
fn refusal_at(alloc: Global, text: &CompiledText, exec: u16) -> StilRefusal
    requires code { exec < length text.now.code.execs }
    requires lines { exec < length text.now.lines.items }
    ensures { IsToldOf text.now.code text.now.lines.items exec result }
{
    match fault_of(
        alloc,
        text.code.exec_name(exec),
        text.lines[usize::from(exec)],
    ) {
        Ok(fault) => StilRefusal::Fault(fault),
        Err(_) => StilRefusal::NoMemory,
    }
}

/// The code of a text with at most 65,536 cycles, or why the text is refused.
pub(crate) fn listed_code(alloc: Global, bytes: &[u8]) -> Result<Code, StilRefusal>
    requires { length bytes.now ≤ most_bytes }
    ensures { MatchResult result (IsListedCode bytes.now) (IsListRefused bytes.now) }
{
    let text = compiled(alloc, bytes)?;
    match crossing(&text.code) {
        Some(exec) => Err(refusal_at(alloc, &text, exec)),
        None => Ok(text.code),
    }
}
