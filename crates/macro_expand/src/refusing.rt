//! What is told of a fault of a pattern.

ghost use Rattle.std.specs.Prelude.{◌≡◌, IfOk};
ghost use Rattle.stil_ast.specs.Faults.Found.{fault_in, keyword_of, title_of};
ghost use Rattle.stil_ast.specs.Faults.AssignmentFaults.{Checked};
ghost use Rattle.stil_ast.specs.Meaning.Resolved.{origin};
ghost use Rattle.flat_tree.specs.Origins.{body_of};
ghost use Rattle.macro_expand.specs.Expanding.{IsRefusal};
ghost use Rattle.macro_expand.specs.Refusing.{IsAt};
ghost use Rattle.macro_expand.specs.Scopes.{titles_in};

use crate::scope::BlockTitles;
use crate::trouble::Trouble;
use flat_tree::BodyKind;
use std::alloc::{AllocError, Global};
use stil_ast::{StilFault, StilKind, StilRefusal};
use tester_types::Text;

/// The keyword of the block in which bodies of a kind stand.
fn keyword(body: BodyKind) -> &'static [u8]
    ensures { result.now ≡ keyword_of (body_of body) }
{
    match body {
        BodyKind::Pattern => b"Pattern",
        BodyKind::Macro => b"MacroDefs",
        BodyKind::Procedure => b"Procedures",
    }
}

/// The name of that block.
fn title<'a>(titles: &BlockTitles<'a>, body: BodyKind) -> &'a [u8]
    ensures { result.now ≡ title_of (titles_in titles.now) (body_of body) }
{
    match body {
        BodyKind::Pattern => titles.pattern,
        BodyKind::Macro => titles.macros,
        BodyKind::Procedure => titles.procedures,
    }
}

/// A fault of this kind on a line of a body, told with the name of the block in which the body stands.
pub fn fault_of(
    alloc: Global,
    titles: &BlockTitles,
    kind: StilKind,
    body: BodyKind,
    line: u32,
) -> Result<StilFault, AllocError>
    ensures { IfOk result (λ f. f ≡ fault_in (titles_in titles.now) (origin (body_of body) line) kind) }
{
    Ok(StilFault {
        kind,
        block: Text::from_slice(alloc, keyword(body))?,
        name: Text::from_slice(alloc, title(titles, body))?,
        line,
    })
}

/// The refusal for a fault of a pattern's statements.
pub(crate) fn refusal_of(alloc: Global, titles: &BlockTitles, trouble: Trouble) -> StilRefusal
    ensures { (checked : Checked) → IsAt (titles_in titles.now) checked trouble → IsRefusal checked result }
{
    match trouble {
        Trouble::NoMemory => StilRefusal::NoMemory,
        Trouble::Fault(at) => match fault_of(alloc, titles, at.kind, at.body, at.line) {
            Ok(fault) => StilRefusal::Fault(fault),
            Err(_) => StilRefusal::NoMemory,
        },
    }
}
