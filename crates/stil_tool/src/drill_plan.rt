//! The plan of the lot of a drill.

ghost use Rattle.std.specs.Prelude.{◌≡◌, ◌≤◌, length, IfOk};
ghost use Rattle.text_bytes.specs.Limits.{most_bytes};
ghost use Rattle.drill_fine.specs.Texts.{plan_text};

use itoa::Buffer;
use std::alloc::{AllocError, Global};

/// The rows of the four dies, and the fault of the second.
const DIE_ROWS: &[u8] = b"die,0,a,drill.bench,,\n\
    die,1,b,drill.bench,,\n\
    die,2,c,drill.bench,,\n\
    die,3,d,drill.bench,,\n\
    fault,1,b,f1,0,\n";

/// The plan of the lot of the drill of this number.
#[tactic(auto, unfolding(drill_fine::specs::Texts::plan_text, drill_fine::specs::Texts::die_rows))]
pub(crate) fn plan_text(alloc: Global, number: u8) -> Result<Vec<u8>, AllocError>
    ensures text { IfOk result (λ text. text.items ≡ plan_text number) }
    ensures few { IfOk result (λ text. length text.items ≤ most_bytes) }
{
    let mut text = Vec::from_slice(alloc, b"lot,256,1,0,,\nclock,ck,,,,\nbind,q,f")?;
    text.extend_from_slice(Buffer::new().format(number).as_bytes())?;
    text.extend_from_slice(b",,,\n")?;
    text.extend_from_slice(DIE_ROWS)?;
    Ok(text)
}
