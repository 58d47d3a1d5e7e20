//! The netlist of each die of a drill.

ghost use Rattle.std.specs.Prelude.{◌≡◌, ◌≤◌, ◌<◌, ◌++◌, length, IfOk, OnOk};
ghost use Rattle.text_bytes.specs.Limits.{most_bytes};
ghost use Rattle.drill_fine.specs.Texts.{net_head, register_line, net_text};

use itoa::Buffer;
use std::alloc::{AllocError, Global};

/// The netlist of the dies of the drill of this number.
pub(crate) fn net_text(alloc: Global, number: u8) -> Result<Vec<u8>, AllocError>
    ensures text { IfOk result (λ text. text.items ≡ net_text number) }
    ensures few { IfOk result (λ text. length text.items ≤ most_bytes) }
{
    let mut text = with_head(alloc, number)?;
    for register in 2..u64::from(number) + 1 {
        put_register(&mut text, register)?;
    }
    Ok(text)
}

/// The lines of the input, the output and the first register.
#[tactic(auto, unfolding(drill_fine::specs::Texts::net_head))]
fn with_head(alloc: Global, number: u8) -> Result<Vec<u8>, AllocError>
    ensures { IfOk result (λ text. text.items ≡ net_head number) }
{
    let mut text = Vec::from_slice(alloc, b"INPUT(d)\nOUTPUT(f")?;
    text.extend_from_slice(Buffer::new().format(number).as_bytes())?;
    text.extend_from_slice(b")\nf1 = DFF(d)\n")?;
    Ok(text)
}

/// Puts the line of a register behind the first.
#[tactic(auto, unfolding(drill_fine::specs::Texts::register_line))]
fn put_register(text: &mut Vec<u8>, register: u64) -> Result<(), AllocError>
    requires { 0 < register }
    ensures { OnOk result (text.new.items ≡ text.old.items ++ register_line register) }
{
    let mut buffer = Buffer::new();
    text.extend_from_slice(b"f")?;
    text.extend_from_slice(buffer.format(register).as_bytes())?;
    text.extend_from_slice(b" = DFF(f")?;
    text.extend_from_slice(buffer.format(register - 1).as_bytes())?;
    text.extend_from_slice(b")\n")
}
