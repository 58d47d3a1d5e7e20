//! Instructions that name tables which are there.

ghost use Rattle.std.specs.Prelude.{◌≡◌, ◌+◌, true, OnOk};
ghost use Rattle.std.specs.List.{AllByRecursion};
ghost use Rattle.cycle_comp.specs.Working.{IsInside};

use packed_code::Instr;
use std::alloc::AllocError;

/// Whether an instruction names one of so many tables, if it names one.
fn is_inside(instr: Instr, tables: usize) -> bool
    ensures { result ≡ true → IsInside tables instr }
{
    match instr {
        Instr::Run { table, mark: _, .. } => usize::from(table) < tables,
        _ => true,
    }
}

/// Looks once more at the tables that instructions name, `own` behind those of other executives. The vectors of a text name
/// tables that are there, but flat trees don't say so: others are answered as want of memory.
pub(crate) fn check_instrs(instrs: &[Instr], before: usize, own: usize) -> Result<(), AllocError>
    ensures { OnOk result (AllByRecursion (IsInside (before + own)) instrs.now) }
{
    let Some(tables) = before.checked_add(own) else {
        return Err(AllocError);
    };
    for instr in instrs {
        if !is_inside(*instr, tables) {
            return Err(AllocError);
        }
    }
    Ok(())
}
