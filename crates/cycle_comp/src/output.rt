//! Cycles as Runs, of which equal neighbours are one.

ghost use Rattle.std.specs.Prelude.{◌≡◌, ◌<◌, ◌-◌, ◌++◌, ◌∷◌, [], Some, None, OnOk, IfSome, if◌then◌else◌};
ghost use Rattle.packed_code.specs.declared.instr.Instr.TheVariants.{Run};
ghost use Rattle.cycle_comp.specs.Writing.{IsOnceMore, IsPut, looped};
ghost use Rattle.cycle_comp.specs.Passes.{has_room, once_more, behind_last, with_entry, same_code, passes};

use packed_code::{Entry, Instr};
use std::alloc::AllocError;

/// The same Run once more, where it runs this entry and has room for it.
fn once_more(last: Instr, entry: Entry) -> Option<Instr>
    ensures run { IfSome result (λ run. IsOnceMore entry last run) }
    ensures is { result ≡ (if has_room entry last then Some (once_more last) else None) }
{
    match last {
        Instr::Run {
            table,
            row,
            mark,
            times,
        } => {
            let same = table == entry.table && row == entry.row && mark == entry.mark;
            if same && times < u32::MAX {
                Some(Instr::Run {
                    table,
                    row,
                    mark,
                    times: times + 1,
                })
            } else {
                None
            }
        }
        _ => None,
    }
}

/// The Run of an entry, once.
fn once(entry: Entry) -> Instr
    ensures { result ≡ Run entry.table entry.row entry.mark 1 }
{
    Instr::Run {
        table: entry.table,
        row: entry.row,
        mark: entry.mark,
        times: 1,
    }
}

/// Puts a cycle behind instructions without an open loop.
pub(crate) fn put_cycle(code: &mut Vec<Instr>, entry: Entry) -> Result<(), AllocError>
    ensures put { OnOk result (IsPut entry code.old.items code.new.items) }
    ensures is { OnOk result (code.new.items ≡ with_entry entry code.old.items) }
{
    match code.pop() {
        Some(last) => put_behind(code, last, entry),
        None => {
            code.push(once(entry))?;
            Ok(())
        }
    }
}

/// The same behind a last instruction that was taken off.
fn put_behind(code: &mut Vec<Instr>, last: Instr, entry: Entry) -> Result<(), AllocError>
    ensures put { OnOk result (IsPut entry (code.old.items ++ last ∷ []) code.new.items) }
    ensures is { OnOk result (code.new.items ≡ code.old.items ++ behind_last entry last) }
{
    match once_more(last, entry) {
        Some(run) => code.push(run)?,
        None => {
            code.push(last)?;
            code.push(once(entry))?;
        }
    }
    Ok(())
}

/// Puts a loop over a body behind instructions without an open loop.
pub(crate) fn put_loop(
    code: &mut Vec<Instr>,
    times: u64,
    mut body: Vec<Instr>,
) -> Result<(), AllocError>
    ensures { OnOk result (code.new.items ≡ code.old.items ++ looped times body.items) }
{
    code.push(Instr::Loop { times })?;
    code.append(&mut body)?;
    code.push(Instr::End)?;
    Ok(())
}

/// Whether two lists of instructions are equal.
fn are_same(first: &[Instr], second: &[Instr]) -> bool
    ensures { result ≡ same_code first.now second.now }
{
    first == second
}

/// Puts so many passes, of which the first two are written as these, behind instructions without an open loop: nothing
/// of empty ones; a loop where both are the same; else the first one apart, and the others behind it.
pub(crate) fn put_passes(
    code: &mut Vec<Instr>,
    times: u64,
    mut first: Vec<Instr>,
    mut second: Vec<Instr>,
) -> Result<(), AllocError>
    requires { 1 < times }
    ensures { OnOk result (code.new.items ≡ code.old.items ++ passes (times - 2) first.items second.items) }
{
    if first.is_empty() {
        return Ok(());
    }
    if are_same(first.as_slice(), second.as_slice()) {
        return put_loop(code, times, first);
    }
    code.append(&mut first)?;
    if times == 2 {
        code.append(&mut second)?;
        return Ok(());
    }
    put_loop(code, times - 1, second)
}
