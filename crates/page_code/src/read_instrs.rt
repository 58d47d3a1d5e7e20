//! Reading the instructions of a saved program.

ghost use Rattle.std.specs.Prelude.{◌≡◌, ◌+◌, ◌-◌, ◌<◌, ◌≤◌, ◌&&◌, ◌||◌, ◌==◌, ◌++◌, ◌∷◌, true, false, [], not, List, Ok, MatchResult, IfOk};
ghost use Rattle.text_bytes.specs.Limits.{deepest_loops};
ghost use Rattle.page_code.specs.Fields.{Gives, Fails, known, piece_at, items_at};
ghost use Rattle.page_code.specs.Reading.{follows, is_bounded, instr_with, instr_at};
ghost use Rattle.packed_code.specs.Packed.{instr_of};
ghost use Rattle.page_code.specs.Accepted.{AreAccepted};
ghost use Rattle.packed_code.specs.Conditions.{IsNarrow};
ghost use Rattle.packed_code.specs.Whole.{IsRest, IsWhole};
ghost use Rattle.packed_code.specs.declared.instr.Instr.TheVariants.{Done};
ghost use Rattle.page_code.specs.Nest.{IsNest, depth_after, begins};

use crate::accepted::Accepted;
use crate::fault::ReadError;
use crate::read_fields::{bad, piece};
use packed_code::{Instr, PackedInstr, PackedInstrList, RowList, cycles, instr_of_bytes};
use std::alloc::{AllocError, Global};
use tester_types::Table;
use text_bytes::{DEEPEST_LOOPS, MOST_CYCLES, MOST_PASSES};

/// The 16 bytes of an instruction, which is not judged yet.
fn raw_instr(bytes: &[u8]) -> Result<(Instr, &[u8]), ReadError>
    ensures read { Gives (λ x. (x.0, x.1.now)) result (known (piece_at 16) instr_of bytes.now) }
    ensures narrow { IfOk result (λ x. IsNarrow x.0) }
{
    let (raw, rest) = piece(16, bytes)?;
    match instr_of_bytes(raw) {
        None => Err(bad(bytes)),
        Some(instr) => Ok((instr, rest)),
    }
}

/// The loops that are open behind the instructions that were read, and whether the last of these is a
/// `Loop`.
#[derive(Clone, Copy, Debug)]
struct Nest {
    depth: usize,
    begun: bool,
}

impl Nest {
    /// No loop is open before the first instruction.
    fn new() -> Nest
        ensures { IsNest [] result }
    {
        Nest {
            depth: 0,
            begun: false,
        }
    }

    /// The loops that are open behind one more instruction.
    fn after(self, instr: Instr) -> Nest
        requires { self.depth ≤ deepest_loops }
        ensures { result ≡ record { depth = depth_after self.depth instr; begun = begins instr } }
    {
        match instr {
            Instr::Loop { .. } => Nest {
                depth: self.depth + 1,
                begun: true,
            },
            Instr::End => Nest {
                depth: self.depth.saturating_sub(1),
                begun: false,
            },
            _ => Nest {
                depth: self.depth,
                begun: false,
            },
        }
    }
}

/// Whether an instruction may stand, as the last one or not, inside these loops.
fn may_stand(
    tables: &[Table],
    rows: &RowList,
    accepted: &mut Accepted,
    is_last: bool,
    nest: Nest,
    instr: Instr,
) -> Result<bool, AllocError>
    requires accepted { AreAccepted tables.now rows.now accepted.old }
    ensures stands { IfOk result (λ stands. stands ≡ follows tables.now rows.now is_last nest.depth nest.begun instr) }
    ensures accepted { AreAccepted tables.now rows.now accepted.new }
{
    match instr {
        Instr::Run {
            table,
            row,
            times,
            ..
        } => {
            if is_last
                || times == 0
                || table as usize >= tables.len()
                || row as usize >= rows.len()
            {
                return Ok(false);
            }
            accepted.has_waves_for(tables, rows, table, row)
        }
        Instr::Loop { times } => Ok(
            !is_last && times > 0 && times <= MOST_PASSES && nest.depth < DEEPEST_LOOPS,
        ),
        Instr::End => Ok(!is_last && !nest.begun && nest.depth > 0),
        Instr::Done => Ok(is_last && nest.depth == 0),
    }
}

/// Whether these instructions run few enough cycles, where the last of them is a `Done`.
fn is_within(instrs: &[PackedInstr], last: Instr) -> bool
    requires { last ≡ Done → IsRest 0 false instrs.now }
    ensures { (before : List Instr) → instrs.now ≡ before ++ last ∷ [] → result ≡ is_bounded before last }
{
    match last {
        Instr::Done => cycles(instrs) <= MOST_CYCLES,
        _ => true,
    }
}

/// An instruction behind those before it, which is put at their end, packed.
#[tactic(auto, unfolding(crate::specs::Reading::instr_with))]
fn instr<'a>(
    tables: &[Table],
    rows: &RowList,
    accepted: &mut Accepted,
    is_last: bool,
    nest: Nest,
    instrs: &mut Vec<PackedInstr>,
    bytes: &'a [u8],
) -> Result<(Instr, &'a [u8]), ReadError>
    requires accepted { AreAccepted tables.now rows.now accepted.old }
    requires nest { IsNest instrs.old.items nest }
    ensures accepted { AreAccepted tables.now rows.now accepted.new }
    ensures narrow { IfOk result (λ x. IsNarrow x.0) }
    ensures read { MatchResult result
        (λ x. (instr_with tables.now rows.now is_last instrs.old.items bytes.now ≡ Ok (x.0, x.1.now))
        × (instrs.new.items ≡ instrs.old.items ++ x.0 ∷ []))
        (λ e. Fails e (instr_with tables.now rows.now is_last instrs.old.items bytes.now)) }
{
    let (instr, rest) = raw_instr(bytes)?;
    if !may_stand(tables, rows, accepted, is_last, nest, instr)? {
        return Err(bad(bytes));
    }
    instrs.push(PackedInstr::new(instr))?;
    if !is_within(instrs, instr) {
        return Err(bad(bytes));
    }
    Ok((instr, rest))
}

/// So many instructions.
pub(crate) fn instrs<'a>(
    alloc: Global,
    tables: &[Table],
    rows: &RowList,
    accepted: &mut Accepted,
    count: u32,
    bytes: &'a [u8],
) -> Result<(PackedInstrList, &'a [u8]), ReadError>
    requires accepted { AreAccepted tables.now rows.now accepted.old }
    ensures accepted { AreAccepted tables.now rows.now accepted.new }
    ensures read { Gives (λ x. (x.0, x.1.now)) result
        (items_at (instr_at tables.now rows.now count) count [] bytes.now) }
    ensures whole { IfOk result (λ x. 0 < count → IsWhole x.0) }
{
    let room = (count as usize).min(bytes.len() / 16);
    let mut instrs = Vec::with_capacity(alloc, room)?;
    let mut nest = Nest::new();
    let mut rest = bytes;
    for place in 0..count {
        let is_last = place + 1 == count;
        let (last, after) = instr(tables, rows, accepted, is_last, nest, &mut instrs, rest)?;
        nest = nest.after(last);
        rest = after;
    }
    Ok((PackedInstrList::from_vec(instrs), rest))
}
