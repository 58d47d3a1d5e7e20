//! Instructions in 16 bytes each, as a code keeps them.

ghost use Rattle.std.specs.Prelude.{◌≡◌, ◌+◌, ◌≤◌, ◌∷◌, ◌++◌, [], length, IfOk, IfSome};
ghost use Rattle.std.specs.Int.{w16, w32, w64, from_le_bytes};
ghost use Rattle.packed_code.specs.Packed as packed;
ghost use Rattle.packed_code.specs.Packed.{are_zero, part, instr_of};
ghost use Rattle.packed_code.specs.Conditions.{IsNarrow};

use crate::instr::Instr;
use std::alloc::{AllocError, Global};
use std::marker::Model;
use tester_types::Items;

/// A number of 16 bits at a place.
fn part16(bytes: &[u8], place: usize) -> u16
    requires { place + 2 ≤ length bytes.now }
    ensures { result ≡ from_le_bytes w16 (part place 2 bytes.now) }
{
    let (_, rest) = bytes.split_at(place);
    let (front, _) = rest.split_at(2);
    u16::from_le_bytes([front[0], front[1]])
}

/// A number of 32 bits at a place.
fn part32(bytes: &[u8], place: usize) -> u32
    requires { place + 4 ≤ length bytes.now }
    ensures { result ≡ from_le_bytes w32 (part place 4 bytes.now) }
{
    let (_, rest) = bytes.split_at(place);
    let (front, _) = rest.split_at(4);
    u32::from_le_bytes([front[0], front[1], front[2], front[3]])
}

/// A number of 64 bits at a place.
fn part64(bytes: &[u8], place: usize) -> u64
    requires { place + 8 ≤ length bytes.now }
    ensures { result ≡ from_le_bytes w64 (part place 8 bytes.now) }
{
    let (_, rest) = bytes.split_at(place);
    let (front, _) = rest.split_at(8);
    u64::from_le_bytes([
        front[0], front[1], front[2], front[3], front[4], front[5], front[6], front[7],
    ])
}

/// Whether so many bytes from a place on are zero.
fn zeros(bytes: &[u8], place: usize, size: usize) -> bool
    requires { place + size ≤ length bytes.now }
    ensures { result ≡ are_zero (part place size bytes.now) }
{
    let (_, rest) = bytes.split_at(place);
    let (front, _) = rest.split_at(size);
    front.iter().all(|byte| *byte == 0)
}

/// The instruction that 16 bytes stand for.
#[tactic(auto, unfolding(crate::specs::Packed::instr_of))]
pub fn instr_of_bytes(raw: &[u8]) -> Option<Instr>
    requires { length raw.now ≡ 16 }
    ensures meaning { result ≡ instr_of raw.now }
    ensures narrow { IfSome result IsNarrow }
{
    if raw[0] == 1 && raw[1] == 0 {
        Some(Instr::Run {
            table: part16(raw, 2),
            row: part32(raw, 4),
            mark: part32(raw, 8),
            times: part32(raw, 12),
        })
    } else if raw[0] == 2 && zeros(raw, 1, 7) {
        Some(Instr::Loop {
            times: part64(raw, 8),
        })
    } else if raw[0] == 3 && zeros(raw, 1, 15) {
        Some(Instr::End)
    } else if raw[0] == 4 && zeros(raw, 1, 15) {
        Some(Instr::Done)
    } else {
        None
    }
}

/// The 16 bytes of an instruction.
#[tactic(auto, unfolding(crate::specs::Packed::number))]
fn instr_bytes(instr: Instr) -> [u8; 16]
    ensures bytes { result ≡ packed.instr instr }
    ensures narrow { IsNarrow instr }
{
    match instr {
        Instr::Run {
            table,
            row,
            mark,
            times,
        } => {
            let [t0, t1] = table.to_le_bytes();
            let [r0, r1, r2, r3] = row.to_le_bytes();
            let [m0, m1, m2, m3] = mark.to_le_bytes();
            let [n0, n1, n2, n3] = times.to_le_bytes();
            [1, 0, t0, t1, r0, r1, r2, r3, m0, m1, m2, m3, n0, n1, n2, n3]
        }
        Instr::Loop { times } => {
            let [n0, n1, n2, n3, n4, n5, n6, n7] = times.to_le_bytes();
            [2, 0, 0, 0, 0, 0, 0, 0, n0, n1, n2, n3, n4, n5, n6, n7]
        }
        Instr::End => [3, 0, 0, 0, 0, 0, 0, 0, 0, 0, 0, 0, 0, 0, 0, 0],
        Instr::Done => [4, 0, 0, 0, 0, 0, 0, 0, 0, 0, 0, 0, 0, 0, 0, 0],
    }
}

/// An instruction in the 16 bytes as which it is saved. Contracts see it as the instruction.
#[derive(Debug, Drop)]
pub struct PackedInstr {
    bytes: [u8; 16],
}

impl Model for PackedInstr {
    ghost use Rattle.std.specs.Prelude.{◌≡◌};
    ghost use Rattle.packed_code.specs.declared.instr.Instr.{Instr};
    ghost use Rattle.packed_code.specs.Packed as packed;
    ghost use Rattle.packed_code.specs.Packed.{unpacked};

    ghost Value = { Instr };

    ghost view = { λ p. unpacked p.bytes };

    ghost invariant = { λ p. p.bytes ≡ packed.instr (unpacked p.bytes) };
}

/// Instructions in order, packed.
pub type PackedInstrList = Items<PackedInstr>;

impl PackedInstr {
    /// The instruction in 16 bytes.
    pub fn new(instr: Instr) -> PackedInstr
        ensures { result ≡ instr }
    {
        PackedInstr {
            bytes: instr_bytes(instr),
        }
    }

    /// The instruction that they stand for.
    pub fn instr(&self) -> Instr
        ensures { result ≡ self.now }
    {
        instr_of_bytes(&self.bytes).unwrap_or(Instr::Done)
    }

    /// The 16 bytes.
    pub fn bytes(&self) -> &[u8]
        ensures { result.now ≡ packed.instr self.now }
    {
        &self.bytes
    }
}

/// These instructions, packed.
pub fn pack(alloc: Global, instrs: &[Instr]) -> Result<PackedInstrList, AllocError>
    ensures { IfOk result (λ list. list ≡ instrs.now) }
{
    let mut list = Vec::with_capacity(alloc, instrs.len())?;
    for instr in instrs {
        list.push(PackedInstr::new(*instr))?;
    }
    Ok(PackedInstrList::from_vec(list))
}
