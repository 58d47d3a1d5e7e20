//! A program of ten cycles at an inverter, plans that are bound to it, and what its tries came to.

ghost use Rattle.std.specs.Prelude.{◌≡◌, ◌≤◌, length, IfOk};
ghost use Rattle.text_bytes.specs.Limits.{most_bytes};

use bench_net::{Netlist, read};
use lot_plan::{BoundPlan, Plan};
use page_code::{Code, load};
use std::alloc::{AllocError, Global};
use std::sync::Arc;
use std::test::Fail;
use tester_types::{Record, Verdict};

/// The signals a, y and c, and a table w of 100 ns up to the count of its waves.
const HEAD: [u8; 39] = [
    0xD7, 0x53, 0x54, 0x50, 1, 0, 0, 0, 3, 0, 0, 1, 0, b'a', 1, 1, 0, b'y', 0, 1, 0, b'c', 1, 0, 1,
    0, b'w', 0x00, 0xE1, 0xF5, 0x05, 0, 0, 0, 0, 4, 0, 0, 0,
];

/// At 0 a is driven down or up; at 40 ns y is wanted high or low.
const WAVES: [[u8; 13]; 4] = [
    [0, 0, b'0', 1, 0, 0, 0, 0, 0, 0, 0, 0, 1],
    [0, 0, b'1', 1, 0, 0, 0, 0, 0, 0, 0, 0, 2],
    [1, 0, b'H', 1, 0x00, 0x5A, 0x62, 0x02, 0, 0, 0, 0, 7],
    [1, 0, b'L', 1, 0x00, 0x5A, 0x62, 0x02, 0, 0, 0, 0, 6],
];

/// Two rows, and an executive of three instructions: the rows in turn, five times each, and the end.
const REST: [u8; 68] = [
    2, 0, 0, 0, b'0', b'H', 0, b'1', b'L', 0, 1, 0, 0, 0, 0, 0, 3, 0, 0, 0, 1, 0, 0, 0, 0, 0, 0, 0,
    0, 0, 0, 0, 5, 0, 0, 0, 1, 0, 0, 0, 1, 0, 0, 0, 0, 0, 0, 0, 5, 0, 0, 0, 4, 0, 0, 0, 0, 0, 0, 0,
    0, 0, 0, 0, 0, 0, 0, 0,
];

/// The netlist of an inverter.
const NET: &[u8] = b"INPUT(a)\nOUTPUT(y)\ny = NOT(a)\n";

/// The bytes of the program.
fn program(alloc: Global) -> Result<Vec<u8>, AllocError> {
    let mut bytes = Vec::from_slice(alloc, &HEAD)?;
    for wave in WAVES {
        bytes.extend_from_slice(&wave)?;
    }
    bytes.extend_from_slice(&REST)?;
    Ok(bytes)
}

/// The program.
pub(crate) fn code_of(alloc: Global) -> Result<Code, Fail> {
    let bytes = program(alloc)?;
    let Ok(code) = load(alloc, &bytes) else {
        return Err("the bytes are a program".into());
    };
    Ok(code)
}

/// The inverter, once for each of so many files.
fn nets(alloc: Global, files: usize) -> Result<Vec<Arc<Netlist>>, Fail> {
    let mut nets = Vec::new(alloc);
    for _ in 0..files {
        let Ok(net) = read(alloc, NET) else {
            return Err("there is a netlist".into());
        };
        nets.push(Arc::new(alloc, net)?)?;
    }
    Ok(nets)
}

/// The plan of a text, bound to a program and the inverter.
pub(crate) fn bound(alloc: Global, code: &Code, text: &[u8]) -> Result<BoundPlan, Fail>
    requires { length text.now ≤ most_bytes }
    ensures program { IfOk result (λ plan. plan.program ≡ code.now) }
{
    let plan = Plan::read(alloc, text)?;
    let nets = nets(alloc, plan.files().len())?;
    if nets.len() != plan.files().len() {
        return Err("there is a netlist for each file".into());
    }
    Ok(plan.bind(alloc, code, nets)?)
}

/// What a try came to: its number, cycles, fails and verdict.
pub(crate) type Outcome = (u8, u64, u64, Verdict);

/// What the tries of records came to.
pub(crate) fn outcomes(alloc: Global, records: &[Record]) -> Result<Vec<Outcome>, Fail> {
    let mut list = Vec::new(alloc);
    for record in records {
        for trial in record.trials.as_slice() {
            list.push((trial.number, trial.cycles, trial.fails, trial.verdict))?;
        }
    }
    Ok(list)
}
