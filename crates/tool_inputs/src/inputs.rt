//! The files of a lot: the program, the plan, and the netlists that the plan names.

ghost use Rattle.std.specs.Prelude.{◌≡◌, ◌≤◌, ◌++◌, ◌∷◌, [], true, IfOk, IfErr, OnOk, length, map, MatchResult};
ghost use Rattle.std.specs.Arc.{arc_value};
ghost use Rattle.std.specs.List.{list_all};
ghost use Rattle.tester_types.specs.Outside.{Loads};
ghost use Rattle.text_bytes.specs.Limits.{most_bytes};
ghost use Rattle.text_bytes.specs.Bytes.{is_printing};
ghost use Rattle.plan_rows.specs.Rows.{files_of};
ghost use Rattle.page_code.specs.Saved.{Saved};
ghost use Rattle.stil_program.specs.Program.{IsProgramOf};
ghost use Rattle.tool_inputs.specs.Endings.{IsFile};
ghost use Rattle.tool_inputs.specs.Inputs.{is_saved, IsUnread, IsProgramFile, IsPlanFile, IsNetFile};
ghost use Rattle.tool_inputs.specs.Inputs.{IsProgramRefused, IsPlanRefused, IsNetRefused, AreNetFiles, AreNetsRefused};
ghost use Rattle.tool_inputs.specs.Nets.{AddsNet};
ghost use Rattle.tool_inputs.specs.Refused.{IsTextRefusal, IsSavedRefusal};

use crate::refusal::Refusal;
use bench_net::Netlist;
use lot_plan::Plan;
use page_code::{Code, load as load_code};
use std::alloc::{AllocError, Global};
use std::sync::Arc;
use stil_ast::StilRefusal;
use stil_program::program;
use tester_types::{Shelf, ShelfFault, Text};
use text_bytes::MOST_BYTES;

/// The most bytes that a file may have.
pub const LIMIT: usize = MOST_BYTES;

/// Loads a file, of as many bytes as a file may have.
pub fn load<F: Shelf>(alloc: Global, file: &str, shelf: &mut F) -> Result<Vec<u8>, Refusal>
    ensures found { IfOk result (λ bytes. IsFile (F.told shelf.old) file.now bytes.items) }
    ensures unread { IfErr result (λ r. IsUnread
        (F.told shelf.old) (F.faults shelf.old) (F.faults shelf.new) file.now r) }
    ensures loads { Loads (F.told shelf.old) (F.faults shelf.old) (F.told shelf.new) (F.faults shelf.new) }
{
    let Ok(name) = Vec::from_slice(alloc, file.as_bytes()) else {
        return Err(Refusal::NoMemory);
    };
    let name = Text::from_vec(name);
    match shelf.load(alloc, file, LIMIT) {
        Ok(bytes) => Ok(bytes),
        Err(ShelfFault::Failed) => Err(Refusal::ReadFault(name)),
        Err(ShelfFault::TooLong) => Err(Refusal::TooLong(name)),
        Err(ShelfFault::NoMemory) => Err(Refusal::NoMemory),
    }
}

/// The code of a text, or why it has none.
fn text_code(alloc: Global, bytes: &[u8]) -> Result<Code, Refusal>
    requires few { length bytes.now ≤ most_bytes }
    ensures { MatchResult result (IsProgramOf bytes.now) (IsTextRefusal bytes.now) }
{
    match program(alloc, bytes) {
        Ok(code) => Ok(code),
        Err(StilRefusal::NoMemory) => Err(Refusal::NoMemory),
        Err(StilRefusal::Fault(fault)) => Err(Refusal::Stil(fault)),
    }
}

/// The code of a saved program, or why the bytes are none.
fn saved_code(alloc: Global, bytes: &[u8]) -> Result<Code, Refusal>
    ensures { MatchResult result (λ code. Saved code bytes.now) (IsSavedRefusal bytes.now) }
{
    match load_code(alloc, bytes) {
        Ok(code) => Ok(code),
        Err(fault) => Err(Refusal::Saved(fault)),
    }
}

/// Reads the program: a saved one by its first bytes, else a STIL text.
pub(crate) fn read_program<F: Shelf>(
    alloc: Global,
    file: &str,
    shelf: &mut F,
) -> Result<Code, Refusal>
    ensures reads { MatchResult result (IsProgramFile (F.told shelf.old) file.now)
        (IsProgramRefused (F.told shelf.old) (F.faults shelf.old) (F.faults shelf.new) file.now) }
    ensures loads { Loads (F.told shelf.old) (F.faults shelf.old) (F.told shelf.new) (F.faults shelf.new) }
{
    let bytes = load(alloc, file, shelf)?;
    if is_saved(bytes.as_slice()) {
        saved_code(alloc, bytes.as_slice())
    } else {
        text_code(alloc, bytes.as_slice())
    }
}

/// Whether bytes are to be read as a saved program.
fn is_saved(bytes: &[u8]) -> bool
    ensures { result ≡ is_saved bytes.now }
{
    let front = &bytes[..bytes.len().min(4)];
    front == b"\xD7STP".as_slice()
}

/// Reads the plan.
pub(crate) fn read_plan<F: Shelf>(alloc: Global, file: &str, shelf: &mut F) -> Result<Plan, Refusal>
    ensures reads { MatchResult result (IsPlanFile (F.told shelf.old) file.now)
        (IsPlanRefused (F.told shelf.old) (F.faults shelf.old) (F.faults shelf.new) file.now) }
    ensures loads { Loads (F.told shelf.old) (F.faults shelf.old) (F.told shelf.new) (F.faults shelf.new) }
{
    let bytes = load(alloc, file, shelf)?;
    match Plan::read(alloc, bytes.as_slice()) {
        Ok(plan) => Ok(plan),
        Err(fault) => Err(Refusal::Plan(fault)),
    }
}

/// Reads a netlist.
fn read_net<F: Shelf>(alloc: Global, file: &str, shelf: &mut F) -> Result<Netlist, Refusal>
    ensures reads { MatchResult result (IsNetFile (F.told shelf.old) file.now)
        (IsNetRefused (F.told shelf.old) (F.faults shelf.old) (F.faults shelf.new) file.now) }
    ensures loads { Loads (F.told shelf.old) (F.faults shelf.old) (F.told shelf.new) (F.faults shelf.new) }
{
    let Ok(name) = Vec::from_slice(alloc, file.as_bytes()) else {
        return Err(Refusal::NoMemory);
    };
    let bytes = load(alloc, file, shelf)?;
    match Netlist::read(alloc, bytes.as_slice()) {
        Ok(net) => Ok(net),
        Err(fault) => Err(Refusal::Net(Text::from_vec(name), fault)),
    }
}

/// The name of a file as the shelf takes it.
fn name_of(file: &Text) -> &str
    requires { list_all is_printing file.now ≡ true }
    ensures { result.now ≡ file.now }
{
    let Ok(name) = str::from_utf8(file.as_slice()) else {
        unreachable!()
    };
    name
}

/// Adds a netlist, which is shared from here on.
fn share(alloc: Global, net: Netlist, nets: &mut Vec<Arc<Netlist>>) -> Result<(), AllocError>
    ensures { OnOk result (map arc_value nets.new.items ≡ map arc_value nets.old.items ++ net ∷ []) }
{
    nets.push(Arc::new(alloc, net)?)?;
    Ok(())
}

/// Reads a netlist, and adds it to others.
fn add_net<F: Shelf>(
    alloc: Global,
    file: &Text,
    shelf: &mut F,
    nets: &mut Vec<Arc<Netlist>>,
) -> Result<(), Refusal>
    requires { list_all is_printing file.now ≡ true }
    ensures reads { MatchResult result (λ _. AddsNet (F.told shelf.old) file.now
        (map arc_value nets.old.items) (map arc_value nets.new.items))
        (IsNetRefused (F.told shelf.old) (F.faults shelf.old) (F.faults shelf.new) file.now) }
    ensures loads { Loads (F.told shelf.old) (F.faults shelf.old) (F.told shelf.new) (F.faults shelf.new) }
{
    let net = read_net(alloc, name_of(file), shelf)?;
    match share(alloc, net, nets) {
        Ok(()) => Ok(()),
        Err(_) => Err(Refusal::NoMemory),
    }
}

/// Reads the netlists of a plan's files, in its order.
pub(crate) fn read_nets<F: Shelf>(
    alloc: Global,
    plan: &Plan,
    shelf: &mut F,
) -> Result<Vec<Arc<Netlist>>, Refusal>
    ensures reads { MatchResult result
        (λ nets. AreNetFiles (F.told shelf.old) (files_of plan.now) (map arc_value nets.items))
        (AreNetsRefused (F.told shelf.old) (F.faults shelf.old) (F.faults shelf.new) (files_of plan.now)) }
    ensures loads { Loads (F.told shelf.old) (F.faults shelf.old) (F.told shelf.new) (F.faults shelf.new) }
{
    let files = plan.files().as_slice();
    let mut nets = Vec::new(alloc);
    for file in files {
        add_net(alloc, file, shelf, &mut nets)?;
    }
    Ok(nets)
}
