//! Why a command on a program and a plan isn't run, and the line of each refusal.

ghost use Rattle.std.specs.Prelude.{◌++◌, codes, decimal};
ghost use Rattle.tester_types.specs.Printing.{printed_name};
ghost use Rattle.tool_inputs.specs.declared.status.Status.TheVariants.{NoDie, RefusedNet, RefusedPlan, RefusedSaved, RefusedStil, TooFewSockets};
ghost use Rattle.tool_inputs.specs.Endings.{Ends, refused_line};
ghost use Rattle.tool_inputs.specs.Refusals.{status_of, line_of, net_status, net_line, net_fault_line, plan_status, plan_line, plan_fault_line, few_sockets_line, no_die_line};
ghost use Rattle.tool_inputs.specs.Refusals.{stil_status, stil_line, saved_status, saved_line, saved_fault_line};

use crate::ending::{ended, no_memory};
use crate::status::Status;
use bench_net::NetFault;
use page_code::SavedFault;
use plan_rows::PlanFault;
use stil_ast::{StilFault, StilRefusal};
use tester_types::{Piece, Sink, Text};

/// Why a command on a program and a plan isn't run.
#[derive(Debug, Drop)]
pub enum Refusal {
    NoMemory,
    /// The file of this name couldn't be read.
    ReadFault(Text),
    /// The file of this name has more bytes than a file may have.
    TooLong(Text),
    /// The program is a STIL text with this first fault.
    Stil(StilFault),
    /// The program begins as a saved one, and isn't one.
    Saved(SavedFault),
    /// The netlist in this file is refused.
    Net(Text, NetFault),
    /// The plan is refused.
    Plan(PlanFault),
    /// There are so many sites, and fewer sockets, of which a lot has 16 at most.
    TooFewSockets(u8, u8),
    /// The plan has no die at this site, or no die at all.
    NoDie(Option<u8>),
    /// The first try at this site drives the die more often than a dump tells.
    TapeTooLong(u8),
}

/// Puts the line of a refusal, and answers its status.
pub fn put_refusal<K: Sink>(out: &mut K, refusal: &Refusal) -> Status
    ensures { Ends (K.told out.old) (K.faults out.old)
        (status_of refusal.now) (line_of refusal.now) result (K.told out.new) (K.faults out.new) }
{
    match refusal {
        Refusal::NoMemory => no_memory(out),
        Refusal::ReadFault(file) => put_named(
            out,
            b"read fault ",
            file.as_slice(),
            Status::ReadFault,
        ),
        Refusal::TooLong(file) => put_named(out, b"too long ", file.as_slice(), Status::TooLong),
        Refusal::Stil(fault) => put_fault(out, fault),
        Refusal::Saved(fault) => put_saved_fault(out, *fault),
        Refusal::Net(file, fault) => put_net(out, file.as_slice(), fault),
        Refusal::Plan(fault) => put_plan(out, fault),
        Refusal::TooFewSockets(sites, have) => put_too_few(out, *sites, *have),
        Refusal::NoDie(site) => put_no_die(out, *site),
        Refusal::TapeTooLong(site) => put_site(out, b"tape too long ", *site, Status::TapeTooLong),
    }
}

/// Puts the line of a text's refusal, and answers its status.
pub fn put_stil<K: Sink>(out: &mut K, refusal: &StilRefusal) -> Status
    ensures { Ends (K.told out.old) (K.faults out.old)
        (stil_status refusal.now) (stil_line refusal.now) result (K.told out.new) (K.faults out.new) }
{
    match refusal {
        StilRefusal::NoMemory => no_memory(out),
        StilRefusal::Fault(fault) => put_fault(out, fault),
    }
}

/// Puts the line of a text's fault.
fn put_fault<K: Sink>(out: &mut K, fault: &StilFault) -> Status
    ensures { Ends (K.told out.old) (K.faults out.old)
        RefusedStil (refused_line fault.now) result (K.told out.new) (K.faults out.new) }
{
    let line = [
        Piece::Text(b"refused stil "),
        Piece::Text(fault.kind.name().as_bytes()),
        Piece::Text(b" "),
        Piece::Title(fault.block.as_slice()),
        Piece::Text(b" "),
        Piece::Title(fault.name.as_slice()),
        Piece::Text(b" "),
        Piece::Number(u128::from(fault.line)),
        Piece::Text(b"\n"),
    ];
    ended(out, &line, Status::RefusedStil)
}

/// Puts the line of bytes that are no saved program.
fn put_saved_fault<K: Sink>(out: &mut K, fault: SavedFault) -> Status
    ensures { Ends (K.told out.old) (K.faults out.old)
        (saved_status fault) (saved_line fault) result (K.told out.new) (K.faults out.new) }
{
    match fault {
        SavedFault::NoMemory => no_memory(out),
        SavedFault::BadMagic => put_bad_saved(out, b"BadMagic ", 0),
        SavedFault::BadVersion => put_bad_saved(out, b"BadVersion ", 4),
        SavedFault::Torn(place) => put_bad_saved(out, b"Torn ", place),
        SavedFault::BadCode(place) => put_bad_saved(out, b"BadCode ", place),
    }
}

/// Puts the line of a fault of this kind at a place of a saved program.
fn put_bad_saved<K: Sink>(out: &mut K, kind: &[u8], place: u64) -> Status
    ensures { Ends (K.told out.old) (K.faults out.old)
        RefusedSaved (saved_fault_line kind.now place) result (K.told out.new) (K.faults out.new) }
{
    let line = [
        Piece::Text(b"refused saved "),
        Piece::Text(kind),
        Piece::Number(u128::from(place)),
        Piece::Text(b"\n"),
    ];
    ended(out, &line, Status::RefusedSaved)
}

/// Puts the line of a lot with fewer sockets than sites.
fn put_too_few<K: Sink>(out: &mut K, sites: u8, have: u8) -> Status
    ensures { Ends (K.told out.old) (K.faults out.old)
        TooFewSockets (few_sockets_line sites have) result (K.told out.new) (K.faults out.new) }
{
    let line = [
        Piece::Text(b"too few sockets "),
        Piece::Number(u128::from(sites)),
        Piece::Text(b" "),
        Piece::Number(u128::from(have)),
        Piece::Text(b"\n"),
    ];
    ended(out, &line, Status::TooFewSockets)
}

/// Puts the line of a plan without a die at this site, or without any.
fn put_no_die<K: Sink>(out: &mut K, site: Option<u8>) -> Status
    ensures { Ends (K.told out.old) (K.faults out.old)
        NoDie (no_die_line site) result (K.told out.new) (K.faults out.new) }
{
    match site {
        Some(site) => put_site(out, b"no die ", site, Status::NoDie),
        None => ended(out, &[Piece::Text(b"no die -\n")], Status::NoDie),
    }
}

/// Puts a line that ends with the number of a site.
fn put_site<K: Sink>(out: &mut K, line: &[u8], site: u8, status: Status) -> Status
    ensures { Ends (K.told out.old) (K.faults out.old)
        status (line.now ++ decimal site ++ codes "\n") result (K.told out.new) (K.faults out.new) }
{
    let line = [
        Piece::Text(line),
        Piece::Number(u128::from(site)),
        Piece::Text(b"\n"),
    ];
    ended(out, &line, status)
}

/// Puts a line that ends with the name of a file.
fn put_named<'a, K: Sink>(out: &mut K, line: &'a [u8], file: &'a [u8], status: Status) -> Status
    ensures { Ends (K.told out.old) (K.faults out.old)
        status (line.now ++ printed_name file.now ++ codes "\n") result (K.told out.new) (K.faults out.new) }
{
    let line = [Piece::Text(line), Piece::Name(file), Piece::Text(b"\n")];
    ended(out, &line, status)
}

/// Puts the line of a netlist that is refused.
fn put_net<K: Sink>(out: &mut K, file: &[u8], fault: &NetFault) -> Status
    ensures { Ends (K.told out.old) (K.faults out.old)
        (net_status fault.now) (net_line file.now fault.now) result (K.told out.new) (K.faults out.new) }
{
    match fault {
        NetFault::NoMemory => no_memory(out),
        NetFault::Line(line) => put_bad_line(out, file, *line),
        NetFault::OutOfRange => put_too_many(out, file),
        NetFault::Arity(net) => put_bad_net(out, file, b" Arity ", net.as_slice()),
        NetFault::Twice(net) => put_bad_net(out, file, b" Twice ", net.as_slice()),
        NetFault::Missing(net) => put_bad_net(out, file, b" Missing ", net.as_slice()),
        NetFault::Loop(net) => put_bad_net(out, file, b" Loop ", net.as_slice()),
    }
}

/// Puts the line of a netlist with a line of no form.
fn put_bad_line<K: Sink>(out: &mut K, file: &[u8], number: u32) -> Status
    ensures { Ends (K.told out.old) (K.faults out.old)
        RefusedNet (net_fault_line file.now (codes " Line ") (decimal number))
        result (K.told out.new) (K.faults out.new) }
{
    let line = [
        Piece::Text(b"refused net "),
        Piece::Name(file),
        Piece::Text(b" Line "),
        Piece::Number(u128::from(number)),
        Piece::Text(b"\n"),
    ];
    ended(out, &line, Status::RefusedNet)
}

/// Puts the line of a netlist with too many nets.
fn put_too_many<K: Sink>(out: &mut K, file: &[u8]) -> Status
    ensures { Ends (K.told out.old) (K.faults out.old)
        RefusedNet (net_fault_line file.now (codes " OutOfRange ") (codes "-"))
        result (K.told out.new) (K.faults out.new) }
{
    let line = [
        Piece::Text(b"refused net "),
        Piece::Name(file),
        Piece::Text(b" OutOfRange "),
        Piece::Text(b"-"),
        Piece::Text(b"\n"),
    ];
    ended(out, &line, Status::RefusedNet)
}

/// Puts the line of a netlist with a fault of this kind at a net.
fn put_bad_net<'a, K: Sink>(out: &mut K, file: &'a [u8], kind: &'a [u8], net: &'a [u8]) -> Status
    ensures { Ends (K.told out.old) (K.faults out.old)
        RefusedNet (net_fault_line file.now kind.now (printed_name net.now))
        result (K.told out.new) (K.faults out.new) }
{
    let line = [
        Piece::Text(b"refused net "),
        Piece::Name(file),
        Piece::Text(kind),
        Piece::Name(net),
        Piece::Text(b"\n"),
    ];
    ended(out, &line, Status::RefusedNet)
}

/// Puts the line of a plan that is refused.
fn put_plan<K: Sink>(out: &mut K, fault: &PlanFault) -> Status
    ensures { Ends (K.told out.old) (K.faults out.old)
        (plan_status fault.now) (plan_line fault.now) result (K.told out.new) (K.faults out.new) }
{
    match fault {
        PlanFault::NoMemory => no_memory(out),
        PlanFault::Shape(row) => put_bad_row(out, b"Shape ", *row),
        PlanFault::UnknownName(row) => put_bad_row(out, b"UnknownName ", *row),
        PlanFault::Twice(row) => put_bad_row(out, b"Twice ", *row),
        PlanFault::OutOfRange(row) => put_bad_row(out, b"OutOfRange ", *row),
        PlanFault::SkewOutside(row) => put_bad_row(out, b"SkewOutside ", *row),
        PlanFault::Unbound(signal) => put_unbound(out, signal.as_slice()),
    }
}

/// Puts the line of a plan with a fault of this kind at a row.
fn put_bad_row<K: Sink>(out: &mut K, kind: &[u8], row: u32) -> Status
    ensures { Ends (K.told out.old) (K.faults out.old)
        RefusedPlan (plan_fault_line kind.now (decimal row)) result (K.told out.new) (K.faults out.new) }
{
    let line = [
        Piece::Text(b"refused plan "),
        Piece::Text(kind),
        Piece::Number(u128::from(row)),
        Piece::Text(b"\n"),
    ];
    ended(out, &line, Status::RefusedPlan)
}

/// Puts the line of a plan that leaves a signal without a net.
fn put_unbound<K: Sink>(out: &mut K, signal: &[u8]) -> Status
    ensures { Ends (K.told out.old) (K.faults out.old)
        RefusedPlan (plan_fault_line (codes "Unbound ") (printed_name signal.now))
        result (K.told out.new) (K.faults out.new) }
{
    let line = [
        Piece::Text(b"refused plan "),
        Piece::Text(b"Unbound "),
        Piece::Name(signal),
        Piece::Text(b"\n"),
    ];
    ended(out, &line, Status::RefusedPlan)
}
