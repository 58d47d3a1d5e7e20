//! What no lot shows of a die: how many gates a moment evaluates, and the entries of a binding.

use crate::fixture::Fixture;
use bench_net::NetFault;
use die_sim::{Bind, BindList, Binding};
use std::alloc::{AllocError, Global};
use tester_types::Drive;

/// The circuit s27 of ISCAS-89.
const S27: &[u8] = b"INPUT(G0)\nINPUT(G1)\nINPUT(G2)\nINPUT(G3)\nOUTPUT(G17)\n\
    G5 = DFF(G10)\nG6 = DFF(G11)\nG7 = DFF(G13)\nG14 = NOT(G0)\nG17 = NOT(G11)\n\
    G8 = AND(G14, G6)\nG15 = OR(G12, G8)\nG16 = OR(G3, G8)\nG9 = NAND(G16, G15)\n\
    G10 = NOR(G14, G11)\nG11 = NOR(G5, G9)\nG12 = NOR(G1, G7)\nG13 = NOR(G2, G12)\n";

/// A die of s27 whose inputs are driven down.
fn driven_down(alloc: Global) -> Result<Fixture, NetFault> {
    let mut die = Fixture::new(alloc, S27, b"ck", Vec::new(alloc))?;
    die.drive(&[
        (0, Drive::Down),
        (1, Drive::Down),
        (2, Drive::Down),
        (3, Drive::Down),
    ]);
    Ok(die)
}

#[test]
fn a_moment_evaluates_what_it_reaches(rt: HostRuntime) -> Result<(), NetFault> {
    let mut die = driven_down(rt.alloc())?;
    let steps = (
        die.drive(&[(2, Drive::Up)]),
        die.drive(&[(2, Drive::Up)]),
        die.drive(&[(0, Drive::Up)]),
    );
    assert!(rt; steps.0 <= 1 && steps.1 == 0 && 0 < steps.2 && steps.2 <= 8);
    Ok(())
}

/// What is told of a signal: its bind, whether it is the clock, whether it is an input, and whether it has a net.
fn told(bind: &Binding, signal: u16) -> (Bind, bool, bool, bool) {
    (
        bind.bind_at(signal),
        bind.is_clock(signal),
        bind.is_input(signal),
        bind.has_net(signal),
    )
}

#[test]
fn a_signal_is_bound_as_its_entry_says(rt: HostRuntime) -> Result<(), AllocError> {
    let nets = vec![in rt.alloc(); Bind::Input(7), Bind::Output(7), Bind::Free]?;
    let bind = Binding {
        clock: Some(2),
        nets: BindList::from_vec(nets),
    };
    for (signal, wanted) in [
        (0, (Bind::Input(7), false, true, true)),
        (1, (Bind::Output(7), false, false, true)),
        (2, (Bind::Free, true, false, false)),
        (3, (Bind::Free, false, false, false)),
    ] {
        assert!(rt; told(&bind, signal) == wanted, "{signal}");
    }
    Ok(())
}
