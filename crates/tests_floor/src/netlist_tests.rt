//! A netlist that threads share.

use crate::programs::read_netlist;
use std::test::Fail;
use std::thread::join;

#[test]
fn two_threads_read_one_netlist(rt: HostRuntime) -> Result<(), Fail> {
    let netlist = read_netlist(rt.alloc(), b"INPUT(a)\nOUTPUT(y)\ny = NOT(a)\n")?;
    let (nets, place) = join(&rt, || netlist.nets(), || netlist.net(b"y"));
    assert!(rt; (nets, place) == (2, Some(1)));
    Ok(())
}
