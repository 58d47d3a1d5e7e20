//! Each socket once.
ghost use Rattle.std.specs.Prelude.{◌≡◌, length, IfOk};
ghost use Rattle.tests_floor.specs.Own.{IsOwnImage};

use crate::fixture::{can_show, can_take, own_image};
use bench_net::{NetFault, read};
use die_sim::{DieImage, SimSocket, Socket, SocketBox, TapeSocket};
use std::alloc::Global;
use std::test::*;
use std::thread::join;
use tester_types::{Drive, Level};

/// The clock of the image below.
const CLOCK: u16 = 2;

/// An image of one flip-flop: d is signal 0, q signal 1.
fn flip_flop(alloc: Global) -> Result<DieImage, NetFault>
    ensures { IfOk result (λ i. IsOwnImage 2 i) }
{
    let net = read(alloc, b"INPUT(d)\nOUTPUT(q)\nq = DFF(d)\n")?;
    own_image(alloc, net, CLOCK, Vec::new(alloc))
}

/// Which calls of a try succeed: to load the image, to drive, and to sense q.
fn calls<K: Socket>(
    socket: &mut K,
    image: &DieImage,
    drives: &[(u16, Drive)],
) -> (bool, bool, Option<Level>)
    requires { IsOwnImage 2 image.now }
{
    if socket.load(image).is_err() {
        return (false, false, None);
    }
    if !can_take(image, CLOCK, drives) || !can_show(image, CLOCK, 1) {
        return (true, false, None);
    }
    let driven = socket.drive(7, drives).is_ok();
    (true, driven, socket.sense(1).ok())
}

#[test]
fn a_simulated_die_is_loaded_driven_and_sensed(rt: HostRuntime) -> Result<(), Fail> {
    let image = flip_flop(rt.alloc())?;
    let mut socket = SimSocket::new(rt.alloc());
    let found = calls(&mut socket, &image, &[(0, Drive::Up)]);
    assert_eq!(rt; found, (true, true, Some(Level::X)));
    assert!(rt; socket.tape().is_none());
    socket.unload();
    Ok(())
}

#[test]
fn a_tape_keeps_the_drives_that_fit(rt: HostRuntime) -> Result<(), Fail> {
    let image = flip_flop(rt.alloc())?;
    let mut socket = TapeSocket::new(rt.alloc(), 4)?;
    for fits in [true, true, false] {
        let (loaded, driven, _) = calls(&mut socket, &image, &[(0, Drive::Up)]);
        assert_eq!(rt; (loaded, driven), (true, fits));
    }
    match socket.tape() {
        Some(tape) => {
            assert_eq!(rt; (tape.len(), tape.left()), (2, 0));
            assert_eq!(rt; tape.instant(1), 7);
            assert_eq!(rt; tape.drives(1), [(0u16, Drive::Up)].as_slice());
        }
        None => assert!(rt; false),
    }
    Ok(())
}

#[test]
fn a_box_of_a_socket_is_a_socket(rt: HostRuntime) -> Result<(), Fail> {
    let image = flip_flop(rt.alloc())?;
    let mut socket: SocketBox = Box::new(rt.alloc(), TapeSocket::new(rt.alloc(), 2)?)?;
    let drives = [(0, Drive::Down), (CLOCK, Drive::Up)];
    assert_eq!(rt;
        calls(&mut socket, &image, &drives),
        (true, false, Some(Level::X))
    );
    assert!(rt; calls(&mut socket, &image, &[(0, Drive::Up)]).1);
    assert!(rt; socket.tape().is_some());
    socket.unload();
    Ok(())
}

#[test]
fn two_threads_read_one_image(rt: HostRuntime) -> Result<(), Fail> {
    let image = flip_flop(rt.alloc())?;
    let shared = &image;
    let (nets, signals) = join(&rt, || shared.net.nets(), || shared.bind.nets.len());
    assert_eq!(rt; (nets, signals), (2, 2));
    assert!(rt; image.faults.is_empty());
    Ok(())
}
