//! A die for tests, whose signals are its nets by their numbers.
ghost use Rattle.std.specs.Prelude.{◌≡◌, ℕ, ◌+◌, ◌<◌, ◌≤◌, ◌⊎◌, true, Some, [], ◌∷◌, length, IfOk, IfSome, slice_index_or};
ghost use Rattle.tester_types.specs.declared.level.Drive.{Drive};
ghost use Rattle.bench_net.specs.Wiring.{driver_at};
ghost use Rattle.text_bytes.specs.Limits.{most_bytes};
ghost use Rattle.die_sim.specs.Die.{is_clock, IsBoundTo, bind_at, device_of};
ghost use Rattle.die_sim.specs.Moment.{AreDrives};
ghost use Rattle.tests_floor.specs.Own.{is_input, own_bind, AreOwn, IsOwnImage, AreOwnDrives};

use bench_net::{Driver, NetFault, Netlist};
use die_sim::{
    Bind, BindList, Binding, DieImage, DieState, FaultList, Steps, StuckAt, is_one_fault,
};
use std::alloc::{AllocError, Global};
use std::marker::Model;
use std::sync::Arc;
use tester_types::Drive;

/// A die with its image, and the number of its clock.
#[derive(Drop)]
pub(crate) struct Fixture {
    image: DieImage,
    die: DieState,
    clock: u16,
}

impl Model for Fixture {
    ghost use Rattle.std.specs.Prelude.{ℕ, ◌≤◌, length};
    ghost use Rattle.tests_floor.specs.Own.{IsOwnDevice};

    ghost Value = { ℕ };

    ghost view = { λ f. f.clock };

    ghost invariant = { λ f. IsOwnDevice f.image.circuit f.clock f.die.device };
}

impl Fixture {
    /// The die of a netlist. Its clock is the net of this name, or a signal of its own where there is none.
    pub(crate) fn new(
        alloc: Global,
        text: &[u8],
        clock: &[u8],
        faults: Vec<StuckAt>,
    ) -> Result<Fixture, NetFault>
        requires { length text.now ≤ most_bytes }
    {
        let net = bench_net::read(alloc, text)?;
        if net.nets() > 1000 {
            return Err(NetFault::OutOfRange);
        }
        let clock = net.net(clock).unwrap_or(net.nets()) as u16;
        let image = own_image(alloc, net, clock, faults)?;
        match DieState::make(alloc, &image) {
            Ok(die) => Ok(Fixture { image, die, clock }),
            Err(_) => Err(NetFault::NoMemory),
        }
    }

    /// One moment. Answers how many gates were evaluated; drives that don't fit do nothing.
    pub(crate) fn drive(&mut self, drives: &[(u16, Drive)]) -> u64 {
        if !are_drives(&self.image.net, self.clock, drives) {
            return 0;
        }
        let mut steps: Steps<()> = Steps::new();
        self.die.apply(drives, &mut steps);
        steps.count()
    }
}

/// How the signal of a net's number is bound.
fn own_bind(net: &Netlist, n: u32) -> Bind
    requires { n < length net.now.net.names }
    ensures { result ≡ own_bind net.now.net.drivers n }
{
    match net.driver(n) {
        Driver::Input => Bind::Input(n),
        Driver::Dff(_) => Bind::Output(n),
        Driver::Gate(_, _) => Bind::Output(n),
    }
}

/// The binding of all nets.
fn own_binds(alloc: Global, net: &Netlist) -> Result<Vec<Bind>, AllocError>
    ensures { IfOk result (λ binds. AreOwn net.now.net.drivers binds.items (length net.now.net.drivers)) }
{
    let mut binds = Vec::new(alloc);
    for n in 0..net.nets() {
        binds.push(own_bind(net, n))?;
    }
    Ok(binds)
}

/// The image of a netlist with one fault at most.
pub(crate) fn own_image(
    alloc: Global,
    net: Netlist,
    clock: u16,
    faults: Vec<StuckAt>,
) -> Result<DieImage, NetFault>
    ensures image { IfOk result (λ i. IsOwnImage clock i) }
    ensures circuit { IfOk result (λ i. i.circuit ≡ net) }
{
    if !is_one_fault(&net, faults.as_slice()) {
        return Err(NetFault::OutOfRange);
    }
    let binds = own_binds(alloc, &net)?;
    let nets = BindList::from_vec(binds);
    let clock = Some(clock);
    Ok(DieImage {
        net: Arc::new(alloc, net)?,
        bind: Arc::new(alloc, Binding { clock, nets })?,
        faults: FaultList::from_vec(faults),
    })
}

/// Whether the signal is an input's or the clock.
fn can_drive(net: &Netlist, clock: u16, signal: u16) -> bool
    ensures { result ≡ true → (is_clock (Some clock) signal ≡ true)
        ⊎ ((signal < length net.now.net.drivers) × (is_input (driver_at net.now.net.drivers signal) ≡ true)) }
{
    if signal == clock {
        return true;
    }
    (signal as u32) < net.nets() && net.is_input(signal as u32)
}

/// Whether the signal of the drive at a place is behind that of the one before.
fn is_behind(drives: &[(u16, Drive)], place: usize) -> bool
    requires { place < length drives.now }
    ensures { result ≡ true → (k : ℕ) (a b : ℕ × Drive) → k + 1 ≡ place
        → (slice_index_or drives.now k a).0 < (slice_index_or drives.now place b).0 }
{
    place == 0 || drives[place - 1].0 < drives[place].0
}

/// Whether these are drives of inputs and of the clock, signals rising.
pub(crate) fn are_drives(net: &Netlist, clock: u16, drives: &[(u16, Drive)]) -> bool
    ensures { result ≡ true → AreOwnDrives net.now.net.drivers clock drives.now }
{
    for place in 0..drives.len() {
        if !can_drive(net, clock, drives[place].0) {
            return false;
        }
        if !is_behind(drives, place) {
            return false;
        }
    }
    true
}

/// Whether these are drives of the image's inputs and its clock, signals rising.
pub(crate) fn can_take(image: &DieImage, clock: u16, drives: &[(u16, Drive)]) -> bool
    requires { IsOwnImage clock image.now }
    ensures { result ≡ true → AreDrives (device_of image.now) drives.now }
{
    are_drives(&image.net, clock, drives)
}

/// Whether the signal is that of a net.
pub(crate) fn can_show(image: &DieImage, clock: u16, signal: u16) -> bool
    requires { IsOwnImage clock image.now }
    ensures { result ≡ true → IsBoundTo (bind_at (device_of image.now).binds signal) }
{
    (signal as u32) < image.net.nets()
}
