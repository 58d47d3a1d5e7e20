//! The drives of a moment, as the die gets them.

ghost use Rattle.std.specs.Prelude.{◌≡◌, ◌<◌, All, fold, length, map, filter, OnOk, slice_index_or};
ghost use Rattle.die_sim.specs.Die.{device_of};
ghost use Rattle.tester_types.specs.declared.level.Drive.TheVariants as drive;
ghost use Rattle.site_meaning.specs.Playing.{steady, drive_of, put_steady, after_push, handed, is_driven};

use crate::signals::is_driven;
use die_sim::DieImage;
use std::alloc::AllocError;
use tester_types::{Drive, Push};

/// The Down or Up that a later P stands for, if this is one.
fn steady(push: Push) -> Option<Drive>
    ensures { result ≡ steady push }
{
    match push {
        Push::Down => Some(Drive::Down),
        Push::Up => Some(Drive::Up),
        Push::Off => None,
        Push::Unknown => None,
        Push::Prior => None,
    }
}

/// A drive as the die gets it, where `prior` stands for P.
fn drive_of(prior: Drive, push: Push) -> Drive
    ensures { result ≡ drive_of prior push }
{
    match push {
        Push::Down => Drive::Down,
        Push::Up => Drive::Up,
        Push::Off => Drive::Off,
        Push::Unknown => Drive::Unknown,
        Push::Prior => prior,
    }
}

/// The last Down or Up of a signal.
fn prior(last: &[Drive], signal: u16) -> Drive
    ensures { result ≡ slice_index_or last.now signal drive.Unknown }
{
    if usize::from(signal) < last.len() {
        last[usize::from(signal)]
    } else {
        Drive::Unknown
    }
}

/// Collects the drives of a moment that the die gets, by the last Down or Up of each signal.
pub fn collect(
    image: &DieImage,
    last: &[Drive],
    drives: &[(u16, Push)],
    given: &mut Vec<(u16, Drive)>,
) -> Result<(), AllocError>
    ensures { OnOk result (given.new.items
        ≡ map (handed last.now) (filter (λ pair. is_driven (device_of image.now) pair.0) drives.now)) }
{
    given.clear();
    for (signal, push) in drives {
        if is_driven(image, *signal) {
            given.push((*signal, drive_of(prior(last, *signal), *push)))?;
        }
    }
    Ok(())
}

/// Puts down the last Down or Up of a signal, if there is a new one.
fn put_steady(last: &mut Vec<Drive>, signal: u16, next: Option<Drive>)
    requires { signal < length last.old.items }
    ensures { last.new.items ≡ put_steady last.old.items signal next }
{
    match next {
        None => {}
        Some(drive) => last[usize::from(signal)] = drive,
    }
}

/// Remembers the last Down or Up of each signal.
pub fn remember(last: &mut Vec<Drive>, drives: &[(u16, Push)])
    requires { All (λ given. given.0 < length last.old.items) drives.now }
    ensures all { last.new.items ≡ fold after_push last.old.items drives.now }
    ensures count { length last.new.items ≡ length last.old.items }
{
    for (signal, push) in drives {
        put_steady(last, *signal, steady(*push));
    }
}
