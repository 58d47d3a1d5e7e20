//! Which signals a die is driven by, and which are looked at.

ghost use Rattle.std.specs.Prelude.{◌≡◌, map, IfOk};
ghost use Rattle.std.specs.List.{range_with_len};
ghost use Rattle.die_sim.specs.Die.{device_of};
ghost use Rattle.site_meaning.specs.Playing.{is_driven, is_bound};

use die_sim::DieImage;
use std::alloc::{AllocError, Global};

/// Whether the die is driven by the signal: it is the clock, or bound to an input.
pub(crate) fn is_driven(image: &DieImage, signal: u16) -> bool
    ensures { result ≡ is_driven (device_of image.now) signal }
{
    image.bind.is_clock(signal) || image.bind.is_input(signal)
}

/// Whether the signal is looked at: it is the clock, or bound to a net.
fn is_bound(image: &DieImage, signal: u16) -> bool
    ensures { result ≡ is_bound (device_of image.now) signal }
{
    image.bind.is_clock(signal) || image.bind.has_net(signal)
}

/// Whether each of so many signals is looked at.
pub fn bound_signals(alloc: Global, image: &DieImage, signals: u16) -> Result<Vec<bool>, AllocError>
    ensures { IfOk result (λ bound. bound.items ≡ map (is_bound (device_of image.now)) (range_with_len 0 signals)) }
{
    let mut bound = Vec::new(alloc);
    for signal in 0..signals {
        bound.push(is_bound(image, signal))?;
    }
    Ok(bound)
}
