//! What goes along with a try: the checker, the last Down or Up of each signal, and room for drives and levels.

ghost use Rattle.std.specs.Prelude.{◌≡◌, ◌≤◌, [], length, replicate, IfOk};
ghost use Rattle.text_bytes.specs.Limits.{most_signals};
ghost use Rattle.tester_types.specs.declared.level.Drive.TheVariants as drive;
ghost use Rattle.tester_types.specs.declared.level.Level.TheVariants as level;
ghost use Rattle.die_sim.specs.Die.{device_of};
ghost use Rattle.strobe_check.specs.History.{HasSeen};
ghost use Rattle.cycle_run.specs.Cycle.{closed_with};

use crate::signals::bound_signals;
use die_sim::DieImage;
use std::alloc::{AllocError, Global};
use strobe_check::Checker;
use tester_types::{Drive, Level, NoMemory};

/// What goes along with a try.
#[derive(Drop)]
pub struct Bench {
    pub checker: Checker,
    /// The last Down or Up of each signal, or Unknown.
    pub last: Vec<Drive>,
    /// Room for the drives of a moment.
    pub drives: Vec<(u16, Drive)>,
    /// A level of each signal. Those that the checker wants are those of the moment.
    pub levels: Vec<Level>,
}

/// Unknown for each signal.
pub fn unknown_drives(alloc: Global, signals: u16) -> Result<Vec<Drive>, AllocError>
    ensures { IfOk result (λ last. last.items ≡ replicate signals drive.Unknown) }
{
    vec![in alloc; Drive::Unknown; usize::from(signals)]
}

/// X for each signal.
fn unknown_levels(alloc: Global, signals: u16) -> Result<Vec<Level>, AllocError>
    ensures { IfOk result (λ levels. levels.items ≡ replicate signals level.X) }
{
    vec![in alloc; Level::X; usize::from(signals)]
}

impl Bench {
    /// What goes along from the first moment on.
    pub fn new(alloc: Global, image: &DieImage, signals: u16, keep: u16) -> Result<Bench, NoMemory>
        requires count { signals ≡ length image.now.binds }
        requires few { signals ≤ most_signals }
        ensures checker { IfOk result (λ bench. HasSeen (closed_with (device_of image.now) keep []) bench.checker) }
        ensures last { IfOk result (λ bench. bench.last.items ≡ replicate signals drive.Unknown) }
        ensures levels { IfOk result (λ bench. length bench.levels.items ≡ signals) }
    {
        let bound = bound_signals(alloc, image, signals)?;
        Ok(Bench {
            checker: Checker::make(alloc, bound.as_slice(), keep)?,
            last: unknown_drives(alloc, signals)?,
            drives: Vec::new(alloc),
            levels: unknown_levels(alloc, signals)?,
        })
    }
}
