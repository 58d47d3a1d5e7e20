//! The dump of a tape of a site's first die, written without memory.

ghost use Rattle.std.specs.Prelude.{◌≡◌, ◌<◌, All, length};
ghost use Rattle.text_bytes.specs.Limits.{most_signals};
ghost use Rattle.std.specs.List.{flat_map, range_with_len};
ghost use Rattle.tester_types.specs.Outside.{Prints};
ghost use Rattle.die_sim.specs.Die.{device_of};
ghost use Rattle.plan_rows.specs.Rows.{sites_of, dies_at};
ghost use Rattle.vcd_text.specs.Dump.{dump_of};
ghost use Rattle.vcd_text.specs.Sound.{IsSound};
ghost use Rattle.vcd_dump.specs.Taken.{vars_of};
ghost use Rattle.vcd_dump.specs.Written.{var_text, front_text, back_text};

use die_sim::{DieImage, Tape};
use lot_plan::BoundPlan;
use packed_code::Code;
use tester_types::{Sink, SinkFault};
use vcd_text::{is_plain, put_calls, put_definitions, put_numbered_var, put_start, put_var};

/// Puts the line of a signal, if the die is driven by it.
fn put_signal<K: Sink>(
    sink: &mut K,
    code: &Code,
    image: &DieImage,
    signal: u16,
) -> Result<(), SinkFault>
    requires { signal < length code.now.signals }
    ensures { Prints (K.told sink.old) (K.faults sink.old) (var_text (device_of image.now) code.now signal) result
        (K.told sink.new) (K.faults sink.new) }
{
    let _conditions = code.signals();
    if !image.bind.is_clock(signal) && !image.bind.is_input(signal) {
        return Ok(());
    }
    let name = code.signal_name(signal);
    if is_plain(name) {
        put_var(sink, signal, name)
    } else {
        put_numbered_var(sink, signal)
    }
}

/// Puts the lines of the signals by which the die is driven.
fn put_signals<K: Sink>(sink: &mut K, code: &Code, image: &DieImage) -> Result<(), SinkFault>
    ensures { Prints (K.told sink.old) (K.faults sink.old)
        (flat_map (var_text (device_of image.now) code.now) (range_with_len 0 (length code.now.signals))) result
        (K.told sink.new) (K.faults sink.new) }
{
    for signal in 0..code.signals() {
        put_signal(sink, code, image, signal)?;
    }
    Ok(())
}

/// Puts the lines up to the last var.
fn put_front<K: Sink>(sink: &mut K, code: &Code, image: &DieImage) -> Result<(), SinkFault>
    ensures { Prints (K.told sink.old) (K.faults sink.old) (front_text (device_of image.now) code.now) result
        (K.told sink.new) (K.faults sink.new) }
{
    put_start(sink)?;
    put_signals(sink, code, image)
}

/// Puts the lines behind the last var.
fn put_back<K: Sink>(sink: &mut K, tape: &Tape) -> Result<(), SinkFault>
    requires { All (λ call. All (λ given. given.0 < most_signals) call.1) tape.now.calls }
    ensures { Prints (K.told sink.old) (K.faults sink.old) (back_text tape.now.calls) result
        (K.told sink.new) (K.faults sink.new) }
{
    put_definitions(sink)?;
    put_calls(sink, tape)
}

/// Writes the dump of a tape, with the driven signals of a site's first die as its vars. It takes no memory.
pub fn write_dump<K: Sink>(
    code: &Code,
    plan: &BoundPlan,
    site: u8,
    tape: &Tape,
    sink: &mut K,
) -> Result<(), SinkFault>
    requires site { site < sites_of plan.now.rows }
    requires die { 0 < length (dies_at site plan.now.rows) }
    requires one_program { plan.now.program ≡ code.now }
    requires sound { IsSound (vars_of plan.now site) tape.now.calls }
    ensures { Prints (K.told sink.old) (K.faults sink.old) (dump_of (vars_of plan.now site) tape.now.calls) result
        (K.told sink.new) (K.faults sink.new) }
{
    let _bound = plan.sites();
    let _conditions = code.signals();
    put_front(sink, code, plan.image(site, 0, 1))?;
    put_back(sink, tape)
}
