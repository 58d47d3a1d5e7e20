//! The lines of tries.

ghost use Rattle.std.specs.Prelude.{◌++◌, All, codes, decimal};
ghost use Rattle.std.specs.List.{flat_map};
ghost use Rattle.tester_types.specs.declared.record.By.TheVariants as by;
ghost use Rattle.tester_types.specs.Outside.{Prints};
ghost use Rattle.datalog.specs.DatalogText.{try_line, verdict_line, stopped_line, trial_text};
ghost use Rattle.datalog.specs.Printable.{IsKnownTrial};

use crate::fails::put_fails;
use packed_code::Code;
use tester_types::{By, Piece, Sink, SinkFault, Trial, Verdict, put_all, put_each};

/// Puts the texts of tries.
pub(crate) fn put_trials<K: Sink>(
    sink: &mut K,
    code: &Code,
    trials: &[Trial],
) -> Result<(), SinkFault>
    requires { All (IsKnownTrial code.now) trials.now }
    ensures { Prints (K.told sink.old) (K.faults sink.old) (flat_map (trial_text code.now) trials.now) result
        (K.told sink.new) (K.faults sink.new) }
{
    for trial in trials {
        put_trial(sink, code, trial)?;
    }
    Ok(())
}

/// Puts a try with its kept fails and its verdict.
fn put_trial<K: Sink>(sink: &mut K, code: &Code, trial: &Trial) -> Result<(), SinkFault>
    requires { IsKnownTrial code.now trial.now }
    ensures { Prints (K.told sink.old) (K.faults sink.old) (trial_text code.now trial.now) result
        (K.told sink.new) (K.faults sink.new) }
{
    put_try(sink, trial)?;
    put_fails(sink, code, trial.kept.as_slice())?;
    put_verdict(sink, &trial.verdict)
}

/// Puts the numbers of a try.
fn put_try<K: Sink>(sink: &mut K, trial: &Trial) -> Result<(), SinkFault>
    ensures { Prints (K.told sink.old) (K.faults sink.old) (try_line trial.now) result
        (K.told sink.new) (K.faults sink.new) }
{
    let line = [
        Piece::Text(b"try "),
        Piece::Number(u128::from(trial.number)),
        Piece::Text(b" cycles "),
        Piece::Number(u128::from(trial.cycles)),
        Piece::Text(b" fails "),
        Piece::Number(u128::from(trial.fails)),
        Piece::Text(b"\n"),
    ];
    put_each(sink, &line)
}

/// Puts how a try ended.
pub(crate) fn put_verdict<K: Sink>(sink: &mut K, verdict: &Verdict) -> Result<(), SinkFault>
    ensures { Prints (K.told sink.old) (K.faults sink.old) (verdict_line verdict.now) result
        (K.told sink.new) (K.faults sink.new) }
{
    match *verdict {
        Verdict::Pass => put_all(sink, b"verdict pass\n"),
        Verdict::Fail(exec) => put_numbered(sink, b"verdict fail ", u128::from(exec)),
        Verdict::Stopped(batch, by) => put_stopped(sink, batch, by),
        Verdict::Contact(at) => put_numbered(sink, b"verdict contact ", at),
    }
}

/// Puts who stopped a try, and before which batch.
fn put_stopped<K: Sink>(sink: &mut K, batch: u64, by: By) -> Result<(), SinkFault>
    ensures { Prints (K.told sink.old) (K.faults sink.old) (stopped_line batch by) result
        (K.told sink.new) (K.faults sink.new) }
{
    match by {
        By::Plan => put_stopped_by_plan(sink, u128::from(batch)),
        By::Desk(stops) => put_stopped_by_desk(sink, u128::from(batch), u128::from(stops)),
    }
}

/// Puts that the plan stopped a try.
fn put_stopped_by_plan<K: Sink>(sink: &mut K, batch: u128) -> Result<(), SinkFault>
    ensures { Prints (K.told sink.old) (K.faults sink.old) (stopped_line batch by.Plan) result
        (K.told sink.new) (K.faults sink.new) }
{
    let line = [
        Piece::Text(b"verdict stopped "),
        Piece::Number(batch),
        Piece::Text(b" plan\n"),
    ];
    put_each(sink, &line)
}

/// Puts that the desk stopped a try, with the number of its stops.
fn put_stopped_by_desk<K: Sink>(sink: &mut K, batch: u128, stops: u128) -> Result<(), SinkFault>
    ensures { Prints (K.told sink.old) (K.faults sink.old) (stopped_line batch (by.Desk stops)) result
        (K.told sink.new) (K.faults sink.new) }
{
    let line = [
        Piece::Text(b"verdict stopped "),
        Piece::Number(batch),
        Piece::Text(b" desk "),
        Piece::Number(stops),
        Piece::Text(b"\n"),
    ];
    put_each(sink, &line)
}

/// Puts a line of words and a number.
pub(crate) fn put_numbered<K: Sink>(
    sink: &mut K,
    words: &[u8],
    number: u128,
) -> Result<(), SinkFault>
    ensures { Prints (K.told sink.old) (K.faults sink.old) (words.now ++ decimal number ++ codes "\n") result
        (K.told sink.new) (K.faults sink.new) }
{
    let line = [
        Piece::Text(words),
        Piece::Number(number),
        Piece::Text(b"\n"),
    ];
    put_each(sink, &line)
}
