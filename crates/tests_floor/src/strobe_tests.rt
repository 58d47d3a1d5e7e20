//! A random-looking cycle beside a slow program of the definition.

use std::alloc::Global;
use std::test::Fail as Failure;
use strobe_check::*;
use tester_types::{Fail, FailList, Level, Look, LookList, Moment, NoMemory, PushList};

const ZERO: Level = Level::Zero;

const ONE: Level = Level::One;

const X: Level = Level::X;

const Z: Level = Level::Z;

/// An instant, its looks, and the levels of three signals after it.
type Shown<'a> = (u64, &'a [(u16, Look)], [Level; 3]);

/// All three signals are bound.
const ALL: [bool; 3] = [true, true, true];

fn moment(alloc: Global, at: u64, looks: &[(u16, Look)]) -> Result<Moment, NoMemory> {
    Ok(Moment {
        at: u128::from(at),
        drives: PushList::from_vec(Vec::new(alloc)),
        looks: LookList::from_slice(alloc, looks)?,
    })
}

/// A checker that was shown these entries of cycle 7 of executive 0.
fn checker_of(
    alloc: Global,
    bound: [bool; 3],
    keep: u16,
    entries: &[Shown],
) -> Result<Checker, NoMemory> {
    let mut checker = Checker::make(alloc, &bound, keep)?;
    for (at, looks, levels) in entries {
        let moment = moment(alloc, *at, looks)?;
        checker.look(0, 7, 0, &moment, levels);
    }
    Ok(checker)
}

fn fail(at: u64, signal: u16, want: Look, seen: Level) -> Fail {
    Fail {
        exec: 0,
        cycle: 7,
        at: u128::from(at),
        signal,
        want,
        seen,
        mark: 0,
    }
}

/// Whether the level is what the look wants, by the table of the acts.
fn slow_meets(look: Look, level: Level) -> bool {
    matches!(
        (look, level),
        (Look::Low | Look::LowWindow, Level::Zero)
            | (Look::High | Look::HighWindow, Level::One)
            | (Look::Off | Look::OffWindow, Level::Z)
            | (Look::Close, _)
    )
}

fn slow_is_window(look: Look) -> bool {
    look == Look::LowWindow || look == Look::HighWindow || look == Look::OffWindow
}

/// The last look at a signal in an entry.
fn slow_last(entry: &Shown, signal: u16) -> Option<Look> {
    let mut last = None;
    for (of, look) in entry.1 {
        if *of == signal {
            last = Some(*look);
        }
    }
    last
}

/// The window look that has the last of these entries inside its extent, where it meets all before.
fn slow_window(entries: &[Shown], signal: u16) -> Option<Look> {
    let mut start = entries.len();
    for (place, entry) in entries.iter().enumerate() {
        if slow_last(entry, signal).is_some() {
            start = place;
        }
    }
    let look = slow_last(entries.get(start)?, signal)?;
    if !slow_is_window(look) {
        return None;
    }
    for (place, entry) in entries.iter().enumerate() {
        if start <= place
            && place + 1 < entries.len()
            && !slow_meets(look, entry.2[usize::from(signal) % 3])
        {
            return None;
        }
    }
    Some(look)
}

/// The fails of a signal at the last of these entries.
fn slow_fails(entries: &[Shown], signal: u16, fails: &mut Vec<Fail>) -> Result<(), NoMemory> {
    let Some(entry) = entries.last() else {
        return Ok(());
    };
    let seen = entry.2[usize::from(signal) % 3];
    for (of, look) in entry.1 {
        if *of == signal && !slow_is_window(*look) && !slow_meets(*look, seen) {
            fails.push(fail(entry.0, signal, *look, seen))?;
        }
    }
    if let Some(look) = slow_window(entries, signal)
        && !slow_meets(look, seen)
    {
        fails.push(fail(entry.0, signal, look, seen))?;
    }
    Ok(())
}

/// Whether the checker finds what the slow program finds: the fails, and at each moment what is sensed.
fn agrees(alloc: Global, bound: [bool; 3], entries: &[Shown]) -> Result<bool, NoMemory> {
    let mut fails = Vec::new(alloc);
    for count in 0..entries.len() {
        let upto = &entries[..count + 1];
        for signal in 0..3u16 {
            if bound[usize::from(signal)] {
                slow_fails(upto, signal, &mut fails)?;
            }
        }
    }
    let checker = checker_of(alloc, bound, 1_000, entries)?;
    Ok(checker.total() == fails.len() as u64 && checker.kept().as_slice() == fails.as_slice())
}

/// Whether the checker senses at the last of these entries what the slow program senses.
fn senses(alloc: Global, bound: [bool; 3], entries: &[Shown]) -> Result<bool, NoMemory> {
    let Some((last, before)) = entries.split_last() else {
        return Ok(true);
    };
    let checker = checker_of(alloc, bound, 0, before)?;
    let next = moment(alloc, last.0, last.1)?;
    for signal in 0..3u16 {
        let edge = last.1.iter().any(|(of, look)| {
            *of == signal && (*look == Look::Low || *look == Look::High || *look == Look::Off)
        });
        let wanted = bound[usize::from(signal)] && (edge || slow_window(entries, signal).is_some());
        if checker.wanted(&next, signal) != wanted {
            return Ok(false);
        }
    }
    Ok(true)
}

/// A cycle with looks and levels in no particular order.
const MIXED: [Shown<'static>; 8] = [
    (
        0,
        &[(0, Look::LowWindow), (1, Look::High), (1, Look::HighWindow)],
        [ZERO, ONE, Z],
    ),
    (3, &[(2, Look::OffWindow)], [ZERO, ONE, Z]),
    (4, &[(0, Look::Close), (2, Look::Low)], [ONE, X, Z]),
    (8, &[], [ONE, ONE, X]),
    (
        9,
        &[(0, Look::Off), (0, Look::OffWindow), (2, Look::LowWindow)],
        [Z, ZERO, X],
    ),
    (15, &[(1, Look::LowWindow), (1, Look::Low)], [Z, ZERO, ZERO]),
    (
        16,
        &[(1, Look::OffWindow), (2, Look::HighWindow)],
        [X, Z, ONE],
    ),
    (22, &[], [Z, ONE, Z]),
];

#[test]
fn agrees_with_the_slow_program(rt: HostRuntime) -> Result<(), Failure> {
    assert!(rt; agrees(rt.alloc(), ALL, &MIXED)?);
    assert!(rt; agrees(rt.alloc(), [false, true, false], &MIXED)?);
    for count in 0..MIXED.len() {
        assert!(rt; senses(rt.alloc(), ALL, &MIXED[..count + 1])?);
    }
    Ok(())
}

/// The signals that the checker names at its next moment.
fn named(alloc: Global, checker: &Checker, next: &Moment) -> Result<Vec<u16>, NoMemory> {
    let mut names = Vec::new(alloc);
    let mut ahead = Ahead::of(next);
    while let Some(signal) = checker.next_wanted(&mut ahead) {
        names.push(signal)?;
    }
    Ok(names)
}

/// Windows of three signals, of which the second one has failed.
const OPEN: [Shown<'static>; 1] = [(
    3,
    &[
        (0, Look::LowWindow),
        (1, Look::HighWindow),
        (2, Look::OffWindow),
    ],
    [ZERO, ZERO, Z],
)];

/// Signals 0 and 2 have windows that are open; at the next moment the first is looked at as well, or the second is and the third
/// one's window is closed.
#[test]
fn names_what_is_sensed(rt: HostRuntime) -> Result<(), Failure> {
    let checker = checker_of(rt.alloc(), ALL, 0, &OPEN)?;
    let both = moment(rt.alloc(), 5, &[(0, Look::High)])?;
    assert!(rt; named(rt.alloc(), &checker, &both)?.as_slice() == [0, 2].as_slice());
    let other = moment(rt.alloc(), 5, &[(1, Look::High), (2, Look::Close)])?;
    assert!(rt; named(rt.alloc(), &checker, &other)?.as_slice() == [0, 1].as_slice());
    Ok(())
}
