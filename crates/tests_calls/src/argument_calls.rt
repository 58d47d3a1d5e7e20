//! Arguments that are given, laid as columns and taken. `-` stands for padding.

use macro_expand::*;
use std::alloc::{AllocError, Global};
use std::test::Fail;
use stil_ast::{ItemRun, VecItem};

/// A run of a character.
fn run(character: u8, times: u32) -> ItemRun {
    ItemRun {
        item: VecItem::Character(character),
        times,
    }
}

/// Characters, each as a run of its own.
fn runs(alloc: Global, text: &[u8]) -> Result<Vec<ItemRun>, AllocError> {
    let mut runs = Vec::new(alloc);
    for character in text {
        runs.push(run(*character, 1))?;
    }
    Ok(runs)
}

/// Gives an argument of characters.
fn give(
    args: &mut Arguments,
    alloc: Global,
    signals: &[u16],
    text: &[u8],
) -> Result<(), AllocError> {
    let runs = runs(alloc, text)?;
    args.give(signals, runs.as_slice())
}

/// Whether the next entries of a signal are these, each of which is then taken.
fn takes(args: &mut Arguments, signal: u16, wanted: &[u8]) -> bool {
    for character in wanted {
        let is_next = match args.next(signal) {
            Some(Some(next)) => next == *character,
            Some(None) => *character == b'-',
            None => false,
        };
        if !is_next || args.taken(signal) == u32::MAX {
            return false;
        }
        args.take(signal);
    }
    true
}

/// Whether all that is left to a signal are these, each of which is then taken.
fn empties(args: &mut Arguments, signal: u16, wanted: &[u8]) -> bool {
    takes(args, signal, wanted) && args.next(signal).is_none()
}

#[test]
fn an_argument_is_dealt_over_three_signals(rt: HostRuntime) -> Result<(), Fail> {
    let mut args = Arguments::new(rt.alloc(), 4)?;
    give(&mut args, rt.alloc(), &[2, 3], b"XYXY")?;
    give(&mut args, rt.alloc(), &[2, 0, 3], b"ABCDEF")?;
    assert!(rt; args.passes(&[0, 1, 2, 3]) == 2);
    let dealt = empties(&mut args, 0, b"BE")
        && empties(&mut args, 1, b"")
        && empties(&mut args, 2, b"AD")
        && empties(&mut args, 3, b"CF");
    assert!(rt; dealt);
    assert!(rt; args.taken(0) == 2 && args.taken(1) == 0);
    Ok(())
}

#[test]
fn runs_are_not_spread(rt: HostRuntime) -> Result<(), Fail> {
    let mut args = Arguments::new(rt.alloc(), 2)?;
    args.give(&[0, 1], &[run(b'0', 1048576), run(b'1', 1), run(b'A', 3)])?;
    assert!(rt; args.passes(&[1, 0]) == 524290);
    args.give(&[0], &[run(b'0', 2), run(b'X', 0), run(b'1', 3)])?;
    assert!(rt; empties(&mut args, 0, b"00111"));
    assert!(rt; Arguments::none(rt.alloc()).next(0).is_none());
    Ok(())
}

#[test]
fn short_data_are_padded_in_front_and_behind(rt: HostRuntime) -> Result<(), Fail> {
    let mut args = Arguments::new(rt.alloc(), 3)?;
    give(&mut args, rt.alloc(), &[0], b"AB")?;
    give(&mut args, rt.alloc(), &[1], b"CD")?;
    give(&mut args, rt.alloc(), &[2], b"WXYZ")?;
    args.lay_columns(&[true, false, true], &[0, 1, 2]);
    let laid = empties(&mut args, 0, b"AB--")
        && empties(&mut args, 1, b"--CD")
        && empties(&mut args, 2, b"WXYZ");
    assert!(rt; laid);
    Ok(())
}

#[test]
fn a_second_shift_pads_what_the_first_left(rt: HostRuntime) -> Result<(), Fail> {
    let mut args = Arguments::new(rt.alloc(), 2)?;
    give(&mut args, rt.alloc(), &[0], b"A")?;
    give(&mut args, rt.alloc(), &[1], b"XYZ")?;
    args.lay_columns(&[false], &[0, 1]);
    assert!(rt; takes(&mut args, 0, b"-"));
    args.lay_columns(&[true], &[0, 1]);
    assert!(rt; args.passes(&[0]) == 3);
    assert!(rt; empties(&mut args, 0, b"-A-"));
    assert!(rt; args.taken(0) == 4);
    Ok(())
}
