use super::*;
use crate::slow::{slow_enclosing, slow_forest};
use crate::slow_faults::slow_tree_fault;
use std::test::Fail;
use stil_lex::{Token, lex};

#[test]
fn statements_keep_their_heads_and_blocks(rt: HostRuntime) -> Result<(), Fail> {
    let tokens = lex(rt.alloc(), b"STIL 1.0;; Signals { a In; }")?;
    assert_eq!(rt; tokens.len(), 12);
    let list = forest(rt.alloc(), tokens.as_slice())?;
    let stmts = list.as_slice();
    assert_eq!(rt; stmts.len(), 2);
    assert_eq!(rt; stmts[0].first, 0);
    assert_eq!(rt; stmts[0].count, 4);
    assert!(rt; stmts[0].body.is_none());
    assert_eq!(rt; stmts[1].first, 6);
    assert_eq!(rt; stmts[1].count, 1);
    let body = stmts[1].body.as_ref().ok_or("a block")?;
    assert_eq!(rt; body.len(), 1);
    Ok(())
}

#[test]
fn a_place_has_its_block(rt: HostRuntime) -> Result<(), Fail> {
    let tokens = lex(rt.alloc(), b"A; Timing \"t\" { W; } } x")?;
    let items = tokens.as_slice();
    assert_eq!(rt; items.len(), 10);
    assert_eq!(rt; enclosing(items, 2), (None, None));
    assert_eq!(rt; enclosing(items, 3), (Some(2), None));
    assert_eq!(rt; enclosing(items, 7), (Some(2), Some(3)));
    assert_eq!(rt; enclosing(items, 8), (None, None));
    assert_eq!(rt; enclosing(items, 10), (Some(8), Some(9)));
    Ok(())
}

/// Whether the readers and the slow programs give the same statements, or none, the same fault and the same open block.
fn agree(rt: &HostRuntime, tokens: &[Token]) -> Result<bool, Fail> {
    if tokens.len() > 1000 {
        return Ok(false);
    }
    let same_fault = forest(rt.alloc(), tokens).err() == slow_tree_fault(tokens);
    let fast = forest(rt.alloc(), tokens).ok();
    let slow = slow_forest(rt.alloc(), tokens)?;
    let fast = format!(in rt.alloc(); "{fast:?}")?;
    let slow = format!(in rt.alloc(); "{slow:?}")?;
    let same_block = enclosing(tokens, tokens.len()) == slow_enclosing(tokens, tokens.len());
    Ok(same_fault && same_block && fast.as_str() == slow.as_str())
}

/// Whether they agree on a text's tokens, and on each of their prefixes.
fn agree_on_prefixes(rt: &HostRuntime, text: &[u8]) -> Result<bool, Fail> {
    if text.len() > 1000 {
        return Ok(false);
    }
    let tokens = lex(rt.alloc(), text)?;
    let items = tokens.as_slice();
    for len in 0..items.len() {
        if !agree(rt, &items[..len])? {
            return Ok(false);
        }
    }
    agree(rt, items)
}

/// A text with blocks in one another, and a whole text.
static BLOCKS: &[u8] = b"STIL 1.0;; Timing \"t\" { W { Period '1us'; } } { a; { } } } Z";

static WHOLE: &[u8] =
    b"STIL 1.0;\nSignals { a In; y Out; }\nTiming t { WaveformTable w {\nPeriod '100ns';\n\
Waveforms {\na { 01 { '0ns' D/U; } }\ny { LHX { '40ns' L/H/X; } }\n} } }\nPattern p {\nW w;\n\
V { a=0; y=H; }\nV { a=1; y=L; }\nV { y=X; }\n}\nPatternBurst b { PatList { p; } }\n\
PatternExec { Timing t; PatternBurst b; }\n";

#[test]
fn the_slow_programs_agree_on_every_prefix(rt: HostRuntime) -> Result<(), Fail> {
    assert!(rt; agree_on_prefixes(&rt, BLOCKS)? && agree_on_prefixes(&rt, WHOLE)?);
    Ok(())
}

/// Texts between bars: good ones, and each with a first refusal.
static TEXTS: &[u8] = b"|;;|{ }|{{{{{{{{{{{{{{{{ a; }}}}}}}}}}}}}}}}|\
STIL|a; b|a; }|a }|a { b } c|a { b { c; |a { b; c|{{{{{{{{{{{{{{{{ { }|\
STIL 1.0; Signals { a In;|STIL 1.0; }";

/// The faults of these texts.
static FAULTS: [Option<TreeFault>; 14] = [
    None,
    None,
    None,
    None,
    Some(TreeFault::OpenStatement(0)),
    Some(TreeFault::OpenStatement(2)),
    Some(TreeFault::StrayClose(2)),
    Some(TreeFault::StrayClose(1)),
    Some(TreeFault::OpenStatement(2)),
    Some(TreeFault::OpenBlock(3)),
    Some(TreeFault::OpenBlock(1)),
    Some(TreeFault::TooDeep(16)),
    Some(TreeFault::OpenBlock(6)),
    Some(TreeFault::StrayClose(5)),
];

/// Whether a short text has this fault, and both readers agree on it.
fn has_fault(rt: &HostRuntime, text: &[u8], fault: Option<TreeFault>) -> Result<bool, Fail> {
    if text.len() > 1000 {
        return Ok(false);
    }
    let tokens = lex(rt.alloc(), text)?;
    let items = tokens.as_slice();
    Ok(items.len() <= 1000 && forest(rt.alloc(), items).err() == fault && agree(rt, items)?)
}

/// Whether the texts between bars have these faults, one by one.
fn have_faults(rt: &HostRuntime, texts: &[u8], faults: &[Option<TreeFault>]) -> Result<bool, Fail> {
    let mut left = faults.iter();
    for text in texts.split(|byte| *byte == b'|') {
        let Some(fault) = left.next() else {
            return Ok(false);
        };
        if !has_fault(rt, text, *fault)? {
            return Ok(false);
        }
    }
    Ok(left.next().is_none())
}

#[test]
fn texts_have_their_faults(rt: HostRuntime) -> Result<(), Fail> {
    assert!(rt; have_faults(&rt, TEXTS, &FAULTS)?);
    Ok(())
}
