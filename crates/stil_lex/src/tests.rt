use super::*;
use crate::slow::slow_lex;
use crate::slow_faults::slow_fault;
use std::test::Fail;

#[test]
fn a_head_is_cut_into_its_tokens(rt: HostRuntime) -> Result<(), Fail> {
    let text = b"Ann {* x *}\nW \"a b\" '1+2';";
    let tokens = lex(rt.alloc(), text)?;
    let items = tokens.as_slice();
    assert_eq!(rt; items.len(), 4);
    assert_eq!(rt; items[0].kind, TokenKind::Word);
    assert_eq!(rt; items[1].kind, TokenKind::Name);
    assert_eq!(rt; items[1].text(text), b"a b".as_slice());
    assert_eq!(rt; items[2].kind, TokenKind::Text);
    assert_eq!(rt; items[2].text(text), b"1+2".as_slice());
    assert_eq!(rt; items[3].kind, TokenKind::Sign(b';'));
    assert_eq!(rt; items[3].line, 2);
    Ok(())
}

/// Whether both lexers give the same tokens, or none, and the slow search the same fault.
fn agree(rt: &HostRuntime, text: &[u8]) -> Result<bool, Fail> {
    if text.len() > 1000 {
        return Ok(false);
    }
    let same_fault = lex(rt.alloc(), text).err() == slow_fault(text);
    let fast = lex(rt.alloc(), text).ok();
    let slow = slow_lex(rt.alloc(), text)?;
    let fast = format!(in rt.alloc(); "{fast:?}")?;
    let slow = format!(in rt.alloc(); "{slow:?}")?;
    Ok(same_fault && fast.as_str() == slow.as_str())
}

/// A text whose slow reading agrees, and that of each of its prefixes.
fn agree_on_prefixes(rt: &HostRuntime, text: &[u8]) -> Result<bool, Fail> {
    for len in 0..text.len() {
        if !agree(rt, &text[..len])? {
            return Ok(false);
        }
    }
    agree(rt, text)
}

/// A short text of each kind of piece, and a whole text.
static PIECES: &[u8] = b"STIL 1.0; // a\nAnn {* b *} Ann\nW \"t\"; /* c\n*/ 'x+\ty'/2; \"\x01\" ~";

static WHOLE: &[u8] =
    b"STIL 1.0;\nSignals { a In; y Out; }\nTiming t { WaveformTable w {\nPeriod '100ns';\n\
Waveforms {\na { 01 { '0ns' D/U; } }\ny { LHX { '40ns' L/H/X; } }\n} } }\nPattern p {\nW w;\n\
V { a=0; y=H; }\nV { a=1; y=L; }\nV { y=X; }\n}\nPatternBurst b { PatList { p; } }\n\
PatternExec { Timing t; PatternBurst b; }\n";

#[test]
fn the_slow_programs_agree_on_every_prefix(rt: HostRuntime) -> Result<(), Fail> {
    assert!(rt; agree_on_prefixes(&rt, PIECES)? && agree_on_prefixes(&rt, WHOLE)?);
    Ok(())
}

/// Texts between bars: good ones, ones that are cut, and ones with a byte that nothing may hold.
static TEXTS: &[u8] =
    b"|STIL|Ann x; // caf\xC3\xA9|a /* \xFF\n * / */ b|Ann\n{* \x00 } * *} '\n\"' \"'\"|\
STIL 1.0; Signals { a In;|STIL 1.0; }|\
W \"abc|a 'b\xFF|a /* b|/*/|a; Ann {* b } *|Ann {*}|/*/ Ann {*}|STIL 1.0; Signals { a In; \"b|\
abc\x7F|\n\x80 'a|'a\x01\x02' \x03";

/// The faults of these texts.
static FAULTS: [Option<LexFault>; 18] = [
    None,
    None,
    None,
    None,
    None,
    None,
    None,
    Some(LexFault::OpenQuote(2)),
    Some(LexFault::OpenQuote(2)),
    Some(LexFault::OpenComment(2)),
    Some(LexFault::OpenComment(0)),
    Some(LexFault::OpenComment(3)),
    Some(LexFault::OpenComment(0)),
    Some(LexFault::OpenComment(0)),
    Some(LexFault::OpenQuote(26)),
    Some(LexFault::BadByte(3)),
    Some(LexFault::BadByte(1)),
    Some(LexFault::BadByte(2)),
];

/// Whether the texts between bars have these faults, one by one, and both readers agree on each.
fn have_faults(rt: &HostRuntime, texts: &[u8], faults: &[Option<LexFault>]) -> Result<bool, Fail> {
    let mut left = faults.iter();
    for text in texts.split(|byte| *byte == b'|') {
        let Some(fault) = left.next() else {
            return Ok(false);
        };
        if text.len() > 1000 || lex(rt.alloc(), text).err() != *fault || !agree(rt, text)? {
            return Ok(false);
        }
    }
    Ok(left.next().is_none())
}

#[test]
fn texts_have_their_faults(rt: HostRuntime) -> Result<(), Fail> {
    assert!(rt; have_faults(&rt, TEXTS, &FAULTS)?);
    Ok(())
}
