//! Known texts that are read.

use std::alloc::Global;
use stil_ast::{Blocks, StilRefusal};
use stil_lex::lex;
use stil_read::read_blocks;
use stil_tree::forest;

/// What a short text is read as.
fn read(alloc: Global, text: &[u8]) -> Option<Result<Blocks, StilRefusal>> {
    if text.len() >= 4000 {
        return None;
    }
    let tokens = lex(alloc, text).ok()?;
    if tokens.len() >= 4000 {
        return None;
    }
    let stmts = forest(alloc, tokens.as_slice()).ok()?;
    Some(read_blocks(alloc, text, tokens.as_slice(), &stmts))
}

/// A header with a text behind it.
fn with_header(alloc: Global, text: &[u8]) -> Option<Vec<u8>> {
    let mut whole = Vec::new(alloc);
    whole.extend_from_slice(b"STIL 1.0; ").ok()?;
    whole.extend_from_slice(text).ok()?;
    Some(whole)
}

/// Whether a short text has blocks, behind a header and before an executive.
fn is_read(alloc: Global, text: &[u8]) -> Option<bool> {
    let mut whole = with_header(alloc, text)?;
    whole
        .extend_from_slice(b" PatternExec { PatternBurst b; }")
        .ok()?;
    Some(read(alloc, whole.as_slice())?.is_ok())
}

/// Texts that are read, behind a header and before an executive.
static READ: [&[u8]; 18] = [
    b"",
    b"PatternExec e { PatternBurst \"b\"; }",
    b"Header { Title 'x'; } UserFunctions any 'x'; PatternExec \"\" { PatternBurst b; }",
    b"UserKeywords Any STIL; Any { 1; } STIL; PatternExec { Any 1; PatternBurst b; }",
    b"Signals { a In; \"b c\" Out { x; } d[3..0] InOut; } Signals { e Pseudo; f Supply; }",
    b"SignalGroups { g = 'a'; } SignalGroups x { h = 'g+b' { x; } }",
    b"Spec { Category c { v = '1ns'; w { Min '1'; Typ '2'; Max '3'; Meas '4'; } } } PatternExec { Category c; Category d; PatternBurst b; }",
    b"Spec s { } Spec s { } Selector s { v Min; w Typ; x Max; y Meas; } PatternExec { Selector s; PatternBurst b; }",
    b"Timing { WaveformTable w { } } Timing t { WaveformTable w { } } PatternExec { Timing \"\"; PatternBurst b; }",
    b"Timing t { WaveformTable w { Period '1ns'; InheritWaveformTable v; Waveforms { 'a+b' { 01 { '0ns' D/ForceUp; } } a[1] { z { '0' x; } } } } }",
    b"ScanStructures { ScanChain c { ScanLength 2; ScanIn a; ScanOut b; ScanCells c ! d[1..0]; ScanInversion 0; Any; } ScanChain c { } }",
    b"MacroDefs { m { W w; V { a=\\r2 #; } } } MacroDefs n { m { } }",
    b"Procedures { m { Shift { V { a=#; } } } } MacroDefs { m { } }",
    b"PatternBurst b { SignalGroups g; SignalGroups h; MacroDefs m; Procedures \"\"; ScanStructures s; PatList { p; q { } } PatList { r; } }",
    b"PatternExec { PatternBurst b; }",
    b"Pattern p { l: W w; V { 'a+b'=01; c[1..0]=%; } Loop 2 { C { } } Stop; }",
    b"Pattern p { Macro m; Call q { a=0; } BreakPoint; IddqTestPoint; }",
    b"Pattern p { } PatternBurst p { } Selector p { }",
];

#[test]
fn every_place_is_read(rt: HostRuntime) {
    for text in READ {
        assert!(rt; is_read(rt.alloc(), text) == Some(true));
    }
}
