//! Known texts, with what they are read as or why they are refused.

use pat_read::{BodyPlace, DataFault, read_body, vec_data};
use std::alloc::Global;
use std::test::Fail;
use stil_ast::{ItemRun, PatBody, StilKind, StilRefusal, VecItem, VecText, WordList};
use stil_lex::{TokenList, lex};
use stil_tree::forest;
use tester_types::Items;

/// The tokens of a short text.
fn tokens_of(alloc: Global, text: &[u8]) -> Option<TokenList> {
    if text.len() < 200 {
        lex(alloc, text).ok()
    } else {
        None
    }
}

/// The data that a short text spells; a text without tokens has no memory.
fn data_of(alloc: Global, text: &[u8]) -> Result<VecText, DataFault> {
    match tokens_of(alloc, text) {
        Some(tokens) => vec_data(alloc, text, tokens.as_slice()),
        None => Err(DataFault::NoMemory),
    }
}

/// Why a short text is no data.
fn data_fault(alloc: Global, text: &[u8]) -> Option<DataFault> {
    data_of(alloc, text).err()
}

#[test]
fn a_run_is_kept_once(rt: HostRuntime) -> Result<(), Fail> {
    let read = data_of(rt.alloc(), b"\\r3 X 1").map_err(|_| "data")?;
    let wanted = [
        ItemRun {
            item: VecItem::Character(b'X'),
            times: 3,
        },
        ItemRun {
            item: VecItem::Character(b'1'),
            times: 1,
        },
    ];
    assert!(rt; read.as_slice() == wanted.as_slice());
    Ok(())
}

#[test]
fn data_have_the_first_fault_from_the_left(rt: HostRuntime) {
    let rows: [(&[u8], DataFault); 14] = [
        (b"\\r3 X1", DataFault::Shape),
        (b"\\ r3 X", DataFault::Shape),
        (b"\\r3", DataFault::Shape),
        (b"\\r X", DataFault::Shape),
        (b"\\r3 _", DataFault::Shape),
        (b"\\r3 \"X\"", DataFault::Shape),
        (b"\\x3 X", DataFault::Shape),
        (b"0 'X'", DataFault::Shape),
        (b"x_y \\h0", DataFault::Shape),
        (b"\\h0 x_y", DataFault::LeftOut),
        (b"\\ w 1", DataFault::LeftOut),
        (b"\\r1048577", DataFault::Shape),
        (b"\\r1048577 X x_y", DataFault::OutOfRange),
        (b"x_y \\r1048577 X", DataFault::Shape),
    ];
    for (text, fault) in rows {
        assert!(rt; data_fault(rt.alloc(), text) == Some(fault), "{fault:?}");
    }
}

/// The words of UserKeywords statements in these tests.
fn words(alloc: Global) -> Option<WordList> {
    let mut words = Vec::new(alloc);
    for word in [b"note".as_slice(), b"W2", b"W3", b"W4", b"W5"] {
        words.push(Items::from_slice(alloc, word).ok()?).ok()?;
    }
    Some(Items::from_vec(words))
}

/// What a short text is read as.
fn read(alloc: Global, text: &[u8], place: BodyPlace) -> Option<Result<PatBody, StilRefusal>> {
    let tokens = tokens_of(alloc, text)?;
    let words = words(alloc)?;
    if tokens.len() >= 200 {
        return None;
    }
    let stmts = forest(alloc, tokens.as_slice()).ok()?;
    Some(read_body(alloc, text, tokens.as_slice(), &stmts, place, &words))
}

/// The kind and the line of a short text's fault.
fn fault_of(alloc: Global, text: &[u8], place: BodyPlace) -> Option<(StilKind, u32)> {
    match read(alloc, text, place)? {
        Err(StilRefusal::Fault(fault)) => Some((fault.kind, fault.line)),
        _ => None,
    }
}

/// How many statements a short text has at its top level.
fn count_of(alloc: Global, text: &[u8], place: BodyPlace) -> Option<usize> {
    match read(alloc, text, place)? {
        Ok(body) => Some(body.len()),
        Err(_) => None,
    }
}

#[test]
fn a_body_has_the_first_fault_in_text_order(rt: HostRuntime) {
    let rows: [(&[u8], StilKind, u32); 24] = [
        (b"\nGoto x;", StilKind::LeftOut, 2),
        (b"V { a=\\r3 X1; }", StilKind::Shape, 1),
        (b"V {\na=\\h0; }", StilKind::LeftOut, 2),
        (b"V { a=\\h0 { } }", StilKind::LeftOut, 1),
        (b"V { a=x_y { } }", StilKind::Shape, 1),
        (b"V { a[4294967296]=x_y; }", StilKind::Shape, 1),
        (b"V { a[4294967296]=0; }", StilKind::OutOfRange, 1),
        (b"V { 1a=0; }", StilKind::Shape, 1),
        (b"V { { } }", StilKind::Shape, 1),
        (b"V x { 1a=0; }", StilKind::Shape, 1),
        (b"Loop 0 x { }", StilKind::Shape, 1),
        (b"Loop 0 {\nGoto; }", StilKind::OutOfRange, 1),
        (b"Loop 2 {\nGoto; }\nV;", StilKind::LeftOut, 2),
        (b"Loop 2 {\nStop; }", StilKind::LeftOut, 2),
        (b"l:\nLoop 0 { }", StilKind::OutOfRange, 1),
        (b"\nl\n: V;", StilKind::Shape, 2),
        (b"k: l: V { }", StilKind::LeftOut, 1),
        (b"1l: V { }", StilKind::LeftOut, 1),
        (b"l: note;", StilKind::LeftOut, 1),
        (b"{ }", StilKind::LeftOut, 1),
        (b"\"V\" { }", StilKind::LeftOut, 1),
        (b"BreakPoint { }", StilKind::LeftOut, 1),
        (b"BreakPoint x { }", StilKind::Shape, 1),
        (b"W \"\";", StilKind::Shape, 1),
    ];
    for (text, kind, line) in rows {
        let fault = fault_of(rt.alloc(), text, BodyPlace::Pattern);
        assert!(rt; fault == Some((kind, line)), "{kind:?} at {line}");
    }
}

#[test]
fn a_body_has_all_statements_that_are_not_skipped(rt: HostRuntime) {
    let rows: [(&[u8], BodyPlace, usize); 6] = [
        (
            b"W w; V { a=0; b[1..0]=\\r2 #%; 'a+b'=01; } Stop;",
            BodyPlace::Pattern,
            3,
        ),
        (
            b"a: WaveformTable w; b: Vector { } c: Condition { } d: C { }",
            BodyPlace::Macro,
            4,
        ),
        (
            b"a: Loop 2 { V { } } b: Macro m; c: Call p { a=01; }",
            BodyPlace::Pattern,
            3,
        ),
        (
            b"a: Shift { V { a=#; } } b: BreakPoint; \"c\": IddqTestPoint;",
            BodyPlace::Procedure,
            3,
        ),
        (
            b"note { x; } W5: V; W2; V { note; } Loop 2 { note; }",
            BodyPlace::Pattern,
            2,
        ),
        (b"Macro m { note = x_y; W4 { } }", BodyPlace::Pattern, 1),
    ];
    for (text, place, count) in rows {
        assert!(rt; count_of(rt.alloc(), text, place) == Some(count), "{count}");
    }
}

/// The keyword and the name of the block of a short text's fault.
fn is_in(alloc: Global, text: &[u8], keyword: &[u8], name: &[u8]) -> bool {
    match read(alloc, text, BodyPlace::Macro) {
        Some(Err(StilRefusal::Fault(fault))) => {
            fault.block.as_slice() == keyword && fault.name.as_slice() == name
        }
        _ => false,
    }
}

#[test]
fn a_fault_names_its_top_level_statement(rt: HostRuntime) {
    let alloc = rt.alloc();
    assert!(rt; is_in(alloc, b"V { } Goto;", b"Goto", b""));
    assert!(rt; is_in(alloc, b"Goto \"x y\";", b"Goto", b"x y"));
    assert!(rt; is_in(alloc, b"Loop 2 { V { } Stop; }", b"Loop", b"2"));
}
