use part_lines::*;
use std::test::Fail;
use tester_types::Piece;

#[test]
fn lines_are_read_up_to_the_last_feed(rt: HostRuntime) -> Result<(), Fail> {
    let mut lines = Lines::new(b"one\n\ntwo");
    let first = lines.peek().ok_or("no line")?;
    assert!(rt; first == b"one".as_slice());
    lines.pass(first);
    let second = lines.peek().ok_or("no line")?;
    assert!(rt; second.is_empty());
    lines.pass(second);
    assert_eq!(rt; lines.number(), 3);
    assert_eq!(rt; lines.place(), 5);
    assert!(rt; lines.left() == b"two".as_slice());
    assert!(rt; lines.peek().is_none());
    Ok(())
}

#[test]
fn pieces_are_compared_as_they_print(rt: HostRuntime) {
    let pieces = [Piece::Text(b"die "), Piece::Name(b"a b"), Piece::Number(12)];
    assert!(rt; is_printed(b"die \"a b\"12", &pieces));
    assert!(rt; !is_printed(b"die a b12", &pieces));
    assert!(rt; !is_printed(b"die \"a b\"123", &pieces));
    assert!(rt; is_printed(b"-", &[Piece::Title(b"")]));
}
