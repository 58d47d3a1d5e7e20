//! Values that no clause names: printed names, and the objects in memory in each of their ways.

use std::test::Fail;
use tester_types::{
    Ask, Desk, Items, ListDesk, MemShelf, MemSink, Piece, Record, RecordList, Shelf, ShelfFault,
    Sink, put_all, put_each,
};

#[test]
fn one_byte_a_put_and_a_fault_at_the_second_leave_one_byte(rt: HostRuntime) -> Result<(), Fail> {
    let failing = vec![in rt.alloc(); 2]?;
    let mut sink = MemSink::new(rt.alloc(), 64, 1, failing, Vec::new(rt.alloc()))?;
    assert!(rt; put_all(&mut sink, b"exec 0 -\n").is_err());
    assert_eq!(rt; sink.bytes(), b"e".as_slice());
    Ok(())
}

#[test]
fn a_put_that_takes_nothing_ends_the_text(rt: HostRuntime) -> Result<(), Fail> {
    let empty = vec![in rt.alloc(); 2]?;
    let mut sink = MemSink::new(rt.alloc(), 64, 3, Vec::new(rt.alloc()), empty)?;
    assert!(rt; put_all(&mut sink, b"usage").is_err());
    assert_eq!(rt; sink.bytes(), b"usa".as_slice());
    Ok(())
}

#[test]
fn a_sink_without_room_fails_and_an_empty_piece_fits(rt: HostRuntime) -> Result<(), Fail> {
    let mut sink = MemSink::new(rt.alloc(), 4, 9, Vec::new(rt.alloc()), Vec::new(rt.alloc()))?;
    assert_eq!(rt; sink.put(b"usage").ok().unwrap_or(0), 4);
    assert!(rt; sink.put(b"e").is_err());
    assert!(rt; sink.put(b"").is_ok());
    assert_eq!(rt; sink.bytes(), b"usag".as_slice());
    Ok(())
}

#[test]
fn names_are_bare_quoted_or_a_dash(rt: HostRuntime) -> Result<(), Fail> {
    let mut sink = MemSink::new(
        rt.alloc(),
        99,
        99,
        Vec::new(rt.alloc()),
        Vec::new(rt.alloc()),
    )?;
    let line = [
        Piece::Name(b"clk[0]"),
        Piece::Text(b" "),
        Piece::Name(b"a b"),
        Piece::Text(b" "),
        Piece::Name(b""),
        Piece::Text(b" "),
        Piece::Title(b""),
        Piece::Text(b" "),
        Piece::Number(340282366920938463463374607431768211455),
    ];
    assert!(rt; put_each(&mut sink, &line).is_ok());
    let want = b"clk[0] \"a b\" \"\" - 340282366920938463463374607431768211455";
    assert_eq!(rt; sink.bytes(), want.as_slice());
    Ok(())
}

#[test]
fn a_shelf_hands_out_the_first_of_a_name_where_there_is_room(rt: HostRuntime) -> Result<(), Fail> {
    let mut files = Vec::new(rt.alloc());
    files.push((
        String::from_str(rt.alloc(), "p")?,
        Vec::from_slice(rt.alloc(), b"abc")?,
    ))?;
    files.push((String::from_str(rt.alloc(), "p")?, Vec::new(rt.alloc())))?;
    let mut shelf = MemShelf::new(files, vec![in rt.alloc(); 1]?);
    assert!(rt; matches!(shelf.load(rt.alloc(), "p", 3), Err(ShelfFault::Failed)));
    let bytes = shelf
        .load(rt.alloc(), "p", 3)
        .map_err(|_| "the second load")?;
    assert_eq!(rt; bytes.as_slice(), b"abc".as_slice());
    assert!(rt; matches!(shelf.load(rt.alloc(), "p", 2), Err(ShelfFault::TooLong)));
    assert!(rt; matches!(shelf.load(rt.alloc(), "q", 2), Err(ShelfFault::Failed)));
    Ok(())
}

#[test]
fn a_desk_answers_its_list_and_then_nothing(rt: HostRuntime) -> Result<(), Fail> {
    let mut desk = ListDesk::new(vec![in rt.alloc(); Ask::Stop(1)]?);
    assert_eq!(rt; desk.next(), Ask::Stop(1));
    assert_eq!(rt; desk.next(), Ask::Nothing);
    Ok(())
}

#[test]
fn a_record_is_filed_in_a_place_that_was_reserved(rt: HostRuntime) -> Result<(), Fail> {
    let mut list = RecordList::new(rt.alloc(), 2)?;
    list.file(Record {
        site: 1,
        die: 4,
        trials: Items::from_vec(Vec::new(rt.alloc())),
    });
    assert_eq!(rt; list.spare(), 1);
    assert_eq!(rt; list.as_slice().len(), 1);
    Ok(())
}
