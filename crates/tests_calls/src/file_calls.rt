//! The shelf, the sink and the desk, each once.

use host_files::{FileDesk, FileShelf, WriterSink};
use std::io::BufWriter;
use std::test::Fail;
use std::{fs, io};
use tester_types::{Ask, Desk, Shelf, ShelfFault, Sink};

#[test]
fn a_file_is_read_within_its_room(rt: HostRuntime) -> Result<(), Fail> {
    fs::write(&rt, "short_shelf.tmp", "abc")?;
    let mut shelf = FileShelf::new(&rt);
    let bytes = shelf
        .load(rt.alloc(), "short_shelf.tmp", 3)
        .map_err(|_| "a load")?;
    assert_eq!(rt; bytes.as_slice(), b"abc".as_slice());
    assert!(rt;
        matches!(
            shelf.load(rt.alloc(), "short_shelf.tmp", 2),
            Err(ShelfFault::TooLong)
        )
    );
    assert!(rt;
        matches!(
            shelf.load(rt.alloc(), "no_such_file.tmp", 2),
            Err(ShelfFault::Failed)
        )
    );
    fs::remove_file(&rt, "short_shelf.tmp")?;
    Ok(())
}

#[test]
fn a_file_of_a_mebibyte_is_read(rt: HostRuntime) -> Result<(), Fail> {
    let text = "V".repeat(rt.alloc(), 1_048_576)?;
    fs::write(&rt, "long_shelf.tmp", text.as_str())?;
    let mut shelf = FileShelf::new(&rt);
    let bytes = shelf
        .load(rt.alloc(), "long_shelf.tmp", 1_048_576)
        .map_err(|_| "a load")?;
    assert_eq!(rt; bytes.len(), 1_048_576);
    fs::remove_file(&rt, "long_shelf.tmp")?;
    Ok(())
}

#[test]
fn what_is_held_back_is_written_at_the_end(rt: HostRuntime) -> Result<(), Fail> {
    let writer = BufWriter::with_capacity(rt.alloc(), 8, io::writer(&rt))?;
    let mut sink = WriterSink::new(writer);
    assert_eq!(rt; sink.put(b"\n").map_err(|_| "a put")?, 1);
    assert!(rt; sink.finish().is_ok());
    Ok(())
}

#[test]
fn a_stop_is_said_once(rt: HostRuntime) -> Result<(), Fail> {
    let mut desk = FileDesk::new(&rt);
    assert_eq!(rt; desk.next(), Ask::Nothing);
    fs::write(&rt, "stop.3", "")?;
    let mut said = 0u64;
    for _ in 0..40u64 {
        match desk.next() {
            Ask::Stop(3) => said = said.saturating_add(1),
            Ask::Stop(_) => said = said.saturating_add(100),
            Ask::Nothing => {}
        }
    }
    fs::remove_file(&rt, "stop.3")?;
    assert_eq!(rt; said, 1);
    Ok(())
}
