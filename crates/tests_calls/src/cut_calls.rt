//! Parts of plans as they are written.

use itoa::Buffer;
use plan_parts::{Sites, part_text, parts_needed};
use plan_rows::read_rows;
use std::alloc::{AllocError, Global};
use std::test::Fail;

/// A plan of a die at each of so many sites.
fn plan_of(alloc: Global, sites: u8) -> Result<Vec<u8>, AllocError> {
    let mut text = Vec::from_slice(alloc, b"lot,1,1,0,,\n")?;
    for site in 0..sites {
        let mut buffer = Buffer::new();
        text.extend_from_slice(b"die,")?;
        text.extend_from_slice(buffer.format(site).as_bytes())?;
        text.extend_from_slice(b",a,f,,\n")?;
    }
    Ok(text)
}

#[test]
fn quoted_names_stay_quoted(rt: HostRuntime) -> Result<(), Fail> {
    let plan = b"lot,4,1,0,,\ndie,7,a,\"x,\"\"\",,\ndie,3,b,f,,\nskew,3,q,-5,,\n";
    let first = part_text(rt.alloc(), plan, 2, 0)?;
    let second = part_text(rt.alloc(), plan, 2, 1)?;
    assert!(rt; first.as_slice() == b"lot,4,1,0,,\ndie,0,b,f,,\nskew,0,q,-5,,\n".as_slice());
    assert!(rt; second.as_slice() == b"lot,4,1,0,,\ndie,0,a,\"x,\"\"\",,\n".as_slice());
    Ok(())
}

#[test]
fn a_part_may_have_no_site(rt: HostRuntime) -> Result<(), Fail> {
    let plan = b"lot,4,1,0,,\nclock,ck,,,,\ndie,7,a,f,,\n";
    let empty = part_text(rt.alloc(), plan, 2, 1)?;
    assert!(rt; empty.as_slice() == b"lot,4,1,0,,\nclock,ck,,,,\n".as_slice());
    Ok(())
}

#[test]
fn seventeen_sites_need_two_parts(rt: HostRuntime) -> Result<(), Fail> {
    for sites in 15..18u8 {
        let text = plan_of(rt.alloc(), sites)?;
        assert!(rt; text.len() < 1_000);
        let rows = read_rows(rt.alloc(), text.as_slice())?;
        let list = Sites::of(rt.alloc(), &rows)?;
        assert_eq!(rt; list.len(), usize::from(sites));
        assert_eq!(rt; parts_needed(&rows), if sites > 16 { 2 } else { 1 });
    }
    Ok(())
}

#[test]
fn a_plan_without_dies_is_one_part(rt: HostRuntime) -> Result<(), Fail> {
    let rows = read_rows(rt.alloc(), b"lot,4,1,0,,\n")?;
    assert_eq!(rt; parts_needed(&rows), 1);
    Ok(())
}
