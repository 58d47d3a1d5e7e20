//! What no contract says: that calls succeed, and that a tree may cross threads.

use flat_tree::*;
use std::alloc::{AllocError, Global};
use std::test::Fail;

/// Takes only types that may be moved to and shared between threads.
fn crosses_threads<T: Send + Sync>() {}

#[test]
fn trees_may_cross_threads() {
    crosses_threads::<FlatList>();
}

/// A letter for each item at the top of a tree.
fn letters(alloc: Global, tree: &FlatList) -> Result<Vec<u8>, AllocError> {
    let mut letters = Vec::new(alloc);
    for item in tree.steps() {
        letters.push(match item {
            FlatItem::Table(_) => b'T',
            FlatItem::Character(_, character) => character,
            FlatItem::Back(_) => b'B',
            FlatItem::Cycle(_, _) => b'V',
            FlatItem::Repeat(_, _) => b'L',
            FlatItem::Save(_, _) => b'S',
        })?;
    }
    Ok(letters)
}

/// Two tables, a character, and others of the same signal and of another one; then a vector.
fn vector(alloc: Global) -> Result<FlatList, AllocError> {
    let mut tree = FlatList::new(alloc);
    tree.push_table(0)?;
    tree.push_character(0, b'a')?;
    tree.push_character(1, b'b')?;
    tree.push_table(1)?;
    tree.push_back(0)?;
    tree.push_character(1, b'c')?;
    tree.push_cycle(
        0,
        Origin {
            body: BodyKind::Pattern,
            line: 7,
        },
    )?;
    Ok(tree)
}

#[test]
fn only_the_last_assignments_stay(rt: HostRuntime) -> Result<(), Fail> {
    let mut tree = vector(rt.alloc())?;
    tree.push_repeat(1000, vector(rt.alloc())?)?;
    tree.push_save(true, vector(rt.alloc())?)?;
    tree.append(vector(rt.alloc())?)?;
    let lean = tree.only_last(rt.alloc(), 2)?;
    let letters = letters(rt.alloc(), &lean)?;
    assert_eq!(rt; letters.as_slice(), b"TBcVLSTBcV".as_slice());
    assert_eq!(rt; lean.measure(), 7);
    Ok(())
}

#[test]
fn calls_leave_their_vectors_and_loops(rt: HostRuntime) -> Result<(), Fail> {
    let mut looped = FlatList::new(rt.alloc());
    looped.push_table(0)?;
    let mut called = FlatList::new(rt.alloc());
    called.push_repeat(1000, looped)?;
    called.push_back(0)?;
    let mut set = FlatList::new(rt.alloc());
    set.push_table(0)?;
    let mut tree = FlatList::new(rt.alloc());
    tree.push_call(set)?;
    assert!(rt; tree.is_empty());
    tree.push_call(called)?;
    tree.push_call(vector(rt.alloc())?)?;
    let letters = letters(rt.alloc(), &tree)?;
    assert_eq!(rt; letters.as_slice(), b"LS".as_slice());
    assert_eq!(rt; tree.measure(), 3);
    Ok(())
}
