//! The record and its shard size.

use super::programs::PROGRAM;
use super::{MADE, expect, shelf_with};
use std::test::Fail;

/// Of a run that fits in one shard, the shard size is a field of the record and nothing else.
#[test]
fn the_shard_size_is_told_and_no_more(rt: HostRuntime) -> Result<(), Fail> {
    let mut shelf = shelf_with(&rt, &PROGRAM)?;
    expect(&rt, "make elf input small 1 3 3", &mut shelf, 0, MADE)?;
    expect(&rt, "make elf input large 1 65536 3", &mut shelf, 0, MADE)?;
    let small = shelf.file("small").ok_or("no record")?;
    let large = shelf.file("large").ok_or("no record")?;
    assert_eq!(rt; small.get(136..140), Some([3, 0, 0, 0].as_slice()));
    assert_eq!(rt; large.get(136..140), Some([0, 0, 1, 0].as_slice()));
    assert!(rt; small.get(..136).is_some() && small.get(..136) == large.get(..136));
    assert!(rt; small.get(140..).is_some() && small.get(140..) == large.get(140..));
    Ok(())
}
