//! `check` and `settle`.

use super::programs::{PROGRAM, RECORD, of_code, spelled};
use super::running::RESERVING;
use super::{expect, expect_by_team, shelf_with};
use rv_host::MemShelf;
use std::process::Abort;
use std::sync::Wait;
use std::test::Fail;
use std::thread::Threads;

/// The line of an accepted record of `PROGRAM`.
const ACCEPTED: &str = "accepted steps=3 shards=1 end=0 code=42\n";

/// Checks the record by one worker and by several, and compares what each tells.
fn expect_verdict<R: Abort + AllocGlobal + Threads + Wait + Sync>(
    rt: &R,
    shelf: &mut MemShelf,
    status: u8,
    printed: &str,
) -> Result<(), Fail> {
    expect(rt, "check elf input record 1", shelf, status, printed)?;
    for line in ["check elf input record 2", "check elf input record 64"] {
        expect_by_team(rt, line, shelf, status, printed)?;
    }
    Ok(())
}

#[test]
fn the_first_record_is_accepted_and_settled(rt: HostRuntime) -> Result<(), Fail> {
    let mut shelf = shelf_with(&rt, &PROGRAM)?;
    shelf.put("record", &spelled(&rt, &RECORD)?)?;
    expect_verdict(&rt, &mut shelf, 0, ACCEPTED)?;
    expect(
        &rt,
        "settle elf input record",
        &mut shelf,
        0,
        "settled run steps=3\n",
    )?;
    // also where each read gives one byte
    shelf.limit_read(1);
    expect(&rt, "check elf input record 1", &mut shelf, 0, ACCEPTED)
}

#[test]
fn what_is_made_is_accepted(rt: HostRuntime) -> Result<(), Fail> {
    let mut shelf = shelf_with(&rt, &PROGRAM)?;
    expect(
        &rt,
        "make elf input record 1 1 3",
        &mut shelf,
        0,
        "made steps=3 shards=3 end=0 code=42 bytes=1295\n",
    )?;
    expect_verdict(
        &rt,
        &mut shelf,
        0,
        "accepted steps=3 shards=3 end=0 code=42\n",
    )?;
    shelf.put("elf", &of_code(&rt, &RESERVING)?)?;
    expect(
        &rt,
        "make2 elf input record 1 4 4",
        &mut shelf,
        0,
        "made steps=4 shards=1 end=1 code=0 bytes=939\n",
    )?;
    expect(
        &rt,
        "check elf input record 1",
        &mut shelf,
        0,
        "accepted steps=4 shards=1 end=1 code=0\n",
    )?;
    expect(
        &rt,
        "settle elf input record",
        &mut shelf,
        0,
        "settled run steps=4\n",
    )
}

#[test]
fn records_that_are_refused(rt: HostRuntime) -> Result<(), Fail> {
    let record = spelled(&rt, &RECORD)?;
    let mut longer = record.clone()?;
    longer.push(0)?;
    let mut shelf = shelf_with(&rt, &PROGRAM)?;
    let files = [
        (
            record.get(..718).unwrap_or(&[]),
            "refused shard=1 row=4 rule=1 Short\n",
        ),
        (
            longer.as_slice(),
            "refused shard=1 row=5 rule=27 Trailing\n",
        ),
        (
            record.get(..0).unwrap_or(&[]),
            "refused shard=0 row=0 rule=1 Short\n",
        ),
    ];
    for (bytes, line) in files {
        shelf.put("record", bytes)?;
        expect_verdict(&rt, &mut shelf, 1, line)?;
        expect(&rt, "settle elf input record", &mut shelf, 1, line)?;
    }
    shelf.put("record", &record)?;
    shelf.put("input", &[0])?;
    expect_verdict(&rt, &mut shelf, 1, "refused shard=0 row=0 rule=4 Input\n")
}

#[test]
fn the_earliest_place_is_told(rt: HostRuntime) -> Result<(), Fail> {
    let mut shelf = shelf_with(&rt, &PROGRAM)?;
    expect(
        &rt,
        "make elf input record 1 1 3",
        &mut shelf,
        0,
        "made steps=3 shards=3 end=0 code=42 bytes=1295\n",
    )?;
    let mut record = Vec::new(rt.alloc());
    record.extend_from_slice(shelf.file("record").ok_or("no record")?)?;
    // the shards begin at 173, 512 and 851
    let changed = [
        // the pc of the last row
        (883, "refused shard=2 row=0 rule=11 Pc\n"),
        // the index of the second shard
        (512, "refused shard=1 row=0 rule=9 ShardHead\n"),
        // the stated bytes of the first shard's row, which then end outside of the file
        (203, "refused shard=0 row=1 rule=20 RowBytes\n"),
    ];
    for (at, line) in changed {
        *record.get_mut(at).ok_or("short")? = 255;
        shelf.put("record", &record)?;
        expect_verdict(&rt, &mut shelf, 1, line)?;
    }
    Ok(())
}

#[test]
fn a_decided_record_is_read_no_further(rt: HostRuntime) -> Result<(), Fail> {
    let mut record = spelled(&rt, &RECORD)?;
    record.clear();
    record.resize(70_000, 0)?;
    let mut shelf = shelf_with(&rt, &PROGRAM)?;
    shelf.put("record", &record)?;
    // the first read of the record is the fourth in all
    shelf.plan_read(5);
    expect(
        &rt,
        "check elf input record 1",
        &mut shelf,
        1,
        "refused shard=0 row=0 rule=2 Magic\n",
    )
}

#[test]
fn each_read_that_fails(rt: HostRuntime) -> Result<(), Fail> {
    let record = spelled(&rt, &RECORD)?;
    for nth in 1..6 {
        let mut shelf = shelf_with(&rt, &PROGRAM)?;
        shelf.put("record", &record)?;
        shelf.plan_read(nth);
        expect(
            &rt,
            "check elf input record 1",
            &mut shelf,
            5,
            "fault read\n",
        )?;
        let mut shelf = shelf_with(&rt, &PROGRAM)?;
        shelf.put("record", &record)?;
        shelf.plan_read(nth);
        expect_by_team(
            &rt,
            "check elf input record 2",
            &mut shelf,
            5,
            "fault read\n",
        )?;
    }
    Ok(())
}
