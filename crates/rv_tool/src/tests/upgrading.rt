//! `upgrade`.

use super::programs::{PROGRAM, RECORD, of_code, spelled};
use super::running::RESERVING;
use super::sweeping::fails_in_turn;
use super::{expect, shelf_with};
use std::test::Fail;

/// The line of the upgraded record of `PROGRAM`.
const UPGRADED: &str = "upgraded steps=3 bytes=719\n";

/// The line of the verdict on either record of `PROGRAM`.
const ACCEPTED: &str = "accepted steps=3 shards=1 end=0 code=42\n";

#[test]
fn the_record_of_version_2_differs_in_one_byte(rt: HostRuntime) -> Result<(), Fail> {
    let mut shelf = shelf_with(&rt, &PROGRAM)?;
    let mut record = spelled(&rt, &RECORD)?;
    shelf.put("record", &record)?;
    expect(&rt, "upgrade record target", &mut shelf, 0, UPGRADED)?;
    assert!(rt; shelf.file("record") == Some(record.as_slice()));
    *record.get_mut(7).ok_or("a short record")? = b'2';
    assert!(rt; shelf.file("target") == Some(record.as_slice()));
    expect(&rt, "check elf input target 1", &mut shelf, 0, ACCEPTED)?;
    let new = "fault version new\n";
    expect(&rt, "upgrade target other", &mut shelf, 10, new)?;
    // one name for both files is read before it is written
    expect(&rt, "upgrade record record", &mut shelf, 0, UPGRADED)?;
    assert!(rt; shelf.file("record") == Some(record.as_slice()));
    expect(&rt, "upgrade record record", &mut shelf, 10, new)?;
    assert!(rt; shelf.file("record") == Some(record.as_slice()));
    assert!(rt; shelf.file("other").is_none());
    Ok(())
}

#[test]
fn a_run_that_ends_at_an_illegal_word(rt: HostRuntime) -> Result<(), Fail> {
    // lui x5, 0x20, and lr.w x6, (x5), which ends it in version 1
    let mut shelf = shelf_with(&rt, &of_code(&rt, &RESERVING)?)?;
    for (line, status, printed) in [
        (
            "make elf input record 1 1 2",
            0,
            "made steps=2 shards=2 end=1 code=0 bytes=882\n",
        ),
        (
            "upgrade record target",
            10,
            "fault version atomic 1002a32f\n",
        ),
    ] {
        expect(&rt, line, &mut shelf, status, printed)?;
    }
    assert!(rt; shelf.file("target").is_none());
    // a word of neither version
    shelf.put("elf", &of_code(&rt, &[0, 0, 0, 0])?)?;
    for (line, printed) in [
        (
            "make elf input record 1 1 1",
            "made steps=1 shards=1 end=1 code=0 bytes=511\n",
        ),
        ("upgrade record target", "upgraded steps=1 bytes=511\n"),
        (
            "check elf input target 1",
            "accepted steps=1 shards=1 end=1 code=0\n",
        ),
    ] {
        expect(&rt, line, &mut shelf, 0, printed)?;
    }
    Ok(())
}

#[test]
fn form_alone_is_judged(rt: HostRuntime) -> Result<(), Fail> {
    let mut shelf = shelf_with(&rt, &PROGRAM)?;
    let mut record = spelled(&rt, &RECORD)?;
    // the first byte of the program's hash
    *record.get_mut(8).ok_or("a short record")? ^= 1;
    shelf.put("false", &record)?;
    record.push(0)?;
    shelf.put("longer", &record)?;
    for (line, status, printed) in [
        ("upgrade false target", 0, UPGRADED),
        (
            "check elf input target 1",
            1,
            "refused shard=0 row=0 rule=3 Program\n",
        ),
        (
            "upgrade longer other",
            1,
            "refused shard=1 row=5 rule=27 Trailing\n",
        ),
        (
            "upgrade elf other",
            1,
            "refused shard=0 row=0 rule=1 Short\n",
        ),
        ("upgrade absent other", 5, "fault read\n"),
    ] {
        expect(&rt, line, &mut shelf, status, printed)?;
    }
    assert!(rt; shelf.file("other").is_none());
    Ok(())
}

#[test]
fn each_call_of_an_upgrade_fails_in_turn(rt: HostRuntime) -> Result<(), Fail> {
    let mut due = spelled(&rt, &RECORD)?;
    *due.get_mut(7).ok_or("a short record")? = b'2';
    let files = [("record", spelled(&rt, &RECORD)?)];
    let case = ("upgrade record target", 1, 0, UPGRADED);
    fails_in_turn(&rt, &files, case, &[("target", &due)])
}
