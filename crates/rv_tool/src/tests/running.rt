//! `run` and `run2`.

use super::programs::{COUNT, of_code, spelled};
use super::{expect, shelf_with};
use std::test::Fail;

/// `write(1, ..)` of three bytes behind the code, and an exit with what it answers.
pub const GREETING: [u8; 35] = [
    0x13, 0x05, 0x10, 0x00, 0xB7, 0x05, 0x01, 0x00, 0x93, 0x85, 0x05, 0x02, 0x13, 0x06, 0x30, 0x00,
    0x93, 0x08, 0x00, 0x04, 0x73, 0x00, 0x00, 0x00, 0x93, 0x08, 0xD0, 0x05, 0x73, 0x00, 0x00, 0x00,
    0x68, 0x69, 0x0A,
];

/// lui x5, 0x20; lr.w x6, (x5); sc.w x7, x6, (x5)
pub const RESERVING: [u8; 12] = [
    0xB7, 0x02, 0x02, 0x00, 0x2F, 0xA3, 0x02, 0x10, 0xAF, 0xA3, 0x62, 0x18,
];

/// The same behind the instructions of `RESERVING`, of which version 1 has no second.
pub const RESERVING_GREETING: [u8; 47] = [
    0xB7, 0x02, 0x02, 0x00, 0x2F, 0xA3, 0x02, 0x10, 0xAF, 0xA3, 0x62, 0x18, 0x13, 0x05, 0x10, 0x00,
    0xB7, 0x05, 0x01, 0x00, 0x93, 0x85, 0xC5, 0x02, 0x13, 0x06, 0x30, 0x00, 0x93, 0x08, 0x00, 0x04,
    0x73, 0x00, 0x00, 0x00, 0x93, 0x08, 0xD0, 0x05, 0x73, 0x00, 0x00, 0x00, 0x68, 0x69, 0x0A,
];

/// The line of a run of `GREETING`.
pub const GREETED: &str = "ran steps=8 end=0 code=3 output=3\n";

#[test]
fn the_output_of_a_run_is_written(rt: HostRuntime) -> Result<(), Fail> {
    let mut shelf = shelf_with(&rt, &of_code(&rt, &GREETING)?)?;
    expect(&rt, "run elf input output 100", &mut shelf, 0, GREETED)?;
    assert_eq!(rt; shelf.file("output"), Some(b"hi\n".as_slice()));
    // the ending step counts
    expect(&rt, "run elf input output 8", &mut shelf, 0, GREETED)?;
    expect(
        &rt,
        "run elf input other 7",
        &mut shelf,
        4,
        "fault budget 7\n",
    )?;
    assert!(rt; shelf.file("other").is_none());
    // one name for all three files is read before it is written
    expect(&rt, "run elf elf elf 100", &mut shelf, 0, GREETED)?;
    assert_eq!(rt; shelf.file("elf"), Some(b"hi\n".as_slice()));
    Ok(())
}

#[test]
fn a_run_without_an_end(rt: HostRuntime) -> Result<(), Fail> {
    // jal x0, 0
    let mut shelf = shelf_with(&rt, &of_code(&rt, &[0x6F, 0, 0, 0])?)?;
    expect(
        &rt,
        "run elf input output 8388608",
        &mut shelf,
        4,
        "fault budget 8388608\n",
    )?;
    assert!(rt; shelf.file("output").is_none());
    Ok(())
}

#[test]
fn atomics_are_of_version_2(rt: HostRuntime) -> Result<(), Fail> {
    let mut shelf = shelf_with(&rt, &of_code(&rt, &RESERVING)?)?;
    expect(
        &rt,
        "run2 elf input output 4",
        &mut shelf,
        0,
        "ran steps=4 end=1 code=0 output=0\n",
    )?;
    assert_eq!(rt; shelf.file("output"), Some(b"".as_slice()));
    expect(
        &rt,
        "run elf input output 4",
        &mut shelf,
        0,
        "ran steps=2 end=1 code=0 output=0\n",
    )
}

#[test]
fn a_program_in_c(rt: HostRuntime) -> Result<(), Fail> {
    let mut shelf = shelf_with(&rt, &spelled(&rt, &COUNT)?)?;
    shelf.put(
        "input",
        b"It was the best of times,\nit was the worst of times.\n",
    )?;
    expect(
        &rt,
        "run elf input output 2000",
        &mut shelf,
        0,
        "ran steps=1038 end=0 code=0 output=8\n",
    )?;
    assert_eq!(rt; shelf.file("output"), Some(b"2 12 53\n".as_slice()));
    Ok(())
}
