//! `explain`.

use super::programs::{PROGRAM, RECORD, spelled};
use super::{expect, shelf_with};
use std::test::Fail;

/// The first row of the record of `PROGRAM`.
pub const FIRST: &str = "\
step 0 pc 00010000 word 02a00513 addi x10, x0, 42
  slot 1 m00010000 02a00513@0 02a00513@1
  slot 7 x10 00000000@0 0000002a@7
";

/// Its last row, an exit with what x10 holds.
const LAST: &str = "\
step 2 pc 00010008 word 00000073 ecall
  slot 1 m00010008 00000073@0 00000073@33
  slot 2 x17 0000005d@23 0000005d@34
  slot 3 x10 0000002a@7 0000002a@35
";

#[test]
fn rows_are_listed(rt: HostRuntime) -> Result<(), Fail> {
    let mut shelf = shelf_with(&rt, &PROGRAM)?;
    shelf.put("record", &spelled(&rt, &RECORD)?)?;
    let listings = [
        ("explain record 0 1", FIRST),
        ("explain record 2 1", LAST),
        ("explain record 2 4096", LAST),
        ("explain record 3 1", ""),
        ("explain record 4294967295 4096", ""),
    ];
    for (line, rows) in listings {
        expect(&rt, line, &mut shelf, 0, rows)?;
    }
    Ok(())
}

#[test]
fn records_of_bad_form_are_not_listed(rt: HostRuntime) -> Result<(), Fail> {
    let mut shelf = shelf_with(&rt, &PROGRAM)?;
    let mut record = spelled(&rt, &RECORD)?;
    record.push(0)?;
    shelf.put("record", &record)?;
    expect(
        &rt,
        "explain record 0 1",
        &mut shelf,
        1,
        "refused shard=1 row=5 rule=27 Trailing\n",
    )?;
    for nth in 1..3 {
        shelf.plan_read(nth);
        expect(&rt, "explain record 0 1", &mut shelf, 5, "fault read\n")?;
    }
    Ok(())
}
