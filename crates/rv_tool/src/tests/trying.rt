//! `trial`.

use super::programs::PROGRAM;
use super::{expect, shelf_with};
use std::test::Fail;

// The numbers are those of a simulator and a writer of records in another language.
#[test]
fn a_generated_program_is_tried(rt: HostRuntime) -> Result<(), Fail> {
    let mut shelf = shelf_with(&rt, &PROGRAM)?;
    expect(
        &rt,
        "trial 7 20000",
        &mut shelf,
        0,
        "trial number=7 size=20000 steps=23825 shards=24 accesses=79204 output=2380 bytes=1888858 record=d279e1d299e3b8ff accepted\n",
    )
}
