//! Numbers written down by hand, and each constructor once.

use crate::{Bytes, Text, get16, get32, get64, set16, set32, set64, time_of};
use std::test::Fail;

#[test]
fn numbers_lie_least_significant_byte_first(rt: HostRuntime) {
    let mut bytes = [0xEE; 16];
    set16(&mut bytes, 1, 0x0102);
    set32(&mut bytes, 3, 0x0304_0506);
    set64(&mut bytes, 7, 0x0708_090A_0B0C_0D0E);
    let written = [
        0xEE, 2, 1, 6, 5, 4, 3, 0x0E, 0x0D, 0x0C, 0x0B, 0x0A, 9, 8, 7, 0xEE,
    ];
    assert_eq!(rt; bytes, written);
    assert_eq!(rt; get16(&bytes, 1), 0x0102);
    assert_eq!(rt; get32(&bytes, 3), 0x0304_0506);
    assert_eq!(rt; get64(&bytes, 7), 0x0708_090A_0B0C_0D0E);
    assert_eq!(rt; time_of(3, 5), 53);
}

#[test]
fn lists_and_texts_keep_what_they_are_given(rt: HostRuntime) -> Result<(), Fail> {
    let bytes = Bytes::of(vec![in rt.alloc(); 1, 2, 3]?);
    assert_eq!(rt; bytes.list(), [1, 2, 3].as_slice());
    let text = Text::of(String::from_str(rt.alloc(), "made")?);
    assert_eq!(rt; text.text(), "made");
    Ok(())
}
