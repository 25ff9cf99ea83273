use super::*;
use rv_base::Access;
use std::process::Abort;
use std::test::Fail;

/// The last row of the worked program: `ecall` with x17 = 93 and x10 = 42.
const BYTES: [u8; 72] = [
    0x08, 0, 1, 0, 0x08, 0, 1, 0, 3, // pc, next, accesses
    1, 0x02, 0x40, 0, 0, 0x73, 0, 0, 0, 0, 0, 0, 0, 0, 0, 0, 0, 0x73, 0, 0, 0, // the fetch
    2, 0x11, 0, 0, 0x40, 93, 0, 0, 0, 23, 0, 0, 0, 0, 0, 0, 0, 93, 0, 0, 0, // x17
    3, 0x0A, 0, 0, 0x40, 42, 0, 0, 0, 7, 0, 0, 0, 0, 0, 0, 0, 42, 0, 0, 0, // x10
];

#[test]
fn a_row_is_read_and_written(rt: HostRuntime) -> Result<(), Fail> {
    let wanted = [
        Access {
            slot: 1,
            cell: 0x4002,
            old: 0x73,
            prev: 0,
            new: 0x73,
        },
        Access {
            slot: 2,
            cell: 0x40000011,
            old: 93,
            prev: 23,
            new: 93,
        },
        Access {
            slot: 3,
            cell: 0x4000000A,
            old: 42,
            prev: 7,
            new: 42,
        },
    ];
    match read_row(&BYTES) {
        RowRead::Row(row, length) => {
            assert_eq!(rt; length, 72);
            assert_eq!(rt; row.pc, 0x10008);
            assert_eq!(rt; row.next, 0x10008);
            assert_eq!(rt; row.accesses.as_slice(), wanted.as_slice());
            assert!(rt; !row.accesses.is_empty());
            let mut to = [7].to_vec(rt.alloc())?;
            assert_eq!(rt; write_row(&row, &mut to), Ok(()));
            assert_eq!(rt; &to[1..], BYTES.as_slice());
        }
        _ => rt.panic("no row"),
    }
    one_row();
    Ok(())
}

#[test]
fn a_row_is_read_in_place_of_a_longer_one(rt: HostRuntime) {
    let mut row = no_row();
    assert_eq!(rt; read_row_into(&BYTES, &mut row), RowFound::Row(72));
    assert_eq!(rt; row.accesses.len(), 3);
    let mut fewer = BYTES;
    fewer[8] = 1;
    assert_eq!(rt; read_row_into(&fewer, &mut row), RowFound::Row(30));
    assert_eq!(rt; row.accesses.len(), 1);
    assert_eq!(rt; read_row_into(&BYTES[..71], &mut row), RowFound::Short);
    assert_eq!(rt; row.accesses.len(), 1);
}

#[test]
fn what_is_no_row(rt: HostRuntime) {
    let mut bytes = [0u8; 256];
    for (count, length, is_shape) in [
        (1u8, 8u8, false),
        (0, 9, true),
        (9, 9, true),
        (9, 198, true),
        (1, 9, false),
        (1, 29, false),
        (8, 176, false),
    ] {
        bytes[8] = count;
        let answer = read_row(&bytes[..length as usize]);
        let wanted = if is_shape {
            RowRead::Shape
        } else {
            RowRead::Short
        };
        assert_eq!(rt; answer, wanted, "{count} accesses in {length} bytes");
    }
}
