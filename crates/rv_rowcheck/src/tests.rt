//! Worked rows, and rows with one thing changed.

use super::*;
use arrayvec::ArrayVec;
use rv_base::rules::{CELL, END_OTHER, ENDS_EARLY, NEXT, OUTPUT_BYTE, PC, SLOT, TIME_ORDER, VALUE};
use rv_base::{Access, End, Place};
use rv_row::Row;
use std::process::Abort;

/// A row of a record, the place before it, and what the file states.
#[derive(Drop)]
struct Case {
    version: u8,
    row: Row,
    step: u64,
    place: Place,
    last: Option<End>,
    input: &'static [u8],
    output: &'static [u8],
}

fn access(slot: u8, cell: u32, old: u32, prev: u64, new: u32) -> Access {
    Access {
        slot,
        cell,
        old,
        prev,
        new,
    }
}

/// An access that leaves what it finds.
fn read(slot: u8, cell: u32, value: u32, prev: u64) -> Access {
    access(slot, cell, value, prev, value)
}

/// A row in a version 1 file without input and output, that isn't the last.
fn at(step: u64, pc: u32, next: u32, list: &[Access]) -> Case {
    let mut accesses = ArrayVec::new();
    for access in list {
        let _ = accesses.try_push(*access);
    }
    Case {
        version: 1,
        row: Row { pc, next, accesses },
        step,
        place: Place {
            pc,
            input: 0,
            output: 0,
        },
        last: None,
        input: &[],
        output: &[],
    }
}

/// What a row is answered, or nothing where the call's conditions don't hold.
fn answer(case: &Case) -> Option<Result<Place, u8>> {
    let is_placed = case.place.pc % 4 == 0
        && case.place.input <= case.input.len() as u64
        && case.place.output <= case.output.len() as u64;
    if is_placed && case.step < 1 << 32 && (case.version == 1 || case.version == 2) {
        Some(check_row(
            case.version,
            &case.row,
            case.step,
            case.place,
            case.last,
            case.input,
            case.output,
        ))
    } else {
        None
    }
}

/// `addi x10, x0, 42`.
fn loads_42() -> [Access; 2] {
    [
        read(1, 0x4000, 0x02A0_0513, 0),
        access(7, 0x4000_000A, 0, 0, 42),
    ]
}

/// `ecall`, which exits with 42.
fn exits() -> [Access; 3] {
    [
        read(1, 0x4002, 0x73, 0),
        read(2, 0x4000_0011, 93, 23),
        read(3, 0x4000_000A, 42, 7),
    ]
}

/// `ecall`, which writes `hi` and a newline to standard output.
fn writes() -> [Access; 7] {
    [
        read(1, 0x4005, 0x73, 0),
        read(2, 0x4000_0011, 64, 71),
        read(3, 0x4000_000A, 1, 7),
        read(4, 0x4000_000B, 0x10020, 39),
        read(5, 0x4000_000C, 3, 55),
        read(6, 0x4008, 0x000A_6968, 0),
        access(7, 0x4000_000A, 1, 83, 3),
    ]
}

/// The row of that `ecall` with these accesses, in a file that states what it writes.
fn hello(accesses: &[Access]) -> Case {
    Case {
        output: &[0x68, 0x69, 0x0A],
        ..at(5, 0x10014, 0x10018, accesses)
    }
}

/// `sc.w x7, x6, (x5)`, where the word is reserved.
fn stores_conditionally() -> [Access; 6] {
    [
        read(1, 0x4002, 0x1862_A3AF, 0),
        read(2, 0x4000_0005, 0x20000, 18),
        read(3, 0x4000_0006, 0, 23),
        read(6, 0x8000, 0, 22),
        read(7, 0x4000_0007, 0, 0),
        access(8, 0x4000_0020, 0x20001, 24, 0),
    ]
}

const EXIT_42: End = End { kind: 0, code: 42 };

#[test]
fn worked_rows(rt: HostRuntime) {
    let doubles = [
        read(1, 0x4000, 0x0021_0133, 0),
        read(2, 0x4000_0002, 0x7FFF_F000, 0),
        read(3, 0x4000_0002, 0x7FFF_F000, 2),
        access(7, 0x4000_0002, 0x7FFF_F000, 3, 0xFFFF_E000),
    ];
    let overwrites_itself = [
        read(1, 0x4001, 0x0062_A223, 0),
        read(2, 0x4000_0005, 0x10000, 7),
        read(3, 0x4000_0006, 0, 0),
        access(6, 0x4001, 0x0062_A223, 17, 0),
    ];
    let jumps_misaligned = [read(1, 0x4000, 0x0020_00E7, 0)];
    let reads_a_byte = [
        read(1, 0x4005, 0x73, 0),
        read(2, 0x4000_0011, 63, 55),
        read(3, 0x4000_000A, 0, 71),
        read(4, 0x4000_000B, 0x20003, 23),
        read(5, 0x4000_000C, 10, 39),
        access(6, 0x8000, 0, 0, 0x4100_0000),
        access(7, 0x4000_000A, 0, 83, 1),
    ];
    let reads_at_the_end = [
        read(1, 0x4009, 0x73, 0),
        read(2, 0x4000_0011, 63, 114),
        read(3, 0x4000_000A, 0, 135),
        read(4, 0x4000_000B, 0x20003, 116),
        read(5, 0x4000_000C, 10, 117),
        read(7, 0x4000_000A, 0, 147),
    ];
    let writes_to_error = [
        read(1, 0x4003, 0x73, 0),
        read(2, 0x4000_0011, 64, 39),
        read(3, 0x4000_000A, 2, 7),
        read(4, 0x4000_000B, 0, 0),
        read(5, 0x4000_000C, 9, 23),
        access(7, 0x4000_000A, 2, 51, 9),
    ];
    let (loads_42, exits, writes) = (loads_42(), exits(), writes());
    let stores_conditionally = stores_conditionally();
    for (case, input, output) in [
        (at(0, 0x10000, 0x10004, &loads_42), 0, 0),
        (
            Case {
                last: Some(EXIT_42),
                ..at(2, 0x10008, 0x10008, &exits)
            },
            0,
            0,
        ),
        (at(0, 0x10000, 0x10004, &doubles), 0, 0),
        (at(1, 0x10004, 0x10008, &overwrites_itself), 0, 0),
        (
            Case {
                last: Some(End { kind: 3, code: 0 }),
                ..at(0, 0x10000, 0x10000, &jumps_misaligned)
            },
            0,
            0,
        ),
        (
            Case {
                input: &[0x41, 0x42],
                ..at(5, 0x10014, 0x10018, &reads_a_byte)
            },
            1,
            0,
        ),
        (
            Case {
                input: &[0x41, 0x42],
                place: Place {
                    pc: 0x10024,
                    input: 2,
                    output: 0,
                },
                ..at(9, 0x10024, 0x10028, &reads_at_the_end)
            },
            2,
            0,
        ),
        (hello(&writes), 0, 3),
        (at(3, 0x1000C, 0x10010, &writes_to_error), 0, 0),
        (
            Case {
                version: 2,
                ..at(2, 0x10008, 0x1000C, &stores_conditionally)
            },
            0,
            0,
        ),
    ] {
        let wanted = Place {
            pc: case.row.next,
            input,
            output,
        };
        assert_eq!(rt;
            answer(&case),
            Some(Ok(wanted)),
            "step {} at {}",
            case.step,
            case.place.pc
        );
    }
}

/// The accesses of the writing row with one changed.
fn with(index: usize, change: Access) -> [Access; 7] {
    let mut accesses = writes();
    if index < accesses.len() {
        accesses[index] = change;
    }
    accesses
}

#[test]
fn rows_that_break_a_rule(rt: HostRuntime) {
    let (loads_42, exits, writes) = (loads_42(), exits(), writes());
    let stores_conditionally = stores_conditionally();
    let slot = with(6, access(8, 0x4000_000A, 1, 83, 3));
    let slot_and_cell = with(6, access(8, 0x4000_000B, 1, 83, 3));
    let cell = with(0, read(1, 0x4006, 0x73, 0));
    let changes_by_reading = with(5, access(6, 0x4008, 0x000A_6968, 0, 0));
    let own_time = with(2, read(3, 0x4000_000A, 1, 83));
    for (name, case, rule) in [
        (
            "place",
            Case {
                place: Place {
                    pc: 0x10018,
                    input: 0,
                    output: 0,
                },
                ..hello(&writes)
            },
            PC,
        ),
        ("the fetch alone", hello(&[read(1, 0x4005, 0x73, 0)]), SLOT),
        ("slot", hello(&slot), SLOT),
        ("slot and cell", hello(&slot_and_cell), SLOT),
        (
            "version",
            at(2, 0x10008, 0x1000C, &stores_conditionally),
            SLOT,
        ),
        ("cell", hello(&cell), CELL),
        (
            "a word that is only read",
            hello(&changes_by_reading),
            VALUE,
        ),
        ("own time", hello(&own_time), TIME_ORDER),
        (
            "step",
            Case {
                step: 4,
                ..hello(&writes)
            },
            TIME_ORDER,
        ),
        (
            "next",
            Case {
                row: at(5, 0x10014, 0x1001C, &writes).row,
                ..hello(&writes)
            },
            NEXT,
        ),
        (
            "output",
            Case {
                output: &[0x68, 0x69, 0x0B],
                ..hello(&writes)
            },
            OUTPUT_BYTE,
        ),
        (
            "output too short",
            Case {
                output: &[0x68, 0x69],
                ..hello(&writes)
            },
            OUTPUT_BYTE,
        ),
        (
            "an end before the last row",
            at(2, 0x10008, 0x10008, &exits),
            ENDS_EARLY,
        ),
        (
            "no end in the last row",
            Case {
                last: Some(EXIT_42),
                ..at(0, 0x10000, 0x10004, &loads_42)
            },
            END_OTHER,
        ),
        (
            "code",
            Case {
                last: Some(End { kind: 0, code: 43 }),
                ..at(2, 0x10008, 0x10008, &exits)
            },
            END_OTHER,
        ),
        (
            "kind",
            Case {
                last: Some(End { kind: 1, code: 42 }),
                ..at(2, 0x10008, 0x10008, &exits)
            },
            END_OTHER,
        ),
    ] {
        assert_eq!(rt; answer(&case), Some(Err(rule)), "{name}");
    }
}
