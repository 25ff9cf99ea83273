mod hart;
mod machine;

use super::*;
use rv_base::End;
use rv_base::cells::{
    FETCH_SLOT, MEMORY_SLOT, RD_SLOT, REGISTER_CELLS, RESERVATION_CELL, RESERVATION_SLOT, RS1_SLOT,
};
use rv_base::machine::{ILLEGAL_WORD, MISALIGNED_JUMP, MISALIGNED_LOAD, NO_SUCH_CALL, READ, WRITE};

const PC: u32 = 0x10000;

const NOTHING: Seen = Seen {
    s1: 0,
    s2: 0,
    s3: 0,
    s4: 0,
    s5: 0,
    s6: 0,
    s7: 0,
    s8: 0,
};

/// `add x2, x2, x2`
const ADD: Seen = Seen {
    s1: 0x0021_0133,
    s2: 0x7FFF_F000,
    s3: 0x7FFF_F000,
    ..NOTHING
};

/// `jalr x1, 2(x0)`
const JUMP: Seen = Seen {
    s1: 0x0020_00E7,
    ..NOTHING
};

/// `lw x6, 2(x5)`
const LOAD: Seen = Seen {
    s1: 0x0022_A303,
    s2: 0x10000,
    ..NOTHING
};

/// `sw x6, 4(x5)`
const STORE: Seen = Seen {
    s1: 0x0062_A223,
    s2: 0x10000,
    s6: 0x0062_A223,
    ..NOTHING
};

/// `sc.w x7, x6, (x5)`
const CONDITIONAL: Seen = Seen {
    s1: 0x1862_A3AF,
    s2: 0x20000,
    s8: 0x20001,
    ..NOTHING
};

/// A version and old values, with the number of accesses, the slot, the cell and the new value of the last one,
/// the next instruction, and the kind of the end.
const STEPS: [(u8, Seen, usize, (u8, u32, u32), u32, Option<u8>); 6] = [
    (
        1,
        ADD,
        4,
        (RD_SLOT, REGISTER_CELLS + 2, 0xFFFF_E000),
        PC + 4,
        None,
    ),
    (
        1,
        JUMP,
        1,
        (FETCH_SLOT, 0x4000, 0x0020_00E7),
        PC,
        Some(MISALIGNED_JUMP),
    ),
    (
        1,
        LOAD,
        2,
        (RS1_SLOT, REGISTER_CELLS + 5, 0x10000),
        PC,
        Some(MISALIGNED_LOAD),
    ),
    (1, STORE, 4, (MEMORY_SLOT, 0x4001, 0), PC + 4, None),
    (
        2,
        CONDITIONAL,
        6,
        (RESERVATION_SLOT, RESERVATION_CELL, 0),
        PC + 4,
        None,
    ),
    (
        1,
        CONDITIONAL,
        1,
        (FETCH_SLOT, 0x4000, 0x1862_A3AF),
        PC,
        Some(ILLEGAL_WORD),
    ),
];

fn access((slot, cell, new): (u8, u32, u32)) -> Touch {
    Touch { slot, cell, new }
}

#[test]
fn instructions(rt: HostRuntime) {
    for (version, seen, count, last, next, kind) in STEPS {
        let step = expect(version, PC, &seen, &[], 0);
        assert_eq!(rt; step.touches.len(), count);
        assert!(rt; step.touches.last() == Some(&access(last)));
        assert_eq!(rt; step.next, next);
        assert!(rt; step.end == kind.map(|kind| End { kind, code: 0 }));
    }
}

#[test]
fn calls(rt: HostRuntime) {
    let read = Seen {
        s1: 0x73,
        s2: READ,
        s4: 0x20003,
        s5: 10,
        ..NOTHING
    };
    let write = Seen {
        s2: WRITE,
        s3: 1,
        s4: 0x20000,
        s5: 2,
        s6: 0x000A_6968,
        ..read
    };
    let unknown = Seen { s2: 214, ..read };
    for (seen, at, count, answer, took, put, word) in [
        (read, 0, 7, 1, 1, 0, 0),
        (read, 2, 6, 0, 0, 0, 0),
        (write, 0, 7, 2, 0, 2, 0x6968),
        (unknown, 0, 3, NO_SUCH_CALL, 0, 0, 0),
    ] {
        let step = expect(1, PC, &seen, &[0x41, 0x42], at);
        assert_eq!(rt; step.touches.len(), count);
        assert!(rt; step.touches.last() == Some(&access((RD_SLOT, REGISTER_CELLS + 10, answer))));
        assert_eq!(rt; (step.took, step.put, step.word), (took, put, word));
    }
}
