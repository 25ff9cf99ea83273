use super::*;
use rv_base::{AtomicOp, Cond, LoadKind, Op, StoreKind};

#[test]
fn operations(rt: HostRuntime) {
    for (op, a, b, want) in [
        (Op::Div, 0x8000_0000, 0xFFFF_FFFF, 0x8000_0000),
        (Op::Rem, 0x8000_0000, 0xFFFF_FFFF, 0),
        (Op::Div, 7, 0, 0xFFFF_FFFF),
        (Op::Rem, 7, 0, 7),
        (Op::Mulh, 0x8000_0000, 0x8000_0000, 0x4000_0000),
        (Op::Mulhsu, 0xFFFF_FFFF, 0xFFFF_FFFF, 0xFFFF_FFFF),
        (Op::Mulhu, 0xFFFF_FFFF, 0xFFFF_FFFF, 0xFFFF_FFFE),
        (Op::Rem, 0xFFFF_FFF9, 2, 0xFFFF_FFFF),
        (Op::Sra, 0x8000_0000, 33, 0xC000_0000),
        (Op::Sltu, 1, 0xFFFF_FFFF, 1),
        (Op::Slt, 1, 0xFFFF_FFFF, 0),
    ] {
        assert_eq!(rt; compute(op, a, b), want, "{op:?} of {a} and {b}");
    }
}

#[test]
fn branches_and_atomics(rt: HostRuntime) {
    assert!(rt; taken(Cond::Lt, 0xFFFF_FFFF, 1));
    assert!(rt; taken(Cond::Geu, 0xFFFF_FFFF, 1));
    for (op, want) in [
        (AtomicOp::Swap, 1),
        (AtomicOp::Add, 0),
        (AtomicOp::Min, 0xFFFF_FFFF),
        (AtomicOp::Minu, 1),
    ] {
        assert_eq!(rt; amo_result(op, 0xFFFF_FFFF, 1), want, "{op:?}");
    }
}

#[test]
fn lanes(rt: HostRuntime) {
    let word = 0x80C3_7F01;
    assert_eq!(rt; extract(LoadKind::B, word, 2), 0xFFFF_FFC3);
    assert_eq!(rt; extract(LoadKind::Bu, word, 2), 0xC3);
    assert_eq!(rt; extract(LoadKind::H, word, 0), 0x7F01);
    assert_eq!(rt; extract(LoadKind::H, word, 2), 0xFFFF_80C3);
    assert_eq!(rt; merge(StoreKind::B, word, 3, 0x1122_3344), 0x44C3_7F01);
    assert_eq!(rt; merge(StoreKind::H, word, 0, 0x1122_3344), 0x80C3_3344);
    assert_eq!(rt; merge(StoreKind::W, word, 0, 0x1122_3344), 0x1122_3344);
}
