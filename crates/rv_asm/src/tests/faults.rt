//! Faults: at the first and the last place of a line, and the first of several.

use super::*;

/// The line and the kind of a source's first fault, or zeros; want of memory and of room have line 0.
fn fault(alloc: Global, source: &[u8]) -> (u32, u8) {
    if source.len() > SOURCE_LIMIT {
        return (0, 2);
    }
    match assemble(alloc, source) {
        Ok(_) => (0, 0),
        Err(AsmFault::At { line, kind }) => (line, kind),
        Err(AsmFault::NoMemory) => (0, 1),
    }
}

const FAULTS: [(&str, u32, u8); 56] = [
    ("\u{1}ecall", 1, 1),
    ("ecall \u{e9}", 1, 1),
    ("ecall\r", 1, 1),
    ("ecall\r\r\n", 1, 1),
    ("ecall\n\u{7f}# \u{e9}", 2, 1),
    (":", 1, 2),
    ("1a: ecall", 1, 2),
    ("a : ecall", 1, 2),
    ("a: ecall\n a: ecall", 2, 2),
    ("a b: ecall", 1, 2),
    (
        "aaaaaaaaaaaaaaaaaaaaaaaaaaaaaaaaaaaaaaaaaaaaaaaaaaaaaaaaaaaaaaaaa:",
        1,
        2,
    ),
    ("foo", 1, 3),
    ("ecall,", 1, 3),
    ("illegal", 1, 3),
    ("lr.w x1, (x2)", 1, 3),
    ("ADDI x1, x0, 1", 1, 3),
    ("a: b: ecall", 1, 3),
    ("ecall ,", 1, 4),
    ("addi x1, x0", 1, 4),
    ("add x1, x2, x3, x4", 1, 4),
    ("addi x32, x0, 0", 1, 4),
    ("addi x01, x0, 0", 1, 4),
    ("add x1, x2, x32", 1, 4),
    ("addi x1, x0, 0X1", 1, 4),
    ("addi x1, x0, 00", 1, 4),
    ("addi x1, x0, 0x123456789", 1, 4),
    ("addi x1, x0, 100000000000000000000", 1, 4),
    ("lw x1, 2 (x5)", 1, 4),
    ("lw x1, 2(x5", 1, 4),
    ("lw x1, (x5)", 1, 4),
    (".word a", 1, 4),
    ("beq x1, x2, 1a", 1, 4),
    ("beq x32, x2, a", 1, 4),
    ("beq x1, x2, done", 1, 5),
    ("jal x0, x1", 1, 5),
    ("beq x1, x2, A\na:", 1, 5),
    ("addi x1, x0, 2048", 1, 6),
    ("addi x1, x0, -2049", 1, 6),
    ("sw x1, 2048(x0)", 1, 6),
    ("addi x1, x0, 99999999999999999999", 1, 6),
    ("slli x1, x1, 32", 1, 6),
    ("slli x1, x1, -1", 1, 6),
    ("lui x1, 1048576", 1, 6),
    ("auipc x1, -1", 1, 6),
    ("jal x0, 1048576", 1, 6),
    ("jal x0, -1048578", 1, 6),
    ("jal x0, 1", 1, 6),
    ("beq x0, x0, 4096", 1, 6),
    ("beq x0, x0, -4098", 1, 6),
    ("beq x0, x0, 3", 1, 6),
    (".word 4294967296", 1, 6),
    (".word -1", 1, 6),
    ("1: foo \u{e9}", 1, 1),
    ("1: foo", 1, 2),
    ("addi x1, x0, 2048\nfoo\n:", 1, 6),
    ("ecall\n\nfoo\n\u{1}", 3, 3),
];

#[test]
fn the_first_fault(rt: HostRuntime) {
    for (source, line, kind) in FAULTS {
        assert_eq!(rt;
            fault(rt.alloc(), source.as_bytes()),
            (line, kind),
            "of {source}"
        );
    }
}

/// A source with so many statements, one a line.
fn statements(alloc: Global, count: u32) -> Result<Vec<u8>, AllocError> {
    let mut source = Vec::new(alloc);
    for _ in 0..count {
        source.extend_from_slice(b".word 7\n")?;
    }
    Ok(source)
}

#[test]
fn one_statement_too_many(rt: HostRuntime) -> Result<(), Fail> {
    for (count, last) in [(65_536, (0, 0)), (65_537, (65_537, 7))] {
        let source = statements(rt.alloc(), count)?;
        assert_eq!(rt; fault(rt.alloc(), &source), last);
    }
    Ok(())
}

#[test]
fn the_longest_source(rt: HostRuntime) -> Result<(), Fail> {
    let source = vec![in rt.alloc(); b'#'; SOURCE_LIMIT]?;
    assert_eq!(rt; fault(rt.alloc(), &source), (0, 0));
    Ok(())
}
