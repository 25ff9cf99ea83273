//! A worked record in two parts.

mod worked;

use super::*;
use rv_base::rules::SHARD_HEAD;
use rv_base::{End, Header, Place, Refusal, Verdict};
use rv_digest::ShaLanes;
use rv_file::parse;
use rv_program::{Program, check_front};
use std::alloc::Global;
use std::test::Fail;
use worked::{ELF, record_in_three};

/// The heads of the two parts: the part, the parts, the first shard and the shards.
const HEADS: [[u8; 24]; 2] = [
    *b"RV32PRT1\0\0\0\0\x02\0\0\0\0\0\0\0\x01\0\0\0",
    *b"RV32PRT1\x01\0\0\0\x02\0\0\0\x01\0\0\0\x02\0\0\0",
];

/// The verdict on the record.
const ACCEPTED: Verdict = Verdict::Accept {
    steps: 3,
    shards: 3,
    end: End { kind: 0, code: 42 },
};

// Of 1,295 bytes: the header has 173, shard 0 from 173 to 512, shard 1 to 851, shard 2 to 1,211, and the table the rest.
#[test]
fn cuts_a_record_in_two(rt: HostRuntime) -> Result<(), Fail> {
    let program = Program::open(&ELF, &[])?;
    let file = record_in_three(rt.alloc(), &program)?;
    assert_eq!(rt; file.len(), 1295);
    let parsed = parse(&file)?;
    assert_eq!(rt; parsed.header().shards, 3);
    for (number, from, to, size) in [(0, 173, 512, 536), (1, 512, 1295, 980)] {
        if number > 1 || parsed.header().shards < 2 {
            return Err("no such part".into());
        }
        let part = part_cut(&file, &parsed, 2, number);
        assert_eq!(rt; part.head, HEADS[number as usize]);
        assert_eq!(rt; Some(part.front), file.get(..173));
        assert_eq!(rt; Some(part.body), file.get(from..to));
        assert_eq!(rt; part.head.len() + part.front.len() + part.body.len(), size);
    }
    Ok(())
}

#[test]
fn heads_of_parts(rt: HostRuntime) -> Result<(), Fail> {
    let mut head = HEADS[1];
    let part = PartHead {
        number: 1,
        parts: 2,
        first: 1,
        count: 2,
    };
    assert_eq!(rt; read_part(&head), Some(part));
    assert_eq!(rt; read_part(&head[..23]), None);
    head[7] = b'2';
    assert_eq!(rt; read_part(&head), None);
    Ok(())
}

/// The summary of the part with this head and this body, of a record of no output.
fn summary_of(
    program: &Program<'_>,
    front: &[u8],
    head: &[u8],
    body: &[u8],
) -> Result<Result<Summary, Cut>, Fail> {
    let header = check_front(program, front)?;
    let head = read_part(head).ok_or("no head")?;
    let shards = header.shards;
    if header.length != 0
        || head.count < 1
        || head.first > shards
        || head.count > shards - head.first
    {
        return Err("another record".into());
    }
    Ok(summarize(program, &header, &[], head, body, &ShaLanes))
}

/// The verdict on the two parts of a file, of which the second has these bytes.
fn verdict_on(program: &Program<'_>, file: &[u8], last: &[u8]) -> Result<Verdict, Fail> {
    let header = check_front(program, file)?;
    let first = file.get(173..512).ok_or("short")?;
    let Ok(zero) = summary_of(program, file, &HEADS[0], first)? else {
        return Err("part 0 is cut".into());
    };
    let Ok(one) = summary_of(program, file, &HEADS[1], last)? else {
        return Err("part 1 is cut".into());
    };
    Ok(combine(program, &header, &[zero, one]))
}

#[test]
fn two_parts_are_the_record(rt: HostRuntime) -> Result<(), Fail> {
    let program = Program::open(&ELF, &[])?;
    let file = record_in_three(rt.alloc(), &program)?;
    let last = file.get(512..).ok_or("short")?;
    assert_eq!(rt; verdict_on(&program, &file, last)?, ACCEPTED);
    let Ok(summary) = summary_of(&program, &file, &HEADS[1], last)? else {
        return Err("cut".into());
    };
    assert_eq!(rt;
        summary.before,
        Some(Place {
            pc: 0x10004,
            input: 0,
            output: 0
        })
    );
    assert_eq!(rt;
        summary.after,
        Place {
            pc: 0x10008,
            input: 0,
            output: 0
        }
    );
    assert_eq!(rt; summary.entries, 5);
    Ok(())
}

/// The verdict by the summaries of all parts that a record is cut into, each judged by its own bytes alone.
fn verdict_by_parts(
    alloc: Global,
    program: &Program<'_>,
    file: &[u8],
    parts: u32,
) -> Result<Verdict, Fail> {
    let header = check_front(program, file)?;
    let parsed = parse(file)?;
    if parts < 1 || parts > PARTS_LIMIT || parts > parsed.header().shards {
        return Err("no such parts".into());
    }
    let mut summaries = Vec::new(alloc);
    for number in 0..parts {
        let part = part_cut(file, &parsed, parts, number);
        let Ok(summary) = summary_of(program, part.front, &part.head, part.body)? else {
            return Err("cut".into());
        };
        summaries.push(summary)?;
    }
    Ok(combine(program, &header, &summaries))
}

#[test]
fn parts_of_a_record(rt: HostRuntime) -> Result<(), Fail> {
    let program = Program::open(&ELF, &[])?;
    let file = record_in_three(rt.alloc(), &program)?;
    for parts in [1, 2, 3] {
        let verdict = verdict_by_parts(rt.alloc(), &program, &file, parts)?;
        assert_eq!(rt; verdict, ACCEPTED);
    }
    Ok(())
}

// The pc of shard 1 is at 520: it is made 0x10008.
#[test]
fn a_part_that_does_not_follow(rt: HostRuntime) -> Result<(), Fail> {
    let program = Program::open(&ELF, &[])?;
    let mut file = record_in_three(rt.alloc(), &program)?;
    assert!(rt; file.len() > 520);
    file[520] = 8;
    let refused = Verdict::Refuse(Refusal {
        shard: 1,
        row: 0,
        rule: SHARD_HEAD,
    });
    for to in [544, 1295] {
        let last = file.get(512..to).ok_or("short")?;
        assert_eq!(rt; verdict_on(&program, &file, last)?, refused);
    }
    let none = Verdict::Refuse(Refusal {
        shard: 1,
        row: 0,
        rule: 1,
    });
    let last = file.get(512..543).ok_or("short")?;
    assert_eq!(rt; verdict_on(&program, &file, last)?, none);
    Ok(())
}

#[test]
fn parts_that_are_cut(rt: HostRuntime) -> Result<(), Fail> {
    let program = Program::open(&ELF, &[])?;
    let file = record_in_three(rt.alloc(), &program)?;
    for to in [173, 511, 513] {
        let body = file.get(173..to).ok_or("short")?;
        assert_eq!(rt; summary_of(&program, &file, &HEADS[0], body)?, Err(Cut));
    }
    let mut file = file;
    file.push(0)?;
    let last = file.get(512..).ok_or("short")?;
    let trailing = Verdict::Refuse(Refusal {
        shard: 3,
        row: 5,
        rule: 27,
    });
    assert_eq!(rt; verdict_on(&program, &file, last)?, trailing);
    Ok(())
}
