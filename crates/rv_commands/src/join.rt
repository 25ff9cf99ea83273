//! `join`: tells the verdict on a record in parts.

ghost use Rattle.std.specs.Prelude.{◌≡◌, ◌+◌, ◌<◌, ◌≤◌, IfOk, List, MatchOption, MatchResult, Err, None, Ok, Some, ℕ, bytes_eq, drop, length, take, true};
ghost use Rattle.std.specs.Int.{IsInRange};
ghost use Rattle.rv_base.specs.declared.layout.TheConstants.{HEADER_BYTES as BYTES_OF_HEADER};
ghost use Rattle.rv_spec.specs.Words.{AreBytes};
ghost use Rattle.rv_judge.specs.Subject.{IsChecked};
ghost use Rattle.rv_parts.specs.Joining.{Part};
ghost use Rattle.rv_plan.specs.FileCalls.{Performs, ReadsWithin};
ghost use Rattle.rv_plan.specs.declared.faults.Limited.TheVariants as limited;
ghost use Rattle.rv_commands.specs.CommandLine as command;
ghost use Rattle.rv_commands.specs.Commands.{join_words};
ghost use Rattle.rv_commands.specs.Headline.{JoinedParts};
ghost use Rattle.rv_commands.specs.Joining.{AddsFile, AddsPart, BeginsParts, IsJoining, JoinsParts, ReadsFirst, ReadsPart, opened_of};
ghost use Rattle.rv_commands.specs.Outcome.{plan_of};
ghost use Rattle.rv_commands.specs.Parts.{Joined, follows, front_in, is_head_of, opened, opened_behind, part_name as name_of_part};

use crate::check::tell_verdict;
use crate::commands::Join;
use crate::judging::{open, opened as is_opened};
use crate::split::part_name;
use rv_base::layout::HEADER_BYTES;
use rv_base::limits::RECORD_LIMIT;
use rv_base::{Bytes, Header, NoMemory, Refusal, Verdict};
use rv_digest::ShaLanes;
use rv_file::front_len;
use rv_host::Shelf;
use rv_judge::laws::verdicts_conclude;
use rv_parts::{
    PART_HEAD_BYTES, PARTS_LIMIT, PartHead, Summary, combine, read_part,
    summaries_tell_the_verdict, summarize,
};
use rv_plan::{Fault, Limited, PartFault, Told, load, read_within};
use rv_program::{Program, check_front};
use std::alloc::Global;

/// A part that was read: its head, the header and the output of the record, and its shards, behind which the last part has the table.
#[derive(Clone, Copy)]
struct OpenedPart<'a> {
    head: PartHead,
    front: &'a [u8],
    body: &'a [u8],
}

/// What is kept of the parts so far: the front of part 0 and its header, the shards that they cover, and their summaries.
#[derive(Drop)]
struct Joining {
    front: Bytes,
    header: Header,
    shards: u32,
    summaries: Vec<Summary>,
}

/// What part 0 comes to.
#[derive(Drop)]
enum First {
    Checked(Joining),
    /// Its header breaks a check.
    Refused(Refusal),
}

/// Judges the parts, one after another, and tells the verdict on the record that they make. It holds the program, the input, one part at a
/// time, and the header and the stated output of part 0.
pub fn join<S: Shelf>(alloc: Global, words: &Join<'_>, shelf: &mut S) -> Result<Told, Fault>
    requires { IsInRange 1 PARTS_LIMIT words.now.parts }
    ensures performs { Performs (plan_of (command.join (join_words words.now))) (S.view shelf.old) (S.view shelf.new) result }
    ensures headline { IfOk result (λ told. told.status ≡ 0 → JoinedParts (S.view shelf.old).files (join_words words.now)) }
{
    let loaded = load(alloc, shelf, words.elf, words.input)?;
    let program = open(&loaded)?;
    join_parts(alloc, shelf, words, &program)
}

/// Judges the parts for a program and its input.
fn join_parts<S: Shelf>(
    alloc: Global,
    shelf: &mut S,
    words: &Join<'_>,
    program: &Program<'_>,
) -> Result<Told, Fault>
    requires { IsInRange 1 PARTS_LIMIT words.now.parts }
    ensures { JoinsParts (join_words words.now) program.now.elf program.now.input (S.view shelf.old) (S.view shelf.new) result }
{
    is_opened(program);
    summaries_tell_the_verdict();
    verdicts_conclude();
    let mut joining = match first_part(alloc, shelf, words, program)? {
        First::Checked(joining) => joining,
        First::Refused(refusal) => return tell_verdict(alloc, Verdict::Refuse(refusal)),
    };
    for number in 1..words.parts {
        next_part(alloc, shelf, words, program, &mut joining, number)?;
    }
    let verdict = combine(program, &joining.header, joining.summaries.as_slice());
    tell_verdict(alloc, verdict)
}

/// Reads part 0 and judges it.
fn first_part<S: Shelf>(
    alloc: Global,
    shelf: &mut S,
    words: &Join<'_>,
    program: &Program<'_>,
) -> Result<First, Fault>
    requires { 1 ≤ words.now.parts }
    ensures { ReadsFirst (join_words words.now) program.now.elf program.now.input (S.view shelf.old) (S.view shelf.new) result }
{
    let file = read_part_file(alloc, shelf, words, 0)?;
    begin(alloc, words, program, file.list())
}

/// Reads the part behind those so far, and judges it.
fn next_part<S: Shelf>(
    alloc: Global,
    shelf: &mut S,
    words: &Join<'_>,
    program: &Program<'_>,
    joining: &mut Joining,
    number: u32,
) -> Result<(), Fault>
    requires number { number < words.now.parts }
    requires checked { IsChecked joining.old.header }
    requires front { length joining.old.front ≡ BYTES_OF_HEADER + joining.old.header.length }
    ensures { ReadsPart (join_words words.now) program.now.elf program.now.input number joining.old joining.new (S.view shelf.old) (S.view shelf.new) result }
{
    let file = read_part_file(alloc, shelf, words, number)?;
    add_file(program, joining, file.list(), words.parts, number)
}

/// The bytes of a part's file.
fn read_part_file<S: Shelf>(
    alloc: Global,
    shelf: &mut S,
    words: &Join<'_>,
    number: u32,
) -> Result<Bytes, Fault>
    ensures { ReadsWithin (name_of_part words.now.name.now number) RECORD_LIMIT limited.Record (S.view shelf.old) (S.view shelf.new) result }
{
    let Ok(name) = part_name(alloc, words.name, number) else {
        return Err(Fault::Memory);
    };
    read_within(alloc, shelf, name.as_str(), RECORD_LIMIT, Limited::Record)
}

/// What is known behind part 0, whose header is checked.
fn begin(
    alloc: Global,
    words: &Join<'_>,
    program: &Program<'_>,
    file: &[u8],
) -> Result<First, Fault>
    requires { 1 ≤ words.now.parts }
    ensures { BeginsParts (join_words words.now) program.now.elf program.now.input file.now result }
{
    let part = match open_part(file, words.parts, 0) {
        Ok(part) => part,
        Err(fault) => return Err(Fault::Part(0, fault)),
    };
    let header = match check_front(program, part.front) {
        Ok(header) => header,
        Err(refusal) => return Ok(First::Refused(refusal)),
    };
    are_bytes(part.front);
    let Ok(front) = copy_of(alloc, part.front) else {
        return Err(Fault::Memory);
    };
    let mut joining = Joining {
        front,
        header,
        shards: 0,
        summaries: Vec::new(alloc),
    };
    add_part(program, &mut joining, &part, words.parts, 0)?;
    Ok(First::Checked(joining))
}

/// Adds the next part, whose front is compared with part 0's.
fn add_file(
    program: &Program<'_>,
    joining: &mut Joining,
    file: &[u8],
    parts: u32,
    number: u32,
) -> Result<(), Fault>
    requires number { number < parts }
    requires checked { IsChecked joining.old.header }
    requires front { length joining.old.front ≡ BYTES_OF_HEADER + joining.old.header.length }
    ensures { (j : Joined) (ps : List Part) → IsJoining parts program.now.elf program.now.input joining.old number j ps → AddsFile parts program.now.elf program.now.input number j ps file.now joining.new result }
{
    let part = match open_part(file, parts, number) {
        Ok(part) => part,
        Err(fault) => return Err(Fault::Part(number, fault)),
    };
    if !is_same(part.front, joining.front.list()) {
        return Err(Fault::Part(number, PartFault::Front));
    }
    add_part(program, joining, &part, parts, number)
}

/// Adds a part, judged alone, to those before it.
fn add_part(
    program: &Program<'_>,
    joining: &mut Joining,
    part: &OpenedPart<'_>,
    parts: u32,
    number: u32,
) -> Result<(), Fault>
    requires number { number < parts }
    requires head { is_head_of parts number part.now.head ≡ true }
    requires checked { IsChecked joining.old.header }
    requires front { length joining.old.front ≡ BYTES_OF_HEADER + joining.old.header.length }
    ensures { (j : Joined) (ps : List Part) → IsJoining parts program.now.elf program.now.input joining.old number j ps → AddsPart parts program.now.elf program.now.input number j ps part.now joining.new result }
{
    if !is_next(&part.head, joining.shards, joining.header.shards) {
        return Err(Fault::Part(number, PartFault::Cover));
    }
    are_bytes(part.body);
    let output = behind(joining.front.list(), HEADER_BYTES);
    let Ok(summary) = summarize(
        program,
        &joining.header,
        output,
        part.head,
        part.body,
        &ShaLanes,
    ) else {
        return Err(Fault::Part(number, PartFault::Cut));
    };
    let Ok(()) = joining.summaries.push(summary) else {
        return Err(Fault::Memory);
    };
    joining.shards += part.head.count;
    Ok(())
}

/// Whether a part's shards follow those before it, and are some of so many, in the last part up to the last.
fn is_next(head: &PartHead, before: u32, shards: u32) -> bool
    ensures { result ≡ follows head.now before shards }
{
    let end = u64::from(head.first) + u64::from(head.count);
    let last = u64::from(head.number) + 1 == u64::from(head.parts);
    head.first == before && end <= u64::from(shards) && (!last || end == u64::from(shards))
}

/// A file as part `number` of so many.
fn open_part(file: &[u8], parts: u32, number: u32) -> Result<OpenedPart<'_>, PartFault>
    ensures exact { MatchResult result (λ x. opened parts number file.now ≡ Ok (opened_of x)) (λ fault. opened parts number file.now ≡ Err fault) }
    ensures head { IfOk result (λ x. is_head_of parts number x.head ≡ true) }
{
    let Some(head) = read_part(file) else {
        return Err(PartFault::Head);
    };
    if !is_head(&head, parts, number) {
        return Err(PartFault::Head);
    }
    open_behind(head, behind(file, PART_HEAD_BYTES))
}

/// Whether this is the head of part `number` of so many, with a shard at least.
fn is_head(head: &PartHead, parts: u32, number: u32) -> bool
    ensures { result ≡ is_head_of parts number head.now }
{
    head.number == number && head.parts == parts && head.count != 0
}

/// The part with a head that these bytes follow.
fn open_behind(head: PartHead, bytes: &[u8]) -> Result<OpenedPart<'_>, PartFault>
    ensures exact { MatchResult result (λ x. opened_behind head bytes.now (front_in bytes.now) ≡ Ok (opened_of x)) (λ fault. opened_behind head bytes.now (front_in bytes.now) ≡ Err fault) }
    ensures head { IfOk result (λ x. x.head ≡ head) }
{
    let Some(front) = front_at(bytes) else {
        return Err(PartFault::Front);
    };
    let body = behind(bytes, front.len());
    Ok(OpenedPart { head, front, body })
}

/// The header at the front of the bytes and the output that it states, if they are all there.
fn front_at(bytes: &[u8]) -> Option<&[u8]>
    ensures { MatchOption result (front_in bytes.now ≡ None) (λ front. front_in bytes.now ≡ Some front.now) }
{
    let header = bytes.first_chunk::<HEADER_BYTES>()?;
    first_bytes(bytes, front_len(header))
}

/// The first n bytes, if there are so many.
fn first_bytes(bytes: &[u8], n: usize) -> Option<&[u8]>
    ensures { MatchOption result (length bytes.now < n) (λ first. (n ≤ length bytes.now) × (first.now ≡ take n bytes.now)) }
{
    if n > bytes.len() {
        return None;
    }
    Some(&bytes[..n])
}

/// Whether two slices have the same bytes.
fn is_same(a: &[u8], b: &[u8]) -> bool
    ensures { result ≡ bytes_eq a.now b.now }
{
    a == b
}

/// The law of bytes: each is below 256.
fn are_bytes(bytes: &[u8])
    ensures { AreBytes bytes.now }
{}

/// The bytes behind the first n.
fn behind(bytes: &[u8], n: usize) -> &[u8]
    ensures { result.now ≡ drop n bytes.now }
{
    bytes.get(n..).unwrap_or(&[])
}

/// The same bytes, held.
fn copy_of(alloc: Global, bytes: &[u8]) -> Result<Bytes, NoMemory>
    ensures { IfOk result (λ copy. copy ≡ bytes.now) }
{
    let mut copy = Vec::new(alloc);
    copy.extend_from_slice(bytes)?;
    Ok(Bytes::of(copy))
}
