//! Shards, table and end of a record file, each judged alone.

ghost use Rattle.std.specs.Prelude.{◌≡◌, ◌<◌, length};
ghost use Rattle.rv_judge.specs.Subject.{IsChecked};
ghost use Rattle.rv_judge.specs.Alone.{SeesShard, SeesTable, can_stand as can_stand_at, ended};

use crate::held::verdict_on;
use crate::phases::{Extent, Machine};
use crate::shards::head_at;
use crate::subject::Subject;
use crate::sums::Sums;
use crate::table::broken_end;
use rv_base::rules::{SHARD_HEAD, SHORT};
use rv_base::{Header, Place, Refusal, ShardHead, Verdict};
use rv_digest::{Lanes, SetDigest};
use rv_program::Program;

/// A shard that breaks no check: its head, the place after its last row, the digests of the tuples that its rows read and write, and
/// its length in bytes.
#[derive(Clone, Copy, PartialEq, Debug)]
pub struct ShardSeen {
    pub head: ShardHead,
    pub after: Place,
    pub reads: SetDigest,
    pub writes: SetDigest,
    pub used: usize,
}

/// A table that breaks no check: its entries, the digests of the tuples by which its cells are read at the end and written before the
/// first step, and its length in bytes.
#[derive(Clone, Copy, PartialEq, Debug)]
pub struct TableSeen {
    pub entries: u32,
    pub reads: SetDigest,
    pub writes: SetDigest,
    pub used: usize,
}

/// Whether a run can stand at a place: at the address of an instruction, within the input and the output.
fn can_stand(place: Place, input: &[u8], output: &[u8]) -> bool
    ensures { result ≡ can_stand_at place input.now output.now }
{
    place.pc % 4 == 0 && place.input <= input.len() as u64 && place.output <= output.len() as u64
}

/// Shard `i` of a record file, at the front of the bytes, judged from the place that its own head states. Bytes may follow it. The
/// header is one that `rv_program::check_front` gave, and the output the one that it states.
///
/// # Errors
///
/// The first check of the shard that is broken. A stated place whose pc isn't a multiple of 4, or whose positions are past the input or
/// the output, breaks rule 9.
pub fn check_shard<L: Lanes>(
    program: &Program<'_>,
    header: &Header,
    output: &[u8],
    bytes: &[u8],
    i: u32,
    lanes: &L,
) -> Result<ShardSeen, Refusal>
    requires header { IsChecked header.now }
    requires output { length output.now ≡ header.now.length }
    requires shard { i < header.now.shards }
    ensures { SeesShard L.lanes (record { elf = program.now.elf; input = program.now.input; header = header.now; output = output.now }) i bytes.now result }
{
    let subject = Subject::new(program, header, output);
    let Some(head) = head_at(bytes) else {
        return Err(Refusal::at(i, 0, SHORT));
    };
    let place = Place {
        pc: head.pc,
        input: head.input,
        output: head.output,
    };
    if !can_stand(place, subject.input(), output) {
        return Err(Refusal::at(i, 0, SHARD_HEAD));
    }
    let mut machine = Machine::at_shards(1, i, place);
    let stop = machine.read(&subject, lanes, Extent::Shard, bytes);
    if let Some(refusal) = stop.refusal {
        return Err(refusal);
    }
    let all = machine.all.sums(lanes);
    Ok(ShardSeen {
        head,
        after: machine.place,
        reads: all.reads,
        writes: all.writes,
        used: bytes.len() - stop.left.len(),
    })
}

/// The table of a record file, from the number of its entries on. Bytes may follow it. The header is one that
/// `rv_program::check_front` gave.
///
/// # Errors
///
/// The first check of the table that is broken.
pub fn check_table<L: Lanes>(
    program: &Program<'_>,
    header: &Header,
    bytes: &[u8],
    lanes: &L,
) -> Result<TableSeen, Refusal>
    requires { IsChecked header.now }
    ensures { SeesTable L.lanes program.now.elf header.now bytes.now result }
{
    let subject = Subject::new(program, header, &[]);
    let mut machine = Machine::at_shards(0, 0, subject.first_place());
    let stop = machine.read(&subject, lanes, Extent::Table, bytes);
    if let Some(refusal) = stop.refusal {
        return Err(refusal);
    }
    let all = machine.all.sums(lanes);
    Ok(TableSeen {
        entries: machine.entries(),
        reads: all.reads,
        writes: all.writes,
        used: bytes.len() - stop.left.len(),
    })
}

/// The verdict where all shards and the table break no check: at the place after the last row, with the digests of all that is read and
/// written, behind so many entries of the table, and with bytes behind these or none. The header is one that
/// `rv_program::check_front` gave.
pub fn check_end(
    header: &Header,
    after: Place,
    reads: &SetDigest,
    writes: &SetDigest,
    entries: u32,
    trailing: bool,
) -> Verdict
    ensures { result ≡ ended header.now after (record { reads = reads.now.lanes; writes = writes.now.lanes }) entries trailing }
{
    let all = Sums {
        reads: *reads,
        writes: *writes,
    };
    match broken_end(header, after, &all, trailing) {
        Some(rule) => Verdict::Refuse(Refusal::at(header.shards, entries, rule)),
        None => verdict_on(header, None),
    }
}
