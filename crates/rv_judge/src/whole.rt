//! The verdict on a whole record file.

ghost use Rattle.std.specs.Prelude.{◌≡◌, true};
ghost use Rattle.rv_spec.specs.Digest.{Lanes as LanesOf};
ghost use Rattle.rv_rules.specs.Sums.{tiny_lanes};
ghost use Rattle.rv_rules.specs.Verdict.{verdict as verdict_is};
ghost use Rattle.rv_reading.specs.Machine.{first_phase};
ghost use Rattle.rv_judge.specs.Phases.{Fits, phase_of};
ghost use Rattle.rv_judge.specs.Conclusions.{AcceptsRecords, IsSound};

use crate::held::verdict_on;
use crate::laws::verdicts_conclude;
use crate::phases::{Extent, Machine};
use crate::subject::Subject;
use rv_base::Verdict;
use rv_base::layout::HEADER_BYTES;
use rv_digest::Lanes;
use rv_program::{Program, check_front};

/// The machine in front of the first shard.
pub(crate) fn first(subject: &Subject<'_, '_>) -> Machine
    ensures phase { (lanes : LanesOf) → phase_of lanes result ≡ first_phase true tiny_lanes subject.now.elf subject.now.input subject.now.header }
    ensures fits { Fits subject.now result }
{
    Machine::at_shards(subject.header().shards, 0, subject.first_place())
}

/// The verdict by the definition.
fn verdict_of<L: Lanes>(program: &Program<'_>, file: &[u8], lanes: &L) -> Verdict
    ensures { result ≡ verdict_is L.lanes program.now.elf program.now.input file.now }
{
    match check_front(program, file) {
        Ok(header) => {
            let (output, shards) = file[HEADER_BYTES..].split_at(header.length as usize);
            let subject = Subject::new(program, &header, output);
            let mut machine = first(&subject);
            let stop = machine.read(&subject, lanes, Extent::File, shards);
            verdict_on(&header, stop.refusal)
        }
        Err(refusal) => Verdict::Refuse(refusal),
    }
}

/// What the laws of verdicts say of a program that is open, and a file.
fn concludes(program: &Program<'_>, file: &[u8])
    ensures sound { (lanes : LanesOf) → IsSound lanes program.now.elf program.now.input file.now (verdict_is lanes program.now.elf program.now.input file.now) }
    ensures accepts { (lanes : LanesOf) → AcceptsRecords lanes program.now.elf program.now.input file.now (verdict_is lanes program.now.elf program.now.input file.now) }
{
    verdicts_conclude();
    let _image = program.image();
    let _input = program.input();
}

/// The verdict on a record file, for a program and its input: the steps, the shards and the end that it states, or the first check
/// that it breaks, by shard, row and rule. One pass over the file, and no memory is taken.
pub fn judge<L: Lanes>(program: &Program<'_>, file: &[u8], lanes: L) -> Verdict
    ensures verdict { result ≡ verdict_is L.lanes program.now.elf program.now.input file.now }
    // What is accepted is the record of the run, or a collision of the digest.
    ensures sound { IsSound L.lanes program.now.elf program.now.input file.now result }
    // The record of a run is accepted.
    ensures accepts { AcceptsRecords L.lanes program.now.elf program.now.input file.now result }
{
    concludes(program, file);
    verdict_of(program, file, &lanes)
}
