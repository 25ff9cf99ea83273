//! The verdict on a record file that comes in pieces.

ghost use Rattle.std.specs.Prelude.{◌≡◌, ℕ, List, [], ◌++◌, IfSome, Some, None};
ghost use Rattle.rv_base.specs.declared.rules.TheConstants.{SHORT};
ghost use Rattle.rv_base.specs.declared.record.Verdict.TheVariants.{Refuse};
ghost use Rattle.rv_spec.specs.Digest.{Lanes as LanesOf};
ghost use Rattle.rv_spec.specs.Elf.{first_fault};
ghost use Rattle.rv_spec.specs.Words.{AreBytes};
ghost use Rattle.rv_rules.specs.Verdict.{verdict as verdict_is};
ghost use Rattle.rv_judge.specs.Held.{IsState, IsWholeFront, comes, state_of};
ghost use Rattle.rv_judge.specs.Conclusions.{AcceptsRecords, IsSound};

use crate::held::Reading;
use crate::laws::verdicts_conclude;
use crate::subject::Subject;
use crate::whole::first;
use arrayvec::ArrayVec;
use rv_base::layout::HEADER_BYTES;
use rv_base::{Refusal, Verdict};
use rv_digest::Lanes;
use rv_program::{Program, check_front};
use std::marker::Model;

/// What is held behind the front of a file.
fn opened<'a>(program: &'a Program<'a>, front: &'a [u8]) -> Result<Reading<'a, 'a>, Refusal>
    requires { IsWholeFront front.now }
    ensures is { (lanes : LanesOf) → IsState lanes result }
    ensures comes { (lanes : LanesOf) (rest : List ℕ) → comes lanes (state_of lanes result) rest ≡ verdict_is lanes program.now.elf program.now.input (front.now ++ rest) }
{
    match check_front(program, front) {
        Ok(header) => {
            let subject = Subject::new(program, &header, &front[HEADER_BYTES..]);
            Ok(Reading {
                machine: first(&subject),
                subject,
                buffer: ArrayVec::new(),
            })
        }
        Err(refusal) => Err(refusal),
    }
}

/// A judge of a record file that comes in pieces. It holds a fixed state, at most 256 bytes of the file, and takes no memory. Contracts see what
/// comes of it, for each list of bytes that may follow.
#[derive(Drop)]
pub struct Judge<'a, L: Lanes> {
    lanes: L,
    state: Result<Reading<'a, 'a>, Refusal>,
}

impl<'a, L: Lanes> Model for Judge<'a, L> {
    ghost use Rattle.std.specs.Prelude.{Result};
    ghost use Rattle.rv_base.specs.declared.record.Refusal.{Refusal};
    ghost use Rattle.rv_judge.specs.Held.{Held, IsState, state_of};

    ghost Value = { Result Held Refusal };

    ghost view = { λ s. state_of L.lanes s.state };

    ghost invariant = { λ s. IsState L.lanes s.state };
}

impl<'a, L: Lanes> Judge<'a, L> {
    /// A judge that has got the front of a file: the header's 173 bytes and, where `rv_file::front_len` of them is more, the output.
    pub fn new(program: &'a Program<'a>, front: &'a [u8], lanes: L) -> Judge<'a, L>
        requires { IsWholeFront front.now }
        ensures { (rest : List ℕ) → comes L.lanes result rest ≡ verdict_is L.lanes program.now.elf program.now.input (front.now ++ rest) }
    {
        let state = opened(program, front);
        Judge { lanes, state }
    }

    /// Takes the bytes that follow.
    pub fn feed(&mut self, piece: &[u8])
        ensures { (rest : List ℕ) → comes L.lanes self.new rest ≡ comes L.lanes self.old (piece.now ++ rest) }
    {
        if let Ok(reading) = &mut self.state {
            if let Err(refusal) = reading.feed(&self.lanes, piece) {
                self.state = Err(refusal);
            }
        }
    }

    /// The refusal by another rule than 1 that the bytes so far have as a whole file. Bytes that follow don't change it.
    pub fn refused(&self) -> Option<Refusal>
        ensures stays { IfSome result (λ r. (¬ (r.rule ≡ SHORT)) × ((rest : List ℕ) → comes L.lanes self.now rest ≡ Refuse r)) }
        ensures only { (r : Refusal) → comes L.lanes self.now [] ≡ Refuse r → ¬ (r.rule ≡ SHORT) → result ≡ Some r }
    {
        match &self.state {
            Ok(_) => None,
            Err(refusal) => Some(*refusal),
        }
    }

    /// The verdict on the front and all pieces, in order.
    pub fn finish(self) -> Verdict
        ensures verdict { result ≡ comes L.lanes self.entry [] }
        // Where that is the verdict on a file, what is accepted is the record of the run, or a collision of the digest.
        ensures sound { (elf input file : List ℕ) → first_fault elf ≡ None → AreBytes elf → AreBytes input → AreBytes file
            → comes L.lanes self.entry [] ≡ verdict_is L.lanes elf input file → IsSound L.lanes elf input file result }
        // Then the record of a run is accepted.
        ensures accepts { (elf input file : List ℕ) → AreBytes elf → AreBytes input
            → comes L.lanes self.entry [] ≡ verdict_is L.lanes elf input file → AcceptsRecords L.lanes elf input file result }
    {
        verdicts_conclude();
        self.verdict()
    }

    /// The verdict by the definition.
    fn verdict(self) -> Verdict
        ensures { result ≡ comes L.lanes self.entry [] }
    {
        let Judge { lanes, state } = self;
        match state {
            Ok(reading) => reading.finish(&lanes),
            Err(refusal) => Verdict::Refuse(refusal),
        }
    }
}
