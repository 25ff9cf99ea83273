//! The trial of a number and a size.

ghost use Rattle.std.specs.Prelude.{◌≡◌, IfOk, Some, take};
ghost use Rattle.std.specs.Int.{IsInRange, div_ceil};
ghost use Rattle.sha2.specs.Sha512.{sha512};
ghost use Rattle.rv_base.specs.declared.record.Verdict.TheVariants.{Accept};
ghost use Rattle.rv_spec.specs.Digest.{sha_lanes};
ghost use Rattle.rv_spec.specs.Conclusion.{HasRecord};
ghost use Rattle.rv_rules.specs.Verdict.{verdict};
ghost use Rattle.rv_trial.specs.Recording.{IsSurveyed, recorded};
ghost use Rattle.rv_trial.specs.Trials.{Accepted, shard_rows, trial as trial_of};

use crate::generated::{generated, opened};
use crate::recording::record_of;
use crate::summary::Trial;
use crate::surveyed::surveyed;
use rv_base::{NoMemory, Verdict};
use rv_digest::ShaLanes;
use rv_elf::laws::image_is_program;
use rv_isa::laws::ranges;
use rv_judge::judge;
use rv_point::Points;
use rv_program::Program;
use rv_replay::ShardTask;
use sha2::{Digest, Sha512};
use std::alloc::Global;

/// Runs the program of a number and a size (42 to 84,000, about as many steps), makes the record of its run at version 1 with 1,024 rows
/// a shard on this thread, judges it, and tells of both. The record is held in memory, 100 bytes or so a step.
pub fn trial(alloc: Global, number: u32, size: u32) -> Result<Trial, NoMemory>
    requires { IsInRange 42 84000 size }
    ensures told { IfOk result (λ t. trial_of number size ≡ Some t) }
    // The run exits with code 0, and its record is accepted.
    ensures accepted { IfOk result (Accepted number size) }
{
    let made = generated(alloc, number, size)?;
    let program = opened(&made);
    let points = surveyed(alloc, &program)?;
    let task = ShardTask::new(&points, ShaLanes);
    let recorded = record_of(alloc, &program, &points, &task)?;
    let file = recorded.file.as_slice();
    let (steps, shards) = accepted(&program, &points, file);
    Ok(Trial {
        steps,
        shards,
        accesses: recorded.accesses,
        output: points.output().len() as u64,
        bytes: file.len() as u64,
        record: fingerprint(file),
    })
}

/// The run of a program that was surveyed has a record within its limits.
fn has_record(program: &Program<'_>, points: &Points<'_>)
    requires { IsSurveyed program.now points.now }
    ensures { HasRecord 1 program.now.elf program.now.input shard_rows points.now.steps points.now.end }
{
    image_is_program();
    ranges();
    let _image = program.image();
    let _input = program.input();
}

/// The steps and the shards of the verdict on the record of a run.
fn accepted(program: &Program<'_>, points: &Points<'_>, file: &[u8]) -> (u64, u32)
    requires survey { IsSurveyed program.now points.now }
    requires file { file.now ≡ recorded program.now points.now }
    ensures told { result ≡ (points.now.steps, div_ceil points.now.steps shard_rows) }
    ensures verdict { verdict sha_lanes program.now.elf program.now.input file.now ≡ Accept points.now.steps (div_ceil points.now.steps shard_rows) points.now.end }
{
    has_record(program, points);
    match judge(program, file, ShaLanes) {
        Verdict::Accept { steps, shards, .. } => (steps, shards),
        Verdict::Refuse(_) => unreachable!(),
    }
}

/// The first 8 bytes of the SHA-512 of a file.
fn fingerprint(file: &[u8]) -> [u8; 8]
    ensures { result ≡ take 8 (sha512 file.now) }
{
    let hash = Sha512::digest(file);
    let mut first = [0; 8];
    first.copy_from_slice(&hash[..8]);
    first
}
