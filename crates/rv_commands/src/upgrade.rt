//! `upgrade`: writes the record of version 2 of the run that a record of version 1 states.

ghost use Rattle.std.specs.Prelude.{◌≡◌, IfOk};
ghost use Rattle.rv_plan.specs.FileCalls.{Performs};
ghost use Rattle.rv_commands.specs.CommandLine as command;
ghost use Rattle.rv_commands.specs.Commands.{upgrade_words};
ghost use Rattle.rv_commands.specs.Headline.{Upgraded};
ghost use Rattle.rv_commands.specs.Outcome.{plan_of, version_fault as version_fault_of};
ghost use Rattle.rv_commands.specs.Upgrading.{UpgradesFile};

use crate::check::tell_verdict;
use crate::commands::Upgrade;
use crate::lines::upgraded_line;
use rv_base::Verdict;
use rv_base::limits::RECORD_LIMIT;
use rv_file::parse;
use rv_host::Shelf;
use rv_plan::{DueFile, Fault, Limited, Told, VersionFault, read_within, write_files};
use rv_sound::reading;
use rv_upgrade::{Blocked, blocked, upgraded_is_accepted, upgraded_is_the_record};
use std::alloc::Global;

/// Writes the upgraded file of a record of good form that nothing blocks, and tells of it. It holds the record and its copy. All memory is taken
/// before the file is touched.
pub fn upgrade<S: Shelf>(alloc: Global, words: &Upgrade<'_>, shelf: &mut S) -> Result<Told, Fault>
    ensures performs { Performs (plan_of (command.upgrade (upgrade_words words.now))) (S.view shelf.old) (S.view shelf.new) result }
    ensures headline { IfOk result (λ told. told.status ≡ 0 → Upgraded (S.view shelf.old) (S.view shelf.new) (upgrade_words words.now)) }
{
    let file = read_within(alloc, shelf, words.old, RECORD_LIMIT, Limited::Record)?;
    upgrade_file(alloc, shelf, words, file.list())
}

/// Upgrades a record file, and writes what it becomes.
fn upgrade_file<S: Shelf>(
    alloc: Global,
    shelf: &mut S,
    words: &Upgrade<'_>,
    file: &[u8],
) -> Result<Told, Fault>
    ensures { UpgradesFile (upgrade_words words.now) file.now (S.view shelf.old) (S.view shelf.new) result }
{
    reading();
    upgraded_is_accepted();
    upgraded_is_the_record();
    let parsed = match parse(file) {
        Ok(parsed) => parsed,
        Err(refusal) => return tell_verdict(alloc, Verdict::Refuse(refusal)),
    };
    if let Some(reason) = blocked(&parsed) {
        return Err(Fault::Version(version_fault(reason)));
    }
    let Ok(new) = rv_upgrade::upgrade(alloc, file) else {
        return Err(Fault::Memory);
    };
    let steps = parsed.header().steps;
    let Ok(text) = upgraded_line(alloc, steps, new.list().len()) else {
        return Err(Fault::Memory);
    };
    let due = DueFile {
        name: words.target,
        parts: &[new.list()],
    };
    write_files(shelf, &[due])?;
    Ok(Told { status: 0, text })
}

/// The fault of a record that has no upgrade.
fn version_fault(reason: Blocked) -> VersionFault
    ensures { result ≡ version_fault_of reason }
{
    match reason {
        Blocked::New => VersionFault::New,
        Blocked::Atomic { word } => VersionFault::Atomic(word),
    }
}
