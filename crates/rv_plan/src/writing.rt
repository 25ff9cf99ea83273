//! Files that are written one after the other, part by part.

ghost use Rattle.std.specs.Prelude.{map};
ghost use Rattle.std.specs.List.{flat_map};
ghost use Rattle.rv_plan.specs.FileCalls.{Writes, WritesFile, due_of};

use crate::faults::Fault;
use rv_host::Shelf;

/// A file that is due: its name, and its bytes in parts.
#[derive(Clone, Copy, Debug)]
pub struct DueFile<'a> {
    pub name: &'a str,
    pub parts: &'a [&'a [u8]],
}

/// Makes files, one after the other. The first failure ends it.
pub fn write_files<S: Shelf>(shelf: &mut S, files: &[DueFile<'_>]) -> Result<(), Fault>
    ensures { Writes (map due_of files.now) (S.view shelf.old) (S.view shelf.new) result }
{
    for file in files {
        write_parts(shelf, file.name, file.parts)?;
    }
    Ok(())
}

/// Makes a file of these parts, each added by one call.
fn write_parts<S: Shelf>(shelf: &mut S, name: &str, parts: &[&[u8]]) -> Result<(), Fault>
    ensures { WritesFile name.now (flat_map (λ part. part.now) parts.now) (S.view shelf.old) (S.view shelf.new) result }
{
    let Ok(()) = shelf.create(name) else {
        return Err(Fault::Write);
    };
    for part in parts {
        let Ok(()) = shelf.append(name, part) else {
            return Err(Fault::Write);
        };
    }
    Ok(())
}
