//! The laws of upgraded files.

ghost use Rattle.rv_upgrade.specs.Laws.{UpgradedIsAccepted, UpgradedIsTheRecord, UpgradedIsRecordOrCollision};

use rv_sound::{completeness, reading, soundness};

/// A file of version 1 that is accepted for a program and an input, and that nothing blocks, is accepted as upgraded, with the same steps, shards and end:
/// its parts are the same but for the version, and so are the two lists of tuples, all that is read and all that is written.
pub fn upgraded_is_accepted()
    ensures { UpgradedIsAccepted }
{
    reading();
}

/// The version 1 record of a program's run on an input, if nothing blocks it, is as upgraded the version 2 record of that run at the same shard size:
/// by version 2 the program ends on the input in as many steps and with the same end, and the upgraded file is, byte for byte, the record.
pub fn upgraded_is_the_record()
    ensures { UpgradedIsTheRecord }
{
    reading();
    soundness();
    completeness();
}

/// A file that is accepted for a program and an input, and that nothing blocks, and the upgraded file are the records of the program's runs on the input
/// by version 1 and by version 2, in the steps of the file's header, at its shard size and with its end; or both are collisions.
pub fn upgraded_is_record_or_collision()
    ensures { UpgradedIsRecordOrCollision }
{
    reading();
    soundness();
}
