//! The upgraded file.

ghost use Rattle.std.specs.Prelude.{◌≡◌, ◌<◌, length, IfOk};
ghost use Rattle.rv_upgrade.specs.Upgrade.{upgraded};

use rv_base::layout::VERSION_AT;
use rv_base::{Bytes, NoMemory};
use std::alloc::{AllocError, Global};

fn with_new_version(alloc: Global, file: &[u8]) -> Result<Vec<u8>, AllocError>
    requires { VERSION_AT < length file.now }
    ensures { IfOk result (λ v. v.items ≡ upgraded file.now) }
{
    let mut bytes = file.to_vec(alloc)?;
    bytes[VERSION_AT] = b'2';
    Ok(bytes)
}

/// The file with the version's digit made 2, which is its byte 7: all other bytes, and their number, stay.
pub fn upgrade(alloc: Global, file: &[u8]) -> Result<Bytes, NoMemory>
    requires { VERSION_AT < length file.now }
    ensures { IfOk result (λ bytes. bytes ≡ upgraded file.now) }
{
    Ok(Bytes::of(with_new_version(alloc, file)?))
}
