//! Words as an executable.

ghost use Rattle.std.specs.Prelude.{◌≡◌, ◌+◌, ◌*◌, ◌≤◌, None, length, IfOk};
ghost use Rattle.rv_spec.specs.Elf.{first_fault, image};
ghost use Rattle.rv_elf.specs.Written.{words_bytes};
ghost use Rattle.rv_asm.specs.Executable.{executable as executable_of, HoldsWords};

use crate::assembling::Words;
use crate::limits::{CODE_START, SOURCE_LIMIT};
use rv_base::{Bytes, NoMemory};
use rv_elf::{Part, write};
use std::alloc::{AllocError, Global};

/// The executable whose one part has these words from address 0x10000 on, where it begins.
pub fn executable(alloc: Global, words: &Words) -> Result<Bytes, NoMemory>
    ensures file { IfOk result (λ f. f ≡ executable_of words.now) }
    ensures size { IfOk result (λ f. length f ≡ 84 + 4 * length words.now) }
    ensures faultless { IfOk result (λ f. first_fault f ≡ None) }
    ensures words { IfOk result (λ f. HoldsWords words.now (image 1 f)) }
{
    Ok(Bytes::of(file(alloc, words.list())?))
}

fn file(alloc: Global, words: &[u32]) -> Result<Vec<u8>, NoMemory>
    requires { length words.now ≤ SOURCE_LIMIT }
    ensures file { IfOk result (λ f. f.items ≡ executable_of words.now) }
    ensures size { IfOk result (λ f. length f.items ≡ 84 + 4 * length words.now) }
    ensures faultless { IfOk result (λ f. first_fault f.items ≡ None) }
    ensures words { IfOk result (λ f. HoldsWords words.now (image 1 f.items)) }
{
    let bytes = bytes_of(alloc, words)?;
    let len = bytes.len() as u32;
    let part = Part {
        addr: CODE_START,
        len,
        size: len,
    };
    write(alloc, CODE_START, &[part], &bytes)
}

/// The bytes of words, the least significant of each first.
fn bytes_of(alloc: Global, words: &[u32]) -> Result<Vec<u8>, AllocError>
    ensures { IfOk result (λ v. v.items ≡ words_bytes words.now) }
{
    let mut bytes = Vec::new(alloc);
    for word in words {
        bytes.extend_from_slice(&word.to_le_bytes())?;
    }
    Ok(bytes)
}
