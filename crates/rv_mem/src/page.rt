//! Words with times, and pages of them.

ghost use Rattle.std.specs.Prelude.{◌≡◌, ℕ, ◌+◌, ◌^◌, ◌≤◌, ◌++◌, OnOk, length};
ghost use Rattle.rv_mem.specs.Used.{used, listed_word};

use crate::word::Word;
use rv_base::{NoMemory, TableEntry};

/// Words in a row that are kept together.
#[derive(Drop)]
pub struct Page {
    pub words: [Word; 16],
    pub ghost full: { length words ≡ 16 },
}

/// Adds the used words of a list, whose cells begin with `first`, to a list of entries.
pub fn list_used(first: u32, words: &[Word], entries: &mut Vec<TableEntry>) -> Result<(), NoMemory>
    requires { first + length words.now ≤ 2 ^ 32 }
    ensures { OnOk result (entries.new.items ≡ entries.old.items ++ used (listed_word words.now first) first (length words.now)) }
{
    for (i, word) in words.iter().enumerate() {
        if word.time > 0 {
            let entry = TableEntry {
                cell: first + i as u32,
                value: word.value,
                time: word.time,
            };
            entries.push(entry)?;
        }
    }
    Ok(())
}
