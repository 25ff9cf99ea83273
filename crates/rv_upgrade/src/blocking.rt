//! Why a record file has no upgrade.

ghost use Rattle.std.specs.Prelude.{◌≡◌, ◌+◌, ◌-◌, ◌<◌, ◌≤◌, ℕ, List, ◌++◌, length, drop};
ghost use Rattle.std.specs.List.{flat_map, AllByRecursion};
ghost use Rattle.rv_spec.specs.Trace.{Row};
ghost use Rattle.rv_spec.specs.Record.{row_bytes};
ghost use Rattle.rv_spec.specs.Grammar.{RowFits};
ghost use Rattle.rv_upgrade.specs.Upgrade.{blocked as blocked_of, first_old, last_word as last_word_of};
ghost use Rattle.rv_upgrade.specs.LastShard.{BeginWithLast};

use crate::reasons::Blocked;
use rv_base::layout::HEAD_BYTES;
use rv_base::machine::ILLEGAL_WORD;
use rv_decode::decode_atomic;
use rv_file::{Parsed, behind_shard, rows_of};
use rv_row::{RowRead, read_row};

/// The bytes behind some rows.
fn behind_rows(bytes: &[u8], rows: u32) -> &[u8]
    ensures { (rs : List Row) (tail : List ℕ) → AllByRecursion RowFits rs → rows ≤ length rs → bytes.now ≡ flat_map row_bytes rs ++ tail
        → result.now ≡ flat_map row_bytes (drop rows rs) ++ tail }
{
    let mut rest = bytes;
    for _ in 0..rows {
        let RowRead::Row(_, length) = read_row(rest) else {
            return rest;
        };
        rest = &rest[length..];
    }
    rest
}

/// The old value of the first access of the row at the front of the bytes.
fn first_value(bytes: &[u8]) -> u32
    ensures { (r : Row) (rest : List ℕ) → RowFits r → bytes.now ≡ row_bytes r ++ rest → result ≡ first_old r }
{
    let RowRead::Row(row, _) = read_row(bytes) else {
        return 0;
    };
    match row.accesses.as_slice().first() {
        Some(access) => access.old,
        None => 0,
    }
}

/// The bytes that begin with the last shard.
fn last_shard<'a>(parsed: &Parsed<'a>) -> &'a [u8]
    ensures { BeginWithLast parsed.now result.now }
{
    let shards = parsed.header().shards;
    let mut rest = parsed.body();
    for _ in 1..shards {
        rest = behind_shard(rest);
    }
    rest
}

/// The word that the last step fetched, as the last row shows it.
fn last_word(parsed: &Parsed<'_>) -> u32
    ensures { result ≡ last_word_of parsed.now }
{
    let header = parsed.header();
    let shard = last_shard(parsed);
    let last = header.shards - 1;
    let rows = rows_of(&header, last);
    let before = rows - 1;
    let row = behind_rows(&shard[HEAD_BYTES..], before);
    first_value(row)
}

/// Why a record file of good form has no upgrade, or None where it has one. It is New where its version is 2. It is Atomic where its version is 1, its end is
/// that of an illegal word, and the word that its last row shows, the old value of the row's first access, is one of extension A. Goes over the heads of all
/// shards and the rows of the last; it takes no memory.
#[tactic(auto, unfolding(crate::specs::Upgrade::blocked))]
pub fn blocked(parsed: &Parsed<'_>) -> Option<Blocked>
    ensures { result ≡ blocked_of parsed.now }
{
    let header = parsed.header();
    if header.version == 2 {
        return Some(Blocked::New);
    }
    if header.end.kind != ILLEGAL_WORD {
        return None;
    }
    let word = last_word(parsed);
    decode_atomic(word)?;
    Some(Blocked::Atomic { word })
}
