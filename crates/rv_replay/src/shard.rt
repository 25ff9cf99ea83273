//! The piece of a shard, from its start.

ghost use Rattle.std.specs.Prelude.{◌≡◌, ◌+◌, ◌*◌, ◌^◌, ◌<◌, ◌≤◌, ◌++◌, ℕ, drop, length, IfOk};
ghost use Rattle.std.specs.Int.{div_ceil};
ghost use Rattle.rv_spec.specs.Digest.{set_digest_bytes};
ghost use Rattle.rv_spec.specs.Record.{head_bytes};
ghost use Rattle.rv_point.specs.Start.{IsStart, piece, shard_start};
ghost use Rattle.rv_replay.specs.Making.{HasMade, IsBegun, IsStartOf};
ghost use Rattle.rv_replay.specs.Piece.{piece_of, piece_view, shard_piece};

use crate::rows::Making;
use rv_base::layout::{ACCESS_BYTES, DIGESTS_BYTES, HEAD_BYTES, ROW_BYTES};
use rv_base::{Bytes, NoMemory, Place};
use rv_book::Piece;
use rv_digest::{Lanes, SetDigest};
use rv_elf::Image;
use rv_file::{ShardHead, write_head};
use rv_isa::Hart;
use rv_pairs::Pairing;
use rv_point::{Points, ShardStart};
use std::alloc::Global;

/// The piece of a shard of the run of a program on an input: its bytes in the record, its digests by the given
/// lanes, and the place after it.
pub fn replay_start<L: Lanes>(
    alloc: Global,
    image: &Image<'_>,
    input: &[u8],
    start: &ShardStart,
    lanes: &L,
) -> Result<Piece, NoMemory>
    requires { IsStart image.now input.now start.now }
    ensures made { IfOk result (λ p. p ≡ piece_of L.lanes image.now input.now start.now.index start.now.step start.now.rows) }
    ensures shard { (size j : ℕ) → start.now ≡ shard_start image.now input.now size j → IfOk result (λ p. piece_view p ≡ piece L.lanes image.now input.now size j) }
{
    // it is large, and so made where it stays
    let mut pairing = Pairing::new();
    let mut making = begin(alloc, image, input, start)?;
    making.make_rows(lanes, &mut pairing, start.step, start.rows)?;
    finish(making, &pairing, start, lanes)
}

/// The accesses of a row that most rows don't exceed.
const USUAL_ACCESSES: usize = 4;

/// The bytes that a shard of so many rows seldom exceeds.
fn usual_bytes(rows: u32) -> usize {
    HEAD_BYTES + DIGESTS_BYTES + rows as usize * (ROW_BYTES + ACCESS_BYTES * USUAL_ACCESSES)
}

/// A shard before its first row, with room for its head.
fn begin<'a>(
    alloc: Global,
    image: &Image<'a>,
    input: &'a [u8],
    start: &ShardStart,
) -> Result<Making<'a>, NoMemory>
    requires { IsStart image.now input.now start.now }
    ensures { IfOk result (IsBegun image.now input.now start.now) }
{
    let image = image.copy();
    let hart = Hart::resume(alloc, &image, input, start.place, start.cells.list())?;
    let mut bytes = Vec::with_capacity(alloc, usual_bytes(start.rows))?;
    bytes.extend_from_slice(&[0; HEAD_BYTES])?;
    Ok(Making {
        hart,
        bytes,
        put: 0,
    })
}

/// Writes the head before the rows and the digests behind them.
fn finish<L: Lanes>(
    making: Making<'_>,
    pairing: &Pairing,
    start: &ShardStart,
    lanes: &L,
) -> Result<Piece, NoMemory>
    requires start { IsStartOf making.hart.cells.image making.hart.input start.now }
    requires made { HasMade L.lanes making.hart.cells.image making.hart.input start.now.step start.now.rows start.now.rows making pairing.now }
    ensures { IfOk result (λ p. p ≡ piece_of L.lanes making.entry.hart.cells.image making.entry.hart.input start.now.index start.now.step start.now.rows) }
{
    let head = ShardHead {
        index: start.index,
        rows: start.rows,
        pc: start.place.pc,
        input: start.place.input,
        output: start.place.output,
        bytes: (making.bytes.len() - HEAD_BYTES) as u32,
    };
    let place = Place {
        pc: making.hart.pc(),
        input: making.hart.position(),
        output: start.place.output + making.put,
    };
    let (reads, writes) = pairing.digests(lanes);
    let bytes = spell(making.bytes, &head, &reads, &writes)?;
    Ok(Piece {
        index: start.index,
        bytes: Bytes::of(bytes),
        reads,
        writes,
        place,
        fault: None,
    })
}

/// The bytes of a shard, from those of its rows, before which there is room for the head.
fn spell(
    mut bytes: Vec<u8>,
    head: &ShardHead,
    reads: &SetDigest,
    writes: &SetDigest,
) -> Result<Vec<u8>, NoMemory>
    requires { HEAD_BYTES ≤ length bytes.items }
    ensures { IfOk result (λ b. b.items ≡ head_bytes head.now ++ drop HEAD_BYTES bytes.items ++ set_digest_bytes reads.now.lanes ++ set_digest_bytes writes.now.lanes) }
{
    set_head(&mut bytes, &write_head(head));
    bytes.extend_from_slice(&reads.to_bytes())?;
    bytes.extend_from_slice(&writes.to_bytes())?;
    Ok(bytes)
}

/// Writes a head into its place.
fn set_head(bytes: &mut [u8], head: &[u8; HEAD_BYTES])
    requires { HEAD_BYTES ≤ length bytes.old }
    ensures { bytes.new ≡ head.now ++ drop HEAD_BYTES bytes.old }
{
    bytes[..HEAD_BYTES].copy_from_slice(head);
}

/// The piece of a shard of a run that was gone through.
pub fn replay<L: Lanes>(
    alloc: Global,
    points: &Points<'_>,
    i: u32,
    lanes: &L,
) -> Result<Piece, NoMemory>
    requires { i < div_ceil points.now.steps points.now.size }
    ensures { IfOk result (λ p. p ≡ shard_piece L.lanes points.now.image points.now.input points.now.size i) }
{
    match points.shard_start(i) {
        Some(start) => replay_start(alloc, points.image(), points.input(), start, lanes),
        None => unreachable!(),
    }
}
