//! Numbers in a file, the least significant byte first.

ghost use Rattle.std.specs.Prelude.{◌≡◌, ◌+◌, ◌*◌, ◌^◌, ◌<◌, ◌≤◌, length};
ghost use Rattle.std.specs.Int.{w16, w32, w64};
ghost use Rattle.rv_base.specs.LittleEndian.{u16_at, u32_at, u64_at, SetsNumber, time_of as time_is};

use crate::cells::TIMES_PER_STEP;

/// The number of two bytes at a place, the least significant first.
pub fn get16(bytes: &[u8], at: usize) -> u16
    requires { at + 2 ≤ length bytes.now }
    ensures { result ≡ u16_at bytes.now at }
{
    u16::from_le_bytes([bytes[at], bytes[at + 1]])
}

/// The number of four bytes at a place.
pub fn get32(bytes: &[u8], at: usize) -> u32
    requires { at + 4 ≤ length bytes.now }
    ensures { result ≡ u32_at bytes.now at }
{
    u32::from_le_bytes([bytes[at], bytes[at + 1], bytes[at + 2], bytes[at + 3]])
}

/// The number of eight bytes at a place.
pub fn get64(bytes: &[u8], at: usize) -> u64
    requires { at + 8 ≤ length bytes.now }
    ensures { result ≡ u64_at bytes.now at }
{
    u64::from_le_bytes([
        bytes[at],
        bytes[at + 1],
        bytes[at + 2],
        bytes[at + 3],
        bytes[at + 4],
        bytes[at + 5],
        bytes[at + 6],
        bytes[at + 7],
    ])
}

/// Writes a number of two bytes at a place, and changes no other byte.
pub fn set16(bytes: &mut [u8], at: usize, v: u16)
    requires { at + 2 ≤ length bytes.old }
    ensures { SetsNumber w16 at v bytes.old bytes.new }
{
    bytes[at..at + 2].copy_from_slice(&v.to_le_bytes());
}

/// Writes a number of four bytes at a place, and changes no other byte.
pub fn set32(bytes: &mut [u8], at: usize, v: u32)
    requires { at + 4 ≤ length bytes.old }
    ensures { SetsNumber w32 at v bytes.old bytes.new }
{
    bytes[at..at + 4].copy_from_slice(&v.to_le_bytes());
}

/// Writes a number of eight bytes at a place, and changes no other byte.
pub fn set64(bytes: &mut [u8], at: usize, v: u64)
    requires { at + 8 ≤ length bytes.old }
    ensures { SetsNumber w64 at v bytes.old bytes.new }
{
    bytes[at..at + 8].copy_from_slice(&v.to_le_bytes());
}

/// The time of a slot of a step.
pub fn time_of(step: u64, slot: u8) -> u64
    requires { step < 2 ^ 32 }
    ensures { result ≡ time_is step slot }
{
    TIMES_PER_STEP * step + slot as u64
}
