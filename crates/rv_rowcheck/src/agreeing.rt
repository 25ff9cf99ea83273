//! A row beside its expected step, rule by rule.

ghost use Rattle.std.specs.Prelude.{◌≡◌, ◌<◌, ◌≤◌, ◌^◌, map, take, drop, length, bytes_eq, nat_lt, nat_eq, ◌||◌, ◌&&◌, ◌==◌, is_none, is_some};
ghost use Rattle.std.specs.Int.{w32, to_le_bytes};
ghost use Rattle.std.specs.List.{list_all, starts_with};
ghost use Rattle.rv_spec.specs.Cells.{time_of as time_is};
ghost use Rattle.rv_rules.specs.RowRules as rules;

use rv_base::{Access, End, Touch, time_of};

/// The accesses are in the expected slots, in order.
pub(crate) fn slots_agree(accesses: &[Access], touches: &[Touch]) -> bool
    ensures { result ≡ bytes_eq (map (λ a. a.slot) accesses.now) (map (λ t. t.slot) touches.now) }
{
    accesses
        .iter()
        .map(|a| a.slot)
        .eq(touches.iter().map(|t| t.slot))
}

/// The accesses are of the expected cells, in order.
pub(crate) fn cells_agree(accesses: &[Access], touches: &[Touch]) -> bool
    ensures { result ≡ bytes_eq (map (λ a. a.cell) accesses.now) (map (λ t. t.cell) touches.now) }
{
    accesses
        .iter()
        .map(|a| a.cell)
        .eq(touches.iter().map(|t| t.cell))
}

/// The accesses write the expected values, in order. That of a slot that only reads is its old value.
pub(crate) fn values_agree(accesses: &[Access], touches: &[Touch]) -> bool
    ensures { result ≡ bytes_eq (map (λ a. a.new) accesses.now) (map (λ t. t.new) touches.now) }
{
    accesses
        .iter()
        .map(|a| a.new)
        .eq(touches.iter().map(|t| t.new))
}

/// Each access reads a time that is before its own.
pub(crate) fn times_are_earlier(accesses: &[Access], step: u64) -> bool
    requires { step < 2 ^ 32 }
    ensures { result ≡ list_all (λ a. nat_lt a.prev (time_is step a.slot)) accesses.now }
{
    accesses.iter().all(|a| a.prev < time_of(step, a.slot))
}

/// An access is in the slot of a touch and of its cell, writes its value, and reads a time that is before its own.
fn agrees(access: &Access, touch: &Touch, step: u64) -> bool
    requires { step < 2 ^ 32 }
    ensures { result ≡ (access.now.slot == touch.now.slot && access.now.cell == touch.now.cell && access.now.new == touch.now.new && nat_lt access.now.prev (time_is step access.now.slot)) }
{
    access.slot == touch.slot
        && access.cell == touch.cell
        && access.new == touch.new
        && access.prev < time_of(step, access.slot)
}

/// Whether slots, cells, values and times all agree, in one pass. Which of them does not is asked only of a row that is refused.
#[inline(always)]
pub(crate) fn all_agree(accesses: &[Access], touches: &[Touch], step: u64) -> bool
    requires { step < 2 ^ 32 }
    ensures { result ≡ (bytes_eq (map (λ a. a.slot) accesses.now) (map (λ t. t.slot) touches.now)
        && bytes_eq (map (λ a. a.cell) accesses.now) (map (λ t. t.cell) touches.now)
        && bytes_eq (map (λ a. a.new) accesses.now) (map (λ t. t.new) touches.now)
        && list_all (λ a. nat_lt a.prev (time_is step a.slot)) accesses.now) }
{
    let mut left = touches;
    for access in accesses {
        let Some((touch, rest)) = left.split_first() else {
            return false;
        };
        if !agrees(access, touch, step) {
            return false;
        }
        left = rest;
    }
    left.is_empty()
}

/// The first `count` bytes of a word, the least significant first, are those of the output from a position on.
pub(crate) fn bytes_agree(output: &[u8], at: u64, word: u32, count: u32) -> bool
    requires within { at ≤ length output.now }
    requires most { count ≤ 4 }
    ensures { result ≡ starts_with nat_eq (drop at output.now) (take count (to_le_bytes w32 word)) }
{
    if count == 0 {
        return true;
    }
    let put = word.to_le_bytes();
    output[at as usize..].starts_with(&put[..count as usize])
}

/// The run doesn't end before the file's last row, which alone has the header's end.
pub(crate) fn ends_no_earlier(last: Option<End>, end: Option<End>) -> bool
    ensures { result ≡ (is_none end || is_some last) }
{
    end.is_none() || last.is_some()
}

/// The run ends as the header says, where this is the file's last row.
pub(crate) fn ends_as(last: Option<End>, end: Option<End>) -> bool
    ensures { result ≡ rules.ends_as last end }
{
    match last {
        Some(_) => end == last,
        None => true,
    }
}
