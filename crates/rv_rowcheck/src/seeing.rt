//! The old values that a row shows.

ghost use Rattle.std.specs.Prelude.{◌≡◌};
ghost use Rattle.rv_rules.specs.RowRules as rules;
ghost use Rattle.rv_rowcheck.specs.RowChecking.{OldValues};

use rv_base::cells::{
    A1_SLOT, A2_SLOT, FETCH_SLOT, MEMORY_SLOT, RD_SLOT, RESERVATION_SLOT, RS1_SLOT, RS2_SLOT, SLOTS,
};
use rv_base::{Access, Seen};

/// The old value of the first access in each slot, or 0. The last of the accesses is looked at first, so that the first one stays.
#[inline(always)]
fn old_values(accesses: &[Access]) -> [u32; SLOTS + 1]
    ensures { OldValues accesses.now result }
{
    let mut old = [0; SLOTS + 1];
    for access in accesses.iter().rev() {
        let slot = usize::from(access.slot);
        if slot <= SLOTS {
            old[slot] = access.old;
        }
    }
    old
}

/// The old value in each of the slots 1 to 8: that of the first access there, or 0. An access in another slot counts for nothing.
#[inline(always)]
pub(crate) fn seen(accesses: &[Access]) -> Seen
    ensures { result ≡ rules.seen accesses.now }
{
    let old = old_values(accesses);
    Seen {
        s1: old[usize::from(FETCH_SLOT)],
        s2: old[usize::from(RS1_SLOT)],
        s3: old[usize::from(RS2_SLOT)],
        s4: old[usize::from(A1_SLOT)],
        s5: old[usize::from(A2_SLOT)],
        s6: old[usize::from(MEMORY_SLOT)],
        s7: old[usize::from(RD_SLOT)],
        s8: old[usize::from(RESERVATION_SLOT)],
    }
}
