//! The rows of a shard, made one after another.

ghost use Rattle.std.specs.Prelude.{◌+◌, ◌^◌, ◌≤◌, OnOk};
ghost use Rattle.rv_spec.specs.Words.{AreBytes};
ghost use Rattle.rv_rules.specs.Agreement.{IsProgram};
ghost use Rattle.rv_replay.specs.Making.{HasMade};

use rv_base::NoMemory;
use rv_digest::Lanes;
use rv_isa::Hart;
use rv_pairs::Pairing;
use rv_row::{no_row, write_row};

/// A shard in the making: the hart, the bytes, and how many bytes of output were put.
#[derive(Drop)]
pub(crate) struct Making<'a> {
    pub hart: Hart<'a>,
    pub bytes: Vec<u8>,
    pub put: u64,
}

impl Making<'_> {
    /// Takes steps from a number on, appends their rows, and pairs what they read and write.
    pub fn make_rows<L: Lanes>(
        &mut self,
        lanes: &L,
        pairing: &mut Pairing,
        first: u64,
        count: u32,
    ) -> Result<(), NoMemory>
        requires program { IsProgram self.old.hart.cells.image }
        requires bytes { AreBytes self.old.hart.input }
        requires number { first + count ≤ 2 ^ 32 }
        requires made { HasMade L.lanes self.old.hart.cells.image self.old.hart.input first count 0 self.old pairing.old }
        ensures { OnOk result (HasMade L.lanes self.old.hart.cells.image self.old.hart.input first count count self.new pairing.new) }
    {
        let mut row = no_row();
        for done in 0..count {
            let step = first + u64::from(done);
            let taken = self.hart.step(step, &mut row)?;
            write_row(&row, &mut self.bytes)?;
            pairing.accesses(lanes, step, row.accesses.as_slice());
            self.put += u64::from(taken.put);
        }
        Ok(())
    }
}
