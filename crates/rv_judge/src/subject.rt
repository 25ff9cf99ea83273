//! What the part of a record file behind its header and output is judged against.

ghost use Rattle.std.specs.Prelude.{◌≡◌, ◌+◌, ◌*◌, ◌<◌, ◌^◌, true};
ghost use Rattle.rv_spec.specs.Record.{shard_rows};
ghost use Rattle.rv_rules.specs.Reading.{last_of, first_place as first_place_of};
ghost use Rattle.rv_reading.specs.Machine.{first_tuple as first_tuple_of};
ghost use Rattle.rv_rules.specs.Sums.{tiny_lanes};
ghost use Rattle.rv_rowcheck.specs.RowChecking.{IsPlace};
ghost use Rattle.rv_judge.specs.Subject.{IsWithin};

use rv_base::{End, Header, Place, TableEntry, Tuple};
use rv_file::rows_of;
use rv_program::Program;
use std::marker::Model;

/// The program and its input, and a record file's header and output.
#[derive(Drop)]
pub(crate) struct Subject<'c, 'p> {
    program: &'c Program<'p>,
    header: Header,
    output: &'c [u8],
}

impl<'c, 'p> Model for Subject<'c, 'p> {
    ghost use Rattle.rv_judge.specs.Subject.{Subject as SubjectOf, IsWithin};

    ghost Value = { SubjectOf };

    ghost view = { λ s. record { elf = s.program.now.elf; input = s.program.now.input; header = s.header; output = s.output.now } };

    ghost invariant = { λ s. IsWithin s.header };
}

impl<'c, 'p> Subject<'c, 'p> {
    /// The file of a program and its input, with the header that it states and its output's bytes.
    pub fn new(program: &'c Program<'p>, header: &Header, output: &'c [u8]) -> Self
        requires { IsWithin header.now }
        ensures { result ≡ record { elf = program.now.elf; input = program.now.input; header = header.now; output = output.now } }
    {
        Subject {
            program,
            header: *header,
            output,
        }
    }

    /// The header that the file states.
    pub fn header(&self) -> &Header
        ensures value { result.now ≡ self.now.header }
        ensures within { IsWithin self.now.header }
    {
        &self.header
    }

    /// The bytes of the input.
    pub fn input(&self) -> &[u8]
        ensures { result.now ≡ self.now.input }
    {
        self.program.input()
    }

    /// The output that the file states.
    pub fn output(&self) -> &[u8]
        ensures { result.now ≡ self.now.output }
    {
        self.output
    }

    /// The number of rows that a shard has.
    pub fn rows_of(&self, shard: u32) -> u32
        ensures { result ≡ shard_rows self.now.header.size self.now.header.steps shard }
    {
        rows_of(&self.header, shard)
    }

    /// The number of the step of a shard's row.
    pub fn step_of(&self, shard: u32, row: u32) -> u64
        requires shard { shard < self.now.header.shards }
        requires row { row < self.now.header.size }
        ensures value { result ≡ shard * self.now.header.size + row }
        ensures within { result < 2 ^ 32 }
    {
        u64::from(shard) * u64::from(self.header.size) + u64::from(row)
    }

    /// The end that the header states, where the step is the last.
    pub fn last(&self, step: u64) -> Option<End>
        requires { step < 2 ^ 32 }
        ensures { result ≡ last_of self.now.header step }
    {
        if step + 1 == self.header.steps {
            Some(self.header.end)
        } else {
            None
        }
    }

    /// The place before the first step.
    pub fn first_place(&self) -> Place
        ensures value { result ≡ first_place_of true tiny_lanes self.now.elf self.now.input self.now.header }
        ensures place { IsPlace result self.now.input self.now.output }
    {
        Place {
            pc: self.program.image().entry(),
            input: 0,
            output: 0,
        }
    }

    /// The tuple by which a cell of the table is written before the first step.
    pub fn first_tuple(&self, entry: &TableEntry) -> Tuple
        ensures { result ≡ first_tuple_of self.now.elf self.now.header entry.now }
    {
        Tuple {
            cell: entry.cell,
            value: self.program.initial_value(entry.cell),
            time: 0,
        }
    }
}
