//! Laws of the machine that reads a record file phase by phase, with running sums in place of
//! lists: it finds what the definition by whole parts finds, however the bytes are cut.
//!
//! Each law is the contract of a function that does nothing. They hold for every lanes, for both
//! versions, and for form alone as for a program and an input.

ghost use Rattle.rv_reading.specs.Judging.{CutsDontMatter, ExtentsAreStreams, FileStateWaits, FileStaysRefused, FrontIsJudged, FrontStaysRefused, InEachStream, JudgedIsRead, MachineIsStream, PiecesJoin, RefusalsStay, RefusedAtFront, StateTellsFile, StateTellsRefusals, StatesWait, VerdictBehindFront, VerdictIsTold};
ghost use Rattle.rv_reading.specs.Machine.{InEachReading};
ghost use Rattle.rv_reading.specs.Parts.{EntriesAreRead, RowsAreRead, ShardAloneIsRead, ShardsAloneAreRead, ShardsAreRead, TableAloneIsRead, WholeFileIsRead};

/// On a whole file the machine finds no broken check where the definition finds none, and else the
/// same first broken check, with its place; so its verdict is that of the definition.
pub fn file_is_judged()
    ensures found { JudgedIsRead }
    ensures verdict { VerdictIsTold }
{}

/// A file that begins with a header and its output is judged by these and then by what follows.
pub fn front_is_judged()
    ensures found { FrontIsJudged }
    ensures verdict { VerdictBehindFront }
{}

/// Where the checks of header and output are broken, the file is refused so. By another rule than
/// 1, whatever bytes follow.
pub fn front_is_refused()
    ensures whole { RefusedAtFront }
    ensures stays { FrontStaysRefused }
{}

/// Each step takes a byte at least, and what it found stays so, whatever bytes follow: in a whole
/// file, and in shards or the table alone.
pub fn machine_is_stream()
    ensures file { InEachReading MachineIsStream }
    ensures extents { InEachReading ExtentsAreStreams }
{}

/// Cuts don't matter to a stream: a piece and then another leave the state that both joined leave, and what
/// comes of a state behind a piece is what comes of the state before it with the piece in front.
pub fn cuts_dont_matter()
    ensures pieces { InEachStream PiecesJoin }
    ensures outcome { InEachStream CutsDontMatter }
{}

/// From any phase on, a state is a refusal exactly where the bytes so far are refused by another rule
/// than 1, and then they are refused so, whatever follows. A state that is none waits, with fewer
/// than 256 bytes.
pub fn state_tells()
    ensures refusals { InEachStream StateTellsRefusals }
    ensures stay { InEachStream RefusalsStay }
    ensures waits { InEachReading StatesWait }
{}

/// Behind header and output and any bytes, the state is a refusal exactly where the file so far is
/// refused by another rule than 1, and then it is refused so, whatever follows. A state that is none
/// waits, with fewer than 256 bytes.
pub fn file_state_tells()
    ensures refusals { StateTellsFile }
    ensures stay { FileStaysRefused }
    ensures waits { FileStateWaits }
{}

/// In a reading of any extent, some rows, shards or entries of the table are read as by the
/// definition, and the machine goes on behind them with the place, the bytes of the rows and the
/// digests. The reading of a whole file ends nowhere before the file does.
pub fn parts_are_read()
    ensures whole { InEachReading WholeFileIsRead }
    ensures rows { InEachReading RowsAreRead }
    ensures shards { InEachReading ShardsAreRead }
    ensures entries { InEachReading EntriesAreRead }
{}

/// One shard alone, some shards alone, from any stated place, and the table alone are read as by the
/// definition: the refusal, or the place behind them, the digests of their tuples and the bytes left.
pub fn parts_alone_are_read()
    ensures shard { InEachReading ShardAloneIsRead }
    ensures shards { InEachReading ShardsAloneAreRead }
    ensures table { InEachReading TableAloneIsRead }
{}
