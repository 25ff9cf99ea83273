//! Laws of records in parts.

ghost use Rattle.rv_parts.specs.Cutting.{PartsAreFile};
ghost use Rattle.rv_parts.specs.Joining.{HeadsCover, SummariesTellVerdict};
ghost use Rattle.rv_parts.specs.RecordInParts.{CutPartsHaveNoFault, CutPartsTellVerdict};

/// Cut into any number of parts, a record's front and the bodies of all parts in order are the record.
pub fn parts_are_the_file()
    ensures { PartsAreFile }
{}

/// Cut into no more parts than there are shards, the heads of the parts are in order, have a shard each at least, and cover the shards.
pub fn heads_cover()
    ensures { HeadsCover }
{}

/// Where no part has a fault, the verdict by the summaries of all parts is the verdict on the front with all bodies behind it, in order.
pub fn summaries_tell_the_verdict()
    ensures { SummariesTellVerdict }
{}

/// No part of a file of good form has a fault, whatever the program and the input. Cut into no more parts than there are shards, each part's
/// head is read from its bytes and says which part it is, and its front is the file's. In each part but the last the shards end where its
/// bytes do, or a check of another rule than 1 is broken before, so `summarize` never answers `Cut`.
pub fn cut_parts_have_no_fault()
    ensures { CutPartsHaveNoFault }
{}

/// The verdict by the summaries of all parts of a file of good form is the verdict on the file, where no check of its front is broken.
pub fn cut_parts_tell_the_verdict()
    ensures { CutPartsTellVerdict }
{}
