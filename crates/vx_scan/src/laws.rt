//! The laws of what scans answer. Each is the contract of a function that does nothing.

ghost use Rattle.vx_scan.specs.ChunkLaws.{UsedGivePiece, UsedHaveCause, WholeGivePiece, WholeHaveCause};
ghost use Rattle.vx_scan.specs.Counts.{AllSourcesAreCounted, AsksAgainAreCounted, AsksAreCounted, OneSourceIsCounted};
ghost use Rattle.vx_scan.specs.Laws.{AnswerIsOne, ValidScanIsAnswered, ValidScanBegins, FaultyReadIsNoAnswer, FaultIsNoAnswer, PiecesJoin, PiecesAnswer, PlanTextIsOne};
ghost use Rattle.vx_scan.specs.PlainCauses.{ErrorsHavePlainCauses};
ghost use Rattle.vx_scan.specs.SourceCounts.{FirstIsCountedAgain, SourceIsCounted, SourceIsCountedByChunks};

/// A valid scan is not refused before it begins, and has an answer; no scan has two. There is none where a row has a
/// faulty read, or where its meaning is a fault.
pub fn scans_have_answers()
    ensures valid { ValidScanIsAnswered }
    ensures begins { ValidScanBegins }
    ensures one { AnswerIsOne }
    ensures faulty { FaultyReadIsNoAnswer }
    ensures fault { FaultIsNoAnswer }
{}

/// Each error of a scan has its cause in the scan's own rows, by the file that all sources tell, or in what a source counted
/// from before the call to after it: a plain one, whichever chunk failed, on whichever source, and when.
pub fn errors_have_causes()
    ensures { ErrorsHavePlainCauses }
{}

/// The pieces of a scan, one after another, are its rows, and batches with their values are its answer.
pub fn pieces_are_the_answer()
    ensures rows { PiecesJoin }
    ensures answer { PiecesAnswer }
{}

/// The piece that [`run_chunk`](crate::run_chunk) gives is that with the values in place of whole ones that it used,
/// whatever else it was given, and an error has its cause with these. So where each of them is the whole values of its
/// plan by the file, the piece has the values that the plan itself has at the chunk's selected rows, and an error has its
/// cause with none.
pub fn used_values_serve_chunks()
    ensures pieces { UsedGivePiece }
    ensures whole_pieces { WholeGivePiece }
    ensures causes { UsedHaveCause }
    ensures whole_causes { WholeHaveCause }
{}

/// The plan of a projection has one text, whatever table it stands in.
pub fn plans_have_one_text()
    ensures { PlanTextIsOne }
{}

/// A source is asked for one range at most as often as pairs of a chunk and a segment reach it directly, and pairs of an
/// outermost dictionary and a segment through values, while its worker runs; and with one source that is all. With more, the
/// first one is asked again at most as often as there are such pairs of chunks that ran again, and of dictionaries; and all
/// together at most twice for each pair of a chunk, and for each pair of a dictionary once more than there are sources.
pub fn asks_are_counted()
    ensures worker { AsksAreCounted }
    ensures one { OneSourceIsCounted }
    ensures again { AsksAgainAreCounted }
    ensures all { AllSourcesAreCounted }
{}

/// The same of the sources of [`execute`](crate::execute), each by the chunks that its own worker claimed, and of the first
/// one once more by the chunks that ran again. And a source is asked at most as often as pairs of a claimed chunk and a
/// segment reach the range, directly or through values.
pub fn claimed_asks_are_counted()
    ensures worker { SourceIsCounted }
    ensures again { FirstIsCountedAgain }
    ensures chunks { SourceIsCountedByChunks }
{}
