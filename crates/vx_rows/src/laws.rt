//! The laws of derivations. Each is the contract of a function that does nothing.

ghost use Rattle.vx_rows.specs.Laws.{FoundAnyWay, ReadThroughValues, FaultyReadIsFault, FineReadsGiveValue, ReadsDecideValue, BytesDecideValue, BytesGiveEachRow, BytesGiveFitting, LackingIsCaused, TornLacksValues, NumbersDontCount, ReadsAreRenumbered, NoneGivenIsSame, CertifiedIsSame, GivenReadsNoMore};

/// What is read is the same whatever the way to it, and inside a dictionary it is come to through its values.
pub fn ways_tell_the_dictionary()
    ensures any_way { FoundAnyWay }
    ensures through_values { ReadThroughValues }
{}

/// What reads say of values.
pub fn reads_decide_values()
    ensures faulty { FaultyReadIsFault }
    ensures fine { FineReadsGiveValue }
    ensures agreeing { ReadsDecideValue }
    ensures bytes { BytesDecideValue }
{}

/// What leaves have by the bytes of their segments, and when they lack values.
pub fn bytes_give_leaves()
    ensures each_row { BytesGiveEachRow }
    ensures fitting { BytesGiveFitting }
    ensures lacking { LackingIsCaused }
    ensures torn { TornLacksValues }
{}

/// With other numbers for its dictionaries and lists a row is worth the same, and its reads are renumbered.
pub fn numbers_dont_count()
    ensures values { NumbersDontCount }
    ensures reads { ReadsAreRenumbered }
{}

/// Values that are handed in: none change nothing; those that would be read change no value; and whatever is
/// handed in, no cell is read that wasn't.
pub fn given_values_serve()
    ensures none { NoneGivenIsSame }
    ensures certified { CertifiedIsSame }
    ensures reads { GivenReadsNoMore }
{}
