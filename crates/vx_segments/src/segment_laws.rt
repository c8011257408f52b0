//! The laws of spelling and reading segments.

ghost use Rattle.vx_segments.specs.Laws.{HasOneSpelling, LeavesHaveOneMeaning, ReadsSpelled, SpelledLeavesAreRead, EncodingIsUndone, CodingsHaveOneSpelling, CodingsHaveOneMeaning, CodingsReadSpelled, SpelledCodingsAreRead};

/// The law of spellings: values have at most one, and bytes spell at most one list of values of a leaf
/// dtype.
pub fn one_spelling()
    ensures spelling { HasOneSpelling }
    ensures meaning { LeavesHaveOneMeaning }
{}

/// The law of reading: what is read from bytes is what they spell, and for a leaf dtype the other way
/// round.
pub fn decoded_is_spelled()
    ensures spelled { ReadsSpelled }
    ensures read { SpelledLeavesAreRead }
{}

/// The law of both directions: the values of a leaf dtype are read from their spelling.
pub fn decoding_undoes_encoding()
    ensures { EncodingIsUndone }
{}

/// The law of spellings in each coding: values have at most one, and bytes spell at most one list of values of a
/// leaf dtype.
pub fn one_spelling_as()
    ensures spelling { CodingsHaveOneSpelling }
    ensures meaning { CodingsHaveOneMeaning }
{}

/// The law of reading in each coding: what is read from bytes is what they spell, and for a leaf dtype the other way
/// round.
pub fn decoded_as_is_spelled()
    ensures spelled { CodingsReadSpelled }
    ensures read { SpelledCodingsAreRead }
{}
