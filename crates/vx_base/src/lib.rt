//! What every crate of the scan stands on: dtypes, values and columns, the reading of a segment, and the
//! outside world as three traits with their sources and sinks.
//!
//! - Dtypes and their parts: [`DType`], [`IntKind`], [`Nullability`], [`Fields`], [`Field`], [`Element`],
//!   [`Text`]; what is asked of one: [`is_leaf`], [`is_unsigned`], [`has_distinct_names`].
//! - Values and columns: [`Value`], [`Values`], [`fits`], [`Column`], [`ColumnParts`], [`ColumnError`].
//! - Which rows are chosen: [`Mask`], with its law, [`masks_choose_twice`], over [`kernels`].
//! - Segments: how one spells its rows, [`Coding`]; [`encode`] and [`encode_as`] with [`EncodeError`], and how many
//!   bytes that would write, [`spelled_len`]; [`decode`] and [`decode_as`] with [`DecodeError`]; rows of a range without
//!   the rest, [`decode_rows`], and those that a mask chooses, [`decode_chosen`]; and the laws of the codec,
//!   [`one_spelling`], [`decoded_is_spelled`], [`decoding_undoes_encoding`], [`one_spelling_as`],
//!   [`decoded_as_is_spelled`], [`segments_by_hand`], [`constant_segments_by_hand`] and [`run_segments_by_hand`].
//! - Where a segment lies: [`SegmentLocation`], and the range that it asks for, [`AskedRange`].
//! - Sources of segments: the trait [`SegmentSource`] with [`SourceError`]; [`MemorySource`],
//!   [`FileSource`]; [`ScriptSource`], which keeps to a [`Script`]; [`GateSource`], whose reads wait at a [`Gate`].
//! - Streams that are read: the trait [`Source`] with [`StreamError`]; [`BytesSource`], [`ReadSource`].
//! - Streams that are written: the trait [`Sink`]; [`BytesSink`], [`WriteSink`].
//! - The definitions on literals: [`runs_by_hand`], [`scripts_by_hand`], [`reads_by_hand`].
#![tactic(auto)]

pub use vx_arrays::Cell;
pub use vx_columns::{Column, ColumnError, ColumnParts, RunsError, runs_by_hand};
pub use vx_masks::{Mask, kernels, masks_choose_twice};
pub use vx_outside::{
    AskedRange, BytesSink, BytesSource, FileSource, Gate, GateSource, MemorySource, ReadSource,
    Script, ScriptSource, SegmentLocation, SegmentSource, Sink, Source, SourceError, StreamError,
    WriteSink, file_sources, locations, memory_sources, outside, reads_by_hand, scripts_by_hand,
};
pub use vx_segments::{
    Coding, DecodeError, EncodeError, SpelledRows, are_spelled, codings, constant_segments_by_hand,
    decode, decode_as, decode_chosen, decode_rows, decoded_as_is_spelled, decoded_is_spelled,
    decoding_undoes_encoding, encode, encode_as, is_by_length, one_spelling, one_spelling_as,
    run_segments_by_hand, segments_by_hand, spelled_len,
};
pub use vx_types::{
    DType, Element, Field, Fields, IntKind, Nullability, Text, Value, Values, dtypes, fits,
    has_distinct_names, is_leaf, is_unsigned, values,
};
