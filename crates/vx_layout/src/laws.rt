//! The laws of layout trees. Each is the contract of a function that does nothing.

ghost use Rattle.vx_layout.specs.Laws.{GoodTreeHasNoFault, FirstFaultIsOne, TreeUnfolds, GoodTreeIsSound, ValuesAreOne, ValuesCount, ValuesAreOfRows, LeafHasValues, ValuesJoin, ChunksHaveValues, ZonedHasValues, DictionaryHasValues, StructHasValues, ValidStructHasValues, ChunkRowIsRow, ChunkLiesInside, FieldIsRead, ValidityIsRead, CodeIsRead, ValueIsRead, FoundAnyWay, ReadThroughValues, ChunkIsReached, FieldIsReached, ValidityIsReached, CodesAreReached, ValuesAreReached, ZonedDataIsReached, FaultyReadIsFault, FineReadsGiveValue, ReadsDecideValue, ValuesFit};

/// A list of nodes is a good tree, or has one first fault, and not both.
pub fn faults_are_one()
    ensures good { GoodTreeHasNoFault }
    ensures one { FirstFaultIsOne }
{}

/// The tree of a node is that node over the trees of its children, and in a good tree it is sound.
pub fn good_trees_unfold()
    ensures unfolds { TreeUnfolds }
    ensures sound { GoodTreeIsSound }
{}

/// A tree has no more than one list of values, as many as rows, and each is the value of its row.
pub fn values_are_those_of_the_rows()
    ensures one { ValuesAreOne }
    ensures count { ValuesCount }
    ensures each { ValuesAreOfRows }
{}

/// The values of a node by those of its children.
pub fn nodes_have_their_childrens_values()
    ensures flat { LeafHasValues }
    ensures joined { ValuesJoin }
    ensures chunked { ChunksHaveValues }
    ensures zoned { ZonedHasValues }
    ensures dictionary { DictionaryHasValues }
    ensures structs { StructHasValues }
    ensures valid_structs { ValidStructHasValues }
{}

/// A chunk's row is a row of the chunked node.
pub fn chunks_have_rows()
    ensures row { ChunkRowIsRow }
    ensures inside { ChunkLiesInside }
{}

/// What a row of a child reads, a row of the node reads.
pub fn children_are_read()
    ensures field { FieldIsRead }
    ensures validity { ValidityIsRead }
    ensures code { CodeIsRead }
    ensures each_value { ValueIsRead }
{}

/// What is read is the same whatever the way to a node, and inside a dictionary it is come to through its values.
pub fn ways_tell_the_dictionary()
    ensures any_way { FoundAnyWay }
    ensures through_values { ReadThroughValues }
{}

/// A segment that some row of a child reaches, some row of the node reaches.
pub fn children_are_reached()
    ensures chunk { ChunkIsReached }
    ensures field { FieldIsReached }
    ensures validity { ValidityIsReached }
    ensures codes { CodesAreReached }
    ensures dictionary_values { ValuesAreReached }
    ensures zoned_data { ZonedDataIsReached }
{}

/// What reads say of values.
pub fn reads_decide_values()
    ensures faulty { FaultyReadIsFault }
    ensures fine { FineReadsGiveValue }
    ensures agreeing { ReadsDecideValue }
{}

/// The value of a row fits the dtype of the tree.
pub fn values_fit()
    ensures { ValuesFit }
{}
