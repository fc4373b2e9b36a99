//! What becomes of records that move or are halved. The functions do nothing: their contracts are the laws.
ghost use Rattle.leaf_areas.specs.Laws.{HalvesHaveTheRecords, MovedRecordsStay};

/// A law: records that moved into an area that isn't shorter say there what they said, in their order.
pub fn moved_records_stay()
    ensures { MovedRecordsStay }
{}

/// A law: the records of the two halves of a leaf are its records, parted by their names, each half in its order.
pub fn halves_have_the_records()
    ensures { HalvesHaveTheRecords }
{}
