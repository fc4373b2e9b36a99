//! What the definitions mean. The functions do nothing: their contracts are the laws.
ghost use Rattle.hash_dirs.specs.Finding.{ChainsTellNames};
ghost use Rattle.hash_dirs.specs.Leaves.{LeavesHaveRecords};

/// A law: in a sound directory a name's chain says of it what all records say.
pub fn chains_tell_names()
    ensures { ChainsTellNames }
{}

/// A law: in a sound directory the records in all leaves are the directory's.
pub fn leaves_have_records()
    ensures { LeavesHaveRecords }
{}
