// Laws of the lists.
ghost use Rattle.call_locks.specs.WantLaws.{ParentsComeFirst, LieOnPaths, WaysAreWhole, OnlyChanges, ReadersShare, AllExclusive, AllChanges, OtherwiseStays, OthersStay, NamesStay, NeedsNoTree};

/// A law: parents come before their children on each path, the first path's inodes before the second's, and no inode of a path
/// comes twice.
pub fn parents_come_first()
    ensures { ParentsComeFirst }
{}

/// A law: each want is of an inode on a path of the call, from the root to the path's own.
pub fn wants_lie_on_paths()
    ensures { LieOnPaths }
{}

/// A law: with an inode of a path every one above it is wanted.
pub fn ways_are_whole()
    ensures { WaysAreWhole }
{}

/// A law: what is wanted exclusive is what the call changes: a directory in which a name comes or goes, or an inode that is
/// written, removed, moved or replaced. So a call that changes none of these, as one that reads, wants nothing exclusive.
pub fn nothing_else_is_wanted_exclusive()
    ensures only { OnlyChanges }
    ensures readers { ReadersShare }
{}

/// A law: a call that wants anything wants everything exclusive that it changes, and so does each that leaves another tree than it
/// found. A call that changes none of these leaves the tree that it found.
pub fn changed_inodes_are_wanted_exclusive()
    ensures exclusive { AllExclusive }
    ensures changed { AllChanges }
    ensures stays { OtherwiseStays }
{}

/// A law: what stands at a path to which no path of the call leads stands there afterwards: a file with its bytes, a directory, or
/// nothing, for the same reason. And where the call doesn't change it, it has the names that it had: so names come and go in
/// no directory but those that the call changes.
pub fn what_stands_elsewhere_stays()
    ensures stays { OthersStay }
    ensures names { NamesStay }
{}

/// A law: a call that wants nothing answers the same of every tree and leaves it. So it needs no lock.
pub fn what_wants_nothing_looks_at_nothing()
    ensures { NeedsNoTree }
{}
