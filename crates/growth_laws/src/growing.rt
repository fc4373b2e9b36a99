//! A file that grows.
ghost use Rattle.growth_laws.specs.Growing.{BareFilesAreClear, BareFilesHaveNoBlock, BareHeightsKeepNeed, CapacityReaches, CountsAreTold, GrowthNeedsLevels, HeightsReach, HolesAreClear, LowerHeightsAreShort, MovedContentIsClear, NothingNeedsNothing, PutsKeepNeed, PutsPastTheEnd, RisesStayClear, SizesKeepNeed, WholeFilesAreClear, ZerosAreClear};

/// A law: bytes past the end of the content don't change it; and with zeros there a file is clear from its end on, and stays so when
/// it gets higher.
pub fn ends_are_clear()
    ensures past { PutsPastTheEnd }
    ensures zeros { ZerosAreClear }
    ensures whole { WholeFilesAreClear }
    ensures holes { HolesAreClear }
    ensures raised { RisesStayClear }
    ensures moved { MovedContentIsClear }
    ensures bare { BareFilesAreClear }
{}

/// A law: a file whose dinode says another count of blocks keeps its content and its blocks.
pub fn counts_are_told()
    ensures { CountsAreTold }
{}

/// A law: the height for a size reaches it, and none that is less does; a file with no content that goes along has no block beside its
/// dinode's.
pub fn heights_reach()
    ensures reach { HeightsReach }
    ensures least { LowerHeightsAreShort }
    ensures blocks { CapacityReaches }
    ensures bare { BareFilesHaveNoBlock }
{}

/// A law: what a write needs stays where no block is taken, and growth alone needs a block for each new level.
pub fn needs_stay()
    ensures puts { PutsKeepNeed }
    ensures sizes { SizesKeepNeed }
    ensures bare { BareHeightsKeepNeed }
    ensures nothing { NothingNeedsNothing }
    ensures levels { GrowthNeedsLevels }
{}
