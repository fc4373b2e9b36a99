//! What the definitions of images mean. The functions do nothing: their contracts are the laws.
ghost use Rattle.image_model.specs.Laws.{AnyOrder, BrokenAreReached, CleanImagesStand, CleanImagesStay, HoldingsAreOwned, JournalsReadAlike, NothingBreaks, OneReplay, OneReplayedTree, OneTable, OneTree, OwnersClaim, ReplayedByAny, ReplayedIsThere, ReplaysKeepSystem, SystemIsTheSame, TwiceLiveIsNotReplayed};

/// A law: an image stands for at most one tree.
pub fn images_stand_for_one_tree()
    ensures { OneTree }
{}

/// A law: in an image that stands each block has one owner.
pub fn blocks_have_one_owner()
    ensures { OneTable }
{}

/// A law: in an image that stands for a tree, no block breaks a rule.
pub fn what_stands_breaks_nothing()
    ensures { NothingBreaks }
{}

/// A law: a look over an image comes to each block that breaks a rule.
pub fn broken_blocks_are_reached()
    ensures { BrokenAreReached }
{}

/// A law: whether records are a directory's, and where a name leads, doesn't hang on their order.
pub fn records_have_no_order()
    ensures { AnyOrder }
{}

/// A law: what an inode holds of a block is told by the block's owner.
pub fn holdings_are_owned()
    ensures { HoldingsAreOwned }
{}

/// A law: in an image that stands a block that is in use is claimed by its owner, and by no other.
pub fn owners_claim_their_blocks()
    ensures { OwnersClaim }
{}

/// A law: in an image that stands a journal reads the same from its own blocks and block after block.
pub fn journals_read_alike()
    ensures { JournalsReadAlike }
{}

/// A law: of an image that can be replayed there is one replayed image; of any other there is none, so where a block is live in two journals.
pub fn images_have_one_replay()
    ensures one { OneReplay }
    ensures any { ReplayedByAny }
    ensures there { ReplayedIsThere }
    ensures none { TwiceLiveIsNotReplayed }
{}

/// A law: an image whose journals are clean is its own replayed image, and stands for the tree for which it stands as it lies.
pub fn clean_images_stay()
    ensures stay { CleanImagesStay }
    ensures stand { CleanImagesStand }
{}

/// A law: an image stands for at most one tree, its journals replayed.
pub fn replayed_images_stand_for_one_tree()
    ensures { OneReplayedTree }
{}

/// A law: a replay changes no block of the system files; and who has these blocks of an image has the same system files.
pub fn replays_keep_system_files()
    ensures kept { ReplaysKeepSystem }
    ensures same { SystemIsTheSame }
{}
