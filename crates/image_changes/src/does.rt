//! What the answer of a call over a view means.
ghost use Rattle.image_changes.specs.Does.{LocksAreTouched, NothingDoes};
ghost use Rattle.image_changes.specs.Drafted.{DraftsDo, DraftsShow, DraftsStayInside, FinishMakes};

/// A law: a call that isn't a changing one, or wasn't answered Ok, and is answered as the tree says, does what it should with a
/// change of nothing.
pub fn a_change_of_nothing_does()
    ensures { NothingDoes }
{}

/// A law: the change that a draft is finished to has the form of a change, writes what is put and frees what is freed, each block
/// with its lock, and an image with it has the blocks that were put.
pub fn a_draft_is_finished()
    ensures { FinishMakes }
{}

/// A law: an image that agrees with a view has, with the blocks that a draft over the view puts, what the draft sees.
pub fn drafts_show_what_they_put()
    ensures { DraftsShow }
{}

/// A law: what a draft writes that puts whole blocks alone, each before the end of one of the view's groups, lies on the device.
pub fn drafts_stay_inside()
    ensures { DraftsStayInside }
{}

/// A law: a changing call that was answered Ok does what it should, where in every image its draft makes one of the four
/// changes, to the tree after the call, with each lock held exclusive.
pub fn one_of_four_changes_does()
    ensures { DraftsDo }
{}

/// A law: a change that does what it should touches the lock of each of its blocks, the one before and the one after: it is
/// told with a block that is written, or is that of an inode whose number is freed.
pub fn answers_touch_their_locks()
    ensures { LocksAreTouched }
{}
