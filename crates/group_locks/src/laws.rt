// How the locks of groups stand in a call's list: laws.
ghost use Rattle.group_locks.specs.Laws.{BlocksOfGroupsAreAskedFor, FirstGroupLacksAreFirst, GroupsBreakNothing, GroupsWithBlocksAreListed, HeldGroupsHoldTheList};

/// A law: behind locks that are held the list goes on with those of the groups of given blocks. It is held where each such group is; else the
/// first such group that isn't held has the first lock of it that isn't; and a block that is needed of such a group, once all are
/// held, is under a lock of it.
pub fn groups_take_their_locks()
    ensures held { HeldGroupsHoldTheList }
    ensures lack { FirstGroupLacksAreFirst }
    ensures asked { BlocksOfGroupsAreAskedFor }
{}

/// A law: a group of which some data block passes the test has its lock in the list.
pub fn groups_have_places()
    ensures { GroupsWithBlocksAreListed }
{}

/// A law: in an image that stands for a tree no group breaks a rule.
pub fn standing_groups_are_sound()
    ensures { GroupsBreakNothing }
{}
