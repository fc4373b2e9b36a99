//! What a draft makes of a group.
ghost use Rattle.draft_changes.specs.Groups.{GroupsStayPut, StatesArePut};

/// A law: a group in which a draft puts the state of a data block says the states with that one put; and a later draft that makes
/// the same of its header and bitmap leaves it so.
pub fn groups_are_put()
    ensures states { StatesArePut }
    ensures stay { GroupsStayPut }
{}
