//! One lock, its master, a holder for each node and the mail between them, with conversions in all six modes.
#![tactic(auto)]

ghost use Rattle.conversion_laws.specs.Example.{ListCanBeMade, RebuildCanBeMade};
ghost use Rattle.conversion_laws.specs.Laws.{EveryListIsRight, NoAskIsLost, NoneWhileBlocked, GrantsBringTheValue, ViewsFollow, HoldersRiseByGrants, MessagesMeetCalls};

/// A law: after every list of calls the table has of each node at least what it holds and is granted, and what nodes hold and are
/// granted goes together.
pub fn every_list_is_right()
    ensures { EveryListIsRight }
{}

/// A law: where no grant is dropped, the ask that a holder has comes to the master, waits there, or is granted and on its way.
pub fn no_ask_is_lost()
    ensures { NoAskIsLost }
{}

/// A law: while a rebuild isn't done or a slot waits, no call grants anything: none leaves the table more of a node than it had, and
/// none sets a grant on its way.
pub fn none_is_granted_while_blocked()
    ensures { NoneWhileBlocked }
{}

/// A law: a grant that a call sets on its way brings the value that the lock has at its master then, valid or not.
pub fn grants_bring_the_value()
    ensures { GrantsBringTheValue }
{}

/// A law: where a view ends and the next one begins with a table that is made of what each node reports, the list of calls goes on: its
/// start is one of those from which the laws are, and what was under way says nothing in it.
pub fn views_follow()
    ensures { ViewsFollow }
{}

/// A law: a node comes to hold more only by a grant that was on its way to it, and then just that.
pub fn holders_rise_by_grants()
    ensures { HoldersRiseByGrants }
{}

/// A law: a message in hand meets what the call requires that it makes: at the master a request, a conversion, a lower, a report and
/// an end, at a node a grant, which brings the lock's value as the master has it still where its mode goes with none that may write it.
pub fn messages_meet_calls()
    ensures { MessagesMeetCalls }
{}

/// A law: a list of calls can be made, from a start that there is: two nodes hold a lock, one of them waits for another mode, and is
/// granted it when the other one lowers it.
pub fn a_list_can_be_made()
    ensures { ListCanBeMade }
{}

/// A law: a table can be made anew with an ask that waits meanwhile: a member that holds a lock tells it and asks for another mode, which
/// waits; the other member tells that it holds nothing; then the table is complete, and the ask is granted.
pub fn a_rebuild_can_be_made()
    ensures { RebuildCanBeMade }
{}
