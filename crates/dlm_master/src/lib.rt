//! A master's table of locks: who holds each, who waits for it, and what the lock carries.
#![tactic(auto)]

ghost use Rattle.dlm_master.specs.Laws.{CauseIsSo, SoundLocksStaySound, OnlyLowersTake, NoWaiterIsLost, NoneWhileBlocked, GrantsKeepTogether, CallbacksAreDue, EveryLastValueStands, TablesAreRuns};

mod beside;
mod claims;
mod lock;
mod master;
mod table;
mod turns;

pub use claims::{Answer, Cause, Claim};
pub use master::Master;

/// A law: the cause that is named to who requests or converts is so, and where none is named nothing is in the way.
pub fn a_wait_names_a_cause_that_is_so()
    ensures { CauseIsSo }
{}

/// A law: no list of calls lets a node hold a lock twice, or in `Nl`, or wait twice; who waits for another mode holds one that
/// this covers, and who waits for the lock holds none.
pub fn sound_locks_stay_sound()
    ensures { SoundLocksStaySound }
{}

/// A law: of a sound lock no request, conversion or grant leaves the table less of a node than it had, nor does another node's
/// lower.
pub fn only_lowers_take()
    ensures { OnlyLowersTake }
{}

/// A law: when those who wait take their turns, each is granted or stays, in the order of the arrival. Who is granted goes with
/// each who stays before it; nobody else's hold has changed; and, of a sound lock, who is granted holds it as it asked for it and who
/// stays has a cause.
pub fn no_waiter_is_lost()
    ensures { NoWaiterIsLost }
{}

/// A law: while a rebuild isn't done or a slot waits no request, conversion, lower or grant lets a node hold more than it held.
pub fn none_is_granted_while_blocked()
    ensures { NoneWhileBlocked }
{}

/// A law: where the modes in which nodes hold a lock go together, they do after every list of calls that may be made.
pub fn grants_keep_together()
    ensures { GrantsKeepTogether }
{}

/// A law: a holder is called back exactly where its mode doesn't go with another node's that waits, once, and it is told the
/// strongest mode of those that it has which goes with all of them; nobody else is called back.
pub fn callbacks_are_due()
    ensures { CallbacksAreDue }
{}

/// A law: after every list of calls a lock has the value that was written last, by a node that lowered it from `Pw` or `Ex`, and
/// whoever is granted it is told this value.
pub fn the_last_value_stands()
    ensures { EveryLastValueStands }
{}

/// A law: what requests, conversions, lowers and grants do to a master's table they do to the lock in it as the other laws say, and
/// to no other lock.
pub fn tables_are_runs()
    ensures { TablesAreRuns }
{}
