// Which stage a lock that goes down has come to.
ghost use Rattle.std.specs.Prelude.{◌≡◌};
ghost use Rattle.demotion.specs.Stages.{stage_of};

use glock_names::State;

/// What a node does next for a lock that goes down, in this order (GFS2's demotion from exclusive).
#[derive(Clone, Copy, Debug, PartialEq, Eq)]
pub enum Stage {
    /// The log is flushed.
    Flush,
    /// The lock's blocks that aren't home are written home, in rising order.
    Home,
    /// A barrier.
    Barrier,
    /// The journal's entries of the lock's blocks are revoked, and the log is flushed.
    Revoke,
    /// The lock goes down.
    Release,
}

/// What the node's log and disk have under a lock.
#[derive(Clone, Copy, Debug, PartialEq, Eq)]
pub struct Under {
    /// The greatest number of a call of the node that touched the lock since it was granted.
    pub touched: u64,
    /// The number of the last call in the accepted head of the node's journal.
    pub flushed: u64,
    /// A block that was under the lock at its flush is live in the journal.
    pub live: bool,
    /// Such a live block isn't home, and its write home isn't in flight.
    pub away: bool,
    /// A write home of such a block is in flight.
    pub in_flight: bool,
}

/// The stage that a lock needs which goes down, is held so and has this under it. Nothing else tells it: where a stage was
/// cut it is the same again, and where a call changed what is under the lock it is an earlier one. To which state the lock
/// goes down is what `Glocks::next_down` answers when it comes to its release.
pub fn stage_needed(held: State, under: &Under) -> Stage
    ensures { result ≡ stage_of held under.now }
{
    if held != State::Ex {
        Stage::Release
    } else if under.flushed < under.touched {
        Stage::Flush
    } else if under.live && under.away {
        Stage::Home
    } else if under.in_flight {
        Stage::Barrier
    } else if under.live {
        Stage::Revoke
    } else {
        Stage::Release
    }
}
