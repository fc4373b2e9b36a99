// The write behind which a node is to crash.
ghost use Rattle.std.specs.Prelude.{◌≡◌, ◌≢◌, ◌≤◌, Some, None, true, false, length, take};
ghost use Rattle.disk_turns.specs.Crashes.{left_after as left_behind};
ghost use Rattle.disk_turns.specs.Turns.{StopsAt};

use crate::TurnFault;
use drafts::Written;

/// Whether a node is to crash behind so many writes.
pub(crate) fn is_at_crash(armed: Option<u64>, made: usize) -> bool
    ensures at { result ≡ true → armed ≡ Some made }
    ensures before { result ≡ false → armed ≢ Some made }
{
    match armed {
        Some(left) => left == made as u64,
        None => false,
    }
}

/// How many writes are left until the node is to crash, behind so many.
pub(crate) fn left_after(armed: Option<u64>, made: usize) -> Option<u64>
    ensures { result ≡ left_behind made armed }
{
    match armed {
        Some(left) => Some(left.saturating_sub(made as u64)),
        None => None,
    }
}

/// The end of a node that crashed behind so many writes of a turn of these blocks: the write of the next one would have come next, or the barrier.
pub(crate) fn crashed(blocks: &[Written], made: usize) -> TurnFault
    requires within { made ≤ length blocks.now }
    ensures stops { StopsAt blocks.now result.block (take made blocks.now) (take made blocks.now) }
    ensures is { result ≡ record { block = result.block; rise = None; on_disk = 0; in_flight = made } }
{
    let block = match blocks.get(made) {
        Some(next) => Some(next.block),
        None => None,
    };
    TurnFault {
        block,
        rise: None,
        on_disk: 0,
        in_flight: made,
    }
}
