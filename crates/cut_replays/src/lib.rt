//! Replays of an image's journals that are cut short: laws.
#![tactic(auto)]

ghost use Rattle.cut_replays.specs.Failed.{FailedReplaysStand};
ghost use Rattle.cut_replays.specs.Stopped.{StoppedReplaysStand};

pub use image_recovery::{a_replay_leaves_its_image, what_a_replay_leaves_stands};
use log_layout::headers_read_back;

/// A law: where some of a mounted image's journals were replayed, and of the others nothing was done, the disk has an image that
/// stands, replayed, for the tree for which that image did.
pub fn stopped_replays_stand()
    ensures { StoppedReplaysStand }
{
    headers_read_back();
}

/// A law: where the disk failed in such a replay, whatever becomes of the writes that are in flight then, without a false header, is
/// an image that stands, replayed, for the tree for which the mounted one did.
pub fn failed_replays_stand()
    ensures { FailedReplaysStand }
{
    headers_read_back();
}
