// What the tables keep at a block.
ghost use Rattle.std.specs.Prelude.{◌≡◌};
ghost use Rattle.log_tables.specs.Slots.{frame_of_hold, hold_sent};

use frame_pool::Frame;
use glock_names::LockName;

/// A version of a block: the lock that covers it, whether it is content of a regular file, and the frame with its bytes.
#[derive(Drop)]
pub struct Cell {
    pub lock: LockName,
    pub plain: bool,
    pub frame: Frame,
}

/// Where the content of a live block is: in its place, or in a frame, or in flight and still in a frame.
#[derive(Drop)]
pub enum Hold {
    Home,
    Away(Frame),
    Flying(Frame),
}

/// A live block: the lock under which it was at its flush, the place where its transaction begins, and where its content is.
#[derive(Drop)]
pub struct LiveCell {
    pub lock: LockName,
    pub first: u32,
    pub hold: Hold,
}

/// The frame that has the content, where it isn't home.
pub(crate) fn frame_in(hold: Hold) -> Option<Frame>
    ensures { result ≡ frame_of_hold hold }
{
    match hold {
        Hold::Home => None,
        Hold::Away(frame) => Some(frame),
        Hold::Flying(frame) => Some(frame),
    }
}

/// The content, where it isn't home, is on its way there.
pub(crate) fn on_its_way(hold: Hold) -> Hold
    ensures { result ≡ hold_sent hold }
{
    match hold {
        Hold::Home => Hold::Home,
        Hold::Away(frame) => Hold::Flying(frame),
        Hold::Flying(frame) => Hold::Flying(frame),
    }
}
