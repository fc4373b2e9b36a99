// Frames that go out with a block's bytes.
ghost use Rattle.std.specs.Prelude.{◌≡◌, ◌<◌, length};
ghost use Rattle.std.specs.FinMap as map;
ghost use Rattle.frame_pool.specs.Frames.{IsOut, Takes, with_bytes};
ghost use Rattle.log_tables.specs.Slots.{GoesOut};

use frame_pool::{Frame, Pool};

// A frame: one isn't out.
fn take_frame(pool: &mut Pool) -> Frame
    requires { map.len pool.old.out < pool.old.count }
    ensures { Takes pool.old pool.new result }
{
    match pool.take() {
        Some(frame) => frame,
        None => unreachable!(),
    }
}

// The frame has these bytes, and every other has what it had.
fn write_frame(pool: &mut Pool, frame: &Frame, bytes: &[u8])
    requires out { IsOut pool.old frame.now }
    requires whole { length bytes.now ≡ pool.old.size }
    ensures { pool.new ≡ with_bytes pool.old frame.now bytes.now }
{
    pool.bytes_mut(frame).copy_from_slice(bytes);
}

/// A frame that wasn't out, with these bytes.
pub(crate) fn frame_with(pool: &mut Pool, bytes: &[u8]) -> Frame
    requires room { map.len pool.old.out < pool.old.count }
    requires whole { length bytes.now ≡ pool.old.size }
    ensures { GoesOut pool.old pool.new result bytes.now }
{
    let frame = take_frame(pool);
    write_frame(pool, &frame, bytes);
    frame
}
