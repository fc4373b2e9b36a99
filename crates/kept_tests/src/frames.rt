// Pools by hand, and what a caller learns of a write.
ghost use Rattle.std.specs.Prelude.{◌≡◌, length};
ghost use Rattle.frame_pool.specs.Frames.{IsOut, with_bytes};

use frame_pool::{Frame, Pool};
use std::test::Fail;

fn put(pool: &mut Pool, frame: &Frame, bytes: &[u8])
    requires out { IsOut pool.old frame.now }
    requires whole { length bytes.now ≡ pool.old.size }
    ensures { pool.new ≡ with_bytes pool.old frame.now bytes.now }
{
    pool.bytes_mut(frame).copy_from_slice(bytes);
}

#[test]
fn two_frames_are_apart(rt: HostRuntime) -> Result<(), Fail> {
    let mut pool = Pool::new(rt.alloc(), 2, 512).ok().ok_or("memory")?;
    let first = pool.take().ok_or("a frame")?;
    let second = pool.take().ok_or("a frame")?;
    assert!(rt; pool.take().is_none());
    assert!(rt; pool.size() == 512 && pool.is_out(&first));
    put(&mut pool, &first, &[7; 512]);
    assert!(rt; pool.size() == 512 && pool.is_out(&second));
    put(&mut pool, &second, &[9; 512]);
    assert!(rt; pool.is_out(&first) && pool.bytes(&first).iter().all(|b| *b == 7));
    assert!(rt; pool.is_out(&second) && pool.bytes(&second).iter().all(|b| *b == 9));
    assert!(rt; pool.is_out(&first));
    pool.give(first);
    assert!(rt; pool.take().is_some());
    assert!(rt; pool.is_out(&second) && pool.bytes(&second).iter().all(|b| *b == 9));
    Ok(())
}
