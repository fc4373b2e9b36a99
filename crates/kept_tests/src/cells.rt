// A cache by hand: two locks, metadata and content.
use block_cache::Cache;
use glock_names::LockName;
use std::test::Fail;

#[test]
fn cells_go_with_their_lock(rt: HostRuntime) -> Result<(), Fail> {
    let mut cache = Cache::new(rt.alloc());
    let file = LockName { kind: 2, number: 9 };
    let group = LockName { kind: 3, number: 9 };
    for (lock, block, plain, byte) in [
        (file, 9, false, 1),
        (file, 10, true, 2),
        (group, 11, false, 3),
        (file, 12, true, 4),
        (file, 10, true, 5),
    ] {
        assert!(rt; cache.put(lock, block, plain, &[byte; 4]).is_ok());
    }
    assert!(rt; cache.get(10) == Some([5; 4].as_slice()) && cache.get(13).is_none());
    cache.drop_block(12);
    cache.drop_lock(file, true);
    for (block, there) in [(9, true), (10, false), (11, true), (12, false)] {
        assert!(rt; cache.get(block).is_some() == there, "{block}");
    }
    cache.drop_lock(file, false);
    assert!(rt; cache.get(9).is_none() && cache.get(11) == Some([3; 4].as_slice()));
    Ok(())
}
