use std::test::Fail;
use turn_pairs::raised_together;

#[test]
fn the_distance_stays(rt: HostRuntime) -> Result<(), Fail> {
    let Ok((high, low)) = raised_together(&rt, rt.alloc(), 15, 5, 500) else {
        panic!(rt; "memory is ample")
    };
    assert!(rt; high == 1015 && low == 1005);
    Ok(())
}
