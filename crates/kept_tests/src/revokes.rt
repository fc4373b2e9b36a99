// A few revokes worked out by hand.
use revoke_table::Revokes;
use std::test::Fail;

#[test]
fn the_greatest_sequence_counts(rt: HostRuntime) -> Result<(), Fail> {
    let mut revokes = Revokes::new(rt.alloc());
    assert!(rt; !revokes.cancels(7, 0));
    for (block, sequence) in [(7, 5), (8, 0), (7, 3)] {
        assert!(rt; revokes.add(block, sequence).is_ok());
    }
    for (block, sequence, cancelled) in [
        (7, 4, true),
        (7, 5, false),
        (7, u64::MAX, false),
        (8, 0, false),
        (9, 0, false),
    ] {
        assert_eq!(rt;
            revokes.cancels(block, sequence),
            cancelled,
            "{block} in {sequence}"
        );
    }
    Ok(())
}
