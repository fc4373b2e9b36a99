// Each public call once.
use fencing::{Membership, add_node, count_nodes, has_node, least_node, node_at, take_node};

#[test]
fn sets_of_nodes(rt: HostRuntime) {
    let set = add_node(add_node(0, 15), 3);
    assert!(rt; has_node(set, 3) && !has_node(set, 4));
    assert_eq!(rt; count_nodes(set), 2);
    assert_eq!(rt; least_node(set), Some(3));
    assert_eq!(rt; node_at(set, 1), Some(15));
    assert_eq!(rt; node_at(set, 2), None);
    assert_eq!(rt; take_node(set, 3), 1 << 15);
    assert_eq!(rt; least_node(0), None);
}

#[test]
fn a_node_stops_is_replayed_and_joins_again(rt: HostRuntime) {
    let mut cluster = Membership {
        generation: 1,
        members: 0b1110,
        fenced: 0,
        waiting: 0,
    };
    assert_eq!(rt; cluster.replayer(), None);
    cluster.stop(1);
    cluster.fence(1);
    cluster.change();
    assert_eq!(rt; cluster.replayer(), Some(2));
    assert!(rt; cluster.members == 0b1100 && cluster.waiting == 0b10 && cluster.fenced == 0b10);
    cluster.recovered(1);
    cluster.admit(1);
    assert_eq!(rt; cluster.replayer(), None);
    assert!(rt; cluster.members == 0b1110 && cluster.waiting == 0 && cluster.fenced == 0);
    assert_eq!(rt; cluster.generation, 2);
}
