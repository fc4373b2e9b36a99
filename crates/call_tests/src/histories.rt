// The plain check of a history, which no command makes yet: two nodes, of which the first stops after a sync.
use cluster_history::Item;
use file_tree::{Call, Kind, Path, Reply, Tree};
use history_checks::{Verdict, alive, is_legal};
use std::alloc::Global;
use std::test::Fail;

fn item(node: u8, number: u64, call: Call, reply: Reply) -> Item {
    Item::Call {
        node,
        client: 0,
        number,
        call,
        reply,
    }
}

// Node 1 makes a file, which is synced, and another, which the end of its life takes out; node 2 asks for that, and is answered so.
fn history(alloc: Global, last: Reply) -> Result<Vec<Item>, Fail> {
    let first = Call::Create(Path::parse(alloc, b"/a")?);
    let second = Call::Create(Path::parse(alloc, b"/b")?);
    let asked = Call::Stat(Path::parse(alloc, b"/b")?);
    Ok(vec![in alloc;
        item(1, 1, first, Reply::Ok),
        item(1, 2, Call::Sync, Reply::Ok),
        item(1, 3, second, Reply::Ok),
        Item::Lost { node: 1, kept: 2 },
        item(2, 1, asked, last),
    ]?)
}

#[test]
fn a_history_is_legal_where_no_later_reply_knows_what_was_lost(
    rt: HostRuntime,
) -> Result<(), Fail> {
    let a = rt.alloc();
    let empty = Tree::dir(a);
    let right = history(a, Reply::NotFound)?;
    assert_eq!(rt; alive(a, &right)?.len(), 3);
    assert_eq!(rt; is_legal(a, &right, &empty)?, Verdict::Legal);
    let wrong = history(a, Reply::Stat(Kind::File, 0))?;
    assert_eq!(rt; is_legal(a, &wrong, &empty)?, Verdict::Fails(5));
    // Before the loss it was right to say so.
    assert_eq!(rt; is_legal(a, &wrong[..3], &empty)?, Verdict::Legal);
    Ok(())
}

#[test]
fn no_room_may_be_answered_where_the_tree_has_it(rt: HostRuntime) -> Result<(), Fail> {
    let a = rt.alloc();
    let empty = Tree::dir(a);
    let full = item(1, 1, Call::Create(Path::parse(a, b"/a")?), Reply::NoSpace);
    let refused = item(1, 1, Call::Unlink(Path::parse(a, b"/a")?), Reply::NoSpace);
    assert_eq!(rt; is_legal(a, &vec![in a; full]?, &empty)?, Verdict::Legal);
    assert_eq!(rt;
        is_legal(a, &vec![in a; refused]?, &empty)?,
        Verdict::Fails(1)
    );
    Ok(())
}
