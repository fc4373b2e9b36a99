// Calls on one tree, each kind once, with the replies that docs/CALLS.md gives them.
use file_tree::{Call, Content, Path, Tree, append_reply};
use std::alloc::Global;
use std::test::Fail;

fn path(alloc: Global, text: &[u8]) -> Result<Path, Fail> {
    Ok(Path::parse(alloc, text)?)
}

fn rename(alloc: Global, from: &[u8], to: &[u8]) -> Result<Call, Fail> {
    Ok(Call::Rename(path(alloc, from)?, path(alloc, to)?))
}

// A file is made, written past its end, read, cut, moved and read again.
fn file_call(alloc: Global, place: usize) -> Result<Call, Fail> {
    let file = path(alloc, b"/d/a")?;
    Ok(match place {
        0 => Call::Mkdir(path(alloc, b"/d")?),
        1 => Call::Create(file),
        2 => Call::Write(file, 2, Content::new(b"xy".to_vec(alloc)?)),
        3 => Call::Read(file, 1, 9),
        4 => Call::Truncate(file, 3),
        5 => Call::Stat(file),
        6 => rename(alloc, b"/d/a", b"/b")?,
        _ => Call::Dread(path(alloc, b"/b")?, 0, 9),
    })
}

// It replaces another file, and all is removed.
fn name_call(alloc: Global, place: usize) -> Result<Call, Fail> {
    let root = path(alloc, b"/")?;
    Ok(match place {
        8 => Call::Create(path(alloc, b"/a")?),
        9 => rename(alloc, b"/b", b"/a")?,
        10 => Call::List(root),
        11 => rename(alloc, b"/d", b"/d/e")?,
        12 => Call::Unlink(path(alloc, b"/a")?),
        13 => Call::Rmdir(path(alloc, b"/d")?),
        14 => Call::Stat(root),
        _ => Call::Sync,
    })
}

const REPLIES: [&[u8]; 16] = [
    b"ok",
    b"ok",
    b"ok",
    b"data 007879",
    b"ok",
    b"stat file 3",
    b"ok",
    b"data 000078",
    b"ok",
    b"ok",
    b"names 2 a d",
    b"inside",
    b"ok",
    b"ok",
    b"stat dir 0",
    b"ok",
];

#[test]
fn a_tree_takes_calls(rt: HostRuntime) -> Result<(), Fail> {
    let mut tree = Tree::dir(rt.alloc());
    for (place, want) in REPLIES.iter().enumerate() {
        let call = if place < 8 {
            file_call(rt.alloc(), place)?
        } else {
            name_call(rt.alloc(), place)?
        };
        let reply = tree.apply(&call)?;
        let mut text = Vec::new(rt.alloc());
        append_reply(rt.alloc(), &mut text, &reply)?;
        assert_eq!(rt; text.as_slice(), *want);
    }
    Ok(())
}
