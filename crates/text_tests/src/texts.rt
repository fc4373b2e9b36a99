use file_tree::{Call, Content, Kind, Name, NameList, Path, Reply, append_call, append_reply};
use std::alloc::Global;
use std::test::Fail;

fn content(alloc: Global, bytes: &[u8]) -> Result<Content, Fail> {
    Ok(Content::new(bytes.to_vec(alloc)?))
}

// The names of a path, as a list.
fn names(alloc: Global, text: &[u8]) -> Result<NameList, Fail> {
    let path = Path::parse(alloc, text)?;
    let mut names: Vec<Name> = Vec::new(alloc);
    for name in path.names() {
        names.push(name.copy()?)?;
    }
    Ok(NameList::new(names))
}

// A call of each kind.
fn call_at(alloc: Global, place: usize) -> Result<Call, Fail> {
    let path = Path::parse(alloc, b"/a%20b")?;
    Ok(match place {
        0 => Call::Create(path),
        1 => Call::Mkdir(path),
        2 => Call::Unlink(path),
        3 => Call::Rmdir(path),
        4 => Call::Stat(path),
        5 => Call::List(path),
        6 => Call::Read(path, 3, 4),
        7 => Call::Dread(path, 0, 5),
        8 => Call::Truncate(path, u64::MAX),
        9 => Call::Write(path, 7, content(alloc, b"\x00\xff")?),
        10 => Call::Rename(path, Path::parse(alloc, b"/c/d")?),
        _ => Call::Sync,
    })
}

fn plain_reply(place: usize) -> Reply {
    match place {
        0 => Reply::Ok,
        1 => Reply::NotFound,
        2 => Reply::NotDir,
        3 => Reply::IsDir,
        4 => Reply::Exists,
        5 => Reply::NotEmpty,
        6 => Reply::Inside,
        7 => Reply::TooBig,
        8 => Reply::NoSpace,
        9 => Reply::Stat(Kind::File, 5),
        _ => Reply::Stat(Kind::Dir, 2),
    }
}

// A reply of each kind, of bytes and of a stat two.
fn reply_at(alloc: Global, place: usize) -> Result<Reply, Fail> {
    match place {
        11 => Ok(Reply::Bytes(content(alloc, b"hello")?)),
        12 => Ok(Reply::Bytes(content(alloc, b"")?)),
        13 => Ok(Reply::Names(names(alloc, b"/a/b%20c")?)),
        _ => Ok(plain_reply(place)),
    }
}

// How a copy is written.
fn call_text(alloc: Global, call: &Call) -> Result<Vec<u8>, Fail> {
    let mut text = Vec::new(alloc);
    append_call(alloc, &mut text, &call.copy()?)?;
    Ok(text)
}

fn reply_text(alloc: Global, reply: &Reply) -> Result<Vec<u8>, Fail> {
    let mut text = Vec::new(alloc);
    append_reply(alloc, &mut text, &reply.copy()?)?;
    Ok(text)
}

const CALLS: [&[u8]; 12] = [
    b"create /a%20b",
    b"mkdir /a%20b",
    b"unlink /a%20b",
    b"rmdir /a%20b",
    b"stat /a%20b",
    b"list /a%20b",
    b"read /a%20b 3 4",
    b"dread /a%20b 0 5",
    b"truncate /a%20b 18446744073709551615",
    b"write /a%20b 7 00ff",
    b"rename /a%20b /c/d",
    b"sync",
];

#[test]
fn calls(rt: HostRuntime) -> Result<(), Fail> {
    for (i, want) in CALLS.iter().enumerate() {
        let call = call_at(rt.alloc(), i)?;
        assert_eq!(rt; call_text(rt.alloc(), &call)?.as_slice(), *want);
    }
    Ok(())
}

const REPLIES: [&[u8]; 14] = [
    b"ok",
    b"notfound",
    b"notdir",
    b"isdir",
    b"exists",
    b"notempty",
    b"inside",
    b"toobig",
    b"nospace",
    b"stat file 5",
    b"stat dir 2",
    b"data 68656c6c6f",
    b"data -",
    b"names 2 a b%20c",
];

#[test]
fn replies(rt: HostRuntime) -> Result<(), Fail> {
    for (i, want) in REPLIES.iter().enumerate() {
        let reply = reply_at(rt.alloc(), i)?;
        assert_eq!(rt; reply_text(rt.alloc(), &reply)?.as_slice(), *want);
    }
    Ok(())
}
