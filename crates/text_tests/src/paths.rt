use file_tree::{Path, PathFault, append_name, append_path};
use std::alloc::Global;
use std::process::Abort;
use std::test::Fail;

// A slash before each name of so many letters, and more behind them.
fn lettered(alloc: Global, lengths: &[u32], more: &[u8]) -> Result<Vec<u8>, Fail> {
    let mut text = Vec::new(alloc);
    for length in lengths {
        text.push(b'/')?;
        for _ in 0..*length {
            text.push(b'a')?;
        }
    }
    for byte in more {
        text.push(*byte)?;
    }
    Ok(text)
}

// The names of a path, each behind a slash.
fn names_text(alloc: Global, path: &Path) -> Result<Vec<u8>, Fail> {
    let mut text = Vec::new(alloc);
    for name in path.names() {
        text.push(b'/')?;
        append_name(&mut text, name)?;
    }
    Ok(text)
}

// A copy of the path that this spells is spelled so again.
fn expect_again(rt: &impl Abort, alloc: Global, text: &[u8]) -> Result<(), Fail> {
    let path = Path::parse(alloc, text)?.copy()?;
    let mut again = Vec::new(alloc);
    append_path(&mut again, &path)?;
    assert_eq!(rt; again.as_slice(), text);
    if !path.names().is_empty() {
        assert_eq!(rt; names_text(alloc, &path)?.as_slice(), text);
    }
    Ok(())
}

fn expect_names(rt: &impl Abort, alloc: Global, text: &[u8], names: &[&[u8]]) -> Result<(), Fail> {
    let path = Path::parse(alloc, text)?;
    assert_eq!(rt; path.names().len(), names.len(), "names of {text:?}");
    for (name, want) in path.names().iter().zip(names) {
        assert_eq!(rt; name.bytes(), *want, "in {text:?}");
    }
    Ok(())
}

fn expect_fault(rt: &impl Abort, alloc: Global, text: &[u8], fault: PathFault) {
    assert_eq!(rt; Path::parse(alloc, text).err(), Some(fault), "at {text:?}");
}

const GOOD_PATHS: [(&[u8], &[&[u8]]); 7] = [
    (b"/", &[]),
    (b"/d/a", &[b"d", b"a"]),
    (b"/!~", &[b"!~"]),
    (b"/...", &[b"..."]),
    (b"/.a/..b", &[b".a", b"..b"]),
    (b"/my%20file/%c8%25", &[b"my file", b"\xc8%"]),
    (b"/%01%1f%7f%ff", &[b"\x01\x1f\x7f\xff"]),
];

#[test]
fn good_paths(rt: HostRuntime) -> Result<(), Fail> {
    for (text, names) in &GOOD_PATHS {
        expect_names(&rt, rt.alloc(), text, names)?;
        expect_again(&rt, rt.alloc(), text)?;
    }
    Ok(())
}

// Four names of 255 bytes make a path of 1,024.
#[test]
fn longest_path(rt: HostRuntime) -> Result<(), Fail> {
    let longest = lettered(rt.alloc(), &[255, 255, 255, 255], b"")?;
    assert_eq!(rt; longest.len(), 1024);
    expect_again(&rt, rt.alloc(), &longest)
}

const BAD_PATHS: [(&[u8], PathFault); 37] = [
    (b"", PathFault::NoSlash),
    (b"a", PathFault::NoSlash),
    (b"a/b", PathFault::NoSlash),
    (b" /a", PathFault::NoSlash),
    (b"%2f", PathFault::NoSlash),
    (b"//", PathFault::EmptyName(1)),
    (b"//a", PathFault::EmptyName(1)),
    (b"/a//b", PathFault::EmptyName(3)),
    (b"/a/", PathFault::EmptyName(3)),
    (b"/a/b/", PathFault::EmptyName(5)),
    (b"/a b", PathFault::BadByte(2)),
    (b"/\t", PathFault::BadByte(1)),
    (b"/a\x1f", PathFault::BadByte(2)),
    (b"/\x7f", PathFault::BadByte(1)),
    (b"/ab\xc8", PathFault::BadByte(3)),
    (b"/\x00", PathFault::BadByte(1)),
    (b"/%C8", PathFault::BadEscape(1)),
    (b"/%cG", PathFault::BadEscape(1)),
    (b"/a%61", PathFault::BadEscape(2)),
    (b"/%7e", PathFault::BadEscape(1)),
    (b"/%00", PathFault::BadEscape(1)),
    (b"/%2f", PathFault::BadEscape(1)),
    (b"/%2F", PathFault::BadEscape(1)),
    (b"/a%", PathFault::BadEscape(2)),
    (b"/a%2", PathFault::BadEscape(2)),
    (b"/%2/", PathFault::BadEscape(1)),
    (b"/%/", PathFault::BadEscape(1)),
    (b"/.", PathFault::Dots(1)),
    (b"/..", PathFault::Dots(1)),
    (b"/./a", PathFault::Dots(1)),
    (b"/a/../b", PathFault::Dots(3)),
    (b"/a/..", PathFault::Dots(3)),
    (b"/a/.", PathFault::Dots(3)),
    (b"/%20/..", PathFault::Dots(5)),
    (b"/a/..//%", PathFault::Dots(3)),
    (b"/..%zz", PathFault::BadEscape(3)),
    (b"/.. ", PathFault::BadByte(3)),
];

#[test]
fn bad_paths(rt: HostRuntime) {
    for (text, fault) in &BAD_PATHS {
        expect_fault(&rt, rt.alloc(), text, *fault);
    }
}

// A name of 256 bytes, a path of 1,025, and which of two faults is told.
const LONG_PATHS: [(&[u32], &[u8], PathFault); 7] = [
    (&[256], b"", PathFault::LongName(256)),
    (&[9, 256], b"", PathFault::LongName(266)),
    (&[255], b"%20", PathFault::LongName(256)),
    (&[255], b"%zz", PathFault::BadEscape(256)),
    (&[255], b" ", PathFault::BadByte(256)),
    (&[255, 255, 255, 128, 127], b"", PathFault::LongPath(1025)),
    (&[255, 255, 255, 128, 127], b"/", PathFault::EmptyName(1026)),
];

#[test]
fn long_paths(rt: HostRuntime) -> Result<(), Fail> {
    for (lengths, more, fault) in &LONG_PATHS {
        let text = lettered(rt.alloc(), lengths, more)?;
        expect_fault(&rt, rt.alloc(), &text, *fault);
    }
    Ok(())
}
