// Names that are put into one directory, and looked for.
ghost use Rattle.std.specs.Prelude.{◌≡◌, ◌≢◌, ◌∷◌, [], IfOk};

use file_tree::{Call, Content, Name, Path, Tree, append_reply};
use std::alloc::Global;
use std::test::Fail;

fn one_letter(alloc: Global, letter: u8) -> Result<Name, Fail>
    requires not_zero { letter ≢ 0 }
    requires not_slash { letter ≢ 47 }
    requires not_dot { letter ≢ 46 }
    ensures { IfOk result (λ name. name ≡ letter ∷ []) }
{
    Ok(Name::new(vec![in alloc; letter]?))
}

// A directory into which three names were put in no order.
fn directory(alloc: Global) -> Result<Tree, Fail> {
    let mut tree = Tree::dir(alloc);
    let content = Content::new(vec![in alloc; b'5']?);
    tree.put(one_letter(alloc, b'c')?, Tree::dir(alloc))?;
    tree.put(one_letter(alloc, b'a')?, Tree::file(content))?;
    tree.put(one_letter(alloc, b'b')?, Tree::dir(alloc))?;
    Ok(tree)
}

// The reply of a tree to a call, as a line has it.
fn answer(alloc: Global, tree: &mut Tree, call: &Call) -> Result<Vec<u8>, Fail> {
    let reply = tree.apply(call)?;
    let mut text = Vec::new(alloc);
    append_reply(alloc, &mut text, &reply)?;
    Ok(text)
}

fn path(alloc: Global, text: &[u8]) -> Result<Path, Fail> {
    Ok(Path::parse(alloc, text)?)
}

// The names are in byte order, and behind each is what was put there: a file with its byte, and two empty directories.
#[test]
fn names_go_to_their_places(rt: HostRuntime) -> Result<(), Fail> {
    let a = rt.alloc();
    let mut tree = directory(a)?.copy()?;
    let names = answer(a, &mut tree, &Call::List(path(a, b"/")?))?;
    assert_eq!(rt; names.as_slice(), b"names 3 a b c".as_slice());
    let bytes = answer(a, &mut tree, &Call::Read(path(a, b"/a")?, 0, 9))?;
    assert_eq!(rt; bytes.as_slice(), b"data 35".as_slice());
    for directory in [b"/b", b"/c"] {
        let below = answer(a, &mut tree, &Call::List(path(a, directory.as_slice())?))?;
        assert_eq!(rt; below.as_slice(), b"names 0".as_slice());
    }
    Ok(())
}

#[test]
fn names_that_are_not_there_are_lacked(rt: HostRuntime) -> Result<(), Fail> {
    let tree = directory(rt.alloc())?;
    for name in [b"a", b"b", b"c"] {
        assert!(rt; !tree.lacks(name.as_slice()));
    }
    for name in [b"A", b"d", b"z"] {
        assert!(rt; tree.lacks(name.as_slice()));
    }
    for name in [b"aa", b"bz"] {
        assert!(rt; tree.lacks(name.as_slice()));
    }
    assert!(rt; tree.lacks(b"".as_slice()));
    assert!(rt; !Tree::file(Content::new(Vec::new(rt.alloc()))).lacks(b"a".as_slice()));
    Ok(())
}
