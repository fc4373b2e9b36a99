// Lines worked out by hand; the checksum of `hello` is zlib's.
use file_tree::Path;
use show_text::{append_dir, append_file, append_journal};
use std::alloc::Global;
use std::test::Fail;

fn path(alloc: Global, text: &[u8]) -> Result<Path, Fail> {
    match Path::parse(alloc, text) {
        Ok(path) => Ok(path),
        Err(_) => Err(Fail::from("no path")),
    }
}

#[test]
fn lines_have_their_words(rt: HostRuntime) -> Result<(), Fail> {
    let alloc = rt.alloc();
    let mut text = Vec::new(alloc);
    append_journal(&mut text, 0, true)?;
    append_journal(&mut text, 7, false)?;
    append_dir(&mut text, path(alloc, b"/")?.names())?;
    append_file(alloc, &mut text, path(alloc, b"/a%20b")?.names(), b"hello")?;
    append_file(alloc, &mut text, path(alloc, b"/b")?.names(), b"")?;
    assert_eq!(rt;
        text.as_slice(),
        b"journal 0 clean\njournal 7 dirty\ndir /\nfile /a%20b 5 3610a686\nfile /b 0 00000000\n".as_slice()
    );
    Ok(())
}
