// Each kind of list once.
use call_locks::{Want, wants};
use file_tree::{Call, Path};
use glock_names::State;
use std::alloc::Global;
use std::process::Abort;
use std::test::Fail;

fn path(alloc: Global, text: &[u8]) -> Result<Path, Fail> {
    Ok(Path::parse(alloc, text)?)
}

#[test]
fn lists_are_those_of_their_calls(rt: HostRuntime) -> Result<(), Fail> {
    let a = rt.alloc();
    let made = wants(a, &Call::Create(path(a, b"/d/a")?))?;
    assert_eq!(rt; made.len(), 2);
    let gone = wants(a, &Call::Unlink(path(a, b"/d/a")?))?;
    assert_eq!(rt; gone.len(), 3);
    let read = wants(a, &Call::List(path(a, b"/")?))?;
    for want in &read {
        assert_eq!(rt;
            *want,
            Want {
                second: false,
                depth: 0,
                state: State::Sh
            }
        );
    }
    assert_eq!(rt; read.len(), 1);
    let moved = wants(a, &Call::Rename(path(a, b"/d/a")?, path(a, b"/b")?))?;
    assert_eq!(rt; moved.len(), 5);
    assert_eq!(rt; wants(a, &Call::Sync)?.len(), 0);
    Ok(())
}
