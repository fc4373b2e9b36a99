// `dread`, which no command hands on yet, beside `read`: over a view of one block, in which the root is a file of five bytes.
use drafts::{Attempt, Stamp};
use file_tree::{Call, Path, Reply};
use glock_names::{CallFault, Group, LockName, State, View};
use read_calls::attempt;
use std::alloc::{AllocError, Global};
use std::process::Abort;
use std::test::Fail;

static NO_GROUPS: [Group; 0] = [];

// The file's block, and the state in which its lock is held.
#[derive(Drop)]
struct OneFile {
    block: Vec<u8>,
    state: State,
}

impl View for OneFile {
    ghost use Rattle.std.specs.Prelude.{None, Some, [], length, ◌==◌, if◌then◌else◌};

    ghost seen = { λ v. record {
      size = 512;
      root = 10;
      groups = [];
      state_of = λ lock. v.state;
      block_at = λ b. if b == 10 then (if length v.block.items == 512 then Some v.block.items else None) else None;
    } };

    fn state(&self, _lock: LockName) -> State {
        self.state
    }

    fn block(&self, block: u64) -> Option<&[u8]> {
        if block == 10 && self.block.len() == 512 {
            Some(&self.block)
        } else {
            None
        }
    }

    fn groups(&self) -> &[Group] {
        &NO_GROUPS
    }

    fn root(&self) -> u64 {
        10
    }

    fn block_size(&self) -> u32 {
        512
    }
}

// Its dinode, after Linux's gfs2_ondisk.h: its header, its number and its address, its mode, its size, and its content.
const FILE: [(usize, &[u8]); 7] = [
    (0, b"\x01\x16\x19\x70\x00\x00\x00\x04"),
    (16, b"\x00\x00\x01\x90"),
    (24, b"\x00\x00\x00\x00\x00\x00\x00\x03"),
    (32, b"\x00\x00\x00\x00\x00\x00\x00\x0a"),
    (40, b"\x00\x00\x81\xa4"),
    (56, b"\x00\x00\x00\x00\x00\x00\x00\x05"),
    (232, b"hello"),
];

fn file_in(alloc: Global, state: State) -> Result<OneFile, AllocError> {
    let mut block = vec![in alloc; 0; 512]?;
    for (at, bytes) in FILE {
        if at <= block.len() && bytes.len() <= block.len() - at {
            block[at..at + bytes.len()].copy_from_slice(bytes);
        }
    }
    Ok(OneFile { block, state })
}

// Whether it asks for the file's lock in this state, or where for none, gives three bytes from the second on.
fn is_as_wanted(answer: &Result<Attempt, CallFault>, asked: Option<State>) -> bool {
    match answer {
        Ok(Attempt::NeedLock { lock, state }) => lock.number == 10 && asked == Some(*state),
        Ok(
            Attempt::Done {
                reply: Reply::Bytes(content),
                ..
            },
        ) => asked.is_none() && content.bytes() == b"ell".as_slice(),
        _ => false,
    }
}

// The state in which the lock is held, and that for which `dread` and `read` ask.
const STATES: [(State, Option<State>, Option<State>); 4] = [
    (State::Un, Some(State::Df), Some(State::Sh)),
    (State::Sh, Some(State::Df), None),
    (State::Df, None, Some(State::Sh)),
    (State::Ex, None, None),
];

#[test]
fn a_dread_is_a_read_under_a_deferred_lock(rt: HostRuntime) -> Result<(), Fail> {
    let a = rt.alloc();
    let stamp = Stamp { node: 1, time: 0 };
    for (state, by_dread, by_read) in STATES {
        let file = file_in(a, state)?;
        let dread = Call::Dread(Path::parse(a, b"/")?, 1, 3);
        let read = Call::Read(Path::parse(a, b"/")?, 1, 3);
        assert!(rt; is_as_wanted(&attempt(a, &file, &dread, &stamp), by_dread));
        assert!(rt; is_as_wanted(&attempt(a, &file, &read, &stamp), by_read));
    }
    Ok(())
}
