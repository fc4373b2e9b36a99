// Inodes on blocks of 512 bytes, laid out by hand after Linux's gfs2_ondisk.h. A dinode has 35 pointers from byte 232 on,
// an indirect block 61 from byte 24 on, and a table block of a directory carries 488 bytes from byte 24 on.
use dinode_tree::{place, read_range};
use glock_names::{CallFault, Group, LockName, Missing, State, Step, View};
use std::alloc::{AllocError, Global};
use std::collections::BTreeMap;
use std::process::Abort;
use std::test::Fail;

static NO_GROUPS: [Group; 0] = [];

// The blocks that are there.
#[derive(Drop)]
struct Shelf {
    blocks: BTreeMap<u64, Vec<u8>>,
}

impl View for Shelf {
    ghost use Rattle.std.specs.Prelude.{None, Some, [], length, ◌==◌, if◌then◌else◌, option_and_then};
    ghost use Rattle.std.specs.BTreeMap.{get};
    ghost use Rattle.std.specs.Ordering.{nat_cmp};
    ghost use Rattle.glock_names.specs.declared.State.TheVariants.{Ex};

    ghost seen = { λ v. record {
      size = 512;
      root = 2;
      groups = [];
      state_of = λ lock. Ex;
      block_at = λ b. option_and_then (λ bytes. if length bytes.items == 512 then Some bytes.items else None) (get nat_cmp v.blocks b);
    } };

    fn state(&self, _lock: LockName) -> State {
        State::Ex
    }

    fn block(&self, block: u64) -> Option<&[u8]> {
        match self.blocks.get(&block) {
            Some(bytes) if bytes.len() == 512 => Some(bytes),
            _ => None,
        }
    }

    fn groups(&self) -> &[Group] {
        &NO_GROUPS
    }

    fn root(&self) -> u64 {
        2
    }

    fn block_size(&self) -> u32 {
        512
    }
}

// Bytes at a place of a block.
type Part = (u64, usize, &'static [u8]);

// A file of five bytes behind its dinode.
const SHORT: [Part; 7] = [
    (10, 0, b"\x01\x16\x19\x70\x00\x00\x00\x04"),
    (10, 16, b"\x00\x00\x01\x90"),
    (10, 24, b"\x00\x00\x00\x00\x00\x00\x00\x03"),
    (10, 32, b"\x00\x00\x00\x00\x00\x00\x00\x0a"),
    (10, 40, b"\x00\x00\x81\xa4"),
    (10, 56, b"\x00\x00\x00\x00\x00\x00\x00\x05"),
    (10, 232, b"hello, and what is left"),
];

// A file of height 1 and of 1,200 bytes: a block, a hole, and a part of a block.
const HOLED: [Part; 12] = [
    (20, 0, b"\x01\x16\x19\x70\x00\x00\x00\x04"),
    (20, 16, b"\x00\x00\x01\x90"),
    (20, 24, b"\x00\x00\x00\x00\x00\x00\x00\x04"),
    (20, 32, b"\x00\x00\x00\x00\x00\x00\x00\x14"),
    (20, 40, b"\x00\x00\x81\xa4"),
    (20, 56, b"\x00\x00\x00\x00\x00\x00\x04\xb0"),
    (20, 138, b"\x00\x01"),
    (20, 232, b"\x00\x00\x00\x00\x00\x00\x00\x15"),
    (20, 248, b"\x00\x00\x00\x00\x00\x00\x00\x16"),
    (21, 0, b"begins"),
    (21, 509, b"end"),
    (22, 170, b"abcdef, and what is left"),
];

// A file of height 2: its first pointer leads to the blocks of content 0 and 60, its second one to 61.
const TALL: [Part; 17] = [
    (30, 0, b"\x01\x16\x19\x70\x00\x00\x00\x04"),
    (30, 16, b"\x00\x00\x01\x90"),
    (30, 24, b"\x00\x00\x00\x00\x00\x00\x00\x05"),
    (30, 32, b"\x00\x00\x00\x00\x00\x00\x00\x1e"),
    (30, 40, b"\x00\x00\x81\xa4"),
    (30, 56, b"\x00\x00\x00\x00\x00\x00\x7a\x64"),
    (30, 138, b"\x00\x02"),
    (30, 232, b"\x00\x00\x00\x00\x00\x00\x00\x1f"),
    (30, 240, b"\x00\x00\x00\x00\x00\x00\x00\x20"),
    (31, 0, b"\x01\x16\x19\x70\x00\x00\x00\x05"),
    (
        31,
        16,
        b"\x00\x00\x01\xf4\x00\x00\x00\x00\x00\x00\x00\x00\x00\x00\x00\x21",
    ),
    (31, 504, b"\x00\x00\x00\x00\x00\x00\x00\x22"),
    (32, 0, b"\x01\x16\x19\x70\x00\x00\x00\x05"),
    (
        32,
        16,
        b"\x00\x00\x01\xf4\x00\x00\x00\x00\x00\x00\x00\x00\x00\x00\x00\x23",
    ),
    (33, 0, b"first"),
    (34, 508, b"join"),
    (35, 0, b"ing"),
];

// A directory of height 1 and of two table blocks.
const TABLE: [Part; 15] = [
    (40, 0, b"\x01\x16\x19\x70\x00\x00\x00\x04"),
    (40, 16, b"\x00\x00\x01\x90"),
    (40, 24, b"\x00\x00\x00\x00\x00\x00\x00\x06"),
    (40, 32, b"\x00\x00\x00\x00\x00\x00\x00\x28"),
    (40, 40, b"\x00\x00\x41\xed"),
    (40, 56, b"\x00\x00\x00\x00\x00\x00\x03\xd0"),
    (40, 138, b"\x00\x01"),
    (40, 232, b"\x00\x00\x00\x00\x00\x00\x00\x29"),
    (40, 240, b"\x00\x00\x00\x00\x00\x00\x00\x2a"),
    (41, 0, b"\x01\x16\x19\x70\x00\x00\x00\x07"),
    (41, 16, b"\x00\x00\x02\xbc"),
    (41, 508, b"rest"),
    (42, 0, b"\x01\x16\x19\x70\x00\x00\x00\x07"),
    (42, 16, b"\x00\x00\x02\xbc"),
    (42, 24, b"more"),
];

// A file of height 10 and of 2 ^ 58 bytes, with no block but its dinode.
const HIGH: [Part; 7] = [
    (50, 0, b"\x01\x16\x19\x70\x00\x00\x00\x04"),
    (50, 16, b"\x00\x00\x01\x90"),
    (50, 24, b"\x00\x00\x00\x00\x00\x00\x00\x07"),
    (50, 32, b"\x00\x00\x00\x00\x00\x00\x00\x32"),
    (50, 40, b"\x00\x00\x81\xa4"),
    (50, 56, b"\x04\x00\x00\x00\x00\x00\x00\x00"),
    (50, 138, b"\x00\x0a"),
];

const FILES: [&[Part]; 5] = [&SHORT, &HOLED, &TALL, &TABLE, &HIGH];

// Lays a part over its block, which is made of zeros where it isn't there.
fn lay(shelf: &mut Shelf, alloc: Global, part: Part) -> Result<(), AllocError> {
    let (number, at, bytes) = part;
    let mut block = match shelf.blocks.remove(&number) {
        Some(block) => block,
        None => vec![in alloc; 0; 512]?,
    };
    if at <= block.len() && bytes.len() <= block.len() - at {
        block[at..at + bytes.len()].copy_from_slice(bytes);
    }
    shelf.blocks.insert(number, block)?;
    Ok(())
}

// All the files.
fn all_files(alloc: Global) -> Result<Shelf, AllocError> {
    let mut shelf = Shelf {
        blocks: BTreeMap::new(alloc),
    };
    for file in FILES {
        for part in file {
            lay(&mut shelf, alloc, *part)?;
        }
    }
    Ok(shelf)
}

// An inode, an index, and the block of content: of content behind a dinode there is none, nor past what the pointers reach.
const PLACES: [(u64, u64, Option<u64>); 7] = [
    (10, 0, None),
    (20, 34, None),
    (20, 35, None),
    (30, 2135, None),
    (50, 0, None),
    (50, 0x0001_ffff_ffff_ffff, None),
    (50, 0xffff_ffff_ffff_ffff, None),
];

// An inode, a range that no call has, and the bytes.
const READS: [(u64, u64, u32, &[u8]); 3] = [
    (20, 0xffff_ffff_ffff_ffff, 9, b""),
    (40, 484, 8, b"restmore"),
    (50, 0x03ff_ffff_ffff_fffe, 9, b"\x00\x00"),
];

// Whether these bytes were answered.
fn gives(answer: Result<Step<Vec<u8>>, CallFault>, want: &[u8]) -> bool {
    match answer {
        Ok(Step::Is(bytes)) => bytes.as_slice() == want,
        _ => false,
    }
}

#[test]
fn offsets_that_no_call_has(rt: HostRuntime) -> Result<(), Fail> {
    let a = rt.alloc();
    let shelf = all_files(a)?;
    for (dinode, index, want) in PLACES {
        assert_eq!(rt;
            place(&shelf, dinode, index),
            Ok(Step::Is(want)),
            "at {dinode} {index}"
        );
    }
    for (dinode, at, len, want) in READS {
        assert!(rt;
            gives(read_range(a, &shelf, dinode, at, len), want),
            "at {dinode} {at} {len}"
        );
    }
    Ok(())
}

fn missing(dinode: u64, block: u64, plain: bool, from: u64) -> Missing {
    Missing {
        lock: LockName {
            kind: 2,
            number: dinode,
        },
        block,
        plain,
        from,
    }
}

// The same for both calls.
fn check_missing(
    rt: &impl Abort,
    alloc: Global,
    shelf: &Shelf,
    (dinode, index): (u64, u64),
    found: Step<Option<u64>>,
    want: Missing,
) {
    assert_eq!(rt; place(shelf, dinode, index), Ok(found));
    let read = read_range(alloc, shelf, dinode, index % 1_000 * 512, 1);
    assert!(rt; matches!(read, Ok(Step::NeedBlock(missing)) if missing == want));
}

#[test]
fn what_is_missing_is_named(rt: HostRuntime) -> Result<(), Fail> {
    let a = rt.alloc();
    let mut shelf = all_files(a)?;
    for block in [10, 21, 32, 34, 41] {
        shelf.blocks.remove(&block);
    }
    let own = missing(10, 10, false, 10);
    check_missing(&rt, a, &shelf, (10, 0), Step::NeedBlock(own), own);
    check_missing(
        &rt,
        a,
        &shelf,
        (20, 0),
        Step::Is(Some(21)),
        missing(20, 21, true, 20),
    );
    let indirect = missing(30, 32, false, 30);
    check_missing(
        &rt,
        a,
        &shelf,
        (30, 61),
        Step::NeedBlock(indirect),
        indirect,
    );
    check_missing(
        &rt,
        a,
        &shelf,
        (30, 60),
        Step::Is(Some(34)),
        missing(30, 34, true, 31),
    );
    check_missing(
        &rt,
        a,
        &shelf,
        (40, 0),
        Step::Is(Some(41)),
        missing(40, 41, false, 40),
    );
    Ok(())
}
