// A hashed directory on blocks of 512 bytes, laid out by hand after Linux's gfs2_ondisk.h. Its table has 32 pointers behind the dinode:
// the lower half leads to one leaf, the upper half to another, behind which stands an overflow leaf.
use crate::shelf::{Part, Shelf, lay};
use glock_names::{Entry, LockName, Missing, Step};
use hash_dirs::look;
use std::alloc::{AllocError, Global};
use std::collections::BTreeMap;
use std::test::Fail;
use tree_tables::TreeTable;

const DIRECTORY: [Part; 32] = [
    (160, 0, b"\x01\x16\x19\x70\x00\x00\x00\x04"),
    (160, 16, b"\x00\x00\x01\x90"),
    (
        160,
        24,
        b"\x00\x00\x00\x00\x00\x00\x00\x08\x00\x00\x00\x00\x00\x00\x00\xa0",
    ),
    (160, 40, b"\x00\x00\x41\xed"),
    (160, 52, b"\x00\x00\x00\x02"),
    (
        160,
        56,
        b"\x00\x00\x00\x00\x00\x00\x01\x00\x00\x00\x00\x00\x00\x00\x00\x04",
    ),
    (160, 128, b"\x00\x00\x00\x02"),
    (160, 146, b"\x00\x05\x00\x00\x00\x05"),
    (161, 0, b"\x01\x16\x19\x70\x00\x00\x00\x06"),
    (161, 16, b"\x00\x00\x02\x58"),
    (
        161,
        24,
        b"\x00\x01\x00\x02\x00\x00\x04\xb0\x00\x00\x00\x00\x00\x00\x00\x00",
    ),
    (162, 0, b"\x01\x16\x19\x70\x00\x00\x00\x06"),
    (162, 16, b"\x00\x00\x02\x58"),
    (
        162,
        24,
        b"\x00\x01\x00\x02\x00\x00\x04\xb0\x00\x00\x00\x00\x00\x00\x00\xa3",
    ),
    (163, 0, b"\x01\x16\x19\x70\x00\x00\x00\x06"),
    (163, 16, b"\x00\x00\x02\x58"),
    (
        163,
        24,
        b"\x00\x01\x00\x01\x00\x00\x04\xb0\x00\x00\x00\x00\x00\x00\x00\x00",
    ),
    (
        161,
        104,
        b"\x00\x00\x00\x00\x00\x00\x00\x08\x00\x00\x00\x00\x00\x00\x00\xa0",
    ),
    (161, 120, b"\x0e\xd4\xe2\x42\x00\x30\x00\x01\x00\x04"),
    (161, 144, b"."),
    (
        161,
        152,
        b"\x00\x00\x00\x00\x00\x00\x00\x15\x00\x00\x00\x00\x00\x00\x00\xb5",
    ),
    (161, 168, b"\x1a\x3c\x7b\x13\x01\x68\x00\x04\x00\x08"),
    (161, 192, b"zeta"),
    (
        162,
        104,
        b"\x00\x00\x00\x00\x00\x00\x00\x02\x00\x00\x00\x00\x00\x00\x00\x02",
    ),
    (162, 120, b"\x96\x08\x16\x1c\x00\x30\x00\x02\x00\x04"),
    (162, 144, b".."),
    (
        162,
        152,
        b"\x00\x00\x00\x00\x00\x00\x00\x16\x00\x00\x00\x00\x00\x00\x00\xb6",
    ),
    (162, 168, b"\xd0\xe0\x39\x6a\x01\x68\x00\x05\x00\x08"),
    (162, 192, b"alpha"),
    (
        163,
        104,
        b"\x00\x00\x00\x00\x00\x00\x00\x17\x00\x00\x00\x00\x00\x00\x00\xb7",
    ),
    (163, 120, b"\x8f\x91\x04\x63\x01\x98\x00\x04\x00\x08"),
    (163, 144, b"beta"),
];

// The directory.
fn directory(alloc: Global) -> Result<Shelf, AllocError> {
    let mut shelf = Shelf {
        blocks: BTreeMap::new(alloc),
    };
    for part in DIRECTORY {
        lay(&mut shelf, alloc, part)?;
    }
    for index in 0..32 {
        let leaf: &[u8] = if index < 16 {
            b"\x00\x00\x00\x00\x00\x00\x00\xa1"
        } else {
            b"\x00\x00\x00\x00\x00\x00\x00\xa2"
        };
        lay(&mut shelf, alloc, (160, 232 + 8 * index, leaf))?;
    }
    Ok(shelf)
}

const TABLE: TreeTable = TreeTable {
    directory: 160,
    depth: 5,
};

fn file(number: u64, addr: u64) -> Option<Entry> {
    Some(Entry {
        number,
        addr,
        kind: 8,
    })
}

#[test]
fn a_leaf_that_is_missing_is_named(rt: HostRuntime) -> Result<(), Fail> {
    let mut shelf = directory(rt.alloc())?;
    shelf.blocks.remove(&163);
    let missing = Missing {
        lock: LockName {
            kind: 2,
            number: 160,
        },
        block: 163,
        plain: false,
        from: 162,
    };
    assert_eq!(rt;
        look(&shelf, 160, b"beta", &TABLE),
        Ok(Step::NeedBlock(missing))
    );
    assert_eq!(rt;
        look(&shelf, 160, b"alpha", &TABLE),
        Ok(Step::Is(file(22, 182)))
    );
    Ok(())
}
