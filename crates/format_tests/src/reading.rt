// The structures at bytes that were laid out by hand after Linux's gfs2_ondisk.h.
ghost use Rattle.std.specs.Prelude.{◌≡◌, length};

use gfs2_layout::{
    Dinode, Dirent, Inum, LayoutFault, MetaHeader, SuperBlock, find_record, is_area, next_record,
};
use std::process::Abort;
use std::test::Fail;

// Bytes at a place.
pub(crate) type Part = (usize, &'static [u8]);

pub(crate) const SUPERBLOCK: [Part; 9] = [
    (0, b"\x01\x16\x19\x70\x00\x00\x00\x01"),
    (16, b"\x00\x00\x00\x64"),
    (24, b"\x00\x00\x07\x09\x00\x00\x07\x6c"),
    (36, b"\x00\x00\x10\x00\x00\x00\x00\x0c"),
    (
        48,
        b"\x00\x00\x00\x00\x00\x00\x00\x02\x00\x00\x00\x00\x00\x00\x40\x17",
    ),
    (
        80,
        b"\x00\x00\x00\x00\x00\x00\x00\x01\x00\x00\x00\x00\x00\x00\x40\x16",
    ),
    (96, b"lock_dlm"),
    (160, b"cluster:disk"),
    (256, b"0123456789abcdef"),
];

pub(crate) const DINODE: [Part; 12] = [
    (0, b"\x01\x16\x19\x70\x00\x00\x00\x04"),
    (16, b"\x00\x00\x01\x90\x00\x00\x00\x03"),
    (
        24,
        b"\x00\x00\x00\x00\x00\x00\x00\x05\x00\x00\x00\x00\x00\x00\x40\x19",
    ),
    (
        40,
        b"\x00\x00\x81\xa4\x00\x00\x03\xe8\x00\x00\x03\xe9\x00\x00\x00\x02",
    ),
    (
        56,
        b"\x00\x00\x00\x01\x00\x00\x00\x07\x00\x00\x00\x00\x00\x00\x00\x06",
    ),
    (
        72,
        b"\x00\x00\x00\x00\x00\x00\x00\x0a\x00\x00\x00\x00\x00\x00\x00\x0b",
    ),
    (
        88,
        b"\x00\x00\x00\x00\x00\x00\x00\x0c\x00\x00\x00\x0d\x00\x00\x00\x0e",
    ),
    (
        104,
        b"\x00\x00\x00\x00\x00\x00\x00\x0f\x00\x00\x00\x00\x00\x00\x00\x10",
    ),
    (
        120,
        b"\x00\x00\x00\x00\x00\x00\x00\x11\x20\x00\x00\x01\x00\x00\x04\xb0",
    ),
    (
        136,
        b"\xff\xff\x00\x02\xff\xff\xff\xff\xff\xff\x00\x03\x00\x00\x00\x12",
    ),
    (
        168,
        b"\x00\x00\x00\x00\x00\x00\x00\x13\x00\x00\x00\x14\x00\x00\x00\x15",
    ),
    (184, b"\x00\x00\x00\x16\xff\xff"),
];

pub(crate) const DINODE_READ: Dinode = Dinode {
    num: Inum {
        number: 5,
        address: 16_409,
    },
    mode: 0o100_644,
    uid: 1_000,
    gid: 1_001,
    nlink: 2,
    size: 4_294_967_303,
    blocks: 6,
    atime: 10,
    mtime: 11,
    ctime: 12,
    major: 13,
    minor: 14,
    goal_meta: 15,
    goal_data: 16,
    generation: 17,
    flags: 0x2000_0001,
    payload_format: 1_200,
    height: 2,
    depth: 3,
    entries: 18,
    eattr: 19,
    atime_nsec: 20,
    mtime_nsec: 21,
    ctime_nsec: 22,
};

// Two records of 48 bytes: `b`, which leads to block 9, and `ab`, which leads to block 10.
pub(crate) const RECORDS: [Part; 6] = [
    (
        0,
        b"\x00\x00\x00\x00\x00\x00\x00\x02\x00\x00\x00\x00\x00\x00\x00\x09",
    ),
    (16, b"\xde\xad\xbe\xef\x00\x30\x00\x01\x00\x08\x00\x07"),
    (40, b"b"),
    (
        48,
        b"\x00\x00\x00\x00\x00\x00\x00\x03\x00\x00\x00\x00\x00\x00\x00\x0a",
    ),
    (64, b"\x12\x34\x56\x78\x00\x30\x00\x02\x00\x04\x00\x00"),
    (88, b"ab"),
];

pub(crate) const FIRST_HEAD: Dirent = Dirent {
    inum: Inum {
        number: 2,
        address: 9,
    },
    hash: 0xdead_beef,
    rec_len: 48,
    name_len: 1,
    kind: 8,
    rahead: 7,
};

const SECOND_HEAD: Dirent = Dirent {
    inum: Inum {
        number: 3,
        address: 10,
    },
    hash: 0x1234_5678,
    rec_len: 48,
    name_len: 2,
    kind: 4,
    rahead: 0,
};

fn put(rt: &impl Abort, bytes: &mut [u8], at: usize, part: &[u8])
    ensures { length bytes.new ≡ length bytes.old }
{
    assert!(rt; at <= bytes.len() && part.len() <= bytes.len() - at);
    bytes[at..at + part.len()].copy_from_slice(part);
}

// Zeros, and the parts at their places, the later ones over the earlier.
pub(crate) fn laid_out<const N: usize>(rt: &impl Abort, parts: &[Part], later: &[Part]) -> [u8; N] {
    laid_over(rt, 0, parts, later)
}

// The same over bytes of one value.
pub(crate) fn laid_over<const N: usize>(
    rt: &impl Abort,
    below: u8,
    parts: &[Part],
    later: &[Part],
) -> [u8; N] {
    let mut bytes = [below; N];
    for (at, part) in parts {
        put(rt, &mut bytes, *at, part);
    }
    for (at, part) in later {
        put(rt, &mut bytes, *at, part);
    }
    bytes
}

// What stands in SUPERBLOCK.
pub(crate) fn superblock(rt: &impl Abort) -> SuperBlock {
    SuperBlock {
        fs_format: 1_801,
        multihost_format: 1_900,
        bsize: 4_096,
        bsize_shift: 12,
        master: Inum {
            number: 2,
            address: 16_407,
        },
        root: Inum {
            number: 1,
            address: 16_406,
        },
        lock_protocol: laid_out(rt, &[(0, b"lock_dlm")], &[]),
        lock_table: laid_out(rt, &[(0, b"cluster:disk")], &[]),
        uuid: *b"0123456789abcdef",
    }
}

#[test]
fn each_field_is_at_its_place(rt: HostRuntime) {
    let bytes: [u8; 272] = laid_out(&rt, &SUPERBLOCK, &[]);
    assert_eq!(rt; SuperBlock::read(&bytes), Ok(superblock(&rt)));
    let bytes: [u8; 232] = laid_out(&rt, &DINODE, &[]);
    assert_eq!(rt; Dinode::read(&bytes), Ok(DINODE_READ));
    assert!(rt; DINODE_READ.is_regular() && !DINODE_READ.is_directory());
    let marked = Dinode {
        mode: 0xffff_41ed,
        ..DINODE_READ
    };
    assert!(rt; marked.is_directory() && !marked.is_regular());
    let header = MetaHeader {
        kind: 4,
        format: 400,
        jid: 3,
    };
    assert_eq!(rt; MetaHeader::read(&bytes), Ok(header));
    let bytes: [u8; 48] = laid_out(&rt, &RECORDS[..3], &[]);
    assert_eq!(rt; Dirent::read(&bytes), Ok(FIRST_HEAD));
}

// How many bytes are left, what is laid over them, and the fault: of a superblock, of a dinode and of a
// record's head.
const SUPERBLOCK_FAULTS: [(usize, &[Part], LayoutFault); 7] = [
    (0, &[], LayoutFault::Short),
    (271, &[(0, b"\x00")], LayoutFault::Short),
    (272, &[(0, b"\x70\x19\x16\x01")], LayoutFault::Magic),
    (272, &[(3, b"\x71\x00\x00\x00\x02")], LayoutFault::Magic),
    (
        272,
        &[(4, b"\x01\x00\x00\x00")],
        LayoutFault::Kind(0x0100_0000),
    ),
    (272, &[(7, b"\x04"), (19, b"\x65")], LayoutFault::Kind(4)),
    (272, &[(16, b"\x00\x00\x01\x90")], LayoutFault::Format(400)),
];

const DINODE_FAULTS: [(usize, &[Part], LayoutFault); 5] = [
    (231, &[], LayoutFault::Short),
    (232, &[(1, b"\x17")], LayoutFault::Magic),
    (232, &[(7, b"\x05")], LayoutFault::Kind(5)),
    (232, &[(7, b"\x00"), (19, b"\x00")], LayoutFault::Kind(0)),
    (232, &[(18, b"\x00\x64")], LayoutFault::Format(100)),
];

const HEAD_FAULTS: [(usize, &[Part], Option<LayoutFault>); 7] = [
    (39, &[(25, b"\x05")], Some(LayoutFault::Short)),
    (
        40,
        &[(25, b"\x05")],
        Some(LayoutFault::Value {
            place: 24,
            found: 5,
        }),
    ),
    (
        40,
        &[(24, b"\x08\x00")],
        Some(LayoutFault::Value {
            place: 24,
            found: 2_048,
        }),
    ),
    (40, &[(25, b"\x04")], None),
    (40, &[(25, b"\x08")], None),
    (40, &[(25, b"\x05"), (7, b"\x00")], None),
    (40, &[(25, b"\x05"), (15, b"\x00")], None),
];

#[test]
fn the_first_fault_is_told(rt: HostRuntime) {
    for (left, later, want) in SUPERBLOCK_FAULTS {
        let bytes: [u8; 272] = laid_out(&rt, &SUPERBLOCK, later);
        assert!(rt; left <= 272);
        assert_eq!(rt;
            SuperBlock::read(&bytes[..left]).err(),
            Some(want),
            "at {left}"
        );
    }
    for (left, later, want) in DINODE_FAULTS {
        let bytes: [u8; 232] = laid_out(&rt, &DINODE, later);
        assert!(rt; left <= 232);
        assert_eq!(rt; Dinode::read(&bytes[..left]).err(), Some(want), "at {left}");
    }
    for (left, later, want) in HEAD_FAULTS {
        let bytes: [u8; 48] = laid_out(&rt, &RECORDS[..3], later);
        assert!(rt; left <= 48);
        assert_eq!(rt; Dirent::read(&bytes[..left]).err(), want, "at {left}");
    }
    let bytes: [u8; 24] = laid_out(&rt, &DINODE[..2], &[(0, b"\x00")]);
    assert_eq!(rt; MetaHeader::read(&bytes), Err(LayoutFault::Magic));
    assert_eq!(rt; MetaHeader::read(&bytes[..23]), Err(LayoutFault::Short));
}

// How many bytes of the two records are left, what is laid over them, and whether they are an area.
const AREAS: [(usize, &[Part], bool); 14] = [
    (96, &[], true),
    (0, &[], true),
    (48, &[], true),
    (95, &[], false),
    (49, &[], false),
    (96, &[(68, b"\x00\x00")], false),
    (96, &[(68, b"\x00\x31")], false),
    (96, &[(68, b"\x00\x28")], false),
    (96, &[(20, b"\x00\x27")], false),
    (96, &[(20, b"\x00\x60")], true),
    (96, &[(70, b"\x00\x08")], true),
    (96, &[(70, b"\x00\x09")], false),
    (96, &[(70, b"\x00\x09"), (55, b"\x00")], true),
    (96, &[(70, b"\x00\x09"), (63, b"\x00")], true),
];

#[test]
fn an_area_is_filled_and_each_name_fits(rt: HostRuntime) {
    for (left, later, want) in AREAS {
        let bytes: [u8; 96] = laid_out(&rt, &RECORDS, later);
        assert!(rt; left <= 96);
        assert_eq!(rt; is_area(&bytes[..left]), want, "at {left} {later:?}");
    }
}

// What is laid over the two records, a name, and the place of its first record.
const FOUND: [(&[Part], &[u8], Option<u32>); 9] = [
    (&[], b"b", Some(0)),
    (&[], b"ab", Some(48)),
    (&[], b"a", None),
    (&[], b"b\x00", None),
    (&[(71, b"\x01"), (88, b"b")], b"b", Some(0)),
    (&[(71, b"\x01"), (88, b"b"), (7, b"\x00")], b"b", Some(48)),
    (&[(71, b"\x01"), (88, b"b"), (15, b"\x00")], b"b", Some(48)),
    (&[(7, b"\x00")], b"b", None),
    (&[(20, b"\x00\x60")], b"ab", None),
];

#[test]
fn the_first_record_in_use_is_found(rt: HostRuntime) {
    for (later, name, want) in FOUND {
        let bytes: [u8; 96] = laid_out(&rt, &RECORDS, later);
        assert!(rt; is_area(&bytes));
        assert_eq!(rt; find_record(&bytes, name), want, "at {name:?} {later:?}");
    }
}

#[test]
fn records_follow_one_another(rt: HostRuntime) -> Result<(), Fail> {
    let bytes: [u8; 96] = laid_out(&rt, &RECORDS, &[]);
    assert!(rt; is_area(&bytes));
    let (first, rest) = next_record(&bytes).ok_or("no first record")?;
    assert_eq!(rt; first.head, FIRST_HEAD);
    assert_eq!(rt; first.name, b"b".as_slice());
    assert!(rt; is_area(rest));
    let (second, rest) = next_record(rest).ok_or("no second record")?;
    assert_eq!(rt; second.head, SECOND_HEAD);
    assert_eq!(rt; second.name, b"ab".as_slice());
    assert!(rt; is_area(rest) && rest.is_empty());
    assert!(rt; next_record(rest).is_none());
    Ok(())
}
