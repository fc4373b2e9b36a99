// What is written, against bytes that were laid out by hand; the checksums are zlib's crc32 of them.
use crate::reading::{
    DINODE, DINODE_READ, FIRST_HEAD, Part, RECORDS, SUPERBLOCK, laid_out, laid_over, superblock,
};
use gfs2_layout::{
    Dinode, Dirent, GroupHeader, Inum, LayoutFault, Leaf, LogHeader, MetaHeader, Rindex, SuperBlock,
};

// Each number is written at its place, and the bytes 255 between and behind them stay.
#[test]
fn superblocks_are_written(rt: HostRuntime) {
    let mut bytes = [255u8; 280];
    superblock(&rt).write(&mut bytes);
    let others: [Part; 3] = [(20, &[0; 4]), (104, &[0; 56]), (172, &[0; 52])];
    let want: [u8; 280] = laid_over(&rt, 255, &SUPERBLOCK, &others);
    assert_eq!(rt; bytes, want);
    assert_eq!(rt; SuperBlock::read(&bytes), Ok(superblock(&rt)));
}

#[test]
fn dinodes_are_written(rt: HostRuntime) {
    let mut bytes = [255u8; 240];
    DINODE_READ.write(&mut bytes);
    let want: [u8; 240] = laid_over(&rt, 255, &DINODE, &[(20, &[0; 4])]);
    assert_eq!(rt; bytes, want);
    assert_eq!(rt; Dinode::read(&bytes), Ok(DINODE_READ));
}

#[test]
fn heads_are_written(rt: HostRuntime) {
    let mut bytes = [255u8; 48];
    FIRST_HEAD.write(&mut bytes);
    let want: [u8; 48] = laid_over(&rt, 255, &RECORDS[..2], &[]);
    assert_eq!(rt; bytes, want);
    assert_eq!(rt; Dirent::read(&bytes), Ok(FIRST_HEAD));

    let mut bytes = [255u8; 32];
    let header = MetaHeader {
        kind: 4,
        format: 400,
        jid: 3,
    };
    header.write(&mut bytes);
    let want: [u8; 32] = laid_over(&rt, 255, &DINODE[..2], &[]);
    assert_eq!(rt; bytes, want);
    assert_eq!(rt; MetaHeader::read(&bytes), Ok(header));
}

const RINDEX: [Part; 2] = [
    (0, b"\x00\x00\x00\x00\x00\x00\x40\x11\x00\x00\x00\x01"),
    (
        16,
        b"\x00\x00\x00\x00\x00\x00\x40\x12\x00\x00\x00\x18\x00\x00\x00\x06",
    ),
];

const GROUP: [Part; 5] = [
    (0, b"\x01\x16\x19\x70\x00\x00\x00\x02"),
    (16, b"\x00\x00\x00\xc8\x00\x00\x00\x00"),
    (
        24,
        b"\x00\x00\x00\x00\x00\x00\x00\x14\x00\x00\x00\x02\x00\x00\x00\x00",
    ),
    (
        40,
        b"\x00\x00\x00\x00\x00\x00\x00\x05\x00\x00\x00\x00\x00\x00\x40\x12",
    ),
    (56, b"\x00\x00\x00\x18\x00\x00\x00\x06\x7f\x2c\x2c\x5a"),
];

#[test]
fn entries_of_groups_are_written(rt: HostRuntime) {
    let entry = Rindex {
        address: 16_401,
        length: 1,
        data0: 16_402,
        data_blocks: 24,
        bitbytes: 6,
    };
    let mut bytes = [255u8; 100];
    entry.write(&mut bytes);
    let want: [u8; 100] = laid_over(&rt, 255, &RINDEX, &[]);
    assert_eq!(rt; bytes, want);
    assert_eq!(rt; Rindex::read(&bytes), Ok(entry));
    assert_eq!(rt; Rindex::read(&[0; 95]), Err(LayoutFault::Short));
}

#[test]
fn group_headers_are_written_with_their_checksum(rt: HostRuntime) {
    let header = GroupHeader {
        flags: 0,
        free: 20,
        dinodes: 2,
        skip: 0,
        igeneration: 5,
        data0: 16_402,
        data_blocks: 24,
        bitbytes: 6,
    };
    let mut bytes = [0u8; 130];
    bytes[128] = 228;
    header.write(&mut bytes);
    let want: [u8; 130] = laid_out(&rt, &GROUP, &[(128, b"\xe4")]);
    assert_eq!(rt; bytes, want);
    let other: [u8; 128] = laid_out(&rt, &GROUP, &[(64, b"\x00")]);
    assert_eq!(rt; GroupHeader::read(&other), Ok(header));
    assert_eq!(rt; GroupHeader::read(&[0; 127]), Err(LayoutFault::Short));
}

const LEAF: [Part; 4] = [
    (0, b"\x01\x16\x19\x70\x00\x00\x00\x06"),
    (16, b"\x00\x00\x02\x58\x00\x00\x00\x00"),
    (
        24,
        b"\x00\x05\x00\x03\x00\x00\x04\xb0\x00\x00\x00\x00\x00\x00\x40\x20",
    ),
    (40, &[0; 64]),
];

#[test]
fn leaves_are_written(rt: HostRuntime) {
    let leaf = Leaf {
        depth: 5,
        entries: 3,
        next: 16_416,
    };
    let mut bytes = [255u8; 112];
    leaf.write(&mut bytes);
    let want: [u8; 112] = laid_over(&rt, 255, &LEAF, &[]);
    assert_eq!(rt; bytes, want);
    assert_eq!(rt; Leaf::read(&bytes), Ok(leaf));
}

#[test]
fn the_first_fault_of_a_leaf_is_told(rt: HostRuntime) {
    assert_eq!(rt; Leaf::read(&[0; 103]), Err(LayoutFault::Short));
    let other: [u8; 104] = laid_out(&rt, &LEAF, &[(28, b"\x00\x00\x00\x08")]);
    let fault = LayoutFault::Value {
        place: 28,
        found: 8,
    };
    assert_eq!(rt; Leaf::read(&other), Err(fault));
    let other: [u8; 104] = laid_out(&rt, &LEAF, &[(28, b"\x01"), (19, b"\x59")]);
    assert_eq!(rt; Leaf::read(&other), Err(LayoutFault::Format(601)));
}

const LOG_HEADER: [Part; 4] = [
    (0, b"\x01\x16\x19\x70\x00\x00\x00\x08"),
    (16, b"\x00\x00\x03\x20\x00\x00\x00\x01"),
    (
        24,
        b"\x00\x00\x00\x01\x00\x00\x00\x07\x00\x00\x00\x01\x00\x00\x00\x03",
    ),
    (40, b"\x00\x00\x00\x09\x05\xd7\x05\xa1"),
];

const CLEAN: LogHeader = LogHeader {
    jid: 1,
    sequence: 4_294_967_303,
    clean: true,
    tail: 3,
    blkno: 9,
};

// The flags and the hash, and whether the journal is clean: flags but the lowest tell nothing.
const FLAGS: [(&[Part], bool); 4] = [
    (&[], true),
    (&[(35, b"\x00"), (44, b"\xd8\x41\xdc\x24")], false),
    (&[(35, b"\x03"), (44, b"\x65\x8b\xb0\xea")], true),
    (&[(35, b"\x02"), (44, b"\xb8\x1d\x69\x6f")], false),
];

#[test]
fn log_headers_are_written_with_their_hash(rt: HostRuntime) {
    let want: [u8; 64] = laid_out(&rt, &LOG_HEADER, &[]);
    let mut bytes: [u8; 64] = laid_out(&rt, &[], &[(0, &[255; 8]), (16, &[255; 48])]);
    CLEAN.write(&mut bytes);
    assert_eq!(rt; bytes, want);
    for (later, clean) in FLAGS {
        let bytes: [u8; 48] = laid_out(&rt, &LOG_HEADER, later);
        let header = LogHeader { clean, ..CLEAN };
        assert_eq!(rt; LogHeader::read(&bytes), Ok(header), "at {later:?}");
    }
}

const HASH: LayoutFault = LayoutFault::Hash {
    kept: 0x05d7_05a1,
    computed: 0xd841_dc24,
};

const LOG_FAULTS: [(usize, &[Part], LayoutFault); 5] = [
    (47, &[(0, b"\x00")], LayoutFault::Short),
    (48, &[(0, b"\x00"), (7, b"\x09")], LayoutFault::Magic),
    (48, &[(7, b"\x09"), (19, b"\x84")], LayoutFault::Kind(9)),
    (
        48,
        &[(18, b"\x03\x84"), (35, b"\x00")],
        LayoutFault::Format(900),
    ),
    (48, &[(35, b"\x00")], HASH),
];

#[test]
fn the_first_fault_of_a_log_header_is_told(rt: HostRuntime) {
    for (left, later, want) in LOG_FAULTS {
        let bytes: [u8; 48] = laid_out(&rt, &LOG_HEADER, later);
        assert!(rt; left <= 48);
        assert_eq!(rt; LogHeader::read(&bytes[..left]), Err(want), "at {left}");
    }
}

const LARGEST: Inum = Inum {
    number: u64::MAX,
    address: u64::MAX,
};

// What is written over any bytes is read again, at the ends of each width.
#[test]
fn a_superblock_of_the_largest_numbers_is_read_again(rt: HostRuntime) {
    for below in [0u8, 1, 254, 255] {
        let mut bytes = [below; 272];
        let wide = SuperBlock {
            fs_format: u32::MAX,
            root: LARGEST,
            uuid: [below; 16],
            ..superblock(&rt)
        };
        wide.write(&mut bytes);
        assert_eq!(rt; SuperBlock::read(&bytes), Ok(wide));
    }
}

#[test]
fn a_dinode_of_the_largest_numbers_is_read_again(rt: HostRuntime) {
    for below in [0u8, 1, 254, 255] {
        let mut bytes = [below; 232];
        let wide = Dinode {
            num: LARGEST,
            size: u64::MAX,
            height: u16::MAX,
            ctime_nsec: u32::MAX,
            ..DINODE_READ
        };
        wide.write(&mut bytes);
        assert_eq!(rt; Dinode::read(&bytes), Ok(wide));
    }
}

#[test]
fn a_log_header_of_the_largest_numbers_is_read_again(rt: HostRuntime) {
    for below in [0u8, 1, 254, 255] {
        let mut bytes = [below; 60];
        let wide = LogHeader {
            sequence: u64::MAX,
            clean: below % 2 == 0,
            tail: u32::MAX,
            ..CLEAN
        };
        wide.write(&mut bytes);
        assert_eq!(rt; LogHeader::read(&bytes), Ok(wide));
    }
}
