//! Mounting a small image that was laid out by hand. What is told of images that are not as they are to be, or are outside the
//! profile, and hashed directories, are rows over the top call.
ghost use Rattle.std.specs.Prelude.{◌≡◌, IfOk};
ghost use Rattle.shared_disk.specs.Disk.{IsIdle};
ghost use Rattle.shared_disk.specs.Memory.{memory_state};

use glock_names::Group;
use image_mount::mount_image;
use shared_disk::MemDisk;
use std::alloc::Global;
use std::process::Abort;
use std::test::Fail;

// Bytes at a place of a block.
type Part = (usize, usize, &'static [u8]);

// 538 blocks of 4096 bytes: the superblock in block 16, the master directory in 18, the list of groups in 20, the directory of
// journals in 21, and the dinode of the journal in 22. The journal's blocks of pointers are 23 and 24, and its places 25 to 536,
// of which the first has a log header.
const IMAGE: [Part; 49] = [
    (16, 0, b"\x01\x16\x19p\x00\x00\x00\x01"),
    (
        16,
        19,
        b"d\x00\x00\x00\x00\x00\x00\x07\x09\x00\x00\x07l\x00\x00\x00\x00\x00\x00\x10\x00\x00\x00\x00\x0c",
    ),
    (16, 55, b"\x01\x00\x00\x00\x00\x00\x00\x00\x12"),
    (16, 87, b"\x02\x00\x00\x00\x00\x00\x00\x00\x13lock_dlm"),
    (16, 160, b"gfs2run:image"),
    (18, 0, b"\x01\x16\x19p\x00\x00\x00\x04"),
    (18, 18, b"\x01\x90"),
    (18, 31, b"\x01\x00\x00\x00\x00\x00\x00\x00\x12\x00\x00A\xed"),
    (
        18,
        55,
        b"\x03\x00\x00\x00\x00\x00\x00\x0f\x18\x00\x00\x00\x00\x00\x00\x00\x01",
    ),
    (
        18,
        111,
        b"\x12\x00\x00\x00\x00\x00\x00\x00\x12\x00\x00\x00\x00\x00\x00\x00\x01\x00\x00\x00\x01\x00\x00\x04\xb0",
    ),
    (18, 151, b"\x04"),
    (
        18,
        239,
        b"\x01\x00\x00\x00\x00\x00\x00\x00\x12\x0e\xd4\xe2B\x000\x00\x01\x00\x04",
    ),
    (18, 272, b"."),
    (
        18,
        287,
        b"\x01\x00\x00\x00\x00\x00\x00\x00\x12\x96\x08\x16\x1c\x000\x00\x02\x00\x04",
    ),
    (18, 320, b".."),
    (
        18,
        335,
        b"\x04\x00\x00\x00\x00\x00\x00\x00\x15^\xfc\x1d\x83\x000\x00\x06\x00\x04",
    ),
    (18, 368, b"jindex"),
    (
        18,
        383,
        b"\x03\x00\x00\x00\x00\x00\x00\x00\x14\xb1y\x9du\x0e\x88\x00\x06\x00\x08",
    ),
    (18, 416, b"rindex"),
    (20, 0, b"\x01\x16\x19p\x00\x00\x00\x04"),
    (20, 18, b"\x01\x90"),
    (
        20,
        31,
        b"\x03\x00\x00\x00\x00\x00\x00\x00\x14\x00\x00\x81\x80",
    ),
    (
        20,
        55,
        b"\x01\x00\x00\x00\x00\x00\x00\x00`\x00\x00\x00\x00\x00\x00\x00\x01",
    ),
    (
        20,
        111,
        b"\x14\x00\x00\x00\x00\x00\x00\x00\x14\x00\x00\x00\x00\x00\x00\x00\x03\x00\x00\x02\x01",
    ),
    (20, 239, b"\x11\x00\x00\x00\x01"),
    (20, 255, b"\x12\x00\x00\x02\x08\x00\x00\x00\x82"),
    (21, 0, b"\x01\x16\x19p\x00\x00\x00\x04"),
    (21, 18, b"\x01\x90"),
    (21, 31, b"\x04\x00\x00\x00\x00\x00\x00\x00\x15\x00\x00A\xed"),
    (
        21,
        55,
        b"\x02\x00\x00\x00\x00\x00\x00\x0f\x18\x00\x00\x00\x00\x00\x00\x00\x01",
    ),
    (
        21,
        111,
        b"\x15\x00\x00\x00\x00\x00\x00\x00\x15\x00\x00\x00\x00\x00\x00\x00\x04\x00\x00\x00\x01\x00\x00\x04\xb0",
    ),
    (21, 151, b"\x03"),
    (
        21,
        239,
        b"\x04\x00\x00\x00\x00\x00\x00\x00\x15\x0e\xd4\xe2B\x000\x00\x01\x00\x04",
    ),
    (21, 272, b"."),
    (
        21,
        287,
        b"\x01\x00\x00\x00\x00\x00\x00\x00\x12\x96\x08\x16\x1c\x000\x00\x02\x00\x04",
    ),
    (21, 320, b".."),
    (
        21,
        335,
        b"\x05\x00\x00\x00\x00\x00\x00\x00\x16\xfcwE\xeb\x0e\xb8\x00\x08\x00\x08",
    ),
    (21, 368, b"journal0"),
    (22, 0, b"\x01\x16\x19p\x00\x00\x00\x04"),
    (22, 18, b"\x01\x90"),
    (
        22,
        31,
        b"\x05\x00\x00\x00\x00\x00\x00\x00\x16\x00\x00\x81\x80",
    ),
    (22, 55, b"\x01\x00\x00\x00\x00\x00 "),
    (22, 70, b"\x02\x03"),
    (
        22,
        111,
        b"\x16\x00\x00\x00\x00\x00\x00\x00\x16\x00\x00\x00\x00\x00\x00\x00\x05\x00\x00\x02\x01\x00\x00\x00\x00\x00\x00\x00\x02",
    ),
    (22, 239, b"\x17\x00\x00\x00\x00\x00\x00\x00\x18"),
    (25, 0, b"\x01\x16\x19p\x00\x00\x00\x08"),
    (25, 18, b"\x03 "),
    (25, 31, b"\x01\x00\x00\x00\x01"),
    (25, 44, b"\xac/\xff\x8d"),
];

fn put(rt: &impl Abort, bytes: &mut Vec<u8>, at: usize, part: &[u8]) {
    assert!(rt; at <= bytes.len() && part.len() <= bytes.len() - at);
    bytes[at..at + part.len()].copy_from_slice(part);
}

// Pointers to the blocks from 25 on: 509 in the first block of pointers, and three in the second.
fn put_pointers(rt: &impl Abort, bytes: &mut Vec<u8>) {
    for block in [23usize, 24] {
        put(rt, bytes, block * 4096, b"\x01\x16\x19\x70\x00\x00\x00\x05");
        put(rt, bytes, block * 4096 + 16, b"\x00\x00\x01\xf4");
    }
    for place in 0..512u64 {
        let at = if place < 509 {
            23 * 4096 + 24
        } else {
            24 * 4096 + 24 - 509 * 8
        };
        put(
            rt,
            bytes,
            at + place as usize * 8,
            &(place + 25).to_be_bytes(),
        );
    }
}

fn disk(rt: &impl Abort, alloc: Global) -> Result<MemDisk, Fail>
    ensures { IfOk result (λ d. (d.nodes.size ≡ 4096) × IsIdle (memory_state d)) }
{
    let mut bytes = vec![in alloc; 0u8; 2_203_648]?;
    for (block, at, part) in IMAGE {
        assert!(rt; block < 538 && at < 4096);
        put(rt, &mut bytes, block * 4096 + at, part);
    }
    put_pointers(rt, &mut bytes);
    assert!(rt; bytes.len() == 2_203_648);
    Ok(MemDisk::new(4096, bytes, Vec::new(alloc), Vec::new(alloc), 0)?)
}

#[test]
fn small_image_is_mounted(rt: HostRuntime) -> Result<(), Fail> {
    let mut disk = disk(&rt, rt.alloc())?;
    let Ok(mounted) = mount_image(rt.alloc(), &mut disk) else {
        return Err(Fail::from("not mounted"));
    };
    assert_eq!(rt; mounted.sb.root.address, 19);
    assert_eq!(rt; mounted.groups.len(), 1);
    assert_eq!(rt;
        mounted.groups.first(),
        Some(&Group {
            addr: 17,
            length: 1,
            first: 18,
            count: 520
        })
    );
    assert_eq!(rt; mounted.journals.len(), 1);
    let Some(journal) = mounted.journals.first() else {
        return Err(Fail::from("no journal"));
    };
    assert_eq!(rt; journal.dinode, 22);
    assert_eq!(rt; journal.blocks.len(), 512);
    for (place, block) in journal.blocks.iter().enumerate() {
        assert_eq!(rt; *block, 25u64.saturating_add(place as u64));
    }
    assert_eq!(rt; journal.head.blkno, 0);
    assert_eq!(rt; journal.head.clean, true);
    Ok(())
}
