//! Numbers outside their limits, which no command asks for, and one image. All other images, what is refused, and the calls of
//! the disk are rows over the top call, beside the images of a program of its own, `checks/new_image.py`.
ghost use Rattle.std.specs.Prelude.{◌≡◌, ◌%◌, ◌≤◌, IfOk};
ghost use Rattle.shared_disk.specs.Disk.{IsIdle};
ghost use Rattle.shared_disk.specs.Memory.{memory_state};

use crc_words::crc32;
use mkgfs2_tool::{MakeFault, MakeOptions, Opt, make};
use shared_disk::{MemDisk, SharedDisk};
use std::alloc::Global;
use std::process::Abort;
use std::test::Fail;

// What a device of ones, of so many blocks of 4096 bytes, holds once an image was to be made on it, and how that ended.
fn make_on(
    rt: &impl Abort,
    alloc: Global,
    blocks: usize,
    options: &MakeOptions,
) -> Result<(Option<MakeFault>, Vec<u8>), Fail> {
    assert!(rt; blocks <= 1000);
    let bytes = vec![in alloc; 0xffu8; blocks * 4096]?;
    let mut disk = device(rt, alloc, bytes)?;
    assert!(rt; disk.blocks() <= 131_072);
    let end = make(alloc, &mut disk, options).err();
    Ok((end, disk.into_bytes()))
}

fn device(rt: &impl Abort, alloc: Global, bytes: Vec<u8>) -> Result<MemDisk, Fail>
    ensures { IfOk result (λ d. (d.nodes.size ≡ 4096) × IsIdle (memory_state d)) }
{
    assert!(rt; bytes.len() % 4096 == 0);
    Ok(MemDisk::new(4096, bytes, Vec::new(alloc), Vec::new(alloc), 0)?)
}

fn options_of(journals: u32, journal_blocks: u32, groups: u32) -> MakeOptions {
    MakeOptions {
        journals,
        journal_blocks,
        groups,
        uuid: [0; 16],
        time: 0,
    }
}

// Journals, their blocks, groups; and which of the numbers is refused.
const REFUSED: [(u32, u32, u32, Opt); 17] = [
    (0, 512, 1, Opt::Journals),
    (9, 512, 1, Opt::Journals),
    (u32::MAX, 512, 1, Opt::Journals),
    (1, 511, 1, Opt::JournalBlocks),
    (8, 65_537, 64, Opt::JournalBlocks),
    (1, 0, 1, Opt::JournalBlocks),
    (1, u32::MAX, 1, Opt::JournalBlocks),
    (1, 512, 0, Opt::Groups),
    (8, 65_536, 65, Opt::Groups),
    (1, 512, u32::MAX, Opt::Groups),
    // The first of several.
    (0, 511, 0, Opt::Journals),
    (9, 511, 1, Opt::Journals),
    (9, 512, 65, Opt::Journals),
    (0, 65_537, 65, Opt::Journals),
    (8, 511, 0, Opt::JournalBlocks),
    (1, 65_537, 65, Opt::JournalBlocks),
    (0, 0, 0, Opt::Journals),
];

// On a device that is too small, and on one that is not; and then the least image is made.
#[test]
fn numbers_outside_their_limits_are_refused_first(rt: HostRuntime) -> Result<(), Fail> {
    for (journals, journal_blocks, groups, opt) in REFUSED {
        let options = options_of(journals, journal_blocks, groups);
        for blocks in [0usize, 1000] {
            let (end, bytes) = make_on(&rt, rt.alloc(), blocks, &options)?;
            assert_eq!(rt; end, Some(MakeFault::BadOption(opt)), "of {options:?}");
            assert!(rt; bytes.iter().all(|byte| *byte == 0xff));
        }
    }
    let (end, bytes) = make_on(&rt, rt.alloc(), 538, &options_of(1, 512, 1))?;
    assert_eq!(rt; end, None);
    assert_eq!(rt; crc32(&bytes), 0x49FD_5DB1);
    Ok(())
}
