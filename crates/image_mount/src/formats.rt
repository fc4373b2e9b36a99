ghost use Rattle.std.specs.Prelude.{◌≡◌, ◌≤◌, ◌^◌, ◌↔◌, IsTrue, OnOk, IfOk, IfErr};
ghost use Rattle.gfs2_layout.specs.Device.{IsBlockSize, superblock_place};
ghost use Rattle.gfs2_layout.specs.Structures.{superblock_of};
ghost use Rattle.image_model.specs.Image.{Image, superblock_in};
ghost use Rattle.image_mount.specs.Found.{HasSuper, HasFormat};
ghost use Rattle.image_mount.specs.Marked.{IsKept};
ghost use Rattle.image_mount.specs.Refusals.{RefusesRightly};
ghost use Rattle.image_mount.specs.Searching.{IsRead, IsSteady, StopsRightly, LacksBlock};
ghost use Rattle.profile_limits.specs.Limits.{most_blocks};

use crate::fault::MountFault;
use crate::field::Field;
use crate::kept_blocks::KeptBlocks;
use crate::stop::{Stop, damaged, outside};
use gfs2_layout::{SuperBlock, superblock_block};
use glock_names::View;

// Whether a block has two to this power bytes.
fn is_shift(shift: u32, size: u32) -> bool
    ensures { IsTrue result ↔ 2 ^ shift ≡ size }
{
    match 2u64.checked_pow(shift) {
        Some(power) => power == u64::from(size),
        None => false,
    }
}

// That the formats and the size of a block are those of the profile, on a device with blocks of this size.
fn check_formats(superblock: &SuperBlock, size: u32) -> Result<(), MountFault>
    requires { IsBlockSize size }
    ensures format { (im : Image) → HasSuper im → superblock.now ≡ superblock_in im → size ≡ im.size → OnOk result (HasFormat im) }
    ensures refused { (im : Image) → HasSuper im → superblock.now ≡ superblock_in im → size ≡ im.size → IfErr result (RefusesRightly im) }
    ensures steady { IfErr result IsSteady }
{
    if superblock.fs_format != 1801 {
        return Err(outside(Field::FsFormat, u64::from(superblock.fs_format)));
    }
    if superblock.multihost_format != 1900 {
        return Err(outside(
            Field::MultihostFormat,
            u64::from(superblock.multihost_format),
        ));
    }
    if superblock.bsize != size {
        return Err(outside(Field::Bsize, u64::from(superblock.bsize)));
    }
    if !is_shift(superblock.bsize_shift, size) {
        return Err(outside(Field::BsizeShift, u64::from(superblock.bsize_shift)));
    }
    Ok(())
}

/// The superblock, whose formats are those of the profile.
pub(crate) fn read_superblock(table: &KeptBlocks) -> Result<SuperBlock, Stop>
    ensures found { (im : Image) → IsRead im table.now → IfOk result (λ superblock. superblock ≡ superblock_in im) }
    ensures format { (im : Image) → IsRead im table.now → im.count ≤ most_blocks → OnOk result (HasFormat im) }
    ensures there { OnOk result (IsKept table.now (superblock_place table.now.size)) }
    ensures stops { (im : Image) → IsRead im table.now → im.count ≤ most_blocks → IfErr result (StopsRightly im) }
    ensures lacks { IfErr result (LacksBlock table.now) }
{
    let size = table.block_size();
    let place = superblock_block(size);
    let bytes = table.get(place, place)?;
    let Ok(superblock) = SuperBlock::read(bytes) else {
        return Err(Stop::Refused(damaged(place, 1)));
    };
    check_formats(&superblock, size)?;
    Ok(superblock)
}
