ghost use Rattle.std.specs.Prelude.{◌≡◌, ◌≢◌, ◌+◌, ◌*◌, ◌<◌, ◌≤◌, ◌++◌, length, replicate, IfOk, IfErr, OnOk};
ghost use Rattle.gfs2_layout.specs.Inode.{unit, carried, content_block, content_count, content_of, Fits};
ghost use Rattle.image_reader.specs.Carrying.{carrier_of, pieces_before};
ghost use Rattle.image_reader.specs.Reading.{held, image_at, IsDinodeBlock, IsTrueOf};

use crate::image::ImageFault;
use crate::inode::Inode;
use gfs2_layout::DINODE_LENGTH;
use std::alloc::Global;

fn append_zeros(bytes: &mut Vec<u8>, count: usize) -> Result<(), ImageFault>
    ensures zeros { OnOk result (bytes.new.items ≡ bytes.old.items ++ replicate count 0) }
    ensures damaged { IfErr result (λ fault. fault ≡ ImageFault.NoMemory) }
{
    for _zero in 0..count {
        bytes.push(0)?;
    }
    Ok(())
}

// The content that a block carries is put behind the bytes; a hole stands for zeros.
fn append_carried(bytes: &mut Vec<u8>, inode: &Inode<'_>, index: u64) -> Result<(), ImageFault>
    requires dinode { IsDinodeBlock inode.now.block }
    requires fits { Fits (held inode.now) }
    requires pointed { inode.now.dinode.height ≢ 0 }
    requires within { index < content_count (held inode.now) }
    ensures carried { OnOk result (bytes.new.items ≡ bytes.old.items ++ carried (held inode.now) (content_block (held inode.now) index)) }
    ensures length { OnOk result (length bytes.new.items ≡ length bytes.old.items + unit (held inode.now)) }
    ensures damaged { IfErr result (IsTrueOf (image_at inode.now.block.image)) }
{
    match inode.content_block(index)? {
        Some(block) => {
            let before = block.image.size - inode.unit();
            bytes.extend_from_slice(&block.bytes()[before..])?;
        }
        None => {
            append_zeros(bytes, inode.unit())?;
        }
    }
    Ok(())
}

// What the blocks of content of an inode carry, one after another.
fn pointed_content(alloc: Global, inode: &Inode<'_>) -> Result<Vec<u8>, ImageFault>
    requires dinode { IsDinodeBlock inode.now.block }
    requires fits { Fits (held inode.now) }
    requires pointed { inode.now.dinode.height ≢ 0 }
    ensures pieces { IfOk result (λ bytes. bytes.items ≡ pieces_before (held inode.now) (content_count (held inode.now))) }
    ensures length { IfOk result (λ bytes. length bytes.items ≡ content_count (held inode.now) * unit (held inode.now)) }
    ensures some { 0 < unit (held inode.now) }
    ensures damaged { IfErr result (IsTrueOf (image_at inode.now.block.image)) }
{
    let mut bytes = Vec::new(alloc);
    for index in 0..inode.content_count() {
        append_carried(&mut bytes, inode, index)?;
    }
    Ok(bytes)
}

// What carries the content of an inode: its own block behind the dinode, or its blocks of content.
fn carried_content(alloc: Global, inode: &Inode<'_>) -> Result<Vec<u8>, ImageFault>
    requires dinode { IsDinodeBlock inode.now.block }
    requires fits { Fits (held inode.now) }
    ensures carrier { IfOk result (λ bytes. bytes.items ≡ carrier_of (held inode.now)) }
    ensures length { IfOk result (λ bytes. inode.now.dinode.size ≤ length bytes.items) }
    ensures damaged { IfErr result (IsTrueOf (image_at inode.now.block.image)) }
{
    if inode.dinode.height == 0 {
        let behind = &inode.block.bytes()[DINODE_LENGTH..];
        return Ok(Vec::from_slice(alloc, behind)?);
    }
    pointed_content(alloc, inode)
}

/// The content of an inode that fits. It takes memory for it, and reads a pointer a level for each block.
pub(crate) fn read_content(alloc: Global, inode: &Inode<'_>) -> Result<Vec<u8>, ImageFault>
    requires dinode { IsDinodeBlock inode.now.block }
    requires fits { Fits (held inode.now) }
    ensures content { IfOk result (λ bytes. bytes.items ≡ content_of (held inode.now)) }
    ensures length { IfOk result (λ bytes. length bytes.items ≡ inode.now.dinode.size) }
    ensures damaged { IfErr result (IsTrueOf (image_at inode.now.block.image)) }
{
    let mut bytes = carried_content(alloc, inode)?;
    bytes.truncate(inode.dinode.size as usize);
    Ok(bytes)
}
