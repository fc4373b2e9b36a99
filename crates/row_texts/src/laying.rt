// Files that are laid into the root by hand, since no command makes files yet. The root is a directory in one block, the image
// has one group, and the record goes behind the others.
use crate::contents::name_of;
use crate::fields::DINODE_LENGTH;
use crate::images::Image;
use crate::numbers::{put_bytes, put_number};
use crate::places::first_free;
use anyhow::{Context, Result, ensure};
use crc_words::crc32;
use std::alloc::Global;

// Puts a number into a block.
fn put(image: &mut Image, block: u64, at: usize, width: usize, number: u64) -> Result<()> {
    let at = image.start(block).saturating_add(at);
    ensure!(
        put_number(&mut image.bytes, at, width, number),
        "outside the device"
    );
    Ok(())
}

fn add(image: &mut Image, block: u64, at: usize, width: usize, more: u64) -> Result<u64> {
    let number = image
        .number(block, at, width)
        .context("outside the device")?;
    let number = number.wrapping_add(more);
    put(image, block, at, width, number)?;
    Ok(number)
}

// The least length of a record of a name of so many bytes.
fn least(name: usize) -> usize {
    name.saturating_add(47) / 8 * 8
}

// Where the next record of a directory in one block or of a leaf goes, and its length: in the place of the last one where that
// is not in use, else behind it, which is cut.
fn make_room(image: &mut Image, block: u64) -> Result<(usize, usize)> {
    let last = image.last_record(block).context("no records")?;
    let length = image
        .number(block, last.saturating_add(20), 2)
        .context("no record")? as usize;
    let count = image
        .number(block, last.saturating_add(22), 2)
        .context("no record")? as usize;
    let number = image.number(block, last, 8).context("no record")?;
    let address = image
        .number(block, last.saturating_add(8), 8)
        .context("no record")?;
    if number == 0 || address == 0 {
        return Ok((last, length));
    }
    let own = least(count);
    put(image, block, last.saturating_add(20), 2, own as u64)?;
    Ok((last.saturating_add(own), length.saturating_sub(own)))
}

// Puts a record behind the others, and counts it.
fn put_record(
    image: &mut Image,
    block: u64,
    name: &[u8],
    number: u64,
    address: u64,
    kind: u64,
) -> Result<()> {
    let (at, length) = make_room(image, block)?;
    ensure!(length >= least(name.len()), "no room for a record");
    put(image, block, at, 8, number)?;
    put(image, block, at.saturating_add(8), 8, address)?;
    put(
        image,
        block,
        at.saturating_add(16),
        4,
        u64::from(crc32(name)),
    )?;
    put(image, block, at.saturating_add(20), 2, length as u64)?;
    put(image, block, at.saturating_add(22), 2, name.len() as u64)?;
    put(image, block, at.saturating_add(24), 2, kind)?;
    let place = image.start(block).saturating_add(at).saturating_add(40);
    ensure!(
        put_bytes(&mut image.bytes, place, name),
        "outside the device"
    );
    if image.kind(block) == Some(6) {
        add(image, block, 26, 2, 1)?;
    } else {
        add(image, block, 148, 4, 1)?;
    }
    Ok(())
}

/// Puts an empty leaf of a hashed directory, with one record that is not in use.
pub fn put_leaf(image: &mut Image, block: u64, depth: u64, next: u64) -> Result<()> {
    let area = u64::from(image.size).saturating_sub(104);
    let fields = [
        (0usize, 4usize, 0x0116_1970u64),
        (4, 4, 6),
        (16, 4, 600),
        (24, 2, depth),
        (28, 4, 1200),
        (32, 8, next),
        (124, 2, area),
    ];
    for (at, width, value) in fields {
        put(image, block, at, width, value)?;
    }
    Ok(())
}

// Takes the block from the free ones of the group, for a dinode. Answers the dinode's formal number.
fn take_block(image: &mut Image, group: u64, block: u64) -> Result<u64> {
    let data = image.number(group, 48, 8).context("no group")?;
    let index = block.saturating_sub(data);
    let at = 128usize.saturating_add((index / 4).min(4096) as usize);
    add(image, group, at, 1, 3 << (2 * (index % 4)))?;
    add(image, group, 28, 4, u64::MAX)?;
    add(image, group, 32, 4, 1)?;
    let number = add(image, group, 40, 8, 1)?;
    put(image, group, 64, 4, 0)?;
    let start = image.start(group);
    let sum = crc32(crate::numbers::part(&image.bytes, start, 128).context("no group")?);
    put(image, group, 64, 4, u64::from(sum))?;
    Ok(number)
}

// Puts a regular file's dinode and its bytes. Its times are the root's.
fn put_dinode(image: &mut Image, block: u64, number: u64, content: &[u8]) -> Result<()> {
    let root = image.called("root").context("no root")?;
    let fields = [
        (0usize, 4usize, 0x0116_1970u64),
        (4, 4, 4),
        (16, 4, 400),
        (24, 8, number),
        (32, 8, block),
        (40, 4, 0o100_644),
        (52, 4, 1),
        (56, 8, content.len() as u64),
        (64, 8, 1),
        (104, 8, block),
        (112, 8, block),
        (120, 8, number),
        (128, 4, 1),
    ];
    for (at, width, value) in fields {
        put(image, block, at, width, value)?;
    }
    for at in [72usize, 80, 88] {
        let time = image.number(root, at, 8).context("no root")?;
        put(image, block, at, 8, time)?;
    }
    ensure!(
        content.len() <= (image.size as usize).saturating_sub(DINODE_LENGTH),
        "a file of more than one block"
    );
    let start = image.start(block).saturating_add(DINODE_LENGTH);
    ensure!(
        put_bytes(&mut image.bytes, start, content),
        "outside the device"
    );
    Ok(())
}

/// Lays a file into the root, in the first free block. It is called by its path.
pub fn lay_file(alloc: Global, image: &mut Image, spelled: &str, content: &[u8]) -> Result<()> {
    let name = name_of(alloc, spelled)?;
    let group = image.called("group").context("no group")?;
    let root = image.called("root").context("no root")?;
    let block = first_free(image).context("no free block")?;
    let number = take_block(image, group, block)?;
    put_dinode(image, block, number, content)?;
    put_record(image, root, &name, number, block, 8)?;
    let path = format!(in alloc; "/{spelled}")?;
    image.call(alloc, path.as_str(), block)
}

/// Gives a file or a directory a further name, in a directory in one block or in a leaf.
pub fn link_file(
    alloc: Global,
    image: &mut Image,
    directory: u64,
    spelled: &str,
    file: u64,
) -> Result<()> {
    let name = name_of(alloc, spelled)?;
    let number = image.number(file, 24, 8).context("no dinode")?;
    let mode = image.number(file, 40, 4).context("no dinode")?;
    let kind = if mode / 4096 == 4 { 4 } else { 8 };
    put_record(image, directory, &name, number, file, kind)
}
