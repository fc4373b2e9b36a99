ghost use Rattle.std.specs.Prelude.{ℕ, ◌≡◌, ◌+◌, ◌*◌, ◌<◌, ◌≤◌, false, None, length, IfErr, IfSome, IfNone};
ghost use Rattle.log_layout.specs.Journal.{accepted};
ghost use Rattle.image_model.specs.Claims.{Claims, HasJournal, IsJindex, master_of};
ghost use Rattle.image_reader.specs.Found.{IsTreeOf};
ghost use Rattle.image_model.specs.Journals.{journal_name};
ghost use Rattle.image_model.specs.Owners.{Named};
ghost use Rattle.image_reader.specs.System.{IsNamedAmong, HasNoneNamed, HasNoDirectoryNamed};
ghost use Rattle.image_reader.specs.Reading.{image_at, IsDinodeBlock, IsTrueOf};

use crate::blocks::Block;
use crate::directory::Found;
use crate::image::{ImageFault, damaged};
use crate::inode::Inode;
use log_layout::LogHeader;
use number_words::number_word;

// The number of the journal that has this name.
fn journal_number(name: &[u8]) -> Option<u64>
    ensures { IfSome result (λ j. name.now ≡ journal_name j) }
{
    let digits = name.strip_prefix(b"journal".as_slice())?;
    number_word(digits, 0, u64::MAX)
}

// Whether a header is accepted at a place.
#[tactic(auto, unfolding(log_layout::specs::Journal::accepted))]
fn is_header(block: &Block<'_>, place: u64) -> bool
    ensures { result ≡ false → accepted place ((image_at block.now.image).at block.now.number) ≡ None }
{
    match LogHeader::read(block.bytes()) {
        Ok(header) => u64::from(header.blkno) == place,
        Err(_) => false,
    }
}

// That a journal is a file of whole blocks without a hole, in which a header is accepted.
fn check_journal(inode: &Inode<'_>) -> Result<(), ImageFault>
    requires dinode { IsDinodeBlock inode.now.block }
    requires journal { (j : ℕ) × HasJournal (image_at inode.now.block.image) j inode.now.block.number }
    ensures damaged { IfErr result (IsTrueOf (image_at inode.now.block.image)) }
{
    inode.check_fits()?;
    let size = inode.block.image.size as u64;
    if inode.dinode.size % size != 0 {
        return Err(damaged(inode.block.number, 8));
    }
    let mut headed = false;
    for place in 0..inode.dinode.size / size {
        let Some(block) = inode.content_block(place)? else {
            return Err(damaged(inode.block.number, 8));
        };
        headed = headed || is_header(&block, place);
    }
    if headed {
        Ok(())
    } else {
        Err(damaged(inode.block.number, 16))
    }
}

/// The inode to which a name leads from a directory, among those that were found.
pub(crate) fn named<'a>(found: &[Found<'a>], parent: u64, name: &[u8]) -> Option<Inode<'a>>
    ensures some { IfSome result (IsNamedAmong found.now parent name.now) }
    ensures none { IfNone result (HasNoneNamed found.now (length found.now) parent name.now) }
{
    for entry in found {
        if entry.parent == parent && entry.name.bytes() == name {
            return Some(entry.inode);
        }
    }
    None
}

// The first directory to which a name leads from a directory, among the inodes that were found.
fn named_directory<'a>(found: &[Found<'a>], parent: u64, name: &[u8]) -> Option<Inode<'a>>
    ensures some { IfSome result (IsNamedAmong found.now parent name.now) }
    ensures none { IfNone result (HasNoDirectoryNamed found.now (length found.now) parent name.now) }
{
    for entry in found {
        let here = entry.parent == parent && entry.name.bytes() == name;
        if here && entry.inode.dinode.is_directory() {
            return Some(entry.inode);
        }
    }
    None
}

// That an entry, if it is a journal of the directory in block `jindex`, is whole.
fn check_entry(jindex: u64, entry: &Found<'_>) -> Result<(), ImageFault>
    requires jindex { IsJindex (image_at entry.now.inode.block.image) jindex }
    requires claimed { Claims (image_at entry.now.inode.block.image) entry.now.by entry.now.inode.block.number (Named entry.now.parent entry.now.name) }
    ensures damaged { IfErr result (IsTrueOf (image_at entry.now.inode.block.image)) }
{
    if entry.parent != jindex {
        return Ok(());
    }
    match journal_number(entry.name.bytes()) {
        Some(_) => check_journal(&entry.inode),
        None => Ok(()),
    }
}

/// That the master directory names a directory `jindex`, and that each journal in it is whole. `system` is what was found
/// from the master directory on.
pub(crate) fn check_journals<'a>(top: &Inode<'a>, system: &[Found<'a>]) -> Result<(), ImageFault>
    requires tree { IsTreeOf top.now.block.image top.now system.now }
    requires master { top.now.block.number ≡ master_of (image_at top.now.block.image) }
    ensures damaged { IfErr result (IsTrueOf (image_at top.now.block.image)) }
{
    let master = top.block.number;
    let Some(jindex) = named_directory(system, master, b"jindex") else {
        return Err(damaged(master, 16));
    };
    for entry in system {
        check_entry(jindex.block.number, entry)?;
    }
    Ok(())
}
