ghost use Rattle.std.specs.Prelude.{◌≡◌, ◌≤◌, length, true, false, if◌then◌else◌, IfOk, OnOk, MatchOption};
ghost use Rattle.log_layout.specs.Chunks.{joined, part_of, restored};
ghost use Rattle.journal_scan.specs.Course.{IsFit};
ghost use Rattle.journal_scan.specs.Said.{says};
ghost use Rattle.log_layout.specs.Chunks.{one_block};

use crate::numbers::push_numbers;
use drafts::{Transaction, Written};
use file_tree::Content;
use gfs2_layout::has_header;
use log_layout::{Due, put_u32, u32_at};
use no_memory::NoMemory;
use std::alloc::Global;

// What begins every block of metadata.
const MAGIC: u32 = 0x0116_1970;

// The header of a block of further revokes.
const KIND: u32 = 12;

const FORMAT: u32 = 1000;

// The bytes of a block, with the magic put back where it was taken out.
fn content_of(alloc: Global, block: &[u8], escaped: bool) -> Result<Content, NoMemory>
    requires { 4 ≤ length block.now }
    ensures { IfOk result (λ content. content ≡ (if escaped then restored block.now else block.now)) }
{
    let mut bytes = Vec::from_slice(alloc, block)?;
    if escaped {
        put_u32(&mut bytes, 0, MAGIC);
    }
    Ok(Content::new(bytes))
}

/// Adds to a transaction what this block has, where it is what is due. Answers whether it is.
pub(crate) fn add_part(
    alloc: Global,
    begun: &mut Transaction,
    due: Due,
    block: &[u8],
) -> Result<bool, NoMemory>
    requires long { 24 ≤ length block.now }
    requires fit { IsFit (length block.now) due }
    ensures { IfOk result (λ is. MatchOption (part_of due block.now) (is ≡ false) (λ part. (is ≡ true) × (says begun.new ≡ joined (says begun.old) part))) }
{
    match due {
        Due::Metadata(number) => {
            if u32_at(block, 0) != MAGIC {
                return Ok(false);
            }
            add_block(alloc, begun, number, false, block, false)?;
        }
        Due::Content(number, escaped) => {
            add_block(alloc, begun, number, true, block, escaped)?;
        }
        Due::Further(count) => {
            if !has_header(block, KIND, FORMAT) {
                return Ok(false);
            }
            push_numbers(&mut begun.revokes, block, 24, count as usize)?;
        }
    }
    Ok(true)
}

fn add_block(
    alloc: Global,
    begun: &mut Transaction,
    block: u64,
    plain: bool,
    bytes: &[u8],
    escaped: bool,
) -> Result<(), NoMemory>
    requires { 4 ≤ length bytes.now }
    ensures { OnOk result (says begun.new ≡ joined (says begun.old) (one_block block plain (if escaped then restored bytes.now else bytes.now))) }
{
    let bytes = content_of(alloc, bytes, escaped)?;
    begun.blocks.push(Written {
        block,
        plain,
        bytes,
    })?;
    Ok(())
}
