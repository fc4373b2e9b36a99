// Whether a log takes a change at all.
ghost use Rattle.std.specs.Prelude.{◌≡◌, ◌↔◌, true};
ghost use Rattle.std.specs.List.{All};
ghost use Rattle.logged_calls.specs.Adding.{IsBlockOfLog, MayBeLogged};

use drafts::{Change, Written};
use gfs2_layout::MetaHeader;
use profile_limits::MOST_BLOCKS;

// Whether a block may be logged.
fn is_block_of_log(written: &Written) -> bool
    ensures { result ≡ true ↔ IsBlockOfLog written.now }
{
    if written.plain {
        return true;
    }
    match MetaHeader::read(written.bytes.bytes()) {
        Ok(header) => header.kind != 8,
        Err(_) => false,
    }
}

// Whether all blocks may be logged.
fn are_blocks_of_log(blocks: &[Written]) -> bool
    ensures { result ≡ true ↔ All IsBlockOfLog blocks.now }
{
    for written in blocks {
        if !is_block_of_log(written) {
            return false;
        }
    }
    true
}

/// Whether a log takes a change of the right form where it has room. It looks at the beginning of each block.
pub(crate) fn may_be_logged(change: &Change) -> bool
    ensures { result ≡ true ↔ MayBeLogged change.now }
{
    if change.blocks.is_empty() {
        return false;
    }
    let count = change.blocks.len() as u128 + change.freed.len() as u128;
    if count > u128::from(MOST_BLOCKS) {
        return false;
    }
    are_blocks_of_log(&change.blocks)
}
