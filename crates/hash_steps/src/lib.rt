//! What becomes of a hashed directory, step by step: laws only. The functions do nothing: their contracts are the laws.
#![tactic(auto)]

ghost use Rattle.hash_steps.specs.Laws.{AddedLeavesStay, ConversionsStay, DoublingsStay, ExchangesJoin, PutsGetRecord, SplitsStay};

use crc_words::checksums_have_32_bits;
use gfs2_layout::areas_exchange_records;
pub use hash_dirs::{IN_LEAF, count_records, damaged, index_of, leaf_at};
use leaf_areas::{halves_have_the_records, moved_records_stay};

/// A law: after a leaf is split the directory is sound, and has the records that it had.
pub fn splits_stay()
    ensures { SplitsStay }
{
    halves_have_the_records();
}

/// A law: so it is after a leaf is added behind a chain.
pub fn added_leaves_stay()
    ensures { AddedLeavesStay }
{}

/// A law: so it is after its table is doubled.
pub fn doublings_stay()
    ensures { DoublingsStay }
{}

/// A law: so is a linear directory that became a hashed one.
pub fn conversions_stay()
    ensures { ConversionsStay }
{
    moved_records_stay();
    checksums_have_32_bits();
}

/// A law: after a record is put into a leaf of its chain the directory is sound, and has that record more.
pub fn puts_get_a_record()
    ensures { PutsGetRecord }
{
    areas_exchange_records();
}

/// A law: what goes in one step and what comes in the next went and came in both together.
pub fn exchanges_join()
    ensures { ExchangesJoin }
{}
