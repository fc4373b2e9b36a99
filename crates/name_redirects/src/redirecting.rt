// A name of a directory that leads to another inode, in a draft.
ghost use Rattle.std.specs.Prelude.{ℕ, List, ◌≡◌, ◌≢◌, ◌⊎◌, ◌≤◌, length, drop, true, false, None, Some, OnOk, if◌then◌else◌};
ghost use Rattle.std.specs.FinMap.{insert as with_fate};
ghost use Rattle.drafts.specs.Fates.{seen_in};
ghost use Rattle.drafts.specs.declared.fate.Fate.TheVariants.{Put};
ghost use Rattle.gfs2_layout.specs.Area.{IsArea};
ghost use Rattle.gfs2_layout.specs.Holding.{Holding};
ghost use Rattle.gfs2_layout.specs.Inode.{has_hash_flag, leaf_length};
ghost use Rattle.gfs2_layout.specs.Records.{Record as RecordValue, record_named, records_in};
ghost use Rattle.gfs2_layout.specs.Structures.{dinode_length};
ghost use Rattle.glock_names.specs.Steps.{IfDamaged, IfIs, IfNeedBlock};
ghost use Rattle.glock_names.specs.Views.{HasBlock, IsOfView};
ghost use Rattle.dinode_tree.specs.Reading.{inode_lock};
ghost use Rattle.resource_groups.specs.Putting.{HasDataBlock};
ghost use Rattle.directories.specs.Shown.{IsBroken, IsDirectoryIn, IsNeededFor, IsShown};
ghost use Rattle.directories.specs.Taking.{HasNameIn, HasRecordOf};
ghost use Rattle.name_redirects.specs.Redirects.{IsNameLed, IsRedirected, PutsOne};

use crate::area::redirect_record;
use crc_words::checksums_have_32_bits;
use dinode_tree::read_dinode;
use directories::{is_hashed, remove};
use drafts::Draft;
use gfs2_layout::{DINODE_LENGTH, Dinode, Inum, find_record, is_area, records_are_found_by_name};
use glock_names::{CallFault, Step, View};
use hash_dirs::{IN_LEAF, chains_tell_names};
use linear_dirs::lock_of;
use std::alloc::Global;

// Where the records begin in a block of a directory with this dinode.
fn records_start(dinode: &Dinode) -> usize
    ensures { result ≡ (if has_hash_flag dinode.now then leaf_length else dinode_length) }
{
    if is_hashed(dinode) {
        IN_LEAF
    } else {
        DINODE_LENGTH
    }
}

// The block of the first record of a name that a directory has. It is told by taking the name in a draft that is thrown away.
fn record_block<V: View>(
    alloc: Global,
    view: &V,
    dir: u64,
    name: &[u8],
) -> Result<Step<u64>, CallFault>
    requires directory { IsDirectoryIn (V.seen view.now) dir }
    requires named { HasNameIn (V.seen view.now) dir name.now }
    ensures from { (h : Holding) → IsShown (V.seen view.now) dir h → IfIs result (HasRecordOf h name.now) }
    ensures there { IfIs result (HasBlock (V.seen view.now)) }
    ensures inside { IfIs result (λ block. (block ≡ dir) ⊎ HasDataBlock (V.seen view.now) block) }
    ensures needed { (h : Holding) → IsShown (V.seen view.now) dir h → IfNeedBlock result (IsNeededFor (V.seen view.now) h name.now) }
    ensures absent { IfNeedBlock result (λ missing. (V.seen view.now).block_at missing.block ≡ None) }
    ensures damaged { (h : Holding) → IsShown (V.seen view.now) dir h → IfDamaged result (IsBroken (V.seen view.now) h) }
    ensures kept { IfDamaged result (IsOfView (V.seen view.now)) }
{
    let mut scratch = Draft::new(alloc, view);
    match remove(&mut scratch, dir, name)? {
        Step::Is(block) => Ok(Step::Is(block)),
        Step::NeedBlock(missing) => Ok(Step::NeedBlock(missing)),
    }
}

// Leads the first record of a name, among those from a byte of a block on, to another inode. False where records don't fill that part.
fn lead_in(bytes: &mut [u8], start: usize, name: &[u8], inum: &Inum) -> bool
    requires long { start ≤ length bytes.old }
    requires short { length bytes.old ≤ 4096 }
    requires named { (r : RecordValue) × (record_named (records_in (drop start bytes.old)) name.now ≡ Some r) }
    ensures led { result ≡ true → IsNameLed start bytes.old bytes.new name.now inum.now }
    ensures unfilled { result ≡ false → ¬ (IsArea (drop start bytes.old)) }
{
    if !is_area(&bytes[start..]) {
        return false;
    }
    records_are_found_by_name();
    let Some(at) = find_record(&bytes[start..], name) else {
        unreachable!()
    };
    redirect_record(&mut bytes[start..], at, inum);
    true
}

// The same in a block of a directory, in the draft.
fn lead<V: View>(
    draft: &mut Draft<'_, V>,
    dir: u64,
    block: u64,
    start: usize,
    name: &[u8],
    inum: &Inum,
) -> Result<(), CallFault>
    requires there { HasBlock (seen_in V.seen draft.old) block }
    requires start { start ≤ 512 }
    requires named { (bytes : List ℕ) → (seen_in V.seen draft.old).block_at block ≡ Some bytes → (r : RecordValue) × (record_named (records_in (drop start bytes)) name.now ≡ Some r) }
    ensures led { (old : List ℕ) → (seen_in V.seen draft.old).block_at block ≡ Some old
        → OnOk result ((new : List ℕ) × (IsNameLed start old new name.now inum.now × (draft.new ≡ record draft.old { fates = with_fate draft.old.fates block (Put (inode_lock dir) false new) }))) }
    ensures unfilled { (old : List ℕ) → (seen_in V.seen draft.old).block_at block ≡ Some old → IfDamaged result (λ rule b. (rule ≡ 9) × (b ≡ block) × (¬ (IsArea (drop start old)))) }
    ensures stays { IfDamaged result (λ rule b. draft.new ≡ draft.old) }
{
    let _size = draft.block_size();
    let Some(mut bytes) = draft.copy(block)? else {
        unreachable!()
    };
    if !lead_in(&mut bytes, start, name, inum) {
        return Err(CallFault::Damaged { block, rule: 9 });
    }
    draft.put(lock_of(dir), block, false, &bytes)?;
    Ok(())
}

/// Makes a name that a directory has, its dinode being in this block, lead to another inode of the same kind: both numbers of its first record's inum are
/// written where the record stands, and nothing else changes. So a directory that moves names its new parent as `..`. It answers the block that
/// has the record. It looks at what `remove` of `directories` looks at, and costs what that costs in a draft that is thrown away, and two copies of one block.
pub fn redirect<V: View>(
    alloc: Global,
    draft: &mut Draft<'_, V>,
    dir: u64,
    name: &[u8],
    inum: &Inum,
) -> Result<Step<u64>, CallFault>
    requires directory { IsDirectoryIn (seen_in V.seen draft.old) dir }
    requires named { HasNameIn (seen_in V.seen draft.old) dir name.now }
    requires inside { HasDataBlock (seen_in V.seen draft.old) dir }
    requires number { inum.now.number ≢ 0 }
    requires address { inum.now.address ≢ 0 }
    ensures led { IfIs result (IsRedirected (seen_in V.seen draft.old) (seen_in V.seen draft.new) dir name.now inum.now) }
    ensures one { IfIs result (PutsOne V.seen draft.old draft.new dir) }
    ensures needed { (h : Holding) → IsShown (seen_in V.seen draft.old) dir h → IfNeedBlock result (IsNeededFor (seen_in V.seen draft.old) h name.now) }
    ensures absent { IfNeedBlock result (λ missing. (seen_in V.seen draft.old).block_at missing.block ≡ None) }
    ensures waits { IfNeedBlock result (λ missing. draft.new ≡ draft.old) }
    ensures damaged { (h : Holding) → IsShown (seen_in V.seen draft.old) dir h → IfDamaged result (IsBroken (seen_in V.seen draft.old) h) }
    ensures kept { IfDamaged result (IsOfView (seen_in V.seen draft.old)) }
    ensures stays { IfDamaged result (λ rule block. draft.new ≡ draft.old) }
{
    chains_tell_names();
    checksums_have_32_bits();
    let _size = draft.block_size();
    let dinode = match read_dinode(&*draft, dir)? {
        Step::Is(dinode) => dinode,
        Step::NeedBlock(missing) => return Ok(Step::NeedBlock(missing)),
    };
    let block = match record_block(alloc, &*draft, dir, name)? {
        Step::Is(block) => block,
        Step::NeedBlock(missing) => return Ok(Step::NeedBlock(missing)),
    };
    lead(draft, dir, block, records_start(&dinode), name, inum)?;
    Ok(Step::Is(block))
}
