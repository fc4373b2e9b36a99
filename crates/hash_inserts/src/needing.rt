// How many blocks a name takes that comes into a hashed directory.
ghost use Rattle.std.specs.Prelude.{ℕ, ◌≡◌, ◌^◌, ◌<◌, ◌≤◌, None, length};
ghost use Rattle.crc_words.specs.Remainder.{crc32_of};
ghost use Rattle.gfs2_layout.specs.Holding.{Holding};
ghost use Rattle.gfs2_layout.specs.Inode.{depth_in};
ghost use Rattle.glock_names.specs.Steps.{IfIs, IfNeedBlock, IfDamaged};
ghost use Rattle.glock_names.specs.Views.{HasBlock, IsOfView};
ghost use Rattle.dinode_tree.specs.Below.{AnyIndex};
ghost use Rattle.dinode_tree.specs.Reading.{IsNeeded};
ghost use Rattle.hash_steps.specs.Shown.{IsNeededFor, IsShown, index_for};
ghost use Rattle.hash_steps.specs.Walking.{IsHead};
ghost use Rattle.hash_inserts.specs.Drafting.{SeesTree};
ghost use Rattle.hash_inserts.specs.Inserting.{HasNoRoom, HasOneLeafFor, IsNeededToInsert, IsWrongToInsert};
ghost use Rattle.hash_inserts.specs.Needing.{SeesToInsert, TakesBlocks};

use crate::counting::{OneLeaf, count_needs};
use crate::finding::find_chain;
use crate::looking::see_table;
use crc_words::crc32;
use glock_names::{CallFault, Step, View};
use hash_steps::leaf_at;
use pointer_tables::{Pointer, PointerTable};
use std::alloc::Global;

// How many blocks a name takes whose chain has one leaf, to which this pointer leads, without room for it.
fn need_of_one<V: View>(
    alloc: Global,
    view: &V,
    dir: u64,
    depth: u16,
    head: &Pointer,
    name: &[u8],
) -> Result<Step<u64>, CallFault>
    requires deep { depth ≤ 15 }
    requires short { length name.now ≤ 255 }
    requires from { HasBlock (V.seen view.now) head.now.from }
    ensures need { (h : Holding) → IsShown (V.seen view.now) dir h → depth ≡ depth_in h → IsHead h (index_for h name.now) head.now → HasOneLeafFor h name.now → IfIs result (TakesBlocks h name.now) }
    ensures seen { (h : Holding) → IsShown (V.seen view.now) dir h → IfIs result (λ n. SeesTree (V.seen view.now) h) }
    ensures most { IfIs result (λ n. n < 2 ^ 42) }
    ensures needed { (h : Holding) → IsShown (V.seen view.now) dir h → IsHead h (index_for h name.now) head.now → HasNoRoom h name.now → HasOneLeafFor h name.now
        → IfNeedBlock result (IsNeededToInsert (V.seen view.now) h name.now) }
    ensures absent { IfNeedBlock result (λ missing. (V.seen view.now).block_at missing.block ≡ None) }
    ensures damaged { (h : Holding) → IsShown (V.seen view.now) dir h → depth ≡ depth_in h → IsHead h (index_for h name.now) head.now → IfDamaged result (IsWrongToInsert (V.seen view.now) h) }
    ensures kept { IfDamaged result (IsOfView (V.seen view.now)) }
{
    let _size = view.block_size();
    let dinode = match see_table(alloc, view, dir)? {
        Step::Is(dinode) => dinode,
        Step::NeedBlock(missing) => return Ok(Step::NeedBlock(missing)),
    };
    let leaf = match leaf_at(view, dir, depth, head)? {
        Step::Is(leaf) => leaf,
        Step::NeedBlock(missing) => return Ok(Step::NeedBlock(missing)),
    };
    let one = OneLeaf {
        height: dinode.height,
        table: depth,
        depth: leaf.head.depth,
    };
    let need = count_needs(alloc, one, leaf.area, name.len() as u16, crc32(name))?;
    Ok(Step::Is(need))
}

/// How many blocks `insert` takes for a name that isn't in the hashed directory with its dinode in this block, by its table: none where a
/// leaf of its chain has room; else one for each split, what each doubling of the table takes, and one for an overflow leaf. It looks at
/// the dinode and along the whole chain of the name, as `look` does; and where the one leaf of it has no room, at every block of the
/// table, which is a data block of a group, so that `insert` finds each there. It changes a copy of that leaf's records as splits would.
pub fn need_insert<V: View, T: PointerTable>(
    alloc: Global,
    view: &V,
    dir: u64,
    name: &[u8],
    table: &T,
) -> Result<Step<u64>, CallFault>
    requires some { 1 ≤ length name.now }
    requires short { length name.now ≤ 255 }
    ensures need { (h : Holding) → IsShown (V.seen view.now) dir h → T.shows table.now (V.seen view.now) h → IfIs result (TakesBlocks h name.now) }
    ensures most { IfIs result (λ n. n < 2 ^ 42) }
    ensures seen { (h : Holding) → IsShown (V.seen view.now) dir h → T.shows table.now (V.seen view.now) h → IfIs result (λ n. SeesToInsert (V.seen view.now) h name.now) }
    ensures needed { (h : Holding) → IsShown (V.seen view.now) dir h → T.shows table.now (V.seen view.now) h → IfNeedBlock result (IsNeededToInsert (V.seen view.now) h name.now) }
    ensures absent { IfNeedBlock result (λ missing. (V.seen view.now).block_at missing.block ≡ None) }
    ensures damaged { (h : Holding) → IsShown (V.seen view.now) dir h → T.shows table.now (V.seen view.now) h → IfDamaged result (IsWrongToInsert (V.seen view.now) h) }
    ensures kept { IfDamaged result (IsOfView (V.seen view.now)) }
{
    let found = match find_chain(view, dir, name, table)? {
        Step::Is(found) => found,
        Step::NeedBlock(missing) => return Ok(Step::NeedBlock(missing)),
    };
    if found.chain.with_room.is_some() {
        return Ok(Step::Is(0));
    }
    if !found.chain.single {
        return Ok(Step::Is(1));
    }
    need_of_one(alloc, view, dir, table.depth(), &found.head, name)
}
