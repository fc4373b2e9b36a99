// The chain of a name.
ghost use Rattle.std.specs.Prelude.{ℕ, List, ◌≡◌, ◌≤◌, None, Some, drop, length};
ghost use Rattle.gfs2_layout.specs.Area.{slots_of};
ghost use Rattle.gfs2_layout.specs.Holding.{Holding};
ghost use Rattle.gfs2_layout.specs.Inode.{entry, leaf_length};
ghost use Rattle.glock_names.specs.Steps.{IfIs, IfNeedBlock, OnlyDamaged};
ghost use Rattle.glock_names.specs.Views.{HasBlock, IsOfView};
ghost use Rattle.hash_steps.specs.Broken.{IsWrongIn};
ghost use Rattle.hash_steps.specs.Shown.{IsNeededFor, IsShown, IsSound, index_for};
ghost use Rattle.hash_steps.specs.Leaves.{has_room_for};
ghost use Rattle.hash_inserts.specs.Drafting.{SeesTree};
ghost use Rattle.hash_inserts.specs.Writing.{IsLeafBlock};
ghost use Rattle.hash_inserts.specs.Finding.{IsChainFound};

use crate::walking::{Walked, area_has_room, walk};
use crate::writing::head_of;
use crc_words::crc32;
use dinode_tree::{read_dinode, sound_inodes_break_nothing};
use glock_names::{CallFault, Step, View, block_of};
use hash_steps::{IN_LEAF, index_of};
use pointer_tables::{Pointer, PointerTable};

/// The chain of a name: the pointer to it, and what was found along it.
#[derive(Clone, Copy)]
pub(crate) struct Found {
    pub head: Pointer,
    pub chain: Walked,
}

/// Goes along the chain of a name by the directory's table. It looks at the dinode, and at what `look` looks at for a name that isn't there.
pub(crate) fn find_chain<V: View, T: PointerTable>(
    view: &V,
    dir: u64,
    name: &[u8],
    table: &T,
) -> Result<Step<Found>, CallFault>
    requires short { length name.now ≤ 255 }
    ensures found { (h : Holding) → IsShown (V.seen view.now) dir h → T.shows table.now (V.seen view.now) h → IfIs result (IsChainFound (V.seen view.now) h name.now) }
    ensures there { IfIs result (λ found. HasBlock (V.seen view.now) found.head.from) }
    ensures own { IfIs result (λ found. HasBlock (V.seen view.now) dir) }
    ensures needed { (h : Holding) → IsShown (V.seen view.now) dir h → T.shows table.now (V.seen view.now) h → IfNeedBlock result (IsNeededFor (V.seen view.now) h (λ i. i ≡ index_for h name.now)) }
    ensures absent { IfNeedBlock result (λ missing. (V.seen view.now).block_at missing.block ≡ None) }
    ensures damaged { (h : Holding) → IsShown (V.seen view.now) dir h → T.shows table.now (V.seen view.now) h → OnlyDamaged result (IsWrongIn (V.seen view.now) h) }
    ensures kept { OnlyDamaged result (IsOfView (V.seen view.now)) }
{
    if let Step::NeedBlock(missing) = read_dinode(view, dir)? {
        return Ok(Step::NeedBlock(missing));
    }
    let depth = table.depth();
    let head = match table.get(view, index_of(crc32(name), depth))? {
        Step::Is(head) => head,
        Step::NeedBlock(missing) => return Ok(Step::NeedBlock(missing)),
    };
    match walk(view, dir, depth, &head, name.len() as u16)? {
        Step::Is(chain) => Ok(Step::Is(Found { head, chain })),
        Step::NeedBlock(missing) => Ok(Step::NeedBlock(missing)),
    }
}

/// The leaf to which the pointer of a name leads, of a sound directory of which the view has every block of the table.
pub(crate) fn leaf_for<V: View, T: PointerTable>(view: &V, name: &[u8], table: &T) -> Option<u64>
    ensures { (h : Holding) → IsShown (V.seen view.now) h.own h → T.shows table.now (V.seen view.now) h → IsSound h → SeesTree (V.seen view.now) h → result ≡ Some (entry h (index_for h name.now)) }
{
    sound_inodes_break_nothing();
    match table.get(view, index_of(crc32(name), table.depth())) {
        Ok(Step::Is(pointer)) => Some(pointer.leaf),
        Ok(Step::NeedBlock(_missing)) => None,
        Err(_fault) => None,
    }
}

/// Whether a leaf has room for a name of so many bytes; None where the block isn't seen, or isn't one.
pub(crate) fn has_room_in<V: View>(view: &V, leaf: u64, len: u16) -> Option<bool>
    ensures { (bytes : List ℕ) → (V.seen view.now).block_at leaf ≡ Some bytes → IsLeafBlock bytes → result ≡ Some (has_room_for len (slots_of (drop leaf_length bytes))) }
{
    let _size = view.block_size();
    let bytes = block_of(view, leaf)?;
    let _head = head_of(bytes)?;
    Some(area_has_room(&bytes[IN_LEAF..], len))
}
