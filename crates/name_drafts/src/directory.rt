// The directory of a draft that makes a name: the name comes, and then the time.
ghost use Rattle.std.specs.Prelude.{ℕ, List, ◌≡◌, ◌≢◌, ◌≤◌, Ok, None, Contains, IfSome, IsSome, IsTrue, length, take};
ghost use Rattle.std.specs.FinMap.{empty};
ghost use Rattle.gfs2_layout.specs.Headers.{HasHeader};
ghost use Rattle.gfs2_layout.specs.Holding.{Holding};
ghost use Rattle.gfs2_layout.specs.Structures.{dinode_read};
ghost use Rattle.gfs2_layout.specs.declared.dinode.Dinode.{Dinode as DinodeValue};
ghost use Rattle.glock_names.specs.Steps.{IfDamaged, IfIs, IfNeedBlock};
ghost use Rattle.glock_names.specs.Views.{HasBlock, IsOfView, IsView};
ghost use Rattle.name_inserts.specs.DirectoryShown.{IsDirectoryIn, IsShown};
ghost use Rattle.resource_groups.specs.Putting.{HasDataBlock};
ghost use Rattle.name_inserts.specs.Inserting.{CanGetName, IsNeededForName, IsWrongForName};
ghost use Rattle.name_drafts.specs.Steps.{IsNamePut};

use drafts::Draft;
use gfs2_layout::Dinode;
use glock_names::{CallFault, Entry, Step, View, block_of};
use name_inserts::put_name;
use new_inodes::stamp;
use std::alloc::Global;
use std::collections::VecDeque;

/// A law: what a node has of the file system is a view of it.
pub(crate) fn is_a_view<V: View>(view: &V)
    ensures { IsView (V.seen view.now) }
{
    let _size = view.block_size();
}

// Whether the view has this block, with the header of a dinode.
fn is_headed<V: View>(view: &V, inode: u64) -> bool
    ensures there { IsTrue result → HasBlock (V.seen view.now) inode }
    ensures headed { IsTrue result → (bytes : List ℕ) → (V.seen view.now).block_at inode ≡ Some bytes → (d : DinodeValue) × (dinode_read bytes ≡ Ok d) }
    ensures all { (bytes : List ℕ) → (V.seen view.now).block_at inode ≡ Some bytes → HasHeader 4 400 bytes → IsTrue result }
{
    match block_of(view, inode) {
        Some(bytes) => Dinode::read(bytes).is_ok(),
        None => false,
    }
}

/// Puts a name into a directory in a new draft, and then the time into its dinode, and tells how many blocks were taken for that from the front of the
/// room. None where the room isn't enough, or the directory isn't sound.
pub(crate) fn put_in_directory<V: View>(
    alloc: Global,
    draft: &mut Draft<'_, V>,
    dir: u64,
    name: &[u8],
    entry: Entry,
    time: u64,
    room: &[u64],
) -> Result<Step<Option<usize>>, CallFault>
    requires new { draft.old.fates ≡ empty }
    requires there { HasBlock (V.seen draft.old.view) dir }
    requires directory { IsDirectoryIn (V.seen draft.old.view) dir }
    requires room { (b : ℕ) → Contains room.now b → HasDataBlock (V.seen draft.old.view) b }
    requires some { 1 ≤ length name.now }
    requires short { length name.now ≤ 255 }
    requires number { entry.number ≢ 0 }
    requires address { entry.addr ≢ 0 }
    ensures put { IfIs result (λ done. IfSome done (λ n. IsNamePut (V.seen draft.old.view) dir name.now entry time room.now (take n room.now) draft.new.fates)) }
    ensures few { IfIs result (λ done. IfSome done (λ n. n ≤ length room.now)) }
    ensures able { (h : Holding) → IsShown (V.seen draft.old.view) dir h → CanGetName h name.now room.now → IfIs result (λ done. IsSome done) }
    ensures view { IfIs result (λ done. draft.new.view ≡ draft.old.view) }
    ensures needed { (h : Holding) → IsShown (V.seen draft.old.view) dir h → IfNeedBlock result (IsNeededForName (V.seen draft.old.view) h name.now) }
    ensures absent { IfNeedBlock result (λ missing. (V.seen draft.old.view).block_at missing.block ≡ None) }
    ensures damaged { (h : Holding) → IsShown (V.seen draft.old.view) dir h → IfDamaged result (IsWrongForName (V.seen draft.old.view) h) }
    ensures kept { IfDamaged result (IsOfView (V.seen draft.old.view)) }
{
    let mut left = VecDeque::from_vec(Vec::from_slice(alloc, room)?);
    match put_name(alloc, draft, dir, name, entry, &mut left)? {
        Step::Is(true) => {}
        Step::Is(false) => return Ok(Step::Is(None)),
        Step::NeedBlock(missing) => return Ok(Step::NeedBlock(missing)),
    }
    if !is_headed(&*draft, dir) {
        return Ok(Step::Is(None));
    }
    stamp(draft, dir, time)?;
    Ok(Step::Is(Some(room.len() - left.len())))
}
