// The draft that makes a name.
ghost use Rattle.std.specs.Prelude.{ℕ, List, ◌≡◌, ◌≢◌, ◌∷◌, Contains, IfSome, IsSome, OnOk};
ghost use Rattle.file_tree.specs.Tree.{Tree};
ghost use Rattle.gfs2_layout.specs.Holding.{Holding};
ghost use Rattle.gfs2_layout.specs.Inode.{dinode_in};
ghost use Rattle.glock_names.specs.Steps.{IfDamaged, IfIs, IfNeedBlock, OnlyDamaged};
ghost use Rattle.glock_names.specs.Views.{HasBlock, HasGroup, IsOfView};
ghost use Rattle.name_inserts.specs.DirectoryShown.{IsDirectoryIn, IsShown};
ghost use Rattle.growth_drafts.specs.Taken.{IsDistinct};
ghost use Rattle.new_inodes.specs.New.{IsInodePut};
ghost use Rattle.resource_groups.specs.Putting.{HasDataBlock};
ghost use Rattle.resource_groups.specs.Shown as group;
ghost use Rattle.image_model.specs.Flat.{Path};
ghost use Rattle.image_model.specs.Image.{Image};
ghost use Rattle.image_model.specs.Owners.{Owners};
ghost use Rattle.image_model.specs.Stands.{Layout};
ghost use Rattle.image_changes.specs.Does.{IsOf};
ghost use Rattle.name_inserts.specs.Inserting.{CanGetName};
ghost use Rattle.name_drafts.specs.Drafting.{IsAddition, IsNeededIn, IsNewOf, IsPlaceFor, IsWrongIn, kind_for};

use crate::directory::{is_a_view, put_in_directory};
use crate::saying::{number_of_next, say_and_finish};
use drafts::{Change, Draft, Stamp};
use file_tree::Name;
use glock_names::{CallFault, Entry, Group, Step, View};
use new_inodes::{put_directory, put_file};
use no_memory::NoMemory;
use path_walks::Place;
use std::alloc::Global;

/// The block that a new inode takes, and its group.
#[derive(Clone, Copy, Debug, PartialEq, Eq)]
pub struct NewBlock {
    pub group: Group,
    pub block: u64,
}

// Looks at the dinode of a directory: `..` of a new directory tells its number, which none is zero.
fn check_number(place: &Place) -> Result<(), CallFault>
    ensures number { OnOk result (place.now.dinode.num.number ≢ 0) }
    ensures damaged { OnlyDamaged result (λ rule block. (rule ≡ 7) × (block ≡ place.now.inode) × (place.now.dinode.num.number ≡ 0)) }
{
    if place.dinode.num.number == 0 {
        return Err(CallFault::Damaged {
            block: place.inode,
            rule: 7,
        });
    }
    Ok(())
}

// The kind that the record of a new inode tells.
fn kind_of_new(is_directory: bool) -> u16
    ensures { result ≡ kind_for is_directory }
{
    if is_directory { 4 } else { 8 }
}

// Puts the new inode: a file, or a directory below the one in this place.
fn put_new<V: View>(
    alloc: Global,
    draft: &mut Draft<'_, V>,
    is_directory: bool,
    entry: Entry,
    place: &Place,
    time: u64,
) -> Result<(), NoMemory>
    requires number { entry.number ≢ 0 }
    requires block { entry.addr ≢ 0 }
    requires parent_number { place.now.dinode.num.number ≢ 0 }
    requires parent_address { place.now.inode ≢ 0 }
    ensures put { OnOk result ((bytes : List ℕ) × IsInodePut V.seen draft.old draft.new entry.addr (IsNewOf is_directory place.now entry.number entry.addr time) bytes) }
{
    if is_directory {
        let above = Entry {
            number: place.dinode.num.number,
            addr: place.inode,
            kind: 4,
        };
        put_directory(alloc, draft, entry.addr, entry.number, above, time)
    } else {
        put_file(alloc, draft, entry.addr, entry.number, time)
    }
}

/// What a draft changes that makes a name in the directory at this place, which hasn't it, and the inode that it leads to, in a free block of a
/// group. Blocks for the directory are taken from the front of `room`, as many as `need_name` tells; these and the new block are data blocks of
/// groups, each another one, and none is the directory's own. None isn't answered in an image that stands for a tree. It costs what `put_name`
/// costs, a copy of the room, what `take_blocks` costs for the blocks that it takes, and two copies of each of six blocks.
pub fn addition<V: View>(
    alloc: Global,
    view: &V,
    is_directory: bool,
    stamp: &Stamp,
    place: &Place,
    name: &Name,
    new: &NewBlock,
    room: &[u64],
) -> Result<Step<Option<Change>>, CallFault>
    requires there { HasBlock (V.seen view.now) place.now.inode }
    requires directory { IsDirectoryIn (V.seen view.now) place.now.inode }
    requires dinode { (h : Holding) → IsShown (V.seen view.now) place.now.inode h → place.now.dinode ≡ dinode_in h }
    requires inside { HasDataBlock (V.seen view.now) place.now.inode }
    requires group { HasGroup (V.seen view.now) new.now.group }
    requires block { group.IsDataOf new.now.group new.now.block }
    requires room { (b : ℕ) → Contains room.now b → HasDataBlock (V.seen view.now) b }
    requires apart { ¬ (Contains (new.now.block ∷ room.now) place.now.inode) }
    requires once { IsDistinct (new.now.block ∷ room.now) }
    ensures added { IfIs result (λ done. IfSome done (IsAddition (V.seen view.now) is_directory place.now name.now new.now room.now stamp.now.time)) }
    ensures able { (h : Holding) → IsShown (V.seen view.now) place.now.inode h → CanGetName h name.now room.now → IfIs result (λ done. IsSome done) }
    ensures done { (im : Image) (o : Owners) (l : Layout) (t : Tree) (path : Path) → IsOf (V.seen view.now) im o l t → IsPlaceFor im o l path name.now place.now new.now room.now → IfIs result (λ done. IsSome done) }
    ensures needed { IfNeedBlock result (IsNeededIn (V.seen view.now) place.now.inode name.now (new.now.block ∷ room.now)) }
    ensures damaged { IfDamaged result (IsWrongIn (V.seen view.now) place.now.inode (new.now.block ∷ room.now)) }
    ensures kept { IfDamaged result (IsOfView (V.seen view.now)) }
{
    is_a_view(view);
    check_number(place)?;
    let number = match number_of_next(alloc, view, &new.group)? {
        Step::Is(number) => number,
        Step::NeedBlock(missing) => return Ok(Step::NeedBlock(missing)),
    };
    let entry = Entry {
        number,
        addr: new.block,
        kind: kind_of_new(is_directory),
    };
    let mut draft = Draft::new(alloc, view);
    let taken = match put_in_directory(
        alloc,
        &mut draft,
        place.inode,
        name.bytes(),
        entry,
        stamp.time,
        room,
    )? {
        Step::Is(Some(taken)) => &room[..taken],
        Step::Is(None) => return Ok(Step::Is(None)),
        Step::NeedBlock(missing) => return Ok(Step::NeedBlock(missing)),
    };
    put_new(alloc, &mut draft, is_directory, entry, place, stamp.time)?;
    match say_and_finish(draft, new, taken)? {
        Step::Is(change) => Ok(Step::Is(Some(change))),
        Step::NeedBlock(missing) => Ok(Step::NeedBlock(missing)),
    }
}
