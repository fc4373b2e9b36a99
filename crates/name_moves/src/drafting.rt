// The draft of a move.
ghost use Rattle.std.specs.Prelude.{ℕ, List, ◌≡◌, ◌^◌, ◌<◌, ◌++◌, [], true, false, None, Some, Contains, IfSome, IsSome};
ghost use Rattle.crc_words.specs.Remainder.{crc32_of};
ghost use Rattle.growth_drafts.specs.Taken.{IsDistinct};
ghost use Rattle.file_tree.specs.Tree.{Tree};
ghost use Rattle.gfs2_layout.specs.Holding.{Holding};
ghost use Rattle.gfs2_layout.specs.Inode.{height_in, is_hashed_in};
ghost use Rattle.glock_names.specs.Steps.{IfDamaged, IfIs, IfNeedBlock};
ghost use Rattle.glock_names.specs.Views.{IsOfView};
ghost use Rattle.image_model.specs.Flat.{Path};
ghost use Rattle.image_model.specs.Image.{Image};
ghost use Rattle.image_model.specs.Owners.{Owners, holding};
ghost use Rattle.image_model.specs.Stands.{Layout};
ghost use Rattle.image_changes.specs.Does.{IsOf};
ghost use Rattle.directories.specs.Shown.{IsShown, Says};
ghost use Rattle.hash_dirs.specs.Shown.{IsSound};
ghost use Rattle.resource_groups.specs.Putting.{HasDataBlock};
ghost use Rattle.name_drafts.specs.Needing.{TakesBlocks};
ghost use Rattle.name_drafts.specs.Inserting.{SeesForName};
ghost use Rattle.name_moves.specs.Becoming.{IsAfter, NeedsAfter, NeedsJust};
ghost use Rattle.name_moves.specs.Moving.{AreApart, ArePlacesIn, CanBeMoved, IsAskedIn, IsAskedOf, IsMoveIn, IsMoving, IsNeededIn, IsNeededThere, IsPlaceOfMove, IsWrongIn, IsWrongThere, freed_by, lost_there, move_of};

use crate::joining::join;
use crate::losing::{is_a_view, lose_names};
use crate::saying::say_and_finish;
use crc_words::crc32;
use directories::look;
use drafts::{Change, Draft};
use file_tree::Name;
use glock_names::{CallFault, Entry, Step, View};
use name_drafts::{Place, need_name};
use std::alloc::Global;

/// A name of a directory that is to move: the block of the directory's dinode and the name; the directory that gets it, and the new name there; the inode to
/// which it leads; and where something stands at the new name all blocks of that, which go.
#[derive(Clone, Copy)]
pub struct NameMove<'a> {
    pub from: u64,
    pub name: &'a Name,
    pub to: Place,
    pub new_name: &'a Name,
    pub moved: Place,
    pub replaced: Option<&'a [u64]>,
}

// The blocks that go with what stands at the new name.
fn freed_blocks<'a>(m: &NameMove<'a>) -> &'a [u64]
    ensures { result.now ≡ freed_by (move_of m.now) }
{
    match m.replaced {
        Some(blocks) => blocks,
        None => &[],
    }
}

// Where the old name leads.
fn old_entry<V: View>(view: &V, m: &NameMove<'_>) -> Result<Step<Entry>, CallFault>
    requires can { CanBeMoved (V.seen view.now) (move_of m.now) }
    ensures old { IfIs result (λ old. (h : Holding) → IsShown (V.seen view.now) m.now.from h → Says h m.now.name.now (Some old)) }
    ensures needed { (blocks : List ℕ) → IfNeedBlock result (IsNeededIn (V.seen view.now) (move_of m.now) blocks) }
    ensures damaged { (blocks : List ℕ) → IfDamaged result (IsWrongIn (V.seen view.now) (move_of m.now) blocks) }
    ensures kept { IfDamaged result (IsOfView (V.seen view.now)) }
{
    is_a_view(view);
    match look(view, m.from, m.name.bytes())? {
        Step::Is(Some(old)) => Ok(Step::Is(old)),
        Step::Is(None) => unreachable!(),
        Step::NeedBlock(missing) => Ok(Step::NeedBlock(missing)),
    }
}

// How many blocks the directory takes for the new name, once the others have gone.
fn count_need<V: View>(alloc: Global, view: &V, m: &NameMove<'_>) -> Result<Step<u64>, CallFault>
    requires can { CanBeMoved (V.seen view.now) (move_of m.now) }
    ensures need { (h : Holding) → IsShown (V.seen view.now) m.now.to.inode h → IsSound h → IfIs result (NeedsAfter (lost_there (move_of m.now)) h m.now.new_name.now) }
    ensures linear { (h : Holding) → IsShown (V.seen view.now) m.now.to.inode h → is_hashed_in h ≡ false → height_in h ≡ 0 → IfIs result (NeedsAfter (lost_there (move_of m.now)) h m.now.new_name.now) }
    ensures hashed { (h : Holding) → IsShown (V.seen view.now) m.now.to.inode h → is_hashed_in h ≡ true → lost_there (move_of m.now) ≡ [] → IfIs result (TakesBlocks h m.now.new_name.now) }
    ensures most { IfIs result (λ need. need < 2 ^ 42) }
    ensures seen { IfIs result (λ need. IsAfter (V.seen view.now) m.now.to.inode (lost_there (move_of m.now)) (λ k. SeesForName (V.seen view.now) k m.now.new_name.now)) }
    ensures needed { IfNeedBlock result (IsNeededThere (V.seen view.now) (move_of m.now)) }
    ensures damaged { IfDamaged result (IsWrongThere (V.seen view.now) (move_of m.now)) }
    ensures kept { IfDamaged result (IsOfView (V.seen view.now)) }
{
    is_a_view(view);
    let mut draft = Draft::new(alloc, view);
    match lose_names(&mut draft, m)? {
        Step::Is(true) => {}
        Step::Is(false) => return Ok(Step::Is(0)),
        Step::NeedBlock(missing) => return Ok(Step::NeedBlock(missing)),
    }
    is_a_view(&draft);
    need_name(alloc, &draft, m.to.inode, m.new_name.bytes())
}

// A law: the hash of a name has 32 bits.
fn hash_fits(name: &Name)
    ensures { crc32_of name.now < 2 ^ 32 }
{
    let _hash = crc32(name.bytes());
}

/// How many blocks the directory takes for the new name, once what stands there and, where it is its own, the old name have gone. It costs what taking
/// these in a draft costs that is thrown away, and what `need_name` costs there. Of a hashed directory that isn't sound, from which names went, some number is told.
pub fn need_to_move<V: View>(
    alloc: Global,
    view: &V,
    m: &NameMove<'_>,
) -> Result<Step<u64>, CallFault>
    requires can { CanBeMoved (V.seen view.now) (move_of m.now) }
    ensures need { (h : Holding) → IsShown (V.seen view.now) m.now.to.inode h → IsSound h → IfIs result (NeedsAfter (lost_there (move_of m.now)) h m.now.new_name.now) }
    ensures just { (h : Holding) → IsShown (V.seen view.now) m.now.to.inode h → IsSound h → IfIs result (NeedsJust (lost_there (move_of m.now)) h m.now.new_name.now) }
    ensures image { (im : Image) (o : Owners) (l : Layout) (t : Tree) (path path' : Path) → IsOf (V.seen view.now) im o l t → ArePlacesIn im o l path path' (move_of m.now)
        → IfIs result (NeedsJust (lost_there (move_of m.now)) (holding im o m.now.to.inode) m.now.new_name.now) }
    ensures linear { (h : Holding) → IsShown (V.seen view.now) m.now.to.inode h → is_hashed_in h ≡ false → height_in h ≡ 0 → IfIs result (NeedsAfter (lost_there (move_of m.now)) h m.now.new_name.now) }
    ensures hashed { (h : Holding) → IsShown (V.seen view.now) m.now.to.inode h → is_hashed_in h ≡ true → lost_there (move_of m.now) ≡ [] → IfIs result (TakesBlocks h m.now.new_name.now) }
    ensures most { IfIs result (λ need. need < 2 ^ 42) }
    ensures seen { IfIs result (λ need. IsAfter (V.seen view.now) m.now.to.inode (lost_there (move_of m.now)) (λ k. SeesForName (V.seen view.now) k m.now.new_name.now)) }
    ensures needed { IfNeedBlock result (IsNeededIn (V.seen view.now) (move_of m.now) []) }
    ensures there { IfNeedBlock result (IsNeededThere (V.seen view.now) (move_of m.now)) }
    ensures asked { (im : Image) (o : Owners) (l : Layout) (t : Tree) (path path' : Path) → IsOf (V.seen view.now) im o l t → ArePlacesIn im o l path path' (move_of m.now)
        → IfNeedBlock result (IsAskedOf (V.seen view.now) im o l m.now.to.inode) }
    ensures absent { IfNeedBlock result (λ missing. (V.seen view.now).block_at missing.block ≡ None) }
    ensures damaged { IfDamaged result (IsWrongIn (V.seen view.now) (move_of m.now) []) }
    ensures wrong { IfDamaged result (IsWrongThere (V.seen view.now) (move_of m.now)) }
    ensures sound { (im : Image) (o : Owners) (l : Layout) (t : Tree) (path path' : Path) → IsOf (V.seen view.now) im o l t → ArePlacesIn im o l path path' (move_of m.now)
        → IfDamaged result (λ rule block. ⊥) }
    ensures kept { IfDamaged result (IsOfView (V.seen view.now)) }
{
    hash_fits(m.new_name);
    count_need(alloc, view, m)
}

// The change of a draft that moves a name.
fn draft_move<V: View>(
    alloc: Global,
    view: &V,
    m: &NameMove<'_>,
    room: &[u64],
    time: u64,
) -> Result<Step<Option<Change>>, CallFault>
    requires can { CanBeMoved (V.seen view.now) (move_of m.now) }
    requires room { (b : ℕ) → Contains room.now b → HasDataBlock (V.seen view.now) b }
    requires apart { (b : ℕ) → Contains room.now b → IsPlaceOfMove (move_of m.now) b → ⊥ }
    requires once { IsDistinct room.now }
    ensures moving { IfIs result (λ done. IfSome done (IsMoving (V.seen view.now) (move_of m.now) room.now time)) }
    ensures able { (source target inode : Holding) → AreApart (V.seen view.now) (move_of m.now) room.now source target inode → IfIs result (λ done. IsSome done) }
    ensures done { (im : Image) (o : Owners) (l : Layout) (t : Tree) (path path' : Path) → IsOf (V.seen view.now) im o l t → IsMoveIn im o l path path' (move_of m.now) room.now → IfIs result (λ done. IsSome done) }
    ensures needed { IfNeedBlock result (IsNeededIn (V.seen view.now) (move_of m.now) (room.now ++ freed_by (move_of m.now))) }
    ensures damaged { IfDamaged result (IsWrongIn (V.seen view.now) (move_of m.now) (room.now ++ freed_by (move_of m.now))) }
    ensures kept { IfDamaged result (IsOfView (V.seen view.now)) }
{
    is_a_view(view);
    let old = match old_entry(view, m)? {
        Step::Is(old) => old,
        Step::NeedBlock(missing) => return Ok(Step::NeedBlock(missing)),
    };
    let mut draft = Draft::new(alloc, view);
    let taken = match join(alloc, view, &mut draft, m, &old, room, time)? {
        Step::Is(Some(taken)) => &room[..taken],
        Step::Is(None) => return Ok(Step::Is(None)),
        Step::NeedBlock(missing) => return Ok(Step::NeedBlock(missing)),
    };
    match say_and_finish(draft, taken, freed_blocks(m))? {
        Step::Is(change) => Ok(Step::Is(Some(change))),
        Step::NeedBlock(missing) => Ok(Step::NeedBlock(missing)),
    }
}

/// What a draft changes that moves a name: what stands at the new name goes first, with all its blocks, then the old name, and then the new one comes, for
/// which blocks are taken from the front of `room`, as many as `need_to_move` tells; a directory that gets another parent names it as `..`; and each directory
/// that is touched gets the time. The blocks of `room` are data blocks of groups, each another one, and none is a dinode's of the move or one of those that go.
/// In an image that stands for a tree None isn't answered, where the room is free and as much as the name needs. It costs what taking the names and putting one costs, what `redirect` costs where there is another
/// parent, what `take_blocks` and `free_blocks` cost, two copies of each of three dinodes, and two more of each block that is put.
pub fn moving<V: View>(
    alloc: Global,
    view: &V,
    m: &NameMove<'_>,
    room: &[u64],
    time: u64,
) -> Result<Step<Option<Change>>, CallFault>
    requires can { CanBeMoved (V.seen view.now) (move_of m.now) }
    requires room { (b : ℕ) → Contains room.now b → HasDataBlock (V.seen view.now) b }
    requires apart { (b : ℕ) → Contains room.now b → IsPlaceOfMove (move_of m.now) b → ⊥ }
    requires once { IsDistinct room.now }
    ensures moving { IfIs result (λ done. IfSome done (IsMoving (V.seen view.now) (move_of m.now) room.now time)) }
    ensures able { (source target inode : Holding) → AreApart (V.seen view.now) (move_of m.now) room.now source target inode → IfIs result (λ done. IsSome done) }
    ensures done { (im : Image) (o : Owners) (l : Layout) (t : Tree) (path path' : Path) → IsOf (V.seen view.now) im o l t → IsMoveIn im o l path path' (move_of m.now) room.now → IfIs result (λ done. IsSome done) }
    ensures needed { IfNeedBlock result (IsNeededIn (V.seen view.now) (move_of m.now) (room.now ++ freed_by (move_of m.now))) }
    ensures asked { (im : Image) (o : Owners) (l : Layout) (t : Tree) (path path' : Path) → IsOf (V.seen view.now) im o l t → ArePlacesIn im o l path path' (move_of m.now)
        → IfNeedBlock result (IsAskedIn (V.seen view.now) im o l (move_of m.now) (room.now ++ freed_by (move_of m.now))) }
    ensures damaged { IfDamaged result (IsWrongIn (V.seen view.now) (move_of m.now) (room.now ++ freed_by (move_of m.now))) }
    ensures sound { (im : Image) (o : Owners) (l : Layout) (t : Tree) (path path' : Path) → IsOf (V.seen view.now) im o l t → ArePlacesIn im o l path path' (move_of m.now)
        → IfDamaged result (λ rule block. ⊥) }
    ensures kept { IfDamaged result (IsOfView (V.seen view.now)) }
{
    draft_move(alloc, view, m, room, time)
}
