//! What the definitions mean. The functions do nothing: their contracts are the laws.
ghost use Rattle.std.specs.Prelude.{◌≡◌, ℕ, None, Some, IsSome};
ghost use Rattle.gfs2_layout.specs.Device.{IsBlockSize};
ghost use Rattle.gfs2_layout.specs.Holding.{Holding, Itself, Pointed, part_at};
ghost use Rattle.gfs2_layout.specs.Inode.{IsInode};
ghost use Rattle.glock_names.specs.Views.{Seen, IsView};
ghost use Rattle.dinode_tree.specs.Below.{IsBelow};
ghost use Rattle.dinode_tree.specs.Broken.{IsBroken};
ghost use Rattle.dinode_tree.specs.Shown.{IsAsSeen, IsShown};
ghost use Rattle.dinode_tree.specs.Reading.{AreWholeBefore};

/// A law: an inode that is sound in itself is shown by each view whose blocks hold what the inode's hold.
pub fn sound_inodes_are_shown()
    ensures { (v : Seen) (h : Holding) → IsInode h → part_at h h.own ≡ Some Itself → h.size ≡ v.size → IsAsSeen v h → IsShown v h.own h }
{}

/// A law: the blocks of content of an inode that is sound in itself are whole blocks, or holes.
pub fn sound_inodes_are_whole()
    ensures { (h : Holding) (at : ℕ) → IsBlockSize h.size → IsInode h → AreWholeBefore h at }
{}

/// A law: an inode that has all blocks, whether right or wrong, is shown by each view whose blocks hold what they hold.
pub fn all_blocks_are_shown()
    ensures { (v : Seen) (h : Holding) → h.size ≡ v.size → ((b : ℕ) → IsSome (h.cell b)) → IsAsSeen v h → IsShown v h.own h }
{}

/// A law: in an inode that is sound in itself nothing is broken, so no call tells that it is damaged.
pub fn sound_inodes_break_nothing()
    ensures { (h : Holding) (rule b : ℕ) → IsInode h → IsBroken h rule b → ⊥ }
{}

/// A law: in an inode that is sound in itself the blocks to which its pointers lead are those whose part tells of a pointer;
/// it has no part in block 0, to which no pointer leads.
pub fn sound_pointers_are_parts()
    ensures parts { (h : Holding) (b : ℕ) → IsInode h → IsBelow h b → (from k level first : ℕ) × (part_at h b ≡ Some (Pointed from k level first)) }
    ensures led { (h : Holding) (b from k level first : ℕ) → IsInode h → part_at h 0 ≡ None → part_at h b ≡ Some (Pointed from k level first) → IsBelow h b }
{}

/// A law: there is an inode that a view shows, whatever the view has; and all its blocks of content are whole blocks, or
/// holes.
pub fn every_view_shows_an_inode()
    ensures { (v : Seen) (a : ℕ) → (h : Holding) × (IsShown v a h × (IsView v → (at : ℕ) → AreWholeBefore h at)) }
{}
