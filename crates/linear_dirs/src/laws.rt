//! What the definitions mean. The functions do nothing: their contracts are the laws.
ghost use Rattle.std.specs.Prelude.{ℕ, ◌≡◌, ◌+◌, true, false, length, Contains, Some};
ghost use Rattle.file_tree.specs.Names.{IsName};
ghost use Rattle.gfs2_layout.specs.Exchanges.{directory_count};
ghost use Rattle.gfs2_layout.specs.Holding.{Holding, Itself, part_at};
ghost use Rattle.gfs2_layout.specs.Inode.{IsInode, dinode_in, is_directory_in, is_hashed_in, records_of};
ghost use Rattle.gfs2_layout.specs.Records.{Record, is_dots};
ghost use Rattle.glock_names.specs.Views.{Seen, HasBlock};
ghost use Rattle.dinode_tree.specs.Shown.{IsShown};
ghost use Rattle.linear_dirs.specs.Shown.{holding_over};
ghost use Rattle.linear_dirs.specs.Broken.{IsBroken};

use dinode_tree::{sound_inodes_are_shown, sound_inodes_break_nothing};

/// A law: in a directory that isn't hashed and is an inode sound in itself, whose records have names, or are `.` and `..`, and
/// whose dinode counts its records and links, nothing is broken; so no call tells that it is damaged.
pub fn linear_directories_break_nothing()
    ensures { (h : Holding) (rule b : ℕ) → IsInode h → is_directory_in h ≡ true → is_hashed_in h ≡ false
        → ((r : Record) → Contains (records_of h) r → is_dots r.name ≡ false → IsName r.name)
        → (dinode_in h).entries ≡ length (records_of h) → (dinode_in h).nlink ≡ 2 + directory_count (records_of h) → IsBroken h rule b → ⊥ }
{
    sound_inodes_break_nothing();
}

/// A law: what a draft leaves of an inode has its blocks in their places, and is shown by the draft where it is sound and its
/// dinode's block is its dinode's alone; and of that a later draft, which sees each block that the first one saw, leaves what it
/// leaves of the inode. So one call after another on a draft tells of one inode.
pub fn drafts_lie_over_one_another()
    ensures parts { (v : Seen) (h : Holding) (b : ℕ) → part_at (holding_over v h) b ≡ part_at h b }
    ensures shown { (v : Seen) (h : Holding) → IsInode (holding_over v h) → part_at h h.own ≡ Some Itself → h.size ≡ v.size → IsShown v h.own (holding_over v h) }
    ensures later { (v w : Seen) (h : Holding) → ((b : ℕ) → HasBlock v b → HasBlock w b) → holding_over w (holding_over v h) ≡ holding_over w h }
{
    sound_inodes_are_shown();
}
