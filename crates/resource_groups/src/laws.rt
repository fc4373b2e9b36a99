//! What the definitions mean. The functions do nothing: their contracts are the laws.
ghost use Rattle.std.specs.Prelude.{ℕ, List, ◌*◌, ◌≤◌, length};
ghost use Rattle.gfs2_layout.specs.Groups.{bitmap_of};
ghost use Rattle.glock_names.specs.Views.{Seen, HasGroup, IsView};
ghost use Rattle.glock_names.specs.declared.views.Group.{Group};
ghost use Rattle.resource_groups.specs.Shown.{IsShown, blocks_of};

/// A law: the bitmap of a group of a view has a state for each of its data blocks.
pub fn bitmaps_have_all_states()
    ensures { (v : Seen) (g : Group) (at : ℕ → List ℕ) → IsView v → HasGroup v g → IsShown v g at → g.count ≤ 4 * length (bitmap_of (blocks_of at g)) }
{}
