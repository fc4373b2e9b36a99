// What a table is.
ghost use Rattle.std.specs.Prelude.{ℕ, Option, ◌≡◌, ◌*◌, ◌/◌, ◌^◌, ◌<◌, ◌≤◌, None, Some};
ghost use Rattle.gfs2_layout.specs.Device.{IsBlockSize};
ghost use Rattle.gfs2_layout.specs.Holding.{Holding};
ghost use Rattle.gfs2_layout.specs.Inode.{IsInode, depth_in, entry, entry_block, unit};
ghost use Rattle.glock_names.specs.Steps.{IfIs, IfNeedBlock, OnlyDamaged};
ghost use Rattle.glock_names.specs.Views.{Seen, HasBlock, IsOfView};
ghost use Rattle.dinode_tree.specs.Broken.{IsBroken};
ghost use Rattle.dinode_tree.specs.Reading.{IsNeeded};
ghost use Rattle.pointer_tables.specs.Directories.{IsShown};
ghost use Rattle.pointer_tables.specs.declared.pointer.Pointer.{Pointer};

use crate::Pointer;
use glock_names::{CallFault, Step, View};

/// The table of a hashed directory: 2 to the power of its depth pointers to leaves, one for each number that the top bits of a
/// hash may be. It keeps no borrow of the view that has its pointers.
pub trait PointerTable {
    /// How deep it is.
    ghost deep: { Self → ℕ };

    /// The pointer at an index, as far as the view tells; none where it hasn't the block that has the pointer.
    ghost pointer: { Self → Seen → ℕ → Option Pointer };

    /// The table is that of this directory, as far as the view tells. A table that no block keeps is no directory's.
    ghost shows: { Self → Seen → Holding → Type 0 };

    /// How many of a hash's bits are the index of its pointer.
    fn depth(&self) -> u16
        ensures value { result ≡ deep self.now }
        ensures most { result ≤ 15 };

    /// The pointer at an index. It asks for blocks of the inode on the way to that pointer.
    fn get<V: View>(&self, view: &V, index: u32) -> Result<Step<Pointer>, CallFault>
        requires { index < 2 ^ deep self.now }
        ensures told { IfIs result (λ found. pointer self.now (V.seen view.now) index ≡ Some found) }
        ensures found { (h : Holding) → shows self.now (V.seen view.now) h → IfIs result (λ found. (found.leaf ≡ entry h index) × (found.from ≡ entry_block h index)) }
        ensures there { IfIs result (λ found. HasBlock (V.seen view.now) found.from) }
        ensures absent { IfNeedBlock result (λ missing. (V.seen view.now).block_at missing.block ≡ None) }
        ensures needed { (h : Holding) → shows self.now (V.seen view.now) h → IfNeedBlock result (IsNeeded (V.seen view.now) h (λ i. i ≡ 8 * index / unit h) 0) }
        ensures damaged { (h : Holding) → shows self.now (V.seen view.now) h → OnlyDamaged result (IsBroken h) }
        ensures kept { OnlyDamaged result (IsOfView (V.seen view.now)) };

    /// A law: a table is as deep as its directory says.
    ghost deep_in: { (t : Self) (v : Seen) (h : Holding) → shows t v h → deep t ≡ depth_in h };

    /// A law: a table is that of its directory in whatever else the view or a draft shows of that, as long as that is sound and says the
    /// same depth. So blocks that don't have the pointers, and the counts and times of the dinode, may change.
    ghost follows: { (t : Self) (v w : Seen) (h g : Holding) → shows t v h → g.own ≡ h.own → IsShown w h.own g → IsBlockSize g.size → IsInode g → depth_in g ≡ depth_in h → shows t w g };
}
