// Blocks of content that are to be in the view.
ghost use Rattle.std.specs.Prelude.{ℕ, ◌≡◌, ◌≢◌, ◌<◌, ◌≤◌, true, false, None};
ghost use Rattle.gfs2_layout.specs.Holding.{Holding};
ghost use Rattle.gfs2_layout.specs.Inode.{dinode_in};
ghost use Rattle.gfs2_layout.specs.Structures.{is_regular};
ghost use Rattle.glock_names.specs.Steps.{IfIs, IfNeedBlock, OnlyDamaged};
ghost use Rattle.glock_names.specs.Views.{HasBlock, IsOfView};
ghost use Rattle.dinode_tree.specs.Broken.{IsBroken};
ghost use Rattle.dinode_tree.specs.Reading.{IsNeeded, inode_lock};
ghost use Rattle.dinode_tree.specs.Shown.{IsShown};
ghost use Rattle.growth_laws.specs.Files.{IsFile};
ghost use Rattle.file_fills.specs.Filling.{IsSeenWay};

use file_walks::{Stop, find_place};
use glock_names::{CallFault, LockName, Missing, Step, View};

// The block to which the pointer of a stop leads, on the level of content, as one that is missing.
fn missing_content(inode: u64, regular: bool, stop: &Stop) -> Missing
    ensures { result ≡ record { lock = inode_lock inode; block = stop.now.block; plain = regular; from = stop.now.pointer.from } }
{
    Missing {
        lock: LockName {
            kind: 2,
            number: inode,
        },
        block: stop.block,
        plain: regular,
        from: stop.pointer.from,
    }
}

/// Whether there is a block that the view lacks; 0 is none.
pub(crate) fn lacks<V: View>(view: &V, block: u64) -> bool
    ensures some { result ≡ true → block ≢ 0 }
    ensures absent { result ≡ true → (V.seen view.now).block_at block ≡ None }
    ensures seen { result ≡ false → block ≢ 0 → HasBlock (V.seen view.now) block }
{
    block != 0 && view.block(block).is_none()
}

/// Looks whether the view has the blocks on the way to the block of content with an index, and that block, where they are there; `regular`
/// says whether the inode is a regular file. It costs a look at each of them, and no memory.
pub fn look_at<V: View>(
    view: &V,
    inode: u64,
    regular: bool,
    index: u64,
) -> Result<Step<()>, CallFault>
    ensures seen { (h : Holding) → IsFile h → IsShown (V.seen view.now) inode h → IfIs result (λ done. IsSeenWay (V.seen view.now) h index) }
    ensures needed { (h : Holding) → IsShown (V.seen view.now) inode h → regular ≡ is_regular (dinode_in h) → IfNeedBlock result (IsNeeded (V.seen view.now) h (λ x. x ≡ index) 0) }
    ensures damaged { (h : Holding) → IsShown (V.seen view.now) inode h → OnlyDamaged result (IsBroken h) }
    ensures kept { OnlyDamaged result (IsOfView (V.seen view.now)) }
{
    match find_place(view, inode, 0, index)? {
        Step::Is(Some(stop)) => {
            if lacks(view, stop.block) {
                return Ok(Step::NeedBlock(missing_content(inode, regular, &stop)));
            }
            Ok(Step::Is(()))
        }
        Step::Is(None) => Ok(Step::Is(())),
        Step::NeedBlock(missing) => Ok(Step::NeedBlock(missing)),
    }
}

/// The same, of each index from one to another.
pub(crate) fn look_between<V: View>(
    view: &V,
    inode: u64,
    regular: bool,
    first: u64,
    until: u64,
) -> Result<Step<()>, CallFault>
    ensures seen { (h : Holding) (i : ℕ) → IsFile h → IsShown (V.seen view.now) inode h → first ≤ i → i < until → IfIs result (λ done. IsSeenWay (V.seen view.now) h i) }
    ensures needed { (h : Holding) → IsShown (V.seen view.now) inode h → regular ≡ is_regular (dinode_in h) → IfNeedBlock result (IsNeeded (V.seen view.now) h (λ x. (first ≤ x) × (x < until)) 0) }
    ensures damaged { (h : Holding) → IsShown (V.seen view.now) inode h → OnlyDamaged result (IsBroken h) }
    ensures kept { OnlyDamaged result (IsOfView (V.seen view.now)) }
{
    for index in first..until {
        match look_at(view, inode, regular, index)? {
            Step::Is(()) => {}
            Step::NeedBlock(missing) => return Ok(Step::NeedBlock(missing)),
        }
    }
    Ok(Step::Is(()))
}
