// Indirect blocks that lead nowhere.
ghost use Rattle.std.specs.Prelude.{ℕ, ◌≡◌, ◌↔◌, ◌+◌, ◌*◌, ◌<◌, ◌≤◌, IsTrue, None, length};
ghost use Rattle.gfs2_layout.specs.Bytes.{u64_at};
ghost use Rattle.gfs2_layout.specs.Holding.{Holding};
ghost use Rattle.gfs2_layout.specs.Inode.{Leads, fan as fan_of, header_length, span};
ghost use Rattle.glock_names.specs.Steps.{IfIs, IfNeedBlock, OnlyDamaged};
ghost use Rattle.glock_names.specs.Views.{HasBlock, IsOfView};
ghost use Rattle.dinode_tree.specs.Broken.{IsBroken};
ghost use Rattle.dinode_tree.specs.Reading.{IsNeeded};
ghost use Rattle.dinode_tree.specs.Shown.{IsShown};
ghost use Rattle.file_walks.specs.Walks.{LeadsNowhere};

use crate::numbers::{IN_BLOCK, fan, number_at};
use crate::walks::{Stop, damaged, missing_block};
use gfs2_layout::has_header;
use glock_names::{CallFault, Step, View, block_of};

// Whether each pointer of an indirect block is 0.
fn is_clear(bytes: &[u8]) -> bool
    requires { 512 ≤ length bytes.now }
    ensures { IsTrue result ↔ ((k : ℕ) → k < fan_of (length bytes.now) header_length → u64_at (header_length + 8 * k) bytes.now ≡ 0) }
{
    for k in 0..fan(bytes.len(), IN_BLOCK) as usize {
        if number_at(bytes, IN_BLOCK + 8 * k) != 0 {
            return false;
        }
    }
    true
}

/// Whether every pointer of the indirect block leads nowhere to which the pointer of a stop leads. It costs a look at that block, and no
/// memory.
pub fn leads_nowhere<V: View>(view: &V, inode: u64, stop: &Stop) -> Result<Step<bool>, CallFault>
    requires indirect { 1 ≤ stop.now.level }
    ensures found { (h : Holding) (first : ℕ) → IsShown (V.seen view.now) inode h → Leads h stop.now.pointer.from stop.now.pointer.index stop.now.level first stop.now.block
        → IfIs result (λ nowhere. IsTrue nowhere ↔ LeadsNowhere h stop.now.block) }
    ensures there { IfIs result (λ nowhere. HasBlock (V.seen view.now) stop.now.block) }
    ensures absent { IfNeedBlock result (λ missing. (V.seen view.now).block_at stop.now.block ≡ None) }
    ensures needed { (h : Holding) (first : ℕ) → IsShown (V.seen view.now) inode h → Leads h stop.now.pointer.from stop.now.pointer.index stop.now.level first stop.now.block
        → IfNeedBlock result (IsNeeded (V.seen view.now) h (λ i. (first ≤ i) × (i < first + span h.size stop.now.level)) stop.now.level) }
    ensures damaged { (h : Holding) (first : ℕ) → IsShown (V.seen view.now) inode h → Leads h stop.now.pointer.from stop.now.pointer.index stop.now.level first stop.now.block
        → OnlyDamaged result (IsBroken h) }
    ensures kept { OnlyDamaged result (IsOfView (V.seen view.now)) }
{
    let Some(bytes) = block_of(view, stop.block) else {
        return Ok(Step::NeedBlock(missing_block(inode, stop)));
    };
    if !has_header(bytes, 5, 500) {
        return Err(damaged(stop.block, 1));
    }
    Ok(Step::Is(is_clear(bytes)))
}
