// The ways of a move, on which no block may be that goes or is taken: to the old name, to the new one, and to `..` where the inode gets another parent.
ghost use Rattle.std.specs.Prelude.{ℕ, ◌≡◌, ◌≢◌, ◌≤◌, [], Contains, IfNone, IfSome, None, length};
ghost use Rattle.gfs2_layout.specs.Holding.{Holding};
ghost use Rattle.glock_names.specs.Steps.{IfDamaged, IfIs, IfNeedBlock};
ghost use Rattle.glock_names.specs.Views.{HasBlock, IsOfView, IsView};
ghost use Rattle.move_ends.specs.Shown.{IsDirectoryIn, IsShown};
ghost use Rattle.name_moves.specs.Way.{IsOnWay, IsRightWay};
ghost use Rattle.name_moves.specs.Moving.{CanBeMoved, Move, is_reparented, move_of};
ghost use Rattle.move_calls.specs.Checks.{IsNeededOnWays, IsOffItsWays, IsOnItsWay, IsWayOf, IsWrongOnWays};

use glock_names::{CallFault, Step, View};
use name_moves::{NameMove, block_on_way};

/// A law: what a node has of the file system is a view of it.
pub(crate) fn is_a_view<V: View>(view: &V)
    ensures { IsView (V.seen view.now) }
{
    let _size = view.block_size();
}

/// Whether the inode is a directory that gets another parent.
pub(crate) fn gets_parent(m: &NameMove<'_>) -> bool
    ensures { result ≡ is_reparented (move_of m.now) }
{
    m.moved.dinode.is_directory() && m.from != m.to.inode
}

// The first of these blocks that is on the way to a name in a directory. Where there are some and none is, the way is right.
fn block_on<V: View>(
    view: &V,
    dir: u64,
    name: &[u8],
    blocks: &[u64],
) -> Result<Step<Option<u64>>, CallFault>
    requires directory { IsDirectoryIn (V.seen view.now) dir }
    requires short { length name.now ≤ 255 }
    ensures some { (m : Move) → IsWayOf (V.seen view.now) m dir name.now → IfIs result (λ found. IfSome found (λ b. Contains blocks.now b × IsOnItsWay (V.seen view.now) m b)) }
    ensures there { IfIs result (λ found. IfSome found (HasBlock (V.seen view.now))) }
    ensures none { IfIs result (λ found. IfNone found ((b : ℕ) → Contains blocks.now b → (h : Holding) → IsShown (V.seen view.now) dir h → IsOnWay h name.now b → ⊥)) }
    ensures right { (h : Holding) → IsShown (V.seen view.now) dir h → IfIs result (λ found. IfNone found (blocks.now ≢ [] → IsRightWay (V.seen view.now) h name.now blocks.now)) }
    ensures needed { (m : Move) → IsWayOf (V.seen view.now) m dir name.now → IfNeedBlock result (IsNeededOnWays (V.seen view.now) m) }
    ensures damaged { (m : Move) → IsWayOf (V.seen view.now) m dir name.now → IfDamaged result (IsWrongOnWays (V.seen view.now) m) }
    ensures kept { IfDamaged result (IsOfView (V.seen view.now)) }
{
    is_a_view(view);
    let Some((first, rest)) = blocks.split_first() else {
        return Ok(Step::Is(None));
    };
    block_on_way(view, dir, name, *first, rest)
}

/// The first of these blocks that is on a way of the move. Where there are some and none is, the way to the new name is right. It costs what `block_on_way` costs for each of the
/// ways, and nothing where there are no blocks.
pub(crate) fn block_on_ways<V: View>(
    view: &V,
    m: &NameMove<'_>,
    blocks: &[u64],
) -> Result<Step<Option<u64>>, CallFault>
    requires { CanBeMoved (V.seen view.now) (move_of m.now) }
    ensures some { IfIs result (λ found. IfSome found (λ b. Contains blocks.now b × IsOnItsWay (V.seen view.now) (move_of m.now) b)) }
    ensures there { IfIs result (λ found. IfSome found (HasBlock (V.seen view.now))) }
    ensures none { IfIs result (λ found. IfNone found ((b : ℕ) → Contains blocks.now b → IsOffItsWays (V.seen view.now) (move_of m.now) b)) }
    ensures right { (h : Holding) → IsShown (V.seen view.now) m.now.to.inode h → IfIs result (λ found. IfNone found (blocks.now ≢ [] → IsRightWay (V.seen view.now) h m.now.new_name.now blocks.now)) }
    ensures needed { IfNeedBlock result (IsNeededOnWays (V.seen view.now) (move_of m.now)) }
    ensures damaged { IfDamaged result (IsWrongOnWays (V.seen view.now) (move_of m.now)) }
    ensures kept { IfDamaged result (IsOfView (V.seen view.now)) }
{
    is_a_view(view);
    match block_on(view, m.from, m.name.bytes(), blocks)? {
        Step::Is(None) => {}
        Step::Is(Some(block)) => return Ok(Step::Is(Some(block))),
        Step::NeedBlock(missing) => return Ok(Step::NeedBlock(missing)),
    }
    match block_on(view, m.to.inode, m.new_name.bytes(), blocks)? {
        Step::Is(None) => {}
        Step::Is(Some(block)) => return Ok(Step::Is(Some(block))),
        Step::NeedBlock(missing) => return Ok(Step::NeedBlock(missing)),
    }
    if !gets_parent(m) {
        return Ok(Step::Is(None));
    }
    block_on(view, m.moved.inode, b"..", blocks)
}
