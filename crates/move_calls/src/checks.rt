// What is looked at before a name is moved.
ghost use Rattle.std.specs.Prelude.{ℕ, ◌≡◌, ◌≢◌, ◌⊎◌, false, true, codes, Contains, IfNone, IfOk, IfSome, None, Some};
ghost use Rattle.gfs2_layout.specs.Holding.{Holding};
ghost use Rattle.glock_names.specs.Steps.{IfDamaged, IfIs, IfNeedBlock, OnlyDamaged};
ghost use Rattle.glock_names.specs.Views.{HasBlock, IsOfView};
ghost use Rattle.dinode_tree.specs.Broken.{IsBroken};
ghost use Rattle.dinode_tree.specs.Reading.{IsRightDinode};
ghost use Rattle.dinode_tree.specs.Shown.{IsShown};
ghost use Rattle.move_ends.specs.Taking.{HasNameIn};
ghost use Rattle.resource_groups.specs.Putting.{HasDataBlock};
ghost use Rattle.name_moves.specs.Moving.{CanBeMoved, freed_by, is_reparented, is_within, move_of};
ghost use Rattle.move_calls.specs.Checks.{IsClear, IsDirectoryOf, IsNeededToSee, IsSeenMove, IsUnfit, IsWrongMove};

use crate::ways::{block_on_ways, gets_parent, is_a_view};
use dinode_tree::read_dinode;
use glock_names::{CallFault, Step, View};
use move_ends::{is_hashed, look};
use name_moves::NameMove;
use resource_groups::group_of;

/// The blocks that go with what stands at the new name.
pub fn freed_blocks<'a>(m: &NameMove<'a>) -> &'a [u64]
    ensures { result.now ≡ freed_by (move_of m.now) }
{
    match m.replaced {
        Some(blocks) => blocks,
        None => &[],
    }
}

// The first of the two directories that is no data block of a group.
fn stray_directory<V: View>(view: &V, m: &NameMove<'_>) -> Option<u64>
    ensures some { IfSome result (λ a. IsDirectoryOf (move_of m.now) a × (¬ (HasDataBlock (V.seen view.now) a))) }
    ensures none { IfNone result (HasDataBlock (V.seen view.now) m.now.from × HasDataBlock (V.seen view.now) m.now.to.inode) }
{
    if group_of(view, m.from).is_none() {
        return Some(m.from);
    }
    if group_of(view, m.to.inode).is_none() {
        return Some(m.to.inode);
    }
    None
}

// Whether the inode is the directory that has its name.
fn is_its_own(m: &NameMove<'_>) -> bool
    ensures its_own { result ≡ true → m.now.moved.inode ≡ m.now.from }
    ensures apart { result ≡ false → m.now.moved.inode ≢ m.now.from }
{
    m.moved.inode == m.from
}

// Whether the directory that is to get the name is one of the blocks that go.
fn frees_target(m: &NameMove<'_>) -> bool
    ensures goes { result ≡ true → Contains (freed_by (move_of m.now)) m.now.to.inode }
    ensures stays { result ≡ false → (b : ℕ) → Contains (freed_by (move_of m.now)) b → b ≢ m.now.to.inode }
{
    freed_blocks(m).contains(&m.to.inode)
}

// Whether the inode is the directory that is to get its name, or the directory that has the name is one of the blocks that go.
fn is_in_its_way(m: &NameMove<'_>) -> bool
    ensures unfit { result ≡ true → (m.now.moved.inode ≡ m.now.to.inode) ⊎ Contains (freed_by (move_of m.now)) m.now.from }
    ensures apart { result ≡ false → (m.now.moved.inode ≢ m.now.to.inode) × ((b : ℕ) → Contains (freed_by (move_of m.now)) b → b ≢ m.now.from) }
{
    m.moved.inode == m.to.inode || freed_blocks(m).contains(&m.from)
}

// Whether the inode is one of the blocks that go.
fn frees_inode(m: &NameMove<'_>) -> bool
    ensures goes { result ≡ true → Contains (freed_by (move_of m.now)) m.now.moved.inode }
    ensures stays { result ≡ false → (b : ℕ) → Contains (freed_by (move_of m.now)) b → b ≢ m.now.moved.inode }
{
    freed_blocks(m).contains(&m.moved.inode)
}

// Whether the old name is the new one, of one directory.
fn is_one_name(m: &NameMove<'_>) -> bool
    ensures one { result ≡ true → (is_within (move_of m.now) ≡ true) × (m.now.name.now ≡ m.now.new_name.now) }
    ensures two { result ≡ false → is_within (move_of m.now) ≡ true → m.now.name.now ≢ m.now.new_name.now }
{
    m.from == m.to.inode && m.name.bytes() == m.new_name.bytes()
}

// An inode that the view has is right in itself, so that it has a number.
fn check_inode<V: View>(view: &V, inode: u64) -> Result<(), CallFault>
    requires { HasBlock (V.seen view.now) inode }
    ensures right { (h : Holding) → IsShown (V.seen view.now) inode h → IfOk result (λ done. IsRightDinode h) }
    ensures damaged { (h : Holding) → IsShown (V.seen view.now) inode h → OnlyDamaged result (IsBroken h) }
    ensures kept { OnlyDamaged result (IsOfView (V.seen view.now)) }
{
    match read_dinode(view, inode)? {
        Step::Is(_) => Ok(()),
        Step::NeedBlock(_) => unreachable!(),
    }
}

// Looks that a directory which gets another parent has `..`. False where it isn't found in a hashed one.
fn see_parent<V: View>(view: &V, m: &NameMove<'_>) -> Result<Step<bool>, CallFault>
    requires { IsSeenMove (V.seen view.now) (move_of m.now) }
    ensures parented { IfIs result (λ sees. sees ≡ true → is_reparented (move_of m.now) ≡ true → HasNameIn (V.seen view.now) m.now.moved.inode (codes "..")) }
    ensures unfit { IfIs result (λ sees. sees ≡ false → IsUnfit (V.seen view.now) (move_of m.now)) }
    ensures needed { IfNeedBlock result (IsNeededToSee (V.seen view.now) (move_of m.now)) }
    ensures damaged { IfDamaged result (IsWrongMove (V.seen view.now) (move_of m.now)) }
    ensures kept { IfDamaged result (IsOfView (V.seen view.now)) }
{
    is_a_view(view);
    if !gets_parent(m) {
        return Ok(Step::Is(true));
    }
    match look(view, m.moved.inode, b"..")? {
        Step::Is(Some(_)) => Ok(Step::Is(true)),
        Step::Is(None) => {
            if is_hashed(&m.moved.dinode) {
                return Ok(Step::Is(false));
            }
            Err(CallFault::Damaged {
                block: m.moved.inode,
                rule: 10,
            })
        }
        Step::NeedBlock(missing) => Ok(Step::NeedBlock(missing)),
    }
}

// Whether a move can be made, as the walks of a call have seen it, so that it is asked what is on its ways.
fn is_fit<V: View>(view: &V, m: &NameMove<'_>) -> Result<Step<bool>, CallFault>
    requires { IsSeenMove (V.seen view.now) (move_of m.now) }
    ensures fit { IfIs result (λ fit. fit ≡ true → CanBeMoved (V.seen view.now) (move_of m.now)) }
    ensures unfit { IfIs result (λ fit. fit ≡ false → IsUnfit (V.seen view.now) (move_of m.now)) }
    ensures needed { IfNeedBlock result (IsNeededToSee (V.seen view.now) (move_of m.now)) }
    ensures damaged { IfDamaged result (IsWrongMove (V.seen view.now) (move_of m.now)) }
    ensures kept { IfDamaged result (IsOfView (V.seen view.now)) }
{
    is_a_view(view);
    if let Some(block) = stray_directory(view, m) {
        return Err(CallFault::Damaged { block, rule: 2 });
    }
    if is_its_own(m) {
        return Err(CallFault::Damaged {
            block: m.moved.inode,
            rule: 3,
        });
    }
    if frees_target(m) {
        return Err(CallFault::Damaged {
            block: m.to.inode,
            rule: 3,
        });
    }
    if is_in_its_way(m) {
        return Ok(Step::Is(false));
    }
    if frees_inode(m) {
        if is_one_name(m) {
            return Ok(Step::Is(false));
        }
        return Err(CallFault::Damaged {
            block: m.moved.inode,
            rule: 3,
        });
    }
    check_inode(view, m.to.inode)?;
    check_inode(view, m.moved.inode)?;
    see_parent(view, m)
}

// Looks that nothing which goes is on a way of a move.
fn clear_ways<V: View>(view: &V, m: &NameMove<'_>) -> Result<Step<()>, CallFault>
    requires { CanBeMoved (V.seen view.now) (move_of m.now) }
    ensures clear { IfIs result (λ done. IsClear (V.seen view.now) (move_of m.now)) }
    ensures needed { IfNeedBlock result (IsNeededToSee (V.seen view.now) (move_of m.now)) }
    ensures damaged { IfDamaged result (IsWrongMove (V.seen view.now) (move_of m.now)) }
    ensures kept { IfDamaged result (IsOfView (V.seen view.now)) }
{
    is_a_view(view);
    match block_on_ways(view, m, freed_blocks(m))? {
        Step::Is(None) => Ok(Step::Is(())),
        Step::Is(Some(block)) => Err(CallFault::Damaged { block, rule: 3 }),
        Step::NeedBlock(missing) => Ok(Step::NeedBlock(missing)),
    }
}

/// Looks at what the walks of a call have seen of a move, whether it can be made: the directories lie in groups, the inode is none of them, none of the three goes with
/// what stands at the new name, a directory that gets another parent has `..`, and nothing that goes is on the way to a name of the move. It costs a pass over the blocks that go for each of
/// the three, two dinodes, what looking up `..` costs, and where something goes a walk to each of the names.
pub fn can_move<V: View>(view: &V, m: &NameMove<'_>) -> Result<Step<bool>, CallFault>
    requires { IsSeenMove (V.seen view.now) (move_of m.now) }
    ensures can { IfIs result (λ can. can ≡ true → CanBeMoved (V.seen view.now) (move_of m.now)) }
    ensures clear { IfIs result (λ can. can ≡ true → IsClear (V.seen view.now) (move_of m.now)) }
    ensures unfit { IfIs result (λ can. can ≡ false → IsUnfit (V.seen view.now) (move_of m.now)) }
    ensures needed { IfNeedBlock result (IsNeededToSee (V.seen view.now) (move_of m.now)) }
    ensures damaged { IfDamaged result (IsWrongMove (V.seen view.now) (move_of m.now)) }
    ensures kept { IfDamaged result (IsOfView (V.seen view.now)) }
{
    match is_fit(view, m)? {
        Step::Is(true) => {}
        Step::Is(false) => return Ok(Step::Is(false)),
        Step::NeedBlock(missing) => return Ok(Step::NeedBlock(missing)),
    }
    match clear_ways(view, m)? {
        Step::Is(()) => Ok(Step::Is(true)),
        Step::NeedBlock(missing) => Ok(Step::NeedBlock(missing)),
    }
}
