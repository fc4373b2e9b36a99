// A walk along a path.
ghost use Rattle.std.specs.Prelude.{ℕ, ◌≡◌, ◌+◌, ◌<◌, Some, true, length, slice_get, IfOk};
ghost use Rattle.file_tree.specs.Names.{IsName};
ghost use Rattle.file_tree.specs.Tree.{Tree};
ghost use Rattle.gfs2_layout.specs.Holding.{Holding};
ghost use Rattle.gfs2_layout.specs.Inode.{dinode_in};
ghost use Rattle.glock_names.specs.Steps.{OnlyDamaged};
ghost use Rattle.glock_names.specs.Views.{HasBlock, IsOfView};
ghost use Rattle.call_locks.specs.declared.want.Want.{Want as WantValue};
ghost use Rattle.dinode_tree.specs.Broken.{IsBroken};
ghost use Rattle.dinode_tree.specs.Shown.{IsShown};
ghost use Rattle.image_model.specs.Image.{Image};
ghost use Rattle.image_model.specs.Owners.{Owners};
ghost use Rattle.image_model.specs.Stands.{Layout};
ghost use Rattle.image_changes.specs.Does.{IsOf};
ghost use Rattle.path_walks.specs.Holds.{holds, hold_of};
ghost use Rattle.path_walks.specs.Walks.{AreInOrder, IsTold, IsDamage, IsDamageAhead, IsStepped, IsVisited, IsWalked};

use call_locks::Want;
use dinode_tree::read_dinode;
use directories::look;
use file_tree::Name;
use gfs2_layout::Dinode;
use glock_names::{CallFault, LockName, Missing, State, Step, View, is_at_most};
use resource_groups::group_of;

/// The inode at the end of a path: the block of its dinode, that of the directory above it (the root's is its own), and
/// what its dinode says.
#[derive(Clone, Copy, Debug, PartialEq, Eq)]
pub struct Place {
    pub inode: u64,
    pub above: u64,
    pub dinode: Dinode,
}

/// Where a walk ends.
#[derive(Clone, Copy, Debug, PartialEq, Eq)]
pub enum Walk {
    /// At the inode to which the path leads.
    At(Place),
    /// A directory on the way hasn't the next name.
    NotFound,
    /// The next name is asked of a file.
    NotDir,
    /// The next inode's lock isn't held so strongly.
    NeedLock { lock: LockName, state: State },
    /// This block isn't in the view.
    NeedBlock(Missing),
}

// The state in which the inode at a depth is wanted.
fn state_at(wants: &[Want], depth: usize) -> State
    requires { depth < length wants.now }
    ensures { (w : WantValue) → slice_get wants.now depth ≡ Some w → w.state ≡ result }
{
    wants[depth].state
}

// The inode in a block: its lock is looked at, and then its dinode.
fn visit<V: View>(view: &V, inode: u64, above: u64, state: State) -> Result<Walk, CallFault>
    ensures visited { IfOk result (IsVisited (V.seen view.now) inode above state) }
    ensures damaged { (h : Holding) → IsShown (V.seen view.now) inode h → OnlyDamaged result (IsBroken h) }
    ensures held { OnlyDamaged result (λ rule block. holds (V.seen view.now) (hold_of inode state) ≡ true) }
    ensures kept { OnlyDamaged result (IsOfView (V.seen view.now)) }
{
    let lock = LockName {
        kind: 2,
        number: inode,
    };
    if !is_at_most(state, view.state(lock)) {
        return Ok(Walk::NeedLock { lock, state });
    }
    match read_dinode(view, inode)? {
        Step::Is(dinode) => Ok(Walk::At(Place {
            inode,
            above,
            dinode,
        })),
        Step::NeedBlock(missing) => Ok(Walk::NeedBlock(missing)),
    }
}

// From the inode at a place on by the next name.
fn step<V: View>(view: &V, place: &Place, name: &Name, state: State) -> Result<Walk, CallFault>
    requires there { HasBlock (V.seen view.now) place.now.inode }
    requires dinode { (h : Holding) → IsShown (V.seen view.now) place.now.inode h → place.now.dinode ≡ dinode_in h }
    ensures named { IsName name.now }
    ensures stepped { IfOk result (IsStepped (V.seen view.now) place.now.inode name.now state) }
    ensures ahead { OnlyDamaged result (IsDamageAhead (V.seen view.now) place.now.inode name.now state) }
    ensures kept { OnlyDamaged result (IsOfView (V.seen view.now)) }
{
    let bytes = name.bytes();
    if !place.dinode.is_directory() {
        return Ok(Walk::NotDir);
    }
    let entry = match look(view, place.inode, bytes)? {
        Step::Is(Some(entry)) => entry,
        Step::Is(None) => return Ok(Walk::NotFound),
        Step::NeedBlock(missing) => return Ok(Walk::NeedBlock(missing)),
    };
    if group_of(view, entry.addr).is_none() {
        return Err(CallFault::Damaged {
            block: place.inode,
            rule: 2,
        });
    }
    visit(view, entry.addr, place.inode, state)
}

/// Walks along these names from the root, and takes the locks of the inodes on the way as they are wanted: of each the lock is
/// looked at, then its dinode, then the directory for the next name. It costs a look into the view for each of these, and goes
/// over the records of each directory once. No memory.
pub fn walk_along<V: View>(view: &V, names: &[Name], wants: &[Want]) -> Result<Walk, CallFault>
    requires as_many { length wants.now ≡ length names.now + 1 }
    requires order { AreInOrder wants.now }
    ensures walked { (im : Image) (o : Owners) (l : Layout) (t : Tree) → IsOf (V.seen view.now) im o l t → IfOk result (IsWalked (V.seen view.now) im o l t names.now wants.now) }
    ensures told { IfOk result (IsTold (V.seen view.now) wants.now names.now) }
    ensures sound { (im : Image) (o : Owners) (l : Layout) (t : Tree) → IsOf (V.seen view.now) im o l t → OnlyDamaged result (λ rule block. ⊥) }
    ensures damaged { OnlyDamaged result (IsDamage (V.seen view.now) wants.now names.now) }
    ensures kept { OnlyDamaged result (IsOfView (V.seen view.now)) }
{
    let root = view.root();
    let mut place = match visit(view, root, root, state_at(wants, 0))? {
        Walk::At(place) => place,
        end => return Ok(end),
    };
    let mut depth = 1;
    for name in names {
        place = match step(view, &place, name, state_at(wants, depth))? {
            Walk::At(place) => place,
            end => return Ok(end),
        };
        depth += 1;
    }
    Ok(Walk::At(place))
}
