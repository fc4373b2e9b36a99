// A walk along two paths.
ghost use Rattle.std.specs.Prelude.{ℕ, ◌≡◌, ◌≢◌, ◌+◌, [], IfOk, length};
ghost use Rattle.file_tree.specs.Names.{leads_to};
ghost use Rattle.file_tree.specs.Tree.{Tree};
ghost use Rattle.glock_names.specs.Steps.{OnlyDamaged};
ghost use Rattle.glock_names.specs.Views.{IsOfView};
ghost use Rattle.image_model.specs.Image.{Image};
ghost use Rattle.image_model.specs.Owners.{Owners};
ghost use Rattle.image_model.specs.Stands.{Layout};
ghost use Rattle.image_changes.specs.Does.{IsOf};
ghost use Rattle.path_walks.specs.Walks.{AreInOrder};
ghost use Rattle.pair_walks.specs.Walks.{IsPairDamage, IsPairTold, IsPairWalked};

use crate::next::Next;
use crate::turns::{Way, go};
use call_locks::Want;
use file_tree::Name;
use glock_names::{CallFault, LockName, Missing, State, View};
use path_walks::Place;

/// Where the second of two paths ends.
#[derive(Clone, Copy, Debug, PartialEq, Eq)]
pub enum End {
    /// At the inode to which it leads.
    At(Place),
    /// At the directory to which all names but the last lead, which hasn't that name.
    Lacks(Place),
    /// A directory before that hasn't the next name.
    NotFound,
    /// A name is asked of a file.
    NotDir,
}

/// Where a walk along two paths ends.
#[derive(Clone, Copy, Debug, PartialEq, Eq)]
pub enum PairWalk {
    /// A directory on the first path hasn't the next name.
    NotFound,
    /// The next name of the first path is asked of a file.
    NotDir,
    /// The first path leads to this inode, and the second path is the same or goes on from there.
    Within(Place),
    /// The first path leads to an inode from which the second one doesn't go on, and that one ends so.
    Apart { from: Place, to: End },
    /// The lock of the inode that comes next isn't held so strongly.
    NeedLock { lock: LockName, state: State },
    /// This block isn't in the view.
    NeedBlock(Missing),
}

// Whether the second path is the first, or goes on from it.
fn goes_on(first: &[Name], second: &[Name]) -> bool
    ensures { result ≡ leads_to first.now second.now }
{
    for (depth, name) in first.iter().enumerate() {
        let Some(other) = second.get(depth) else {
            return false;
        };
        if name.bytes() != other.bytes() {
            return false;
        }
    }
    true
}

// A way that begins at the root.
fn begin<'a>(names: &'a [Name], wants: &'a [Want], root: u64) -> Way<'a>
    ensures names { result.names.now ≡ names.now }
    ensures wants { result.wants.now ≡ wants.now }
    ensures depth { result.depth ≡ 0 }
    ensures next { result.next ≡ Next.Inode root root }
{
    Way {
        names,
        wants,
        depth: 0,
        next: Next::Inode {
            block: root,
            above: root,
        },
    }
}

/// Walks along two paths from the root, and takes the locks of the inodes on the way as they are wanted, of the inodes that come next on the two
/// always that with the least number, and one that is next on both once, in the state that serves both. Where the first path leads nowhere, or the second is the
/// same or goes on from it, the walk ends with the first path. It costs a look into the view for each inode of each path, and what looking up each name costs;
/// an inode that is next on both is looked at twice. No memory.
pub fn walk_pair<V: View>(
    view: &V,
    first: &[Name],
    second: &[Name],
    first_wants: &[Want],
    second_wants: &[Want],
) -> Result<PairWalk, CallFault>
    requires first_names { first.now ≢ [] }
    requires second_names { second.now ≢ [] }
    requires first_as_many { length first_wants.now ≡ length first.now + 1 }
    requires second_as_many { length second_wants.now ≡ length second.now + 1 }
    requires first_order { AreInOrder first_wants.now }
    requires second_order { AreInOrder second_wants.now }
    ensures walked { (im : Image) (o : Owners) (l : Layout) (t : Tree) → IsOf (V.seen view.now) im o l t → IfOk result (IsPairWalked (V.seen view.now) im o l t first.now second.now first_wants.now second_wants.now) }
    ensures told { IfOk result (IsPairTold (V.seen view.now) first.now second.now first_wants.now second_wants.now) }
    ensures sound { (im : Image) (o : Owners) (l : Layout) (t : Tree) → IsOf (V.seen view.now) im o l t → OnlyDamaged result (λ rule block. ⊥) }
    ensures damaged { OnlyDamaged result (IsPairDamage (V.seen view.now) first.now second.now first_wants.now second_wants.now) }
    ensures kept { OnlyDamaged result (IsOfView (V.seen view.now)) }
{
    let root = view.root();
    let ends = goes_on(first, second);
    let mut one = begin(first, first_wants, root);
    let mut two = begin(second, second_wants, root);
    loop {
        if let Some(end) = go(view, &mut one, &mut two, ends)? {
            return Ok(end);
        }
    }
}
