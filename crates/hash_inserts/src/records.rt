// A record put into a leaf of a hashed directory in a draft.
ghost use Rattle.std.specs.Prelude.{ℕ, ◌≡◌, ◌≢◌, ◌≤◌, [], ◌∷◌, true, IfOk, length};
ghost use Rattle.drafts.specs.Fates.{seen_in};
ghost use Rattle.gfs2_layout.specs.Area.{slots_of};
ghost use Rattle.gfs2_layout.specs.Exchanges.{directory_count};
ghost use Rattle.gfs2_layout.specs.Holding.{Holding};
ghost use Rattle.gfs2_layout.specs.Inode.{leaf_area};
ghost use Rattle.gfs2_layout.specs.Records.{Record};
ghost use Rattle.glock_names.specs.Views.{HasBlock};
ghost use Rattle.hash_steps.specs.Shown.{IsInChain, IsShown, IsSound, index_for};
ghost use Rattle.hash_steps.specs.Leaves.{IsFullBefore, has_room_for};
ghost use Rattle.hash_inserts.specs.Drafting.{PutsInLeaf};
ghost use Rattle.hash_inserts.specs.Inserting.{CanCountOne};

use crate::drafting::{count_in, fill_in};
use drafts::Draft;
use file_tree::is_dots;
use glock_names::{Entry, View};
use linear_dirs::head_for;
use no_memory::NoMemory;

// How many of a directory's links a record of this name and kind is: one where it leads to a directory below.
fn links_of(name: &[u8], kind: u16) -> u32
    ensures value { (r : Record) → r.name ≡ name.now → r.kind ≡ kind → result ≡ directory_count (r ∷ []) }
    ensures most { result ≤ 1 }
{
    u32::from(!is_dots(name) && kind == 4)
}

/// Puts a record of a name that leads to this entry into this leaf of a hashed directory, and counts it there and in the dinode; and tells
/// whether that was done: it is, where the leaf is the first of the name's chain that has room for it.
pub(crate) fn put_in_leaf<V: View>(
    draft: &mut Draft<'_, V>,
    dir: u64,
    leaf: u64,
    name: &[u8],
    entry: Entry,
) -> Result<bool, NoMemory>
    requires some { 1 ≤ length name.now }
    requires short { length name.now ≤ 255 }
    requires number { entry.number ≢ 0 }
    requires address { entry.addr ≢ 0 }
    ensures put { (h : Holding) (place : ℕ) → IsShown (seen_in V.seen draft.old) dir h → IsSound h → CanCountOne h → IsInChain h (index_for h name.now) place leaf → IsFullBefore h (index_for h name.now) (length name.now) place
        → has_room_for (length name.now) (slots_of (leaf_area h leaf)) ≡ true → HasBlock (seen_in V.seen draft.old) leaf → HasBlock (seen_in V.seen draft.old) dir
        → IfOk result (λ done. (done ≡ true) × ((g : Holding) × PutsInLeaf (V.seen draft.old.view) draft.old.fates draft.new.fates h g name.now entry leaf)) }
    ensures view { draft.new.view ≡ draft.old.view }
{
    let head = head_for(name, &entry);
    if !fill_in(draft, dir, leaf, &head, name)? {
        return Ok(false);
    }
    count_in(draft, dir, 1, links_of(name, entry.kind), 0)
}
