// Where a name of a directory leads.
ghost use Rattle.std.specs.Prelude.{ℕ, ◌≡◌, false, true, None, IfSome};
ghost use Rattle.std.specs.Option.{option_map};
ghost use Rattle.gfs2_layout.specs.Holding.{Holding};
ghost use Rattle.gfs2_layout.specs.Inode.{has_hash_flag, is_hashed_in, records_of};
ghost use Rattle.gfs2_layout.specs.Records.{is_dots as has_dots, record_named};
ghost use Rattle.glock_names.specs.Steps.{IfIs, IfNeedBlock, OnlyDamaged};
ghost use Rattle.glock_names.specs.Views.{HasBlock, IsOfView};
ghost use Rattle.linear_dirs.specs.Shown.{entry_of};
ghost use Rattle.tree_tables.specs.Shown.{IsSound};
ghost use Rattle.resource_groups.specs.Putting.{HasDataBlock};
ghost use Rattle.directories.specs.Shown.{IsBroken, IsDirectoryIn, IsNeededFor, IsShown, Says};

use crc_words::checksums_have_32_bits;
use dinode_tree::read_dinode;
use gfs2_layout::Dinode;
use glock_names::{CallFault, Entry, Step, View};
use tree_tables::TreeTable;

/// Whether a directory's dinode says that it is a hashed one.
pub fn is_hashed(dinode: &Dinode) -> bool
    ensures { result ≡ has_hash_flag dinode.now }
{
    dinode.flags / 2 % 2 == 1
}

// The same of a hashed directory.
fn look_hashed<V: View>(view: &V, dir: u64, name: &[u8]) -> Result<Step<Option<Entry>>, CallFault>
    ensures found { (h : Holding) → IsShown (V.seen view.now) dir h → is_hashed_in h ≡ true → IfIs result (Says h name.now) }
    ensures inside { has_dots name.now ≡ false → IfIs result (λ found. IfSome found (λ entry. HasDataBlock (V.seen view.now) entry.addr)) }
    ensures sound { (h : Holding) → IsShown (V.seen view.now) dir h → is_hashed_in h ≡ true → IsSound h → IfIs result (λ found. found ≡ option_map entry_of (record_named (records_of h) name.now)) }
    ensures needed { (h : Holding) → IsShown (V.seen view.now) dir h → is_hashed_in h ≡ true → IfNeedBlock result (IsNeededFor (V.seen view.now) h name.now) }
    ensures absent { IfNeedBlock result (λ missing. (V.seen view.now).block_at missing.block ≡ None) }
    ensures damaged { (h : Holding) → IsShown (V.seen view.now) dir h → is_hashed_in h ≡ true → OnlyDamaged result (IsBroken (V.seen view.now) h) }
    ensures kept { OnlyDamaged result (IsOfView (V.seen view.now)) }
{
    checksums_have_32_bits();
    let table = match TreeTable::of(view, dir)? {
        Step::Is(table) => table,
        Step::NeedBlock(missing) => return Ok(Step::NeedBlock(missing)),
    };
    tree_tables::hashed::look(view, dir, name, &table)
}

/// Where a name of the directory with its dinode in this block leads; None where it has no such name. `.` and `..` are names here. Of a linear
/// directory it goes over the records up to that one; of a hashed one it looks at the pointer for the name's hash, and along that chain.
/// No memory.
pub fn look<V: View>(view: &V, dir: u64, name: &[u8]) -> Result<Step<Option<Entry>>, CallFault>
    requires directory { IsDirectoryIn (V.seen view.now) dir }
    ensures found { (h : Holding) → IsShown (V.seen view.now) dir h → IfIs result (Says h name.now) }
    ensures sound { (h : Holding) → IsShown (V.seen view.now) dir h → IsSound h → IfIs result (λ found. found ≡ option_map entry_of (record_named (records_of h) name.now)) }
    ensures inside { (h : Holding) → IsShown (V.seen view.now) dir h → is_hashed_in h ≡ true → has_dots name.now ≡ false → IfIs result (λ found. IfSome found (λ entry. HasDataBlock (V.seen view.now) entry.addr)) }
    ensures there { IfIs result (λ found. HasBlock (V.seen view.now) dir) }
    ensures needed { (h : Holding) → IsShown (V.seen view.now) dir h → IfNeedBlock result (IsNeededFor (V.seen view.now) h name.now) }
    ensures absent { IfNeedBlock result (λ missing. (V.seen view.now).block_at missing.block ≡ None) }
    ensures damaged { (h : Holding) → IsShown (V.seen view.now) dir h → OnlyDamaged result (IsBroken (V.seen view.now) h) }
    ensures kept { OnlyDamaged result (IsOfView (V.seen view.now)) }
{
    let dinode = match read_dinode(view, dir)? {
        Step::Is(dinode) => dinode,
        Step::NeedBlock(missing) => return Ok(Step::NeedBlock(missing)),
    };
    if is_hashed(&dinode) {
        return look_hashed(view, dir, name);
    }
    linear_dirs::look(view, dir, name)
}
