// A table in its directory's blocks.
ghost use Rattle.std.specs.Prelude.{ℕ, List, ◌≡◌, ◌+◌, ◌-◌, ◌*◌, ◌/◌, ◌%◌, ◌^◌, ◌<◌, ◌≤◌, true, false, None, Some, length};
ghost use Rattle.gfs2_layout.specs.Bytes.{u64_at};
ghost use Rattle.gfs2_layout.specs.Device.{IsBlockSize};
ghost use Rattle.gfs2_layout.specs.Headers.{HasHeader};
ghost use Rattle.gfs2_layout.specs.Holding.{Holding};
ghost use Rattle.gfs2_layout.specs.Inode.{header_length, is_hashed_in};
ghost use Rattle.gfs2_layout.specs.Structures.{dinode_length};
ghost use Rattle.glock_names.specs.Steps.{IfIs, IfNeedBlock, OnlyDamaged};
ghost use Rattle.glock_names.specs.Views.{HasBlock, IsOfView};
ghost use Rattle.dinode_tree.specs.Reading.{AreWholeBefore, inode_lock};
ghost use Rattle.dinode_tree.specs.Walking.{missing_dinode};
ghost use Rattle.dinode_tree.specs.Shown as inode;
ghost use Rattle.hash_dirs.specs.Broken.{IsBroken};

use crate::numbers::number_at;
use dinode_tree::{Located, all_blocks_are_shown, locate, read_dinode};
use gfs2_layout::{DINODE_LENGTH, Dinode, has_header};
use glock_names::{CallFault, Missing, Step, View, block_of};
use hash_dirs::{Pointer, PointerTable, lock_of};

/// Where the pointers of a table block begin.
pub const IN_TABLE: usize = 24;

/// The table of the hashed directory with its dinode in this block, which is so deep.
#[derive(Clone, Copy, Debug, PartialEq, Eq)]
pub struct TreeTable {
    pub directory: u64,
    pub depth: u16,
    ghost deep: { depth ≤ 15 },
}

impl TreeTable {
    ghost use Rattle.tree_tables.specs.Pointers.{IsTableOf};

    /// The table of the hashed directory with its dinode in this block. It looks at what `read_dinode` looks at, and that the table's
    /// depth is one that it may have, and the content as long as the table.
    pub fn of<V: View>(view: &V, directory: u64) -> Result<Step<TreeTable>, CallFault>
        ensures table { (h : Holding) → inode.IsShown (V.seen view.now) directory h → is_hashed_in h ≡ true → ((at : ℕ) → AreWholeBefore h at) → IfIs result (λ t. IsTableOf t (V.seen view.now) h) }
        ensures needed { IfNeedBlock result (λ missing. missing ≡ missing_dinode directory) }
        ensures absent { IfNeedBlock result (λ missing. (V.seen view.now).block_at directory ≡ None) }
        ensures damaged { (h : Holding) → inode.IsShown (V.seen view.now) directory h → is_hashed_in h ≡ true → OnlyDamaged result (IsBroken h) }
        ensures kept { OnlyDamaged result (IsOfView (V.seen view.now)) }
    {
        let dinode = match read_dinode(view, directory)? {
            Step::Is(dinode) => dinode,
            Step::NeedBlock(missing) => return Ok(Step::NeedBlock(missing)),
        };
        let size = u64::from(view.block_size());
        if dinode.depth > 15 {
            return Err(damaged(directory, 13));
        }
        let count = pointers_of(dinode.depth);
        if count < size / 16 {
            return Err(damaged(directory, 13));
        }
        if 8 * size < count {
            return Err(damaged(directory, 13));
        }
        if dinode.size != 8 * count {
            return Err(damaged(directory, 13));
        }
        Ok(Step::Is(TreeTable {
            directory,
            depth: dinode.depth,
        }))
    }
}

impl PointerTable for TreeTable {
    ghost use Rattle.tree_tables.specs.Pointers.{IsTableOf, pointer_in};
    ghost use Rattle.tree_tables.specs.Following.{follows_in};

    ghost deep = { λ t. t.depth };

    ghost pointer = { λ t v i. pointer_in t v i };

    ghost shows = { λ t v h. IsTableOf t v h };

    fn depth(&self) -> u16 {
        self.depth
    }

    fn get<V: View>(&self, view: &V, index: u32) -> Result<Step<Pointer>, CallFault> {
        all_blocks_are_shown();
        let dinode = match read_dinode(view, self.directory)? {
            Step::Is(dinode) => dinode,
            Step::NeedBlock(missing) => return Ok(Step::NeedBlock(missing)),
        };
        let Some(bytes) = block_of(view, self.directory) else {
            unreachable!()
        };
        let at = 8 * u64::from(index);
        if dinode.height == 0 {
            return stuffed_pointer(bytes, self.directory, at as usize);
        }
        let carries = (bytes.len() - IN_TABLE) as u64;
        match locate(view, self.directory, at / carries)? {
            Step::Is(Some(located)) => {
                table_pointer(view, self.directory, &located, (at % carries) as usize)
            }
            Step::Is(None) => Ok(Step::Is(Pointer {
                leaf: 0,
                from: self.directory,
            })),
            Step::NeedBlock(missing) => Ok(Step::NeedBlock(missing)),
        }
    }

    ghost deep_in = { λ t v h shown. shown.depth };

    ghost follows = { λ t v w h g shown own seen size sound deep. follows_in t v w h g shown own seen size sound deep };
}

// The pointer behind a dinode, so far behind it.
fn stuffed_pointer(bytes: &[u8], directory: u64, at: usize) -> Result<Step<Pointer>, CallFault>
    requires few { at ≤ 2 ^ 32 }
    requires large { dinode_length ≤ length bytes.now }
    ensures found { IfIs result (λ found. (found.leaf ≡ u64_at (dinode_length + at) bytes.now) × (found.from ≡ directory)) }
    ensures is { IfNeedBlock result (λ missing. ⊥) }
    ensures damaged { OnlyDamaged result (λ rule block. (block ≡ directory) × (length bytes.now < dinode_length + at + 8)) }
{
    if bytes.len() < DINODE_LENGTH + at + 8 {
        return Err(damaged(directory, 8));
    }
    Ok(Step::Is(Pointer {
        leaf: number_at(bytes, DINODE_LENGTH + at),
        from: directory,
    }))
}

// The pointer in a table block, so far behind its header.
fn table_pointer<V: View>(
    view: &V,
    directory: u64,
    located: &Located,
    offset: usize,
) -> Result<Step<Pointer>, CallFault>
    requires { IsBlockSize (V.seen view.now).size → offset + 8 ≤ (V.seen view.now).size - header_length }
    ensures found { (bytes : List ℕ) → (V.seen view.now).block_at located.now.block ≡ Some bytes → IfIs result (λ found. (found.leaf ≡ u64_at (header_length + offset) bytes) × (found.from ≡ located.now.block)) }
    ensures there { IfIs result (λ found. HasBlock (V.seen view.now) located.now.block) }
    ensures needed { IfNeedBlock result (λ missing. missing ≡ record { lock = inode_lock directory; block = located.now.block; plain = false; from = located.now.from }) }
    ensures absent { IfNeedBlock result (λ missing. (V.seen view.now).block_at located.now.block ≡ None) }
    ensures damaged { OnlyDamaged result (λ rule block. (rule ≡ 1) × (block ≡ located.now.block) × ((bytes : List ℕ) × ((V.seen view.now).block_at located.now.block ≡ Some bytes) × ¬ (HasHeader 7 700 bytes))) }
{
    let Some(bytes) = block_of(view, located.block) else {
        return Ok(Step::NeedBlock(Missing {
            lock: lock_of(directory),
            block: located.block,
            plain: false,
            from: located.from,
        }));
    };
    if !has_header(bytes, 7, 700) {
        return Err(damaged(located.block, 1));
    }
    Ok(Step::Is(Pointer {
        leaf: number_at(bytes, IN_TABLE + offset),
        from: located.block,
    }))
}

/// The fault of a block that breaks a rule.
pub fn damaged(block: u64, rule: u16) -> CallFault
    ensures { result ≡ CallFault.Damaged block rule }
{
    CallFault::Damaged { block, rule }
}

/// How many pointers a table of this depth has.
pub fn pointers_of(depth: u16) -> u64
    requires { depth ≤ 15 }
    ensures value { result ≡ 2 ^ depth }
    ensures most { result ≤ 2 ^ 15 }
{
    1 << depth
}
