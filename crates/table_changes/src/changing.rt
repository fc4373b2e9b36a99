// What a table is that changes.
ghost use Rattle.std.specs.Prelude.{ℕ, Bool, ◌≡◌, ◌≢◌, ◌⊎◌, ◌+◌, ◌*◌, ◌^◌, ◌<◌, ◌≤◌, true, false, if◌then◌else◌, None, OnErr};
ghost use Rattle.std.specs.FinMap.{get as fate_of};
ghost use Rattle.gfs2_layout.specs.Holding.{Holding};
ghost use Rattle.drafts.specs.Fates.{seen_in};
ghost use Rattle.glock_names.specs.Steps.{IfDamaged, IfIs, IfNeedBlock};
ghost use Rattle.glock_names.specs.Views.{IsOfView};
ghost use Rattle.dinode_tree.specs.Below.{AnyIndex};
ghost use Rattle.dinode_tree.specs.Reading.{IsNeeded};
ghost use Rattle.linear_dirs.specs.Shown.{holding_over};
ghost use Rattle.pointer_tables.specs.Directories.{IsPlaced, IsTreeSound};
ghost use Rattle.table_files.specs.Pointers.{EachPointerLeads, HasPointerOf, IsOfPointers, IsTableBroken};
ghost use Rattle.table_files.specs.Tables.{CanDouble, DraftsDirectory, HasPointersSet, TakesDoubled, TakesWithin};

use drafts::Draft;
use glock_names::{CallFault, Step, View};
use pointer_tables::PointerTable;
use std::alloc::Global;
use std::collections::VecDeque;

/// A table whose pointers are set, and that is doubled, in a draft. It looks at all that it needs before it changes anything: where it asks
/// for a block or tells a rule, the draft and the table are as they were, and after that only memory can be wanting.
pub trait PointerTableMut: PointerTable {
    /// Makes so many neighbouring pointers from an index on lead to a leaf; each other one leads where it led. It puts the blocks that have
    /// these pointers, and no other block. A pointer in a hole of the table is damage. It asks for blocks of the inode on the way to these
    /// pointers. After want of memory the draft may be half done.
    fn set<V: View>(
        &mut self,
        alloc: Global,
        draft: &mut Draft<'_, V>,
        from: u32,
        count: u32,
        leaf: u64,
    ) -> Result<Step<()>, CallFault>
        requires { from + count ≤ 2 ^ Self.deep self.old }
        ensures deep { Self.deep self.new ≡ Self.deep self.old }
        ensures set { (h : Holding) → Self.shows self.old (seen_in V.seen draft.old) h → IsTreeSound h → IsPlaced h → EachPointerLeads h → IfIs result (λ done.
            Self.shows self.new (seen_in V.seen draft.new) (holding_over (seen_in V.seen draft.new) h)
            × HasPointersSet h (holding_over (seen_in V.seen draft.new) h) from count leaf
            × DraftsDirectory draft.old.fates draft.new.fates h (holding_over (seen_in V.seen draft.new) h)) }
        ensures parts { (h : Holding) → Self.shows self.old (seen_in V.seen draft.old) h → IfIs result (λ done.
            (b : ℕ) → (fate_of draft.new.fates b ≡ fate_of draft.old.fates b) ⊎ HasPointerOf h from count b) }
        ensures view { draft.new.view ≡ draft.old.view }
        ensures needed { (h : Holding) → Self.shows self.old (seen_in V.seen draft.old) h → IfNeedBlock result (IsNeeded (seen_in V.seen draft.old) h (IsOfPointers h from count) 0) }
        ensures absent { IfNeedBlock result (λ missing. (seen_in V.seen draft.old).block_at missing.block ≡ None) }
        ensures waits { IfNeedBlock result (λ missing. (draft.new ≡ draft.old) × (self.new ≡ self.old)) }
        ensures damaged { (h : Holding) → Self.shows self.old (seen_in V.seen draft.old) h → IfDamaged result (IsTableBroken h) }
        ensures kept { IfDamaged result (IsOfView (seen_in V.seen draft.old)) }
        ensures stays { IfDamaged result (λ rule block. (draft.new ≡ draft.old) × (self.new ≡ self.old)) };

    /// Doubles the table: each pointer becomes two neighbouring ones, and the depth is one more. What it needs more of blocks for that it
    /// takes from the front of `room`, as many as `doubling_need` says. The answer is whether that was done: `false` where the room isn't
    /// enough or the draft isn't that of a sound directory, and then nothing is changed. The whole table is written. It asks for the
    /// dinode's block and those below it, and puts no other block but those that it takes. After want of memory the draft may be half done;
    /// the room and the table are as they were.
    fn double<V: View>(
        &mut self,
        alloc: Global,
        draft: &mut Draft<'_, V>,
        room: &mut VecDeque<u64>,
    ) -> Result<Step<bool>, CallFault>
        requires { Self.deep self.old < 15 }
        ensures deep { IfIs result (λ done. Self.deep self.new ≡ Self.deep self.old + (if done then 1 else 0)) }
        ensures doubled { (h : Holding) → Self.shows self.old (seen_in V.seen draft.old) h → CanDouble h room.old.items
            → IfIs result (λ done. (done ≡ true) × ((g : Holding) × Self.shows self.new (seen_in V.seen draft.new) g × TakesDoubled draft.old.fates draft.new.fates room.old.items room.new.items h g)) }
        ensures parts { (h : Holding) → Self.shows self.old (seen_in V.seen draft.old) h → IfIs result (λ done. done ≡ true → TakesWithin draft.old.fates draft.new.fates room.old.items room.new.items h) }
        ensures undone { IfIs result (λ done. done ≡ false → (draft.new ≡ draft.old) × (room.new.items ≡ room.old.items) × (self.new ≡ self.old)) }
        ensures view { draft.new.view ≡ draft.old.view }
        ensures needed { (h : Holding) → Self.shows self.old (seen_in V.seen draft.old) h → IfNeedBlock result (IsNeeded (seen_in V.seen draft.old) h AnyIndex 0) }
        ensures absent { IfNeedBlock result (λ missing. (seen_in V.seen draft.old).block_at missing.block ≡ None) }
        ensures waits { IfNeedBlock result (λ missing. (draft.new ≡ draft.old) × (room.new.items ≡ room.old.items) × (self.new ≡ self.old)) }
        ensures damaged { (h : Holding) → Self.shows self.old (seen_in V.seen draft.old) h → IfDamaged result (IsTableBroken h) }
        ensures kept { IfDamaged result (IsOfView (seen_in V.seen draft.old)) }
        ensures stays { IfDamaged result (λ rule block. draft.new ≡ draft.old) }
        ensures fails { OnErr result ((room.new.items ≡ room.old.items) × (self.new ≡ self.old)) };
}
