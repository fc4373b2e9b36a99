ghost use Rattle.std.specs.Prelude.{◌≡◌, ◌<◌, ◌≤◌, ◌==◌, ℕ, IfOk, IfErr, OnOk, if◌then◌else◌, length, map};
ghost use Rattle.std.specs.List.{AllByRecursion};
ghost use Rattle.std.specs.List.Sorted.{IsStrictlyIncreasing};
ghost use Rattle.drafts.specs.declared.change.Written.{Written as WrittenValue};
ghost use Rattle.replay_marks.specs.Marking.{HasHindrance, IsHinderedAt, are_all_barred, has_block, is_among, is_between, mark_of};

use drafts::Written;
use no_memory::NoMemory;
use std::alloc::Global;
use std::marker::Model;

/// What a replay may do with a block.
#[derive(Clone, Copy, Debug, PartialEq, Eq)]
pub enum Mark {
    /// It may not write it.
    Barred,
    /// It may write it.
    Open,
    /// It writes it, for a journal that was looked at.
    Live,
}

/// What stands in the way of a replay: this live block may not be written; or it is live in a journal that was looked at before.
#[derive(Clone, Copy, Debug, PartialEq, Eq)]
pub enum Hindrance {
    Astray(u64),
    Twice(u64),
}

/// A mark for each block of a device, at its number.
#[derive(Drop)]
pub struct Marks {
    marks: Vec<Mark>,
}

impl Model for Marks {
    ghost use Rattle.std.specs.Prelude.{List};
    ghost use Rattle.replay_marks.specs.declared.marks.Mark.{Mark};

    ghost Value = { List Mark };

    ghost view = { λ m. m.marks.items };
}

impl Marks {
    /// All of so many blocks are barred.
    pub fn new(alloc: Global, count: u64) -> Result<Marks, NoMemory>
        ensures { IfOk result (λ marks. marks ≡ are_all_barred count) }
    {
        let marks = vec![in alloc; Mark::Barred; count as usize]?;
        Ok(Marks { marks })
    }

    /// The blocks from one up to another, as far as the device has them, may be written.
    pub fn open(&mut self, from: u64, to: u64)
        requires { from ≤ to }
        ensures length { length self.new ≡ length self.old }
        ensures marks { (block : ℕ) → block < length self.old → mark_of self.new block ≡ (if is_between from to block then Mark.Open else mark_of self.old block) }
    {
        let count = self.marks.len() as u64;
        for block in from.min(count)..to.min(count) {
            self.marks[block as usize] = Mark::Open;
        }
    }

    /// These blocks may not be written.
    pub fn bar(&mut self, blocks: &[u64])
        ensures length { length self.new ≡ length self.old }
        ensures marks { (block : ℕ) → block < length self.old → mark_of self.new block ≡ (if is_among blocks.now block then Mark.Barred else mark_of self.old block) }
    {
        for block in blocks {
            if let Some(mark) = self.marks.get_mut(*block as usize) {
                *mark = Mark::Barred;
            }
        }
    }

    // Whether the block may be written; it is then one that is.
    fn take_block(&mut self, block: u64) -> Result<(), Hindrance>
        ensures length { length self.new ≡ length self.old }
        ensures open { OnOk result ((block < length self.old) × (mark_of self.old block ≡ Mark.Open)) }
        ensures marks { OnOk result ((other : ℕ) → mark_of self.new other ≡ (if other == block then Mark.Live else mark_of self.old other)) }
        ensures hindered { IfErr result (λ hindrance. IsHinderedAt self.old block hindrance) }
    {
        match self.marks.get(block as usize) {
            Some(Mark::Open) => {
                self.marks[block as usize] = Mark::Live;
                Ok(())
            }
            Some(Mark::Live) => Err(Hindrance::Twice(block)),
            _ => Err(Hindrance::Astray(block)),
        }
    }

    /// The blocks that a journal's replay writes, by rising number, are taken: each may be written, and none is live in a journal that was taken before.
    pub fn take(&mut self, home: &[Written]) -> Result<(), Hindrance>
        requires rising { IsStrictlyIncreasing (map (λ (w : WrittenValue). w.block) home.now) }
        ensures length { length self.new ≡ length self.old }
        ensures open { OnOk result (AllByRecursion (λ (w : WrittenValue). (w.block < length self.old) × (mark_of self.old w.block ≡ Mark.Open)) home.now) }
        ensures marks { OnOk result ((block : ℕ) → mark_of self.new block ≡ (if has_block home.now block then Mark.Live else mark_of self.old block)) }
        ensures hindered { IfErr result (HasHindrance self.old home.now) }
    {
        for written in home {
            match self.take_block(written.block) {
                Ok(()) => {}
                Err(hindrance) => return Err(hindrance),
            }
        }
        Ok(())
    }
}
