ghost use Rattle.std.specs.Prelude.{◌≡◌, ◌+◌, ◌^◌, ◌<◌, ◌≤◌};
ghost use Rattle.std.specs.Prelude.{◌*◌};
ghost use Rattle.mkgfs2_tool.specs.Files.{IsShape, file_blocks};
ghost use Rattle.mkgfs2_tool.specs.Making.{IsPlan, IsUseOf};
ghost use Rattle.profile_limits.specs.Limits.{most_blocks};

use crate::files::{Part, Shape};
use crate::plan::Plan;

/// What a block that is taken is for.
#[derive(Clone, Copy, Debug, PartialEq, Eq)]
pub(crate) enum Use {
    Master,
    Root,
    GroupList(Part),
    Journals,
    /// This one of the leaves of the directory of journals.
    Leaf(u64),
    Journal { number: u64, part: Part },
}

impl Plan {
    ghost use Rattle.mkgfs2_tool.specs.Order.{group_list, journal, journals_place, has_hashed_journals, is_split, leaf_count, journal_leaves, leaf_place, journal_place, taken, journal_use, use_of, dinodes, fits, IsNeeded};

    /// The list of groups, at 96 bytes for each.
    pub(crate) fn group_list(&self) -> Shape
        requires { IsPlan self.now }
        ensures value { result ≡ group_list self.now }
        ensures shape { IsShape result }
        ensures bound { result.bytes ≤ 6144 }
    {
        Shape {
            size: self.size,
            bytes: 96 * self.groups,
        }
    }

    pub(crate) fn journal(&self) -> Shape
        requires { IsPlan self.now }
        ensures value { result ≡ journal self.now }
        ensures shape { IsShape result }
    {
        Shape {
            size: self.size,
            bytes: self.journal_blocks * self.size,
        }
    }

    /// The place of the directory of the journals, in the order in which blocks are taken.
    pub(crate) fn journals_place(&self) -> u64
        requires { IsPlan self.now }
        ensures value { result ≡ journals_place self.now }
        ensures bound { result < 2 ^ 16 }
    {
        2 + self.group_list().file_blocks()
    }

    /// Whether the directory of journals is a hashed one.
    pub(crate) fn has_hashed_journals(&self) -> bool
        ensures { result ≡ has_hashed_journals self.now }
    {
        self.size == 512 && self.journals > 3
    }

    /// Whether its first leaf was split.
    pub(crate) fn is_split(&self) -> bool
        ensures { result ≡ is_split self.now }
    {
        self.journals > 6
    }

    /// How many leaves the directory of journals has.
    #[tactic(auto, unfolding(crate::specs::Order::leaf_count))]
    pub(crate) fn journal_leaves(&self) -> u64
        ensures value { result ≡ journal_leaves self.now }
        ensures few { result ≤ 2 }
    {
        if self.has_hashed_journals() {
            if self.is_split() { 2 } else { 1 }
        } else {
            0
        }
    }

    pub(crate) fn leaf_place(&self, leaf: u64) -> u64
        requires plan { IsPlan self.now }
        requires leaf { leaf < 2 ^ 16 }
        ensures value { result ≡ leaf_place self.now leaf }
        ensures bound { result < 2 ^ 18 }
    {
        self.journals_place() + 1 + leaf
    }

    pub(crate) fn journal_place(&self, number: u64) -> u64
        requires plan { IsPlan self.now }
        requires number { number ≤ 8 }
        ensures value { result ≡ journal_place self.now number }
        ensures bound { result < 2 ^ 36 }
    {
        self.leaf_place(self.journal_leaves()) + number * self.journal().file_blocks()
    }

    /// How many blocks are taken.
    pub(crate) fn taken(&self) -> u64
        requires { IsPlan self.now }
        ensures value { result ≡ taken self.now }
        ensures bound { result < 2 ^ 36 }
    {
        self.journal_place(self.journals)
    }

    #[tactic(auto, using(crate::proofs::UseLaws::quotient_below))]
    fn journal_use(&self, n: u64) -> Use
        requires plan { IsPlan self.now }
        requires n { n < self.now.journals * file_blocks (journal self.now) }
        requires small { n < 2 ^ 38 }
        ensures value { result ≡ journal_use self.now n }
        ensures used { IsUseOf result }
    {
        let journal = self.journal();
        let blocks = journal.file_blocks();
        Use::Journal {
            number: n / blocks,
            part: journal.part(n % blocks),
        }
    }

    /// What taken block `k` is for.
    pub(crate) fn use_of(&self, k: u64) -> Use
        requires plan { IsPlan self.now }
        requires k { k < taken self.now }
        ensures value { result ≡ use_of self.now k }
        ensures used { IsUseOf result }
    {
        let journals = self.journals_place();
        match k {
            0 => Use::Master,
            1 => Use::Root,
            _ if k < journals => Use::GroupList(self.group_list().part(k - 2)),
            _ if k == journals => Use::Journals,
            _ if k < self.journal_place(0) => Use::Leaf(k.saturating_sub(self.leaf_place(0))),
            _ => self.journal_use(k.saturating_sub(self.journal_place(0))),
        }
    }

    /// How many dinodes there are: four, and one for each journal.
    pub(crate) fn dinodes(&self) -> u64
        requires { IsPlan self.now }
        ensures { result ≡ dinodes self.now }
    {
        4 + self.journals
    }

    /// Whether all of it fits, with four data blocks at least in every group.
    pub(crate) fn fits(&self) -> bool
        requires { IsPlan self.now }
        ensures { result ≡ fits self.now }
    {
        self.data_blocks(0) >= 4
            && self.data_blocks(self.groups - 1) >= 4
            && self.taken() <= self.all_data()
    }

    // Whether it fits on a device of so many blocks.
    fn fits_in(&self, count: u64) -> bool
        requires plan { IsPlan self.now }
        requires count { count < 2 ^ 48 }
        ensures { result ≡ fits (record self.now { count = count }) }
    {
        Plan { count, ..*self }.fits()
    }

    /// How many blocks the device needs: the least number, from its own on, at which all of it fits. It tries them one by
    /// one, and they are about as many as are taken.
    pub(crate) fn needed(&self) -> u64
        requires plan { IsPlan self.now }
        requires small { self.now.count ≤ most_blocks }
        ensures { IsNeeded self.now result }
    {
        let mut count = self.count;
        while !self.fits_in(count) {
            count += 1;
        }
        count
    }
}
