ghost use Rattle.std.specs.Prelude.{◌≡◌, ◌≢◌, ◌⊎◌, true, ◌+◌, ◌-◌, ◌≤◌, length, IfOk, OnOk};
ghost use Rattle.gfs2_layout.specs.Structures.{dinode_of};
ghost use Rattle.gfs2_layout.specs.Holding.{Holding, bytes_at};

use crate::blocks::{damaged, lock_of};
use crate::numbers::{fan, split};
use gfs2_layout::{DINODE_LENGTH, Dinode, has_header};
use glock_names::{CallFault, LockName};

/// Where the pointers of a dinode begin, and those of an indirect block.
pub(crate) const IN_BLOCK: usize = 24;

/// An inode: its dinode's block, the bytes of that block, and what the dinode says.
#[derive(Clone, Copy)]
pub(crate) struct Inode<'a> {
    pub block: u64,
    pub bytes: &'a [u8],
    pub dinode: Dinode,
    ghost is: { dinode ≡ dinode_of bytes.now },
    ghost least: { 512 ≤ length bytes.now },
    ghost most: { length bytes.now ≤ 4096 },
}

impl<'a> Inode<'a> {
    ghost use Rattle.gfs2_layout.specs.Headers.{HasHeader};
    ghost use Rattle.gfs2_layout.specs.Structures.{is_directory, is_regular};
    ghost use Rattle.gfs2_layout.specs.Inode.{unit, content_count, Fits};
    ghost use Rattle.dinode_tree.specs.Reading.{inode_lock};
    ghost use Rattle.dinode_tree.specs.Walking.{held, IsOf};
    ghost use Rattle.dinode_tree.specs.Shown.{IsAtBlock};
    ghost use Rattle.dinode_tree.specs.Broken.{IsBroken};
    ghost use Rattle.glock_names.specs.Steps.{OnlyDamaged};

    /// Reads a dinode, which is to have its header.
    pub fn read(block: u64, bytes: &'a [u8]) -> Result<Inode<'a>, CallFault>
        requires least { 512 ≤ length bytes.now }
        requires most { length bytes.now ≤ 4096 }
        ensures block { IfOk result (λ inode. inode.block ≡ block) }
        ensures bytes { IfOk result (λ inode. inode.bytes.now ≡ bytes.now) }
        ensures header { OnOk result (HasHeader 4 400 bytes.now) }
        ensures damaged { (h : Holding) → h.own ≡ block → bytes_at h h.own ≡ bytes.now → OnlyDamaged result (IsBroken h) }
        ensures own { OnlyDamaged result (IsAtBlock block) }
    {
        if !has_header(bytes, 4, 400) {
            return Err(damaged(block, 1));
        }
        match Dinode::read(bytes) {
            Ok(dinode) => Ok(Inode {
                block,
                bytes,
                dinode,
            }),
            Err(_) => Err(damaged(block, 1)),
        }
    }

    /// That the dinode has its own address and a formal number.
    pub fn check_number(&self) -> Result<(), CallFault>
        ensures address { OnOk result (self.now.dinode.num.address ≡ self.now.block) }
        ensures number { OnOk result (self.now.dinode.num.number ≢ 0) }
        ensures damaged { (h : Holding) → IsOf h self.now → OnlyDamaged result (IsBroken h) }
        ensures own { OnlyDamaged result (IsAtBlock self.now.block) }
    {
        if self.dinode.num.address != self.block {
            return Err(damaged(self.block, 7));
        }
        if self.dinode.num.number == 0 {
            return Err(damaged(self.block, 7));
        }
        Ok(())
    }

    /// That its mode is that of a directory or a regular file.
    pub fn check_mode(&self) -> Result<(), CallFault>
        ensures mode { OnOk result ((is_directory self.now.dinode ≡ true) ⊎ (is_regular self.now.dinode ≡ true)) }
        ensures damaged { (h : Holding) → IsOf h self.now → OnlyDamaged result (IsBroken h) }
        ensures own { OnlyDamaged result (IsAtBlock self.now.block) }
    {
        if self.dinode.is_directory() || self.dinode.is_regular() {
            return Ok(());
        }
        Err(damaged(self.block, 8))
    }

    /// That the height is one of 0 to 10, and that the content fits: behind the dinode at height 0, and else below it.
    pub fn check_fits(&self) -> Result<(), CallFault>
        ensures fits { OnOk result (Fits (held self.now)) }
        ensures damaged { (h : Holding) → IsOf h self.now → OnlyDamaged result (IsBroken h) }
        ensures own { OnlyDamaged result (IsAtBlock self.now.block) }
    {
        if self.dinode.height > 10 {
            return Err(damaged(self.block, 8));
        }
        if self.dinode.height == 0 {
            return self.check_stuffed();
        }
        self.check_pointed(self.dinode.height - 1)
    }

    fn check_stuffed(&self) -> Result<(), CallFault>
        requires { self.now.dinode.height ≡ 0 }
        ensures fits { OnOk result (Fits (held self.now)) }
        ensures damaged { (h : Holding) → IsOf h self.now → OnlyDamaged result (IsBroken h) }
        ensures own { OnlyDamaged result (IsAtBlock self.now.block) }
    {
        if self.dinode.size > (self.bytes.len() - DINODE_LENGTH) as u64 {
            return Err(damaged(self.block, 8));
        }
        Ok(())
    }

    fn check_pointed(&self, level: u16) -> Result<(), CallFault>
        requires height { self.now.dinode.height ≡ level + 1 }
        requires low { level ≤ 9 }
        ensures fits { OnOk result (Fits (held self.now)) }
        ensures damaged { (h : Holding) → IsOf h self.now → OnlyDamaged result (IsBroken h) }
        ensures own { OnlyDamaged result (IsAtBlock self.now.block) }
    {
        let count = self.content_count();
        if count == 0 {
            return Ok(());
        }
        let (last, _) = split(self.bytes.len(), level, count - 1);
        if last >= fan(self.bytes.len(), DINODE_LENGTH) {
            return Err(damaged(self.block, 8));
        }
        Ok(())
    }

    /// How many bytes of its content a block carries: a table block of a directory has a header.
    pub fn unit(&self) -> usize
        ensures value { result ≡ unit (held self.now) }
        ensures least { 488 ≤ result }
        ensures most { result ≤ length self.now.bytes.now }
    {
        if self.dinode.is_directory() {
            self.bytes.len() - IN_BLOCK
        } else {
            self.bytes.len()
        }
    }

    /// How many blocks of content its size asks for.
    pub fn content_count(&self) -> u64
        ensures { result ≡ content_count (held self.now) }
    {
        self.dinode.size.div_ceil(self.unit() as u64)
    }

    /// The lock that covers its blocks.
    pub fn lock(&self) -> LockName
        ensures { result ≡ inode_lock self.now.block }
    {
        lock_of(self.block)
    }
}
