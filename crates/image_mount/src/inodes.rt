ghost use Rattle.std.specs.Prelude.{ℕ, ◌≡◌, ◌<◌, ◌≤◌, ◌+◌, ◌*◌, ◌/◌, ◌^◌, true, false, length, if◌then◌else◌, IfOk, OnOk, IfErr};
ghost use Rattle.dinode_tree.specs.Reading.{IsRightDinode};
ghost use Rattle.gfs2_layout.specs.Inode.{dinode_in, is_directory_in, is_hashed_in, head_of, has_hash_flag, Fits};
ghost use Rattle.gfs2_layout.specs.Structures.{is_directory, dinode_length};
ghost use Rattle.gfs2_layout.specs.Records.{Record};
ghost use Rattle.image_model.specs.Claims.{every, HasInode, HasDirectory, Claims};
ghost use Rattle.image_model.specs.Image.{Image};
ghost use Rattle.image_model.specs.Owners.{Owner, is_dinode};
ghost use Rattle.image_model.specs.Rules.{HasRecordIn, IsHashedAt};
ghost use Rattle.image_model.specs.SystemFiles.{IsSystemFile};
ghost use Rattle.image_mount.specs.Found.{HasFormat, IsReached};
ghost use Rattle.image_mount.specs.Looks.{IsSized, IsTrueEntry};
ghost use Rattle.image_mount.specs.Marked.{IsKept};
ghost use Rattle.image_mount.specs.Refusals.{RefusesRightly};
ghost use Rattle.image_mount.specs.Searching.{IsRead, IsSteady, StopsRightly, LacksBlock};
ghost use Rattle.image_mount.specs.Listing.{HasKeptDinode, IsEntryOf, is_hashed_by};

use crate::fault::MountFault;
use crate::kept_blocks::KeptBlocks;
use crate::stop::{Stop, damaged};
use dinode_tree::read_dinode;
use gfs2_layout::{DINODE_LENGTH, Dinode};
use glock_names::{Entry, Step};
use image_reader::pointers_of;

/// An inode: the block of its dinode, the block in which its number stands, and what its dinode says.
#[derive(Clone, Copy)]
pub(crate) struct Inode {
    pub block: u64,
    pub from: u64,
    pub dinode: Dinode,
}

impl Inode {
    /// Reads a dinode, which keeps the rules of its own: it has its header, its address and a number, a mode, and its size
    /// fits it or its height.
    pub fn read(table: &KeptBlocks, from: u64, block: u64) -> Result<Inode, Stop>
        ensures block { IfOk result (λ inode. inode.block ≡ block) }
        ensures from { IfOk result (λ inode. inode.from ≡ from) }
        ensures found { (im : Image) → IsRead im table.now → IfOk result (λ inode. inode.dinode ≡ dinode_in (every im block)) }
        ensures kept { IfOk result (HasKeptDinode table.now) }
        ensures fits { (im : Image) → IsRead im table.now → OnOk result (Fits (every im block)) }
        ensures right { (im : Image) → IsRead im table.now → OnOk result (IsRightDinode (every im block)) }
        ensures reached { (im : Image) → IsRead im table.now → OnOk result (IsReached im block) }
        ensures there { OnOk result (IsKept table.now block) }
        ensures stops { (im : Image) (o : Owner) → IsRead im table.now → Claims im from block o → is_dinode o ≡ true → HasFormat im → IsReached im from → IsSystemFile im block → IfErr result (StopsRightly im) }
        ensures lacks { IfErr result (LacksBlock table.now) }
    {
        match read_dinode(table, block)? {
            Step::Is(dinode) => Ok(Inode {
                block,
                from,
                dinode,
            }),
            Step::NeedBlock(_) => Err(Stop::Reads { block, from }),
        }
    }

    // The kind that its record has.
    fn kind(&self) -> u16
        ensures { result ≡ (if is_directory self.now.dinode then 4 else 8) }
    {
        if self.dinode.is_directory() { 4 } else { 8 }
    }

    /// That a record in block `from` repeats the kind and the formal number of this inode, to which it leads.
    pub fn check_record(&self, entry: &Entry) -> Result<(), MountFault>
        requires { entry.now.addr ≡ self.now.block }
        ensures refused { (im : Image) (a : ℕ) (r : Record) → self.now.dinode ≡ dinode_in (every im self.now.block) → HasFormat im → IsReached im self.now.from → HasRecordIn im a self.now.from r → IsEntryOf entry.now r → IfErr result (RefusesRightly im) }
        ensures repeats { (im : Image) → self.now.dinode ≡ dinode_in (every im self.now.block) → OnOk result (IsTrueEntry im entry.now) }
        ensures steady { IfErr result IsSteady }
    {
        if entry.kind != self.kind() {
            return Err(damaged(self.from, 11));
        }
        if entry.number != self.dinode.num.number {
            return Err(damaged(self.from, 11));
        }
        Ok(())
    }

    /// Whether it is a directory with the flag of a hashed one.
    pub fn is_hashed(&self) -> bool
        ensures { result ≡ is_hashed_by self.now.dinode }
    {
        self.dinode.is_directory() && self.dinode.flags / 2 % 2 == 1
    }

    /// That the records of a linear directory stand behind the dinode up to the end of its block.
    pub fn check_linear(&self, size: u32) -> Result<(), MountFault>
        requires size { 512 ≤ size }
        requires linear { is_hashed_by self.now.dinode ≡ false }
        ensures refused { (im : Image) → self.now.dinode ≡ dinode_in (every im self.now.block) → size ≡ im.size → HasFormat im → IsReached im self.now.block → HasDirectory im self.now.block → IfErr result (RefusesRightly im) }
        ensures linear { OnOk result ((self.now.dinode.height ≡ 0) × (dinode_length + self.now.dinode.size ≡ size)) }
        ensures steady { IfErr result IsSteady }
    {
        if self.dinode.height != 0 {
            return Err(damaged(self.block, 8));
        }
        if self.dinode.size != u64::from(size) - DINODE_LENGTH as u64 {
            return Err(damaged(self.block, 8));
        }
        Ok(())
    }

    /// The depth of a hashed directory's table, which has so many pointers as it may have.
    pub fn table_depth(&self, size: u32) -> Result<u16, MountFault>
        requires size { 512 ≤ size }
        requires most { size ≤ 4096 }
        ensures deep { IfOk result (λ depth. depth ≤ 15) }
        ensures depth { IfOk result (λ depth. depth ≡ self.now.dinode.depth) }
        ensures bytes { IfOk result (λ depth. self.now.dinode.size ≡ 8 * 2 ^ depth) }
        ensures least { IfOk result (λ depth. size / 16 ≤ 2 ^ depth) }
        ensures greatest { IfOk result (λ depth. 2 ^ depth ≤ 8 * size) }
        ensures refused { (im : Image) → self.now.dinode ≡ dinode_in (every im self.now.block) → size ≡ im.size → HasFormat im → IsReached im self.now.block → IsHashedAt im self.now.block → IfErr result (RefusesRightly im) }
        ensures steady { IfErr result IsSteady }
    {
        let depth = self.dinode.depth;
        if depth > 15 {
            return Err(damaged(self.block, 13));
        }
        let count = pointers_of(depth);
        if count < u64::from(size) / 16 {
            return Err(damaged(self.block, 13));
        }
        if 8 * u64::from(size) < count {
            return Err(damaged(self.block, 13));
        }
        if self.dinode.size != 8 * count {
            return Err(damaged(self.block, 13));
        }
        Ok(depth)
    }

    /// That a directory has the size of its block's rest where it is a linear one, and that of its table where it is hashed.
    pub fn check_directory(&self, size: u32) -> Result<(), MountFault>
        requires size { 512 ≤ size }
        requires most { size ≤ 4096 }
        ensures refused { (im : Image) → self.now.dinode ≡ dinode_in (every im self.now.block) → size ≡ im.size → HasFormat im → IsReached im self.now.block → HasDirectory im self.now.block → IfErr result (RefusesRightly im) }
        ensures sized { (im : Image) → self.now.dinode ≡ dinode_in (every im self.now.block) → size ≡ im.size → OnOk result (IsSized im self.now.block) }
        ensures steady { IfErr result IsSteady }
    {
        if self.is_hashed() {
            self.table_depth(size)?;
            return Ok(());
        }
        self.check_linear(size)
    }
}
