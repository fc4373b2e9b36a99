ghost use Rattle.std.specs.Prelude.{◌≡◌, ◌⊎◌, ◌↔◌, ◌+◌, ◌<◌, ◌≤◌, length, Some, slice_set, IsTrue, IfErr, IfOk, OnErr, OnOk, if◌then◌else◌, count_by, is_none, vec_len};
ghost use Rattle.image_reader.specs.Bitmaps.{state_by};
ghost use Rattle.image_model.specs.Owners.{AreOneChain};
ghost use Rattle.image_reader.specs.Owning.{owner_of, IsClash, IsEmpty, IsEntered};

use crate::image::{ImageFault, damaged};
use std::alloc::Global;

/// By what a block is claimed.
#[derive(Clone, Copy)]
pub enum Claim<'a> {
    /// The superblock says that it is the root directory's or the master directory's dinode.
    Root,
    Master,
    /// A name in the directory whose dinode is in block `parent` leads to it.
    Named {
        parent: u64,
        name: &'a [u8],
    },
    /// This pointer of this block of the inode leads to it, so many levels above content, and the content
    /// here and below begins at index `first`.
    Below {
        inode: u64,
        block: u64,
        pointer: u64,
        level: u16,
        first: u64,
    },
    /// It is the leaf at this place of the directory's chain for the hashes from this one on.
    Chained {
        directory: u64,
        hash: u64,
        place: u64,
    },
}

fn is_same(a: &Claim<'_>, b: &Claim<'_>) -> bool
    ensures { IsTrue result ↔ (owner_of a.now ≡ owner_of b.now) }
{
    match (*a, *b) {
        (Claim::Root, Claim::Root) => true,
        (Claim::Master, Claim::Master) => true,
        (
            Claim::Named { parent, name },
            Claim::Named {
                parent: other,
                name: other_name,
            },
        ) => parent == other && name == other_name,
        (
            Claim::Below {
                inode,
                block,
                pointer,
                level,
                first,
            },
            Claim::Below {
                inode: i,
                block: b,
                pointer: p,
                level: l,
                first: f,
            },
        ) => inode == i && block == b && pointer == p && level == l && first == f,
        (
            Claim::Chained {
                directory,
                hash,
                place,
            },
            Claim::Chained {
                directory: d,
                hash: h,
                place: p,
            },
        ) => directory == d && hash == h && place == p,
        _ => false,
    }
}

// The rule that a block with these two claims breaks: a chain that returns to itself, or two owners.
fn rule_of(old: &Claim<'_>, new: &Claim<'_>) -> u16
    ensures { ((result ≡ 3) × ¬ (AreOneChain (owner_of old.now) (owner_of new.now))) ⊎ ((result ≡ 15) × AreOneChain (owner_of old.now) (owner_of new.now)) }
{
    match (*old, *new) {
        (
            Claim::Chained {
                directory,
                hash,
                ..
            },
            Claim::Chained {
                directory: d,
                hash: h,
                ..
            },
        ) if directory == d && hash == h => 15,
        _ => 3,
    }
}

/// The state of a block by what claims it: 0 free, 3 a dinode, 1 any other that is used.
pub(crate) fn state_of(claim: &Option<Claim<'_>>) -> u8
    ensures { result ≡ state_by claim.now }
{
    match claim {
        None => 0,
        Some(Claim::Root | Claim::Master | Claim::Named { .. }) => 3,
        Some(_) => 1,
    }
}

/// What claims each block of an image, as far as it was found: an entry a block.
#[derive(Drop)]
pub struct Owners<'a> {
    pub entries: Vec<Option<Claim<'a>>>,
    /// How many blocks nothing claims.
    pub free: usize,
    ghost counted: { free ≡ count_by is_none entries.items },
}

impl<'a> Owners<'a> {
    /// Nothing is claimed of so many blocks. It takes memory for an entry each.
    pub fn new(alloc: Global, count: usize) -> Result<Owners<'a>, ImageFault>
        ensures len { IfOk result (λ owners. vec_len owners.entries ≡ count) }
        ensures empty { IfOk result (λ owners. IsEmpty owners.entries.items) }
        ensures damaged { IfErr result (λ fault. fault ≡ ImageFault.NoMemory) }
    {
        let mut entries = Vec::with_capacity(alloc, count)?;
        for _block in 0..count {
            entries.push(None)?;
        }
        Ok(Owners {
            entries,
            free: count,
        })
    }

    /// Enters the claim of a block, and answers whether it is new. The fault of a block that is claimed otherwise already is
    /// rule 15 where both claims are of one chain of leaves, and else rule 3, at that block; then the table stays as it was.
    pub fn claim(&mut self, block: u64, claim: Claim<'a>) -> Result<bool, ImageFault>
        requires { block < vec_len self.old.entries }
        ensures entered { IfOk result (λ fresh. self.new.entries.items ≡ (if fresh then slice_set self.old.entries.items block (Some claim.entry) else self.old.entries.items)) }
        ensures known { IfOk result (λ fresh. IsEntered self.old.entries.items self.new.entries.items block claim.entry fresh) }
        ensures kept { OnErr result (self.new.entries.items ≡ self.old.entries.items) }
        ensures clash { IfErr result (IsClash self.old.entries.items block claim.entry) }
        ensures len { vec_len self.new.entries ≡ vec_len self.old.entries }
        ensures new { IfOk result (λ fresh. self.new.free + (if fresh then 1 else 0) ≡ self.old.free) }
        ensures err { OnErr result (self.new.free ≡ self.old.free) }
    {
        match &self.entries[block as usize] {
            None => {
                self.entries[block as usize] = Some(claim);
                self.free -= 1;
                Ok(true)
            }
            Some(old) => {
                if is_same(old, &claim) {
                    return Ok(false);
                }
                Err(damaged(block, rule_of(old, &claim)))
            }
        }
    }
}
