ghost use Rattle.std.specs.Prelude.{◌≡◌, ◌+◌, ◌*◌, ◌≤◌, IfSome, vec_len};
ghost use Rattle.std.proofs.Props.{props};

use crate::listing::Named;
use gfs2_layout::Leaf;
use image_reader::Owners;

/// A leaf of a hashed directory: its block and what its head says; the first of the hashes of its chain, and how many
/// leaves stand before it there; the pointer of the table at which its chain is come to, and the first behind those that
/// lead to it.
#[derive(Clone, Copy)]
pub(crate) struct LeafAt {
    pub block: u64,
    pub head: Leaf,
    pub hash: u64,
    pub place: u64,
    pub pointer: u64,
    pub behind: u64,
    ghost low: { head.depth ≤ 15 },
}

/// A leaf that a walk is to read: its number, and the block in which that stands; and the leaf behind which it comes, but for the
/// first of a chain.
#[derive(Clone, Copy)]
pub(crate) struct LeafLink {
    pub number: u64,
    pub by: u64,
    pub tail: Option<LeafAt>,
}

/// Which names are looked for in a directory beside `.` and `..`: `jindex` and `rindex`, or those of journals.
#[derive(Clone, Copy, Debug, PartialEq, Eq)]
pub(crate) enum Names {
    Files,
    Journals,
}

/// A walk over the leaves of a directory of the system, which is a hashed one: the block of its dinode; which names are
/// looked for; what claims each block, as far as it came; the records of these names that it found, and how many records have
/// others; the next pointer of the table; and the leaf whose next it hasn't looked for.
#[derive(Drop)]
pub(crate) struct LeafWalk {
    pub directory: u64,
    pub names: Names,
    pub owners: Owners<'static>,
    pub records: Vec<Named<'static>>,
    pub others: u64,
    pub index: u64,
    pub tail: Option<LeafAt>,
    ghost behind: { IfSome tail (λ at. at.behind ≡ index) } by { Prim.hlevel props },
    ghost short: { IfSome tail (λ at. at.place + owners.free ≤ vec_len owners.entries) } by { Prim.hlevel props },
    ghost many: { others + 65536 * owners.free ≤ 65536 * vec_len owners.entries },
}
