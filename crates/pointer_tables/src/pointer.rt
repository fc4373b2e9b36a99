/// A pointer of a table: the block of the leaf to which it leads, 0 where it leads nowhere, and the block in which it stands.
#[derive(Clone, Copy, Debug, PartialEq, Eq)]
pub struct Pointer {
    pub leaf: u64,
    pub from: u64,
}
