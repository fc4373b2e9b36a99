/// The accepted head of a journal: the block of its place, its sequence, and whether it is clean.
#[derive(Clone, Copy, Debug, PartialEq, Eq)]
pub struct LeftHead {
    pub block: u64,
    pub sequence: u64,
    pub is_clean: bool,
}
