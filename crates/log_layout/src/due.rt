/// What the next block of a chunk has to be, as the descriptor tells.
#[derive(Clone, Copy, Debug, PartialEq, Eq)]
pub enum Due {
    /// This block of metadata, as it is.
    Metadata(u64),
    /// This block of a file's content; whether its first four bytes were taken out, since they were the magic.
    Content(u64, bool),
    /// So many further revokes, behind a header of their own (kind 12, format 1000).
    Further(u32),
}
