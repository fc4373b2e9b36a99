use drafts::Written;
use log_layout::LogHeader;

/// What a replay writes: blocks in their places, by rising number, then, after a barrier, a clean header.
#[derive(Drop)]
pub struct Plan {
    pub home: Vec<Written>,
    /// The header, without what version 2 has besides, which whoever writes it fills in; none where the head is clean.
    pub clean: Option<LogHeader>,
}
