//! New inodes, and the times of those that change, in a draft.
#![tactic(auto)]

mod making;
mod stamping;
mod touching;

pub use making::{put_directory, put_file};
pub use stamping::stamp;
pub use touching::touch;
