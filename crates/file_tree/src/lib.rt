//! Trees of files and directories, the calls on them and their replies, and how these are written.
#![tactic(auto)]

mod call;
mod call_text;
mod content;
mod laws;
mod names;
mod path;
mod path_text;
mod reply;
mod tree;

pub use call::Call;
pub use call_text::{append_call, append_reply};
pub use content::Content;
pub use laws::{directories_stay_well_formed, names_stand_for_trees};
pub use names::{Name, NameList, Path, is_dots, is_name};
pub use no_memory::NoMemory;
pub use path::PathFault;
pub use path_text::{append_name, append_path};
pub use reply::{Kind, Reply};
pub use tree::{FILE_LIMIT, Tree};
