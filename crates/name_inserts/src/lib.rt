//! Names that come into directories, whatever their form.
#![tactic(auto)]

mod needing;
mod putting;
mod way;

pub use directories::look;
pub use needing::need_name;
pub use putting::put_name;
pub use way::block_on_way;
