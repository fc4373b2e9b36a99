//! The replay of a mounted image: what is put home of each of its journals, and what stops it.
#![tactic(auto)]

mod laws;
mod marking;
mod planning;

pub use image_mount::Mounted;
pub use laws::{
    clean_mounts_stay, replayed_images_have_the_same_system, stopped_images_have_no_replay,
};
pub use planning::plan_replay;
pub use replay_looks::{LookFault, Plan};
