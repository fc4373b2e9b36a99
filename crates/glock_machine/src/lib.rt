//! The glocks of a node: what it holds, wants and has pinned, and what it is asked to let go.
#![tactic(auto)]

mod glock;
mod glocks;
mod keys;
mod laws;
mod wants;

pub use glock::Glock;
pub use glocks::Glocks;
pub use laws::{
    callbacks_ask_no_more, callbacks_stand, called_downs_bar_nothing, last_touches_were_made,
    locks_stand_apart, new_locks_may_be_asked_for, pinned_locks_stay, pins_are_counted,
    states_were_granted, touches_are_kept, uncalled_downs_bar_asks, wants_stand,
};
pub use wants::Wants;
