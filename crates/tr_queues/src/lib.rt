//! What waits for threads and for groups, in order of acceptance, found by target and signal.
#![tactic(auto)]

mod hashing;
mod lines;
mod pending;
mod picked;
mod slots;

pub use pending::Pending;
pub use picked::{Flush, Picked, note_picked, same_target};
pub use slots::{Slot, list_standing};
