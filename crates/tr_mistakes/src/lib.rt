//! Where a scenario that is refused has its first mistake, and what is wanted there, in words.
#![tactic(auto)]

mod events;
mod groups;
mod lists;
mod parts;
mod scenarios;
mod texts;
mod wanted;
mod wholes;
mod workers;

pub use groups::push_start_mistake;
pub use lists::{Mistaken, refused};
pub use parts::{is_object, push_keys_mistake, push_object_wanted, push_wanted_at};
pub use texts::{all_mistakes_are_told, push_told};
pub use wanted::Wanted;
pub use wholes::{push_bad_start, push_twice};
