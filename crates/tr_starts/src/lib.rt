//! What a kernel starts from, and when it is a good start.
#![tactic(auto)]

mod good_starts;
mod items;
mod starts;

pub use good_starts::{are_few, are_good_ids, is_good_group, is_good_name, leads};
pub use items::Items;
pub use starts::{GroupStart, Start};
