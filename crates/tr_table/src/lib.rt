//! A kernel's table of threads, groups and pending signals.
#![tactic(auto)]

mod changes;
mod choices;
mod free_ids;
mod group_list;
mod groups;
mod masks;
mod opened;
mod queues;
mod raising;
mod reads;
mod records;
mod row_keys;
mod rows;
mod snapshots;
mod starter;
mod table;
mod tracees;
mod unsettled;

pub use groups::GroupChange;
pub use row_keys::mixed;
pub use rows::{Rows, SharedRows};
pub use snapshots::Snapshot;
pub use table::Table;
pub use unsettled::Unsettled;
