//! The threads of a table, found by their ids, by their groups and by their tracers.
#![tactic(auto)]

mod leader_rows;
mod member_changes;
mod membership;
mod roster_list;
mod thread_changes;
mod threads;
mod tracee_list;
mod tracees;
mod tracing;
mod words;

pub use roster_list::Roster;
pub use thread_changes::ThreadChange;
pub use threads::{Threads, owner_of};
pub use tracee_list::Listed;
pub use tracees::with_report;
pub use tracing::is_untraced_death;
