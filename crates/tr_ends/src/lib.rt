//! Exits and deaths of threads and groups, and the waits that they are told by: for each event a check, which takes no memory,
//! and the step of what is due.
#![tactic(auto)]

mod ends;
mod reports;
mod starter_waits;
mod waits;

pub use ends::{check_die, check_exit, check_exit_group, die, exit, exit_group};
pub use reports::{admits_starter_wait, admits_wait, waited_by, waited_by_starter};
pub use starter_waits::{check_starter_wait, is_note_shown, starter_wait};
pub use waits::{check_wait, consume_death, ready_thread, wait};
