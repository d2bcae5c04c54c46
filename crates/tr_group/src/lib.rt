//! What the record of a thread group has of signals: its actions and its group-stop, as signal(7) and ptrace(2) have them.
#![tactic(auto)]

mod stops;

pub use stops::{Action, GroupStop};
