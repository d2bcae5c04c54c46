//! The kernel: a table, and the journal that replays to it.
#![tactic(auto)]

mod acting;
mod answers;
mod calls;
mod entries;
mod events;
mod fates;
mod foreseen;
mod hearing;
mod journal;
mod kernels;
pub mod laws;
mod lists;
mod logging;
mod note_list;
mod notes;
mod replies;
mod restarts;

pub use acting::{act, act_with};
pub use answers::{Answer, Receipt};
pub use foreseen::Prospect;
pub use hearing::choice_of;
pub use kernels::{Kernel, StartFault};
pub use logging::StepLog;
