//! Wait statuses and their words, as waitpid(2) and ptrace(2) have them, and what a wait asks for. Nothing here
//! takes memory.
#![tactic(auto)]

mod laws;
mod status;
mod waits;
mod words;

pub use laws::words_differ;
pub use status::{Status, StopSig};
pub use waits::{WaitFlags, Which};
pub use words::{Word, decode, encode};
