//! A dialogue with a kernel: what is asked line by line, and answered at once.
#![tactic(auto)]

mod commands;
mod conversations;
mod dialogues;
mod mistakes;
mod replies;

pub use commands::Command;
pub use conversations::converse;
pub use dialogues::Dialogue;
