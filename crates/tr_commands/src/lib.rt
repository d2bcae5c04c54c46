//! The command line of the program `tracebox`: its commands with their help, and what its words ask for.
#![tactic(auto)]

mod asking;
mod commands;
mod numerals;

pub use asking::{Ask, AskFault, Declined, asked};
