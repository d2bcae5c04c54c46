//! The record of one thread, and what happens to it alone: marks, ptrace-stops, restarts and ends, as ptrace(2) has
//! them. Nothing here takes memory.
#![tactic(auto)]

mod ends;
mod life;
mod marks;
mod stops;
mod thread;

pub use life::{End, Life, Stop};
pub use thread::{Options, Report, Thread, Trace};
