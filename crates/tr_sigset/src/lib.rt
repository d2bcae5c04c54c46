//! Signals and sets of signals, as signal(7) numbers them. Nothing here takes memory.
#![tactic(auto)]

mod sets;
mod signals;

pub use sets::SigSet;
pub use signals::{Base, Signal};
