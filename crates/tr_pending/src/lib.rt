//! Pending signals: their instances and the queues that they wait in, as signal(7) has them.
#![tactic(auto)]

mod instance;
mod queue;

pub use instance::{Info, Instance};
pub use queue::{Put, Queue};
