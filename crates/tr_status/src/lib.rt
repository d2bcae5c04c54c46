//! The status text of a thread, written to a sink: proc_pid_status(5). Nothing here takes memory.
#![tactic(auto)]

mod sinks;
mod statuses;
mod values;

pub use sinks::{Failed, Sink, put_all, put_pieces};
pub use statuses::{
    StatusBuffer, StatusFault, prepend_status, write_status, write_status_of, write_thread,
};
