//! Tracing, clone and execve: for each event a check, which takes no memory, and the step of what is
//! due.
#![tactic(auto)]

mod clones;
mod execs;
mod questions;
mod restarts;
mod tracers;
mod tracing;

pub use clones::{check_clone_thread, clone_thread};
pub use execs::{check_exec, check_finish, exec, finish};
pub use questions::{check_event_message, check_signal_info};
pub use restarts::{check_cont, check_detach, check_listen, cont, detach, listen};
pub use tracers::{check_tracer_exit, tracer_exit};
pub use tracing::{
    attach, check_attach, check_interrupt, check_seize, check_set_options, interrupt, seize,
    set_options,
};
