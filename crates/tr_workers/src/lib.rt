//! Scripts of calls, each made by a worker of its own on a thread of its own, and whether what the workers were told is
//! what the kernel holds.
#![tactic(auto)]

mod calls;
mod ports;
mod receipts;
mod runs;
mod sameness;
mod scripts;
mod seat_ports;
mod settling;
mod teams;
mod working;

pub use calls::Calls;
pub use ports::{Gate, Port, Told, keep};
pub use receipts::Receipts;
pub use runs::{RunFault, run};
pub use scripts::{Item, Plan, Repeat, Script, Served, are_distinct};
pub use settling::{Unsettled, settle};
pub use working::{Ended, Tally, work};
