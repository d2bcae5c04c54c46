//! Scenarios, read from JSON: where a kernel starts from, and what is done to it.
#![tactic(auto)]

pub mod events;
mod faults;
pub mod fields;
pub mod groups;
pub mod kinds;
pub mod reading;
pub mod scenarios;
pub mod steps;
pub mod workers;

pub use faults::ScenarioFault;
pub use kinds::event_name;
pub use reading::{json, read, repeats_in_start};
pub use scenarios::{Job, Scenario, start};
pub use steps::Step;
