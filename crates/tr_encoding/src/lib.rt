//! Calls as steps of a scenario: the JSON values that `tr_reading` reads as them.
#![tactic(auto)]

mod calls;
mod events;
mod objects;
mod scenarios;
mod sets;

pub use calls::{Call, call_value};
pub use scenarios::scenario_text;
