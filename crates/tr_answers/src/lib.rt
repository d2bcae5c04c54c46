//! Records: a scenario's steps, and what another system answered to their calls; and what the model says to that.
#![tactic(auto)]

mod comparing;
mod expected;
mod lines;
mod records;

pub use comparing::compare;
pub use expected::Expected;
pub use records::{Answered, Record, read};
