//! Why calls are answered as they are: the reason of each refusal, and the text of a run that tells it.
#![tactic(auto)]

mod explaining;
mod finding;
mod reasons;
mod refusals;
mod sentences;
mod stops;
mod telling;

pub use explaining::explain;
pub use finding::reason_of;
pub use reasons::{Reason, reasons_are_of_causes, refusal_of};
pub use sentences::Sentence;
pub use telling::{Before, Explained};
