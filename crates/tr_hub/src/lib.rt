//! A kernel that several threads share under one lock, and the seats that say what each of them entered.
#![tactic(auto)]

mod answers;
mod held;
mod hubs;
mod seats;
mod shares;
mod waits;

pub use answers::Asked;
pub use held::Held;
pub use hubs::{Hub, HubFault, Unclosed};
pub use seats::Seat;
pub use shares::Parts;
pub use tr_kernel::{Answer, Receipt};
pub use waits::WaitCall;

#[cfg(test)]
mod tests;
