//! The model as an oracle: where what another system answered first leaves it, and which replies it lets a call have.
#![tactic(auto)]

mod expected;
mod offers;
mod verdicts;
mod ways;

pub use expected::{Expectation, answer, answer_as};
pub use offers::{first_offer_is_preferred, offered, offers_are_complete, offers_are_let};
pub use verdicts::{Told, Unheard, Verdict, compare};
pub use ways::{act_in_way, count_ways, offers_are_permitted, ways_are_complete};
