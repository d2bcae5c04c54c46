//! The written model: what may happen to the table of threads and groups, and the laws of every journal of it.
#![tactic(auto)]

mod checked;
mod choices;
mod compare;
mod entries;
mod events;
mod fates;
mod journals;
mod laws;
mod limits;
mod packed;
mod raises;
mod replies;
mod rows;
mod same_rows;
mod sameness;

pub use checked::Checked;
pub use choices::Choice;
pub use compare::{
    answers_determine, one_test_decides, replies_are_foreseen, replies_tell_the_choice,
    verdicts_are_determined,
};
pub use entries::Entry;
pub use events::Event;
pub use fates::{Ending, Fate, Totals};
pub use journals::{
    a_restart_stands_between, each_report_has_one_wait, each_signal_has_one_fate,
    first_accepted_first_taken, tables_are_sound, the_killed_only_die,
};
pub use laws::{causes_are_causes, nothing_is_exact, preferred_is_admitted, steps_are_determined};
pub use limits::{GREATEST_ID, MOST_MEMBERS, MOST_THREADS};
pub use packed::Halves;
pub use raises::Raise;
pub use replies::{Did, Refusal, Reply};
pub use rows::{Group, Name, Target, Waiting};
pub use same_rows::same_list;
pub use sameness::Same;
