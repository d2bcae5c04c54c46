//! Tests of records of answers, dialogues and texts of scenarios, through their public calls.
#![tactic(auto)]

#[cfg(test)]
mod tests;
