//! Tests of searches, their reports and schedules, through their public calls.
#![tactic(auto)]

#[cfg(test)]
mod tests;
