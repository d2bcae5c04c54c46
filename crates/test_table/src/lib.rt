//! Tests of a table through its public calls.
#![tactic(auto)]

#[cfg(test)]
mod tests;
