//! Tests of a kernel, of status texts and of the oracle, through their public calls.
#![tactic(auto)]

#[cfg(test)]
mod tests;
