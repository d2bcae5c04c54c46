//! Tests of a hub, of workers, their scripts and the settling through public calls.
#![tactic(auto)]

#[cfg(test)]
mod tests;
