//! Tests of signals, wait words, queues, records, groups, lanes and texts, through their public calls.
#![tactic(auto)]

#[cfg(test)]
mod tests;
