//! Tests of scenarios, their reader and the text of their runs through public calls.
#![tactic(auto)]

#[cfg(test)]
mod tests;
