//! Scans of rows of masks, by std::simd. A row is a word in which signal n is bit n - 1. Nothing here takes memory.
#![tactic(auto)]

mod digits;
mod folds;
mod ready;
mod rows;

pub use digits::hex16;
pub use folds::{count_holding, union_all};
pub use ready::{first_ready, ready_rows};
pub use rows::first_clear;
