//! Where the records of a list stand, by their ids; numbers with repetition; and counts that are kept up.
#![tactic(auto)]

mod counts;
mod index;
mod multiset;
mod pages;

pub use counts::recounted;
pub use index::Index;
pub use multiset::Multiset;
