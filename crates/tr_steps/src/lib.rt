//! A step under way as one type: the table with what the step has done so far. Each move of the written model is one
//! method, with the one clause that the work is that move of the old work.
#![tactic(auto)]

mod deaths;
mod fates;
mod group_stops;
mod moves;
mod news;
mod sends;
mod steps;

pub use news::News;
pub use steps::Step;
