//! Pictures of runs.
#![tactic(auto)]

mod actors;
mod canvas;
mod drawing;
mod layouts;
mod legends;
mod pictures;
mod rows;

pub use drawing::draw;
pub use layouts::Layout;
pub use pictures::{Facts, pictures_are_of_elements};
