//! Texts in arrays, composed from their end on. Nothing here takes memory.
#![tactic(auto)]

mod buffers;

pub use buffers::TextBuffer;
