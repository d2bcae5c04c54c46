//! What a picture of a run is made of: elements and their styles, and what is drawn of calls, lives, reports and signals.
#![tactic(auto)]

mod calls;
mod cells;
mod details;
mod elements;
mod endings;
mod joins;
mod lives;
mod reports;
mod styles;

pub use calls::{aim_of, is_own, push_call, push_marks};
pub use cells::push_cells;
pub use details::push_detail;
pub use elements::{
    push_escaped, push_escaped_pieces, push_line, push_number, push_pieces, push_rect, push_words,
    push_words_begin, tags_are_balanced,
};
pub use endings::push_endings;
pub use joins::{joined, push_joins};
pub use reports::{LaneReport, list_reports, push_withdrawals, taken_by};
pub use styles::{Style, style_sheet};
