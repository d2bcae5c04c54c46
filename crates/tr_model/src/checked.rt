use crate::choices::Choice;
use crate::replies::Reply;

/// What a check finds of an event that isn't refused.
#[derive(Clone, Copy, Debug, PartialEq, Eq)]
pub enum Checked {
    /// It has this answer, and makes no entry.
    Quiet(Reply),
    /// It makes an entry, with this choice.
    Due(Choice),
}
