ghost use Rattle.std.specs.Prelude.{◌≡◌, ◌<◌, vec_len, vec_capacity};
ghost use Rattle.tr_hub.specs.Answers.{asked_after, is_kept};

use tr_kernel::Answer;
use tr_model::{Event, Refusal};

/// An answer without an entry, and how many entries there were then.
#[derive(Clone, Copy, Debug, PartialEq, Eq)]
pub struct Asked {
    pub actor: u32,
    pub event: Event,
    /// The journal's length at that time.
    pub position: u64,
    pub answer: Answer,
}

/// Whether an answer is written down: it came without an entry, and not of want of memory.
fn is_kept(answer: &Answer) -> bool
    ensures { result ≡ is_kept answer.now }
{
    !matches!(
        answer,
        Answer::Entered(_) | Answer::Refused(Refusal::NoMemory)
    )
}

/// Writes an answer down, if it is one that is kept. There is room for it.
pub(crate) fn keep(
    asked: &mut Vec<Asked>,
    actor: u32,
    event: &Event,
    position: u64,
    answer: &Answer,
)
    requires { vec_len asked.old < vec_capacity asked.old }
    ensures { asked.new.items ≡ asked_after asked.old.items actor event.now position answer.now }
{
    if is_kept(answer) {
        asked.push_reserved(Asked {
            actor,
            event: *event,
            position,
            answer: *answer,
        });
    }
}
