ghost use Rattle.std.specs.Prelude.{◌≡◌};
ghost use Rattle.tr_kernel.specs.Answers.{is_entered};

use tr_model::{Event, Refusal, Reply, Same};

/// What the caller is told of its entry.
#[derive(Clone, Copy, Debug, PartialEq, Eq)]
pub struct Receipt {
    pub reply: Reply,
    /// The entry's place in the journal, from 1.
    pub position: u64,
    pub event: Event,
    /// How many signals the entry accepted: at most 1,024.
    pub accepted: u64,
}

/// What comes of a call.
#[derive(Clone, Copy, Debug, PartialEq, Eq)]
pub enum Answer {
    /// An entry of the journal.
    Entered(Receipt),
    /// A reply without an entry.
    Read(Reply),
    Refused(Refusal),
}

impl Answer {
    /// Tells whether there is an entry.
    pub fn is_entered(&self) -> bool
        ensures { result ≡ is_entered self.now }
    {
        matches!(self, Answer::Entered(_))
    }
}

impl Same for Receipt {
    fn same(&self, other: &Receipt) -> bool {
        self.position == other.position
            && self.event.same(&other.event)
            && self.reply.same(&other.reply)
            && self.accepted == other.accepted
    }
}

impl Same for Answer {
    fn same(&self, other: &Answer) -> bool {
        match self {
            Answer::Entered(receipt) => matches!(other, Answer::Entered(r) if receipt.same(r)),
            Answer::Read(reply) => matches!(other, Answer::Read(r) if reply.same(r)),
            Answer::Refused(why) => matches!(other, Answer::Refused(w) if why == w),
        }
    }
}
