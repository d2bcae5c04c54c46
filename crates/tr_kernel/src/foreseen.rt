//! What a call would be answered, by the table before its step.

ghost use Rattle.std.specs.Prelude.{◌≡◌, ◌+◌, ◌<◌, ◌≤◌, ◌^◌, None};
ghost use Rattle.tr_model.specs.Compare.{Permits};
ghost use Rattle.tr_model.specs.Foreseen.{fate_of_send, reply_before, sent_before};
ghost use Rattle.tr_model.specs.declared.rows.Target.TheVariants as target;

use crate::hearing::reply_without_send;
use tr_model::{Choice, Event, Fate, Refusal, Reply, Target};
use tr_sigset::Signal;
use tr_steps::Step;
use tr_table::Table;

/// What a call would come to, if memory is given.
#[derive(Clone, Copy, Debug, PartialEq, Eq)]
pub struct Prospect {
    pub answer: Result<Reply, Refusal>,
    /// This product's choice, where the answer is that of an entry.
    pub choice: Option<Choice>,
}

impl Prospect {
    /// An answer without an entry.
    #[inline(always)]
    pub(crate) fn without_entry(answer: Result<Reply, Refusal>) -> Prospect
        ensures answer { result.answer ≡ answer }
        ensures choice { result.choice ≡ None }
    {
        Prospect {
            answer,
            choice: None,
        }
    }
}

/// The reply of a send whose signal has this fate.
fn sent(table: &Table, fate: Fate) -> Reply
    requires few { table.now.table.accepted + 1 < 2 ^ 64 }
    ensures { result ≡ sent_before table.now.table fate }
{
    Reply::Sent {
        n: table.accepted() + 1,
        fate,
    }
}

/// The reply of a send of the signal of a number.
fn sent_to(step: &Step, sig: u8, target: Target) -> Reply
    requires few { step.now.work.table.accepted + 1 < 2 ^ 64 }
    requires least { 1 ≤ sig }
    requires greatest { sig ≤ 64 }
    ensures { result
        ≡ sent_before step.now.work.table (fate_of_send step.now.work.table sig target) }
{
    let signal = Signal::new(sig).unwrap();
    sent(step.table(), step.fate_of_send(signal, target))
}

/// The reply of the step of an event that is due, with this choice.
pub(crate) fn reply_before(step: &Step, actor: u32, event: &Event, choice: Choice) -> Reply
    requires few { step.now.work.table.accepted + 1 < 2 ^ 64 }
    requires due { Permits step.now.work.table actor event.now choice }
    ensures { result ≡ reply_before step.now.work.table actor event.now choice }
{
    match event {
        Event::Kill { tgid, sig } => sent_to(step, *sig, Target::Group(*tgid)),
        Event::Tgkill { tid, sig, .. } => sent_to(step, *sig, Target::Thread(*tid)),
        Event::Sigqueue { tgid, sig, .. } => sent_to(step, *sig, Target::Group(*tgid)),
        Event::Attach { tid } => sent(
            step.table(),
            step.fate_of_put(Signal::STOP, Target::Thread(*tid)),
        ),
        _ => reply_without_send(step.table(), actor, event, choice),
    }
}
