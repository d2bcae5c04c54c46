//! What another system replied, held against the model: which choice it tells, and whether a step replies so.

ghost use Rattle.std.specs.Prelude.{◌≡◌, ◌↔◌, ◌≤◌, IsTrue, None, Ok, Err};
ghost use Rattle.tr_model.specs.Causes.{cause_of, quiet_of};
ghost use Rattle.tr_model.specs.Compare.{IsLet, Permits, choice_of};
ghost use Rattle.tr_model.specs.Foreseen.{fate_of_put, fate_of_send, reply_before, sent_before};
ghost use Rattle.tr_model.specs.Journals.{AllUpTo};
ghost use Rattle.tr_model.specs.declared.rows.Target.TheVariants as target;
ghost use Rattle.tr_kernel.specs.Heard.{call_of};
ghost use Rattle.tr_kernel.specs.Private.{admits_told, reply_without_send};

use tr_ends::{admits_starter_wait, admits_wait, waited_by, waited_by_starter};
use tr_model::{Choice, Event, Fate, Refusal, Reply, Same, Target};
use tr_signals::{admits_take, admits_take_any, took_reply};
use tr_sigset::Signal;
use tr_steps::Step;
use tr_table::Table;

pub(crate) fn is_refusal(told: &Result<Reply, Refusal>, why: Refusal) -> bool
    ensures { IsTrue result ↔ (told.now ≡ Err why) }
{
    match told {
        Ok(_) => false,
        Err(refusal) => *refusal == why,
    }
}

pub(crate) fn is_reply(told: &Result<Reply, Refusal>, reply: &Reply) -> bool
    ensures { IsTrue result ↔ (told.now ≡ Ok reply.now) }
{
    match told {
        Ok(other) => other.same(reply),
        Err(_) => false,
    }
}

/// Reads off a reply to an event which choice was made; none where the event leaves nothing open.
pub fn choice_of(event: &Event, reply: &Reply) -> Choice
    ensures { result ≡ choice_of event.now reply.now }
{
    match event {
        Event::Take { .. } => match reply {
            Reply::Took { inst, .. } => Choice::of_instance(inst.n),
            _ => Choice::NONE,
        },
        Event::TakeAny { .. } => match reply {
            Reply::Took { tid, inst, .. } => Choice::of_thread(*tid, inst.n),
            _ => Choice::NONE,
        },
        Event::Wait { .. } | Event::StarterWait { .. } => match reply {
            Reply::Waited { report, .. } => Choice::of_report(*report),
            _ => Choice::NONE,
        },
        Event::CloneThread { .. } => match reply {
            Reply::Cloned { tid } => Choice::of_new_id(*tid),
            _ => Choice::NONE,
        },
        _ => Choice::NONE,
    }
}

/// Whether the model admits the choice that a reply tells.
fn admits_told(table: &Table, actor: u32, event: &Event, reply: &Reply) -> bool
    ensures { result ≡ admits_told table.now.table actor event.now reply.now }
{
    match event {
        Event::Take { tid } => match reply {
            Reply::Took { inst, .. } => admits_take(table, *tid, inst.n),
            _ => false,
        },
        Event::TakeAny { tgid } => match reply {
            Reply::Took { tid, inst, .. } => admits_take_any(table, *tgid, *tid, inst.n),
            _ => false,
        },
        Event::Wait { which } => match reply {
            Reply::Waited { report, .. } => admits_wait(table, actor, *which, *report),
            _ => false,
        },
        Event::StarterWait { which, flags } => match reply {
            Reply::Waited { report, .. } => admits_starter_wait(table, *which, *flags, *report),
            _ => false,
        },
        Event::CloneThread { .. } => match reply {
            Reply::Cloned { tid } => table.is_new(*tid),
            _ => false,
        },
        _ => true,
    }
}

/// Whether the reply is that of a send whose signal has this fate.
fn is_sent(table: &Table, fate: Fate, told: &Reply) -> bool
    ensures { IsTrue result ↔ (sent_before table.now.table fate ≡ told.now) }
{
    match told {
        Reply::Sent { n, fate: f } => *n > 0 && *n - 1 == table.accepted() && *f == fate,
        _ => false,
    }
}

/// Whether the reply is that of a send of the signal of a number.
fn is_sent_to(step: &Step, sig: u8, target: Target, told: &Reply) -> bool
    requires least { 1 ≤ sig }
    requires greatest { sig ≤ 64 }
    ensures { IsTrue result
        ↔ (sent_before step.now.work.table
        (fate_of_send step.now.work.table sig target) ≡ told.now) }
{
    let signal = Signal::new(sig).unwrap();
    is_sent(step.table(), step.fate_of_send(signal, target), told)
}

/// Whether the reply is that of an attach to a thread.
fn is_attached(step: &Step, tid: u32, told: &Reply) -> bool
    ensures { IsTrue result
        ↔ (sent_before step.now.work.table
        (fate_of_put step.now.work.table 19 (target.Thread tid)) ≡ told.now) }
{
    is_sent(
        step.table(),
        step.fate_of_put(Signal::STOP, Target::Thread(tid)),
        told,
    )
}

/// The reply of an event that sends nothing, with this choice.
pub(crate) fn reply_without_send(table: &Table, actor: u32, event: &Event, choice: Choice) -> Reply
    ensures { result ≡ reply_without_send table.now.table actor event.now choice }
{
    let n = choice.instance().unwrap_or(0);
    let report = choice.report().unwrap_or(0);
    match event {
        Event::Take { tid } => took_reply(table, *tid, n),
        Event::TakeAny { .. } => took_reply(table, choice.thread().unwrap_or(0), n),
        Event::CloneThread { .. } => Reply::Cloned {
            tid: choice.new_id().unwrap_or(0),
        },
        Event::Wait { which } => waited_by(table, actor, *which, report),
        Event::StarterWait { which, flags } => waited_by_starter(table, *which, *flags, report),
        _ => Reply::Done,
    }
}

/// Whether the step of an event that is due has this reply, with this choice.
fn is_reply_of_step(step: &Step, actor: u32, event: &Event, choice: Choice, told: &Reply) -> bool
    requires due { Permits step.now.work.table actor event.now choice }
    ensures { IsTrue result ↔ (reply_before step.now.work.table actor event.now choice ≡ told.now) }
{
    match event {
        Event::Kill { tgid, sig } => is_sent_to(step, *sig, Target::Group(*tgid), told),
        Event::Tgkill { tid, sig, .. } => is_sent_to(step, *sig, Target::Thread(*tid), told),
        Event::Sigqueue { tgid, sig, .. } => is_sent_to(step, *sig, Target::Group(*tgid), told),
        Event::Attach { tid } => is_attached(step, *tid, told),
        _ => reply_without_send(step.table(), actor, event, choice).same(told),
    }
}

/// Whether some step of an event that is due has this reply, with whatever choice.
pub(crate) fn is_admitted(step: &Step, actor: u32, event: &Event, told: &Reply) -> bool
    requires no_cause { cause_of step.now.work.table actor event.now ≡ None }
    requires not_quiet { quiet_of step.now.work.table actor event.now ≡ None }
    requires numbered { AllUpTo step.now.work.table.accepted step.now.work.table.waiting }
    ensures { IsTrue result ↔ IsLet step.now.work.table (call_of actor event.now) (Ok told.now) }
{
    if !admits_told(step.table(), actor, event, told) {
        return false;
    }
    is_reply_of_step(step, actor, event, choice_of(event, told), told)
}
