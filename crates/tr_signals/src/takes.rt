//! Which pending signal a thread takes, and what it does with it: signal(7), and "Signal-delivery-stop" of ptrace(2).

ghost use Rattle.std.specs.Prelude.{◌≡◌, ◌≤◌, ℕ, IfOk, OnErr, Some, false, option_map};
ghost use Rattle.tr_model.specs.Compare.{Permits};
ghost use Rattle.tr_model.specs.declared.events.Event.TheVariants.{Take};
ghost use Rattle.tr_model.specs.Preferred.{best_for, check};
ghost use Rattle.tr_model.specs.Choices.{takes_instance};
ghost use Rattle.tr_model.specs.Takes.{act, can_take, deliver, did_at_take, take};
ghost use Rattle.tr_steps.specs.UnderWay.{ComesTo, IsStepOf, Moves};
ghost use Rattle.tr_signals.specs.Private.{Takes, take_outcome};

use crate::acts::{act, did_of};
use std::alloc::AllocError;
use tr_model::{Checked, Choice, Did, Refusal, Reply, Target, Waiting};
use tr_pending::Instance;
use tr_steps::Step;
use tr_table::Table;
use tr_tracee::Thread;

/// The number of what a thread takes next: from its own queue before the shared one, the first of the least signal.
pub(crate) fn best_number_for(table: &Table, thread: &Thread) -> Option<u64>
    ensures { result ≡ option_map (λ i. i.n) (best_for table.now.table thread.now) }
{
    if !thread.is_ready_to_take() {
        return None;
    }
    match table.best_number(Target::Thread(thread.id), thread.mask) {
        Some(n) => Some(n),
        None => table.best_number(Target::Group(thread.group), thread.mask),
    }
}

#[tactic(auto, using(tr_model::proofs::Takable::can_take_best))]
pub(crate) fn can_take(table: &Table, thread: &Thread) -> bool
    ensures { result ≡ can_take table.now.table thread.now }
{
    best_number_for(table, thread).is_some()
}

/// Whether a take by a thread is refused, answered Nothing, or due. ESRCH comes where there is no such thread,
/// NotRunning where it isn't free, and Busy where it has a mark to serve first.
#[tactic(auto, using(tr_model::proofs::Takable::can_take_best))]
pub fn check_take(table: &Table, tid: u32) -> Result<Checked, Refusal>
    ensures { (actor : ℕ) → result ≡ check table.now.table actor (Take tid) }
{
    let Some(thread) = table.find(tid) else {
        return Err(Refusal::Srch);
    };
    if !thread.life.is_free() {
        return Err(Refusal::NotRunning);
    }
    if thread.has_mark() {
        return Err(Refusal::Busy);
    }
    match best_number_for(table, thread) {
        Some(n) => Ok(Checked::Due(Choice::of_instance(n))),
        None => Ok(Checked::Quiet(Reply::Nothing)),
    }
}

/// What a thread does with an instance that it takes: a tracee reports it, and others act by the action.
pub fn did_at_take(table: &Table, thread: &Thread, instance: &Instance) -> Did
    ensures { result ≡ did_at_take table.now.table thread.now instance.now }
{
    if thread.is_traced() {
        Did::Reported
    } else {
        did_of(table.action_of(thread.group, instance.sig), instance.sig)
    }
}

fn deliver_to(step: &mut Step, thread: &Thread, instance: &Instance, did: Did)
    requires { 2 ≤ step.old.room }
    ensures { Moves (λ w. act thread.now instance.now.sig false did
        (deliver instance.now.n w)) 2 step.old step.new }
{
    step.deliver(instance.n);
    act(step, thread, instance.sig, false, did);
}

fn take_instance(step: &mut Step, thread: &Thread, instance: &Instance, did: Did)
    requires room { 2 ≤ step.old.room }
    requires did { did ≡ did_at_take step.old.work.table thread.now instance.now }
    requires takes { Takes step.old.work.table thread.now instance.now }
    ensures { Moves (take thread.now instance.now) 2 step.old step.new }
{
    if thread.is_traced() {
        step.hold(thread.id, instance);
    } else {
        deliver_to(step, thread, instance, did);
    }
}

/// A take that is due: the thread takes what waits, from the queue where it waits. Where memory is refused, or the numbers
/// are used up, nothing has changed.
#[inline(always)]
pub(crate) fn take_due(
    step: &mut Step,
    thread: &Thread,
    waiting: &Waiting,
) -> Result<Reply, AllocError>
    requires takes { Takes step.old.work.table thread.now waiting.now.instance }
    ensures did { IfOk result
        (ComesTo (take_outcome step.old.work.table thread.now waiting.now.instance)
        (Some waiting.now.target) step.new) }
    ensures err { OnErr result (step.new.work.table ≡ step.old.work.table) }
{
    let instance = &waiting.instance;
    let did = did_at_take(step.table(), thread, instance);
    step.begin(2)?;
    step.take_from(waiting.target);
    take_instance(step, thread, instance, did);
    step.complete_group_stops();
    Ok(Reply::Took {
        tid: thread.id,
        inst: *instance,
        did,
    })
}

/// A take that is due, of any pending instance that the model lets the thread take: a tracee enters a
/// signal-delivery-stop that holds it, another thread acts on it. Where memory is refused, or the numbers are used up,
/// nothing has changed.
#[inline(always)]
pub fn take(step: &mut Step, actor: u32, tid: u32, n: u64) -> Result<Reply, AllocError>
    requires due { Permits step.old.work.table actor (Take tid) (takes_instance n) }
    ensures did { IfOk result
        (IsStepOf step.old.work.table
        (record { actor = actor; event = Take tid; choice = takes_instance n }) step.new) }
    ensures err { OnErr result (step.new.work.table ≡ step.old.work.table) }
{
    let table = step.table();
    let thread = *table.find(tid).unwrap();
    let waiting = *table.waiting(n).unwrap();
    take_due(step, &thread, &waiting)
}
