//! How a tracer restarts a tracee from its ptrace-stop: `PTRACE_CONT`, `PTRACE_LISTEN` and `PTRACE_DETACH` of ptrace(2).

ghost use Rattle.std.specs.Prelude.{◌≡◌, ◌≤◌, IfOk, Ok, OnErr, Some, unwrap_or};
ghost use Rattle.tr_tracee.specs.Lives.{held};
ghost use Rattle.tr_tracee.specs.Threads.{tracer_of};
ghost use Rattle.tr_model.specs.declared.checked.Checked.TheVariants.{Due};
ghost use Rattle.tr_model.specs.declared.events.Event.TheVariants.{Cont, Detach, Listen};
ghost use Rattle.tr_model.specs.Moves.{at};
ghost use Rattle.tr_model.specs.Preferred.{check};
ghost use Rattle.tr_model.specs.Restarts.{inject, listen, untrace};
ghost use Rattle.tr_model.specs.Choices.{no_choice};
ghost use Rattle.tr_model.specs.Tables.{thread_of};
ghost use Rattle.tr_steps.specs.UnderWay.{IsStepOf, Moves, entry};
ghost use Rattle.tr_requests.specs.Private.{detach_from, restart_by, restart_from};

use crate::tracing::stopped;
use std::alloc::AllocError;
use tr_model::{Checked, Choice, Fate, Refusal, Reply, Target};
use tr_pending::{Info, Instance};
use tr_signals::act_on;
use tr_sigset::Signal;
use tr_steps::Step;
use tr_table::Table;
use tr_threads::ThreadChange;
use tr_tracee::Thread;

fn tracer_of(thread: &Thread) -> u32
    ensures { result ≡ unwrap_or (tracer_of thread.now.trace) 0 }
{
    thread.trace.map_or(0, |trace| trace.tracer)
}

/// A new instance, from the tracer: it waits for the thread where that blocks it, else the thread acts on it.
fn inject(step: &mut Step, thread: &Thread, signal: Signal)
    requires { 3 ≤ step.old.room }
    ensures { Moves (inject thread.now signal) 3 step.old step.new }
{
    if thread.mask.has(signal) {
        let info = Info {
            code: 0,
            pid: tracer_of(thread),
            value: 0,
        };
        step.put(signal, &info, Target::Thread(thread.id));
    } else {
        step.accept_as(Fate::Delivered);
        act_on(step, thread, signal, thread.life.cont_came());
    }
}

/// From a signal-delivery-stop: without a signal what it holds is suppressed, by its own number it is delivered, and
/// another signal takes its place.
fn restart_by(step: &mut Step, thread: &Thread, signal: Option<Signal>, held: &Instance)
    requires room { 3 ≤ step.old.room }
    requires there { thread_of step.old.work.table thread.now.id ≡ Some thread.now }
    ensures { Moves (restart_by thread.now signal held.now) 3 step.old step.new }
{
    let Some(signal) = signal else {
        return step.resume(thread, Fate::Suppressed);
    };
    if signal == held.sig {
        step.resume(thread, Fate::Delivered);
        act_on(step, thread, signal, thread.life.cont_came());
    } else {
        step.resume(thread, Fate::Suppressed);
        inject(step, thread, signal);
    }
}

/// Restarts a tracee, with a signal or without: from a stop that holds none the signal is ignored.
pub(crate) fn restart(step: &mut Step, thread: &Thread, signal: Option<Signal>)
    requires room { 3 ≤ step.old.room }
    requires there { thread_of step.old.work.table thread.now.id ≡ Some thread.now }
    ensures { Moves (restart_from thread.now signal (held thread.now.life)) 3 step.old step.new }
{
    match thread.life.held() {
        Some(held) => restart_by(step, thread, signal, &held),
        None => step.resume(thread, Fate::Flushed),
    }
}

fn restart_at(step: &mut Step, tid: u32, signal: Option<Signal>)
    requires { 3 ≤ step.old.room }
    ensures { Moves (at tid (λ t. restart_from t signal (held t.life))) 3 step.old step.new }
{
    if let Some(thread) = step.thread(tid) {
        restart(step, &thread, signal);
    }
}

/// Whether a restart of a tracee is refused or due: ESRCH where the thread isn't a tracee of the actor in a ptrace-stop,
/// then EIO for a signal above 64.
pub fn check_cont(table: &Table, actor: u32, tid: u32, sig: u8) -> Result<Checked, Refusal>
    ensures { result ≡ check table.now.table actor (Cont tid sig) }
{
    let Some(thread) = table.find(tid) else {
        return Err(Refusal::Srch);
    };
    if let Some(why) = stopped(actor, thread) {
        return Err(why);
    }
    if sig > Signal::GREATEST {
        return Err(Refusal::Io);
    }
    Ok(Checked::Due(Choice::NONE))
}

/// A restart of a tracee that is due: `PTRACE_CONT`. A report that no wait has consumed is withdrawn. From a
/// signal-delivery-stop 0 suppresses the instance that it holds, its own number delivers it, and another signal takes
/// its place; from other stops the signal is ignored. Where memory is refused, or the numbers are used up, nothing has
/// changed.
#[inline(always)]
pub fn cont(step: &mut Step, actor: u32, tid: u32, sig: u8) -> Result<Reply, AllocError>
    requires due { check step.old.work.table actor (Cont tid sig) ≡ Ok (Due no_choice) }
    ensures did { IfOk result (IsStepOf step.old.work.table (entry actor (Cont tid sig)) step.new) }
    ensures err { OnErr result (step.new.work.table ≡ step.old.work.table) }
{
    let signal = Signal::new(sig);
    step.begin(3)?;
    restart_at(step, tid, signal);
    step.complete_group_stops();
    Ok(Reply::Done)
}

/// Ends the tracing of a thread that was restarted.
fn untrace(step: &mut Step, thread: &Thread)
    ensures { Moves (untrace thread.now) 0 step.old step.new }
{
    let in_effect = step.stop_now(thread.group).is_some();
    step.change_thread(thread.id, &ThreadChange::Detach(in_effect));
}

/// Restarts a tracee, and ends its tracing.
pub(crate) fn detach_thread(step: &mut Step, thread: &Thread, signal: Option<Signal>)
    requires room { 3 ≤ step.old.room }
    requires there { thread_of step.old.work.table thread.now.id ≡ Some thread.now }
    ensures { Moves (detach_from thread.now signal) 3 step.old step.new }
{
    restart(step, thread, signal);
    untrace(step, thread);
}

fn detach_at(step: &mut Step, tid: u32, signal: Option<Signal>)
    requires { 3 ≤ step.old.room }
    ensures { Moves (at tid (λ t. detach_from t signal)) 3 step.old step.new }
{
    if let Some(thread) = step.thread(tid) {
        detach_thread(step, &thread, signal);
    }
}

/// Whether a detach from a tracee is refused or due: ESRCH where the thread isn't a tracee of the actor in a
/// ptrace-stop, then EIO for a signal above 64.
pub fn check_detach(table: &Table, actor: u32, tid: u32, sig: u8) -> Result<Checked, Refusal>
    ensures { result ≡ check table.now.table actor (Detach tid sig) }
{
    check_cont(table, actor, tid, sig)
}

/// A detach from a tracee that is due: `PTRACE_DETACH`, a restart as by `PTRACE_CONT`, after which nobody traces the
/// thread. Where a group-stop is in effect it is stopped and takes part. Where memory is refused, or the numbers are
/// used up, nothing has changed.
pub fn detach(step: &mut Step, actor: u32, tid: u32, sig: u8) -> Result<Reply, AllocError>
    requires due { check step.old.work.table actor (Detach tid sig) ≡ Ok (Due no_choice) }
    ensures did { IfOk result
        (IsStepOf step.old.work.table (entry actor (Detach tid sig)) step.new) }
    ensures err { OnErr result (step.new.work.table ≡ step.old.work.table) }
{
    let signal = Signal::new(sig);
    step.begin(3)?;
    detach_at(step, tid, signal);
    step.complete_group_stops();
    Ok(Reply::Done)
}

fn listen_at(step: &mut Step, tid: u32)
    ensures { Moves (at tid listen) 0 step.old step.new }
{
    if let Some(thread) = step.thread(tid) {
        step.listen(&thread);
    }
}

/// Whether a listen is refused or due: ESRCH where the thread isn't a tracee of the actor in a ptrace-stop, then EIO
/// where it isn't seized, or not in `PTRACE_EVENT_STOP`.
pub fn check_listen(table: &Table, actor: u32, tid: u32) -> Result<Checked, Refusal>
    ensures { result ≡ check table.now.table actor (Listen tid) }
{
    let Some(thread) = table.find(tid) else {
        return Err(Refusal::Srch);
    };
    if let Some(why) = stopped(actor, thread) {
        return Err(why);
    }
    if !(thread.is_seized() && thread.life.is_in_event_stop()) {
        return Err(Refusal::Io);
    }
    Ok(Checked::Due(Choice::NONE))
}

/// A listen that is due: `PTRACE_LISTEN`. The tracee stays out of its program and listens for marks, and its part in a
/// group-stop stays; a report that no wait has consumed is withdrawn. Where memory is refused, or the numbers are used
/// up, nothing has changed.
pub fn listen(step: &mut Step, actor: u32, tid: u32) -> Result<Reply, AllocError>
    requires due { check step.old.work.table actor (Listen tid) ≡ Ok (Due no_choice) }
    ensures did { IfOk result (IsStepOf step.old.work.table (entry actor (Listen tid)) step.new) }
    ensures err { OnErr result (step.new.work.table ≡ step.old.work.table) }
{
    step.begin(1)?;
    listen_at(step, tid);
    step.complete_group_stops();
    Ok(Reply::Done)
}
