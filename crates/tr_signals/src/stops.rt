//! How a thread serves its marks: "Group-stop" and "PTRACE_EVENT stops" of ptrace(2).

ghost use Rattle.std.specs.Prelude.{◌≡◌, ◌≤◌, ℕ, IfOk, Ok, OnErr, if◌then◌else◌};
ghost use Rattle.tr_wait.specs.Words.{stop_sig_of};
ghost use Rattle.tr_tracee.specs.declared.life.Stop.TheVariants as stop;
ghost use Rattle.tr_tracee.specs.Threads.{seized};
ghost use Rattle.tr_model.specs.declared.checked.Checked.TheVariants.{Due};
ghost use Rattle.tr_model.specs.declared.events.Event.TheVariants.{Halt, Trap};
ghost use Rattle.tr_model.specs.Moves.{at};
ghost use Rattle.tr_model.specs.Preferred.{check};
ghost use Rattle.tr_model.specs.Choices.{no_choice};
ghost use Rattle.tr_model.specs.Stops.{at_stop, halt, show, show_stop, stop_with, trap, trap_at};
ghost use Rattle.tr_steps.specs.UnderWay.{IsStepOf, Moves, entry};
ghost use Rattle.tr_signals.specs.Private.{halt_traced, halt_untraced};

use std::alloc::AllocError;
use tr_model::{Checked, Choice, Refusal, Reply};
use tr_sigset::Signal;
use tr_steps::Step;
use tr_table::Table;
use tr_threads::ThreadChange;
use tr_tracee::{Stop, Thread};
use tr_wait::StopSig;

fn stop_of(thread: &Thread, signal: Signal) -> Stop
    ensures { result
        ≡ (if seized thread.now.trace then stop.Event (stop_sig_of signal) else stop.Group signal) }
{
    if thread.is_seized() {
        Stop::Event(StopSig::of(signal))
    } else {
        Stop::Group(signal)
    }
}

/// A tracee shows a group-stop by this signal: an attached one as a stop by the signal, a seized one as
/// `PTRACE_EVENT_STOP`.
fn stop_with(step: &mut Step, thread: &Thread, signal: Signal)
    requires { 1 ≤ step.old.room }
    ensures { Moves (stop_with thread.now signal) 1 step.old step.new }
{
    step.enter(thread.id, &stop_of(thread, signal));
}

/// A tracee shows the group-stop by this signal, if one is in effect.
fn stop_at(step: &mut Step, thread: &Thread, signal: Option<Signal>)
    requires { 1 ≤ step.old.room }
    ensures { Moves (at_stop signal (stop_with thread.now)) 1 step.old step.new }
{
    if let Some(signal) = signal {
        stop_with(step, thread, signal);
    }
}

fn halt_traced(step: &mut Step, thread: &Thread)
    requires { 1 ≤ step.old.room }
    ensures { Moves (halt_traced thread.now) 1 step.old step.new }
{
    let signal = step.stop_now(thread.group);
    step.change_thread(thread.id, &ThreadChange::Join);
    stop_at(step, thread, signal);
}

fn halt_untraced(step: &mut Step, thread: &Thread)
    ensures { Moves (halt_untraced thread.now) 0 step.old step.new }
{
    step.change_thread(thread.id, &ThreadChange::Halt);
}

fn halt_thread(step: &mut Step, thread: &Thread)
    requires { 1 ≤ step.old.room }
    ensures { Moves (halt thread.now) 1 step.old step.new }
{
    if thread.is_traced() {
        halt_traced(step, thread);
    } else {
        halt_untraced(step, thread);
    }
}

fn halt_at(step: &mut Step, tid: u32)
    requires { 1 ≤ step.old.room }
    ensures { Moves (at tid halt) 1 step.old step.new }
{
    if let Some(thread) = step.thread(tid) {
        halt_thread(step, &thread);
    }
}

/// Whether a thread's stop for a group-stop is refused or due: ESRCH where there is no such thread, then NotDue where it
/// has no stop mark, or neither runs nor listens.
pub fn check_halt(table: &Table, tid: u32) -> Result<Checked, Refusal>
    ensures { (actor : ℕ) → result ≡ check table.now.table actor (Halt tid) }
{
    let Some(thread) = table.find(tid) else {
        return Err(Refusal::Srch);
    };
    if thread.stop_mark && thread.life.serves_marks() {
        Ok(Checked::Due(Choice::NONE))
    } else {
        Err(Refusal::NotDue)
    }
}

/// A thread's stop for a group-stop that is due: its mark goes, and it takes part. A thread that nobody traces is
/// stopped, an attached tracee enters a stop by the signal, a seized one `PTRACE_EVENT_STOP`. Where memory is refused,
/// or the numbers are used up, nothing has changed.
#[inline(always)]
pub fn halt(step: &mut Step, actor: u32, tid: u32) -> Result<Reply, AllocError>
    requires due { check step.old.work.table actor (Halt tid) ≡ Ok (Due no_choice) }
    ensures did { IfOk result (IsStepOf step.old.work.table (entry actor (Halt tid)) step.new) }
    ensures err { OnErr result (step.new.work.table ≡ step.old.work.table) }
{
    step.begin(1)?;
    halt_at(step, tid);
    step.complete_group_stops();
    Ok(Reply::Done)
}

// The trap and the note mark

fn trap_in_stop(step: &mut Step, thread: &Thread, signal: Option<Signal>)
    requires { 1 ≤ step.old.room }
    ensures { Moves (trap_at thread.now signal) 1 step.old step.new }
{
    match signal {
        None => step.enter(thread.id, &Stop::Event(StopSig::Trap)),
        Some(signal) => {
            step.change_thread(thread.id, &ThreadChange::Join);
            step.enter(thread.id, &Stop::Event(StopSig::of(signal)));
        }
    }
}

fn trap_thread(step: &mut Step, thread: &Thread)
    requires { 1 ≤ step.old.room }
    ensures { Moves (trap thread.now) 1 step.old step.new }
{
    let signal = step.stop_now(thread.group);
    trap_in_stop(step, thread, signal);
}

fn trap_by_id(step: &mut Step, tid: u32)
    requires { 1 ≤ step.old.room }
    ensures { Moves (at tid trap) 1 step.old step.new }
{
    if let Some(thread) = step.thread(tid) {
        trap_thread(step, &thread);
    }
}

/// Whether a tracee's trap is refused or due: ESRCH where there is no such thread, then NotDue where it has neither the
/// trap nor the note mark, or neither runs nor listens.
pub fn check_trap(table: &Table, tid: u32) -> Result<Checked, Refusal>
    ensures { (actor : ℕ) → result ≡ check table.now.table actor (Trap tid) }
{
    let Some(thread) = table.find(tid) else {
        return Err(Refusal::Srch);
    };
    if (thread.trap_mark || thread.note_mark) && thread.life.serves_marks() {
        Ok(Checked::Due(Choice::NONE))
    } else {
        Err(Refusal::NotDue)
    }
}

/// A tracee's trap that is due: it enters `PTRACE_EVENT_STOP`, of the signal of the group-stop in effect, in which it
/// then takes part, else of SIGTRAP. Where memory is refused, or the numbers are used up, nothing has changed.
#[inline(always)]
pub fn trap(step: &mut Step, actor: u32, tid: u32) -> Result<Reply, AllocError>
    requires due { check step.old.work.table actor (Trap tid) ≡ Ok (Due no_choice) }
    ensures did { IfOk result (IsStepOf step.old.work.table (entry actor (Trap tid)) step.new) }
    ensures err { OnErr result (step.new.work.table ≡ step.old.work.table) }
{
    step.begin(1)?;
    trap_by_id(step, tid);
    step.complete_group_stops();
    Ok(Reply::Done)
}

// Threads that are traced while they are stopped

fn show(step: &mut Step, thread: &Thread)
    requires { 1 ≤ step.old.room }
    ensures { Moves (show thread.now) 1 step.old step.new }
{
    let signal = step.stop_now(thread.group);
    if let Some(thread) = step.thread(thread.id) {
        stop_at(step, &thread, signal);
    }
}

/// A stopped thread that is traced from now on is in the ptrace-stop of its kind.
pub fn show_stop(step: &mut Step, thread: &Thread)
    requires { 1 ≤ step.old.room }
    ensures { Moves (show_stop thread.now) 1 step.old step.new }
{
    if thread.life.is_stopped() {
        show(step, thread);
    }
}
