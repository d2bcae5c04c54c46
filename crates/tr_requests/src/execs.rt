//! How a thread gets a new program: execve(2), and "execve(2) under ptrace" of ptrace(2).

ghost use Rattle.std.specs.Prelude.{◌≡◌, ◌≤◌, ◌&&◌, ℕ, IfOk, Ok, OnErr, not};
ghost use Rattle.tr_tracee.specs.Threads.{is_leader, is_traced, seized};
ghost use Rattle.tr_model.specs.declared.checked.Checked.TheVariants.{Due};
ghost use Rattle.tr_model.specs.declared.events.Event.TheVariants.{Exec, Finish};
ghost use Rattle.tr_model.specs.Execs.{exec, finish, new_program, trap_new};
ghost use Rattle.tr_model.specs.Moves.{at};
ghost use Rattle.tr_model.specs.Preferred.{check};
ghost use Rattle.tr_model.specs.Choices.{no_choice};
ghost use Rattle.tr_model.specs.Tables.{others_dead};
ghost use Rattle.tr_steps.specs.UnderWay.{IsStepOf, Moves, entry};
ghost use Rattle.tr_requests.specs.Private.{send_trap, stop_or_trap, wait_for_others};

use std::alloc::AllocError;
use tr_model::{Checked, Choice, Refusal, Reply, Target};
use tr_pending::Info;
use tr_signals::check_script;
use tr_sigset::Signal;
use tr_steps::Step;
use tr_table::{GroupChange, Table};
use tr_threads::ThreadChange;
use tr_tracee::{End, Stop, Thread};

fn send_trap(step: &mut Step, thread: &Thread)
    requires { 3 ≤ step.old.room }
    ensures { Moves (send_trap thread.now) 3 step.old step.new }
{
    let info = Info {
        code: 0,
        pid: thread.id,
        value: 0,
    };
    step.send(Signal::TRAP, &info, Target::Thread(thread.id));
}

/// An attached tracee is sent SIGTRAP.
fn trap_new(step: &mut Step, thread: &Thread)
    requires { 3 ≤ step.old.room }
    ensures { Moves (trap_new thread.now) 3 step.old step.new }
{
    if is_attached(thread) {
        send_trap(step, thread);
    }
}

fn is_attached(thread: &Thread) -> bool
    ensures { result ≡ (is_traced thread.now && not (seized thread.now.trace)) }
{
    thread.is_traced() && !thread.is_seized()
}

/// With option exec the thread enters its stop, else an attached tracee is sent SIGTRAP.
fn stop_or_trap(step: &mut Step, former: u32, thread: &Thread)
    requires { 3 ≤ step.old.room }
    ensures { Moves (stop_or_trap former thread.now) 3 step.old step.new }
{
    if thread.options().exec {
        step.enter(thread.id, &Stop::Exec(former));
    } else {
        trap_new(step, thread);
    }
}

/// A thread, which had this id before, has a new program: caught actions become default ones.
fn new_program(step: &mut Step, former: u32, thread: &Thread)
    requires { 3 ≤ step.old.room }
    ensures { Moves (new_program former thread.now) 3 step.old step.new }
{
    step.change_group(thread.group, &GroupChange::ResetActions);
    stop_or_trap(step, former, thread);
}

/// The other threads begin to leave, and the thread waits for their deaths.
fn wait_for_others(step: &mut Step, thread: &Thread)
    requires { 1 ≤ step.old.room }
    ensures { Moves (wait_for_others thread.now) 0 step.old step.new }
{
    step.leave_for_exec(thread.group, thread.id, &End::Exited(0));
    step.change_thread(thread.id, &ThreadChange::BeginExec);
}

fn is_last(table: &Table, thread: &Thread) -> bool
    ensures { result ≡ (is_leader thread.now && others_dead table.now.table thread.now) }
{
    thread.is_leader() && table.others_dead(thread)
}

fn exec_thread(step: &mut Step, thread: &Thread)
    requires { 3 ≤ step.old.room }
    ensures { Moves (exec thread.now) 3 step.old step.new }
{
    if is_last(step.table(), thread) {
        new_program(step, thread.id, thread);
    } else {
        wait_for_others(step, thread);
    }
}

fn exec_at(step: &mut Step, tid: u32)
    requires { 3 ≤ step.old.room }
    ensures { Moves (at tid exec) 3 step.old step.new }
{
    if let Some(thread) = step.thread(tid) {
        exec_thread(step, &thread);
    }
}

/// Whether a thread's execve(2) is refused or due, as for each operation of a thread's own: ESRCH where there is no such
/// thread, then NotRunning where it doesn't run, then Busy where it has a mark to serve or a signal to take first.
pub fn check_exec(table: &Table, tid: u32) -> Result<Checked, Refusal>
    ensures { (actor : ℕ) → result ≡ check table.now.table actor (Exec tid) }
{
    check_script(table, tid)
}

/// An execve(2) that is due. A leader whose group has no other thread that isn't dead has its new program at once; else
/// the other threads begin to leave, and the thread waits for their deaths. Where memory is refused, or the numbers are
/// used up, nothing has changed.
pub fn exec(step: &mut Step, actor: u32, tid: u32) -> Result<Reply, AllocError>
    requires due { check step.old.work.table actor (Exec tid) ≡ Ok (Due no_choice) }
    ensures did { IfOk result (IsStepOf step.old.work.table (entry actor (Exec tid)) step.new) }
    ensures err { OnErr result (step.new.work.table ≡ step.old.work.table) }
{
    step.begin(3)?;
    exec_at(step, tid);
    step.complete_group_stops();
    Ok(Reply::Done)
}

fn new_program_at(step: &mut Step, tgid: u32, former: u32)
    requires { 3 ≤ step.old.room }
    ensures { Moves (at tgid (new_program former)) 3 step.old step.new }
{
    if let Some(thread) = step.thread(tgid) {
        new_program(step, former, &thread);
    }
}

/// The thread is the leader from now on, and has its new program.
fn finish_thread(step: &mut Step, thread: &Thread)
    requires { 4 ≤ step.old.room }
    ensures { Moves (finish thread.now) 4 step.old step.new }
{
    step.take_place(thread.id);
    step.change_thread(thread.group, &ThreadChange::EndExec);
    new_program_at(step, thread.group, thread.id);
}

fn finish_at(step: &mut Step, tid: u32)
    requires { 4 ≤ step.old.room }
    ensures { Moves (at tid finish) 4 step.old step.new }
{
    if let Some(thread) = step.thread(tid) {
        finish_thread(step, &thread);
    }
}

/// Whether the end of a thread's execve(2) is refused or due: ESRCH where there is no such thread, then NotDue where it
/// waits in no execve(2), or another thread of its group isn't dead.
pub fn check_finish(table: &Table, tid: u32) -> Result<Checked, Refusal>
    ensures { (actor : ℕ) → result ≡ check table.now.table actor (Finish tid) }
{
    let Some(thread) = table.find(tid) else {
        return Err(Refusal::Srch);
    };
    if thread.life.is_execing() && table.others_dead(thread) {
        Ok(Checked::Due(Choice::NONE))
    } else {
        Err(Refusal::NotDue)
    }
}

/// The end of an execve(2) that is due. A thread that isn't the leader takes the dead leader's place and id, and what
/// waits for it goes with it; then it runs its new program. Where memory is refused, or the numbers are used up, nothing
/// has changed.
pub fn finish(step: &mut Step, actor: u32, tid: u32) -> Result<Reply, AllocError>
    requires due { check step.old.work.table actor (Finish tid) ≡ Ok (Due no_choice) }
    ensures did { IfOk result (IsStepOf step.old.work.table (entry actor (Finish tid)) step.new) }
    ensures err { OnErr result (step.new.work.table ≡ step.old.work.table) }
{
    step.begin(4)?;
    finish_at(step, tid);
    step.complete_group_stops();
    Ok(Reply::Done)
}
