//! How a thread makes a thread of its group: clone(2) with `CLONE_THREAD`, and "PTRACE_EVENT_CLONE" of ptrace(2).

ghost use Rattle.std.specs.Prelude.{◌≡◌, ◌≤◌, ℕ, IfOk, OnErr, not};
ghost use Rattle.tr_tracee.specs.Threads.{options_of};
ghost use Rattle.tr_model.specs.Compare.{Permits};
ghost use Rattle.tr_model.specs.declared.events.Event.TheVariants.{CloneThread};
ghost use Rattle.tr_model.specs.Causes.{at_limit};
ghost use Rattle.tr_model.specs.Clones.{clone_stop};
ghost use Rattle.tr_model.specs.Moves.{when};
ghost use Rattle.tr_model.specs.Preferred.{check};
ghost use Rattle.tr_model.specs.Choices.{gives_id};
ghost use Rattle.tr_steps.specs.UnderWay.{IsStepOf, Moves};
ghost use Rattle.tr_requests.specs.Private.{stop_child};

use std::alloc::AllocError;
use tr_model::{Checked, Choice, MOST_MEMBERS, MOST_THREADS, Refusal, Reply, Target};
use tr_pending::Info;
use tr_signals::script;
use tr_sigset::Signal;
use tr_steps::Step;
use tr_table::Table;
use tr_tracee::{Stop, Thread};

/// 1,024 threads in the table, 64 in a group; dead ones count.
fn is_at_limit(table: &Table, thread: &Thread) -> bool
    ensures { result ≡ at_limit table.now.table thread.now }
{
    table.thread_count() >= MOST_THREADS || table.member_count(thread.group) >= MOST_MEMBERS
}

/// Whether a thread's clone(2) is refused or due: ESRCH, NotRunning and Busy as for each operation of a thread's own, then
/// EAGAIN where the table has 1,024 threads or the group 64. Due it is with the id of the new thread: the least free one
/// above the group's id, past the greatest id from 2 up.
pub fn check_clone_thread(table: &Table, tid: u32) -> Result<Checked, Refusal>
    ensures { (actor : ℕ) → result ≡ check table.now.table actor (CloneThread tid) }
{
    let Some(thread) = table.find(tid) else {
        return Err(Refusal::Srch);
    };
    if let Some(why) = script(table, thread) {
        return Err(why);
    }
    if is_at_limit(table, thread) {
        return Err(Refusal::Again);
    }
    Ok(Checked::Due(Choice::of_new_id(table.free_id(thread.group))))
}

fn stop_child(step: &mut Step, id: u32)
    requires { 1 ≤ step.old.room }
    ensures { Moves (stop_child id) 1 step.old step.new }
{
    let info = Info {
        code: 0,
        pid: 0,
        value: 0,
    };
    step.enqueue(Signal::STOP, &info, Target::Thread(id));
}

fn stop_child_unless(step: &mut Step, is_seized: bool, id: u32)
    requires { 1 ≤ step.old.room }
    ensures { Moves (when (not is_seized) (stop_child id)) 1 step.old step.new }
{
    if !is_seized {
        stop_child(step, id);
    }
}

/// The parent enters its stop, and the child of an attached tracee gets a SIGSTOP.
fn clone_stop(step: &mut Step, thread: &Thread, id: u32)
    requires { 2 ≤ step.old.room }
    ensures { Moves (clone_stop thread.now id) 2 step.old step.new }
{
    step.enter(thread.id, &Stop::Clone(id));
    stop_child_unless(step, thread.is_seized(), id);
}

fn clone_stop_where(step: &mut Step, thread: &Thread, id: u32)
    requires { 2 ≤ step.old.room }
    ensures { Moves (when (options_of thread.now.trace).clone
        (clone_stop thread.now id)) 2 step.old step.new }
{
    if thread.options().clone {
        clone_stop(step, thread, id);
    }
}

/// A clone(2) that is due: a thread with this id, which is any new one, comes last in the table, with the thread's mask
/// and an empty queue. With option clone it is traced as the thread is, which stops. Where memory is refused, or the
/// numbers are used up, nothing has changed.
pub fn clone_thread(step: &mut Step, actor: u32, tid: u32, id: u32) -> Result<Reply, AllocError>
    requires due { Permits step.old.work.table actor (CloneThread tid) (gives_id id) }
    ensures did { IfOk result
        (IsStepOf step.old.work.table
        (record { actor = actor; event = CloneThread tid; choice = gives_id id }) step.new) }
    ensures err { OnErr result (step.new.work.table ≡ step.old.work.table) }
{
    let thread = *step.table().find(tid).unwrap();
    let stop_mark = step.stop_now(thread.group).is_some();
    step.begin(2)?;
    step.add(&thread.child(id, stop_mark))?;
    clone_stop_where(step, &thread, id);
    step.complete_group_stops();
    Ok(Reply::Cloned { tid: id })
}
