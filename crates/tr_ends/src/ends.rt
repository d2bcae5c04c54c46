//! How threads and groups end: _exit(2), exit_group(2), and "PTRACE_EVENT_EXIT" and "Death under ptrace" of ptrace(2).

ghost use Rattle.std.specs.Prelude.{◌≡◌, ◌≤◌, ℕ, IfOk, Ok, OnErr};
ghost use Rattle.tr_tracee.specs.declared.life.Life.TheVariants as life;
ghost use Rattle.tr_model.specs.declared.checked.Checked.TheVariants.{Due};
ghost use Rattle.tr_model.specs.declared.events.Event.TheVariants.{Die, Exit, ExitGroup};
ghost use Rattle.tr_model.specs.Ends.{bury, die, die_and_flush, end_of_dead, exit, exit_group, exited, last_death, pass_on, remove_thread, report_if_last, report_leader, reported_end, word_of_end};
ghost use Rattle.tr_model.specs.Moves.{at, report_death};
ghost use Rattle.tr_model.specs.Preferred.{check};
ghost use Rattle.tr_model.specs.Choices.{no_choice};
ghost use Rattle.tr_steps.specs.UnderWay.{IsStepOf, Moves, entry};
ghost use Rattle.tr_ends.specs.Private.{leave_or_stop};

use std::alloc::AllocError;
use tr_model::{Checked, Choice, Refusal, Reply, Target};
use tr_signals::check_script;
use tr_steps::Step;
use tr_table::Table;
use tr_threads::ThreadChange;
use tr_tracee::{End, Life, Stop, Thread};
use tr_wait::encode;

// Exits

/// The low byte of a code counts.
fn exited(code: u32) -> End
    ensures { result ≡ exited code }
{
    End::Exited((code % 256) as u8)
}

/// The word that a wait would give for an end.
fn word_of_end(end: &End) -> u32
    ensures { result ≡ word_of_end end.now }
{
    encode(end.status()).0
}

fn leave_or_stop(step: &mut Step, thread: &Thread, end: &End)
    requires { 1 ≤ step.old.room }
    ensures { Moves (leave_or_stop thread.now end.now) 1 step.old step.new }
{
    if thread.options().exit {
        step.enter(thread.id, &Stop::Exit(word_of_end(end)));
    } else {
        step.change_thread(thread.id, &ThreadChange::Leave(*end));
    }
}

/// A thread exits: with option exit it stops before it leaves.
fn exit_thread(step: &mut Step, thread: &Thread, code: u32)
    requires { 1 ≤ step.old.room }
    ensures { Moves (exit thread.now code) 1 step.old step.new }
{
    step.change_thread(thread.id, &ThreadChange::Unmark);
    leave_or_stop(step, thread, &exited(code));
}

fn exit_at(step: &mut Step, tid: u32, code: u32)
    requires { 1 ≤ step.old.room }
    ensures { Moves (at tid (λ t. exit t code)) 1 step.old step.new }
{
    if let Some(thread) = step.thread(tid) {
        exit_thread(step, &thread, code);
    }
}

/// Whether a thread's exit is refused or due, as for each operation of a thread's own: ESRCH where there is no such
/// thread, then NotRunning where it doesn't run, then Busy where it has a mark to serve or a signal to take first.
pub fn check_exit(table: &Table, tid: u32, code: u32) -> Result<Checked, Refusal>
    ensures { (actor : ℕ) → result ≡ check table.now.table actor (Exit tid code) }
{
    check_script(table, tid)
}

/// An exit of a thread that is due: _exit(2), with the low byte of the code. Where memory is refused, or the numbers are
/// used up, nothing has changed.
pub fn exit(step: &mut Step, actor: u32, tid: u32, code: u32) -> Result<Reply, AllocError>
    requires due { check step.old.work.table actor (Exit tid code) ≡ Ok (Due no_choice) }
    ensures did { IfOk result
        (IsStepOf step.old.work.table (entry actor (Exit tid code)) step.new) }
    ensures err { OnErr result (step.new.work.table ≡ step.old.work.table) }
{
    step.begin(1)?;
    exit_at(step, tid, code);
    step.complete_group_stops();
    Ok(Reply::Done)
}

fn exit_group_at(step: &mut Step, tid: u32, code: u32)
    requires { 1 ≤ step.old.room }
    ensures { Moves (at tid (exit_group code)) 1 step.old step.new }
{
    if let Some(thread) = step.thread(tid) {
        let tgid = thread.group;
        step.begin_death(tgid, &exited(code), false);
    }
}

/// Whether a thread's exit of its group is refused or due, as for each operation of a thread's own: ESRCH where there is
/// no such thread, then NotRunning where it doesn't run, then Busy where it has a mark to serve or a signal to take first.
pub fn check_exit_group(table: &Table, tid: u32, code: u32) -> Result<Checked, Refusal>
    ensures { (actor : ℕ) → result ≡ check table.now.table actor (ExitGroup tid code) }
{
    check_exit(table, tid, code)
}

/// An exit of a thread's group that is due: exit_group(2), with the low byte of the code. Where memory is refused, or the
/// numbers are used up, nothing has changed.
pub fn exit_group(step: &mut Step, actor: u32, tid: u32, code: u32) -> Result<Reply, AllocError>
    requires due { check step.old.work.table actor (ExitGroup tid code) ≡ Ok (Due no_choice) }
    ensures did { IfOk result
        (IsStepOf step.old.work.table (entry actor (ExitGroup tid code)) step.new) }
    ensures err { OnErr result (step.new.work.table ≡ step.old.work.table) }
{
    step.begin(1)?;
    exit_group_at(step, tid, code);
    step.complete_group_stops();
    Ok(Reply::Done)
}

// Deaths

/// The end that a death report tells: the group's where it is dying, else the thread's own.
fn reported_end(table: &Table, thread: &Thread, end: &End) -> End
    ensures { result ≡ reported_end table.now.table thread.now end.now }
{
    table.end_of(thread.group).unwrap_or(*end)
}

/// How a dead thread ended.
fn end_of_dead(life: &Life) -> End
    ensures { result ≡ end_of_dead life.now }
{
    match life {
        Life::Dead(end) => *end,
        _ => End::Exited(0),
    }
}

fn report_end(step: &mut Step, thread: &Thread, end: &End)
    requires { 1 ≤ step.old.room }
    ensures { Moves (λ w. report_death thread.now.id
        (reported_end w.table thread.now end.now) w) 1 step.old step.new }
{
    let told = reported_end(step.table(), thread, end);
    step.report_death(thread.id, &told);
}

/// The report of a dead leader, for its tracer, else for the starter.
pub(crate) fn report_leader(step: &mut Step, thread: &Thread)
    requires { 1 ≤ step.old.room }
    ensures { Moves (report_leader thread.now) 1 step.old step.new }
{
    report_end(step, thread, &end_of_dead(&thread.life));
}

fn report_leader_at(step: &mut Step, tgid: u32)
    requires { 1 ≤ step.old.room }
    ensures { Moves (at tgid report_leader) 1 step.old step.new }
{
    if let Some(thread) = step.thread(tgid) {
        report_leader(step, &thread);
    }
}

/// With a group's last thread the shared queue goes, and the leader's death is reported.
fn last_death(step: &mut Step, tgid: u32)
    requires { 1 ≤ step.old.room }
    ensures { Moves (last_death tgid) 1 step.old step.new }
{
    step.flush_queue(Target::Group(tgid));
    report_leader_at(step, tgid);
}

fn report_if_last(step: &mut Step, tgid: u32)
    requires { 1 ≤ step.old.room }
    ensures { Moves (report_if_last tgid) 1 step.old step.new }
{
    if step.table().all_dead(tgid) {
        last_death(step, tgid);
    }
}

/// A dead thread that isn't the leader goes, unless its tracer has to learn of its death.
fn bury(step: &mut Step, thread: &Thread, end: &End)
    requires { 1 ≤ step.old.room }
    ensures { Moves (bury thread.now end.now) 1 step.old step.new }
{
    if thread.is_leader() {
        return;
    }
    if thread.is_traced() {
        report_end(step, thread, end);
    } else {
        step.remove_dead(thread.id);
    }
}

/// A leaving thread is dead, and what waits for it is flushed.
fn die_and_flush(step: &mut Step, thread: &Thread)
    requires { 1 ≤ step.old.room }
    ensures { Moves (die_and_flush thread.now) 0 step.old step.new }
{
    step.change_thread(thread.id, &ThreadChange::Die);
    step.flush_queue(Target::Thread(thread.id));
}

fn die_told(step: &mut Step, thread: &Thread, end: &End)
    requires { 2 ≤ step.old.room }
    ensures { Moves (λ w. report_if_last thread.now.group
        (bury thread.now end.now (die_and_flush thread.now w))) 2 step.old step.new }
{
    die_and_flush(step, thread);
    bury(step, thread, end);
    report_if_last(step, thread.group);
}

/// A leaving thread dies; one that isn't told is in its exit stop first.
fn leave_life(step: &mut Step, thread: &Thread, end: &End, told: bool)
    requires { 2 ≤ step.old.room }
    ensures { Moves (die thread.now (life.Leaving end.now told)) 2 step.old step.new }
{
    if told {
        die_told(step, thread, end);
    } else {
        step.enter(thread.id, &Stop::Exit(word_of_end(end)));
    }
}

fn die_thread(step: &mut Step, thread: &Thread)
    requires { 2 ≤ step.old.room }
    ensures { Moves (die thread.now thread.now.life) 2 step.old step.new }
{
    if let Life::Leaving { end, told } = &thread.life {
        leave_life(step, thread, end, *told);
    }
}

fn die_at(step: &mut Step, tid: u32)
    requires { 2 ≤ step.old.room }
    ensures { Moves (at tid (λ t. die t t.life)) 2 step.old step.new }
{
    if let Some(thread) = step.thread(tid) {
        die_thread(step, &thread);
    }
}

/// Whether the next step of a leaving thread is refused or due: ESRCH where there is no such thread, then NotDue where
/// it doesn't leave.
pub fn check_die(table: &Table, tid: u32) -> Result<Checked, Refusal>
    ensures { (actor : ℕ) → result ≡ check table.now.table actor (Die tid) }
{
    let Some(thread) = table.find(tid) else {
        return Err(Refusal::Srch);
    };
    if !thread.life.is_leaving() {
        return Err(Refusal::NotDue);
    }
    Ok(Checked::Due(Choice::NONE))
}

/// The next step of a leaving thread, which is due: it dies, or where its tracer asks for that and it wasn't told yet it
/// enters its exit stop: "PTRACE_EVENT_EXIT" and "Death under ptrace" of ptrace(2). Where memory is refused, or the
/// numbers are used up, nothing has changed.
pub fn die(step: &mut Step, actor: u32, tid: u32) -> Result<Reply, AllocError>
    requires due { check step.old.work.table actor (Die tid) ≡ Ok (Due no_choice) }
    ensures did { IfOk result (IsStepOf step.old.work.table (entry actor (Die tid)) step.new) }
    ensures err { OnErr result (step.new.work.table ≡ step.old.work.table) }
{
    step.begin(2)?;
    die_at(step, tid);
    step.complete_group_stops();
    Ok(Reply::Done)
}

/// A dead thread goes, and its group with its last thread.
pub(crate) fn remove_thread(step: &mut Step, thread: &Thread)
    ensures { Moves (remove_thread thread.now) 0 step.old step.new }
{
    step.remove_dead(thread.id);
    step.drop_empty(thread.group);
}

/// A dead leader is without its tracer: a report that it has passes to the starter.
pub(crate) fn pass_on(step: &mut Step, thread: &Thread)
    requires { 1 ≤ step.old.room }
    ensures { Moves (pass_on thread.now thread.now.report) 1 step.old step.new }
{
    step.change_thread(thread.id, &ThreadChange::Release);
    if thread.report.is_some() {
        report_leader(step, thread);
    }
}
