//! Waits of a tracer: waitpid(2) with `__WALL`, and "Death under ptrace" of ptrace(2).

ghost use Rattle.std.specs.Prelude.{◌≡◌, ◌≤◌, IfOk, None, OnErr, option_copied};
ghost use Rattle.tr_model.specs.Compare.{Permits};
ghost use Rattle.tr_model.specs.declared.events.Event.TheVariants.{Wait};
ghost use Rattle.tr_model.specs.Preferred.{check};
ghost use Rattle.tr_model.specs.Steps.{waited, waited_note, waited_thread};
ghost use Rattle.tr_model.specs.Choices.{gives_report};
ghost use Rattle.tr_model.specs.Waits.{consume, has_report, ready, ready_thread, report_number};
ghost use Rattle.tr_steps.specs.UnderWay.{IsStepOf, Moves};
ghost use Rattle.tr_ends.specs.KnownDeaths.{consume_death};
ghost use Rattle.tr_ends.specs.Private.{due_report, first_number};

use crate::ends::{pass_on, remove_thread};
use std::alloc::AllocError;
use tr_model::{Checked, Choice, Group, Refusal, Reply};
use tr_steps::Step;
use tr_table::Table;
use tr_threads::ThreadChange;
use tr_tracee::{Report, Thread};
use tr_wait::{Which, encode};

/// Due with the first report that is ready; without one nothing is given.
pub(crate) fn due_report(ready: Option<u64>) -> Checked
    ensures { result ≡ due_report ready }
{
    match ready {
        Some(number) => Checked::Due(Choice::of_report(number)),
        None => Checked::Quiet(Reply::Nothing),
    }
}

pub(crate) fn number_of(report: &Option<Report>) -> Option<u64>
    ensures { result ≡ first_number (report_number report.now) }
{
    report.as_ref().map(|report| report.number)
}

pub(crate) fn has_report(report: &Option<Report>, number: u64) -> bool
    ensures { result ≡ has_report number report.now }
{
    report
        .as_ref()
        .is_some_and(|report| report.number == number)
}

/// The first report, in table order, of the actor's tracees that it asks for.
#[tactic(auto, using(crate::proofs::Firsts::first_reported))]
fn first_ready(table: &Table, actor: u32, which: Which) -> Option<u64>
    ensures { result ≡ first_number (ready table.now.table actor which) }
{
    let thread = table.reported(actor, which, None)?;
    number_of(&thread.report)
}

/// The first of the actor's tracees that it asks for that has the report of this number.
#[tactic(auto, using(crate::proofs::Firsts::with_number))]
pub fn ready_thread(table: &Table, actor: u32, which: Which, number: u64) -> Option<&Thread>
    ensures { option_copied result ≡ ready_thread table.now.table actor which number }
{
    table.reported(actor, which, Some(number))
}

/// Whether a wait of a tracer is refused, answered Nothing, or due with the first report in table order. ECHILD comes
/// where the actor traces no thread that it asks for.
pub fn check_wait(table: &Table, actor: u32, which: Which) -> Result<Checked, Refusal>
    ensures { result ≡ check table.now.table actor (Wait which) }
{
    if !table.has_asked(actor, which) {
        return Err(Refusal::Child);
    }
    Ok(due_report(first_ready(table, actor, which)))
}

/// What a wait that gives a report of this thread or group tells.
#[inline(always)]
fn waited(id: u32, report: &Option<Report>) -> Reply
    ensures { result ≡ waited id report.now }
{
    match report {
        Some(report) => Reply::Waited {
            id,
            word: encode(report.status).0,
            report: report.number,
        },
        None => Reply::Nothing,
    }
}

fn waited_note(group: &Option<Group>) -> Reply
    ensures { result ≡ waited_note group.now }
{
    match group {
        Some(group) => waited(group.tgid, &group.note),
        None => Reply::Nothing,
    }
}

pub(crate) fn waited_thread(thread: &Option<Thread>, group: &Option<Group>) -> Reply
    ensures { result ≡ waited_thread thread.now group.now }
{
    match thread {
        Some(thread) => waited(thread.id, &thread.report),
        None => waited_note(group),
    }
}

/// A dead thread goes, but a leader stays, and its death passes to the starter.
pub fn consume_death(step: &mut Step, thread: &Thread)
    requires { 1 ≤ step.old.room }
    ensures { Moves (consume_death thread.now) 1 step.old step.new }
{
    if thread.is_leader() {
        pass_on(step, thread);
    } else {
        remove_thread(step, thread);
    }
}

/// A tracer's wait gives the report of a thread. A dead thread goes then, but a leader's death passes to the starter.
fn consume(step: &mut Step, thread: &Thread)
    requires { 1 ≤ step.old.room }
    ensures { Moves (consume thread.now) 1 step.old step.new }
{
    if thread.life.is_dead() {
        consume_death(step, thread);
    } else {
        step.change_thread(thread.id, &ThreadChange::WithdrawReport);
    }
}

/// A wait of a tracer that is due, for the report of this number: waitpid(2) with `__WALL` and `WNOHANG`. The report is
/// gone then. A death that is told takes the thread out of the table, but a leader stays for the starter, who is told
/// next. Where memory is refused, or the numbers are used up, nothing has changed.
#[inline(always)]
pub fn wait(step: &mut Step, actor: u32, which: Which, r: u64) -> Result<Reply, AllocError>
    requires due { Permits step.old.work.table actor (Wait which) (gives_report r) }
    ensures did { IfOk result
        (IsStepOf step.old.work.table
        (record { actor = actor; event = Wait which; choice = gives_report r }) step.new) }
    ensures err { OnErr result (step.new.work.table ≡ step.old.work.table) }
{
    let thread = *ready_thread(step.table(), actor, which, r).unwrap();
    let reply = waited(thread.id, &thread.report);
    step.begin(1)?;
    consume(step, &thread);
    step.complete_group_stops();
    Ok(reply)
}
