//! What becomes of the tracees of a tracer that ends: "PTRACE_O_EXITKILL" and "Attaching and detaching" of ptrace(2).

ghost use Rattle.std.specs.Prelude.{◌≡◌, ◌≤◌, ◌*◌, IfOk, Ok, OnErr, Some, filter, length};
ghost use Rattle.tr_tracee.specs.Lives.{held};
ghost use Rattle.tr_model.specs.declared.checked.Checked.TheVariants.{Due};
ghost use Rattle.tr_model.specs.declared.events.Event.TheVariants.{TracerExit};
ghost use Rattle.tr_model.specs.Moves.{at, each};
ghost use Rattle.tr_model.specs.Preferred.{check};
ghost use Rattle.tr_model.specs.Restarts.{detach};
ghost use Rattle.tr_model.specs.Tracers.{exit_kill, held_signal, leave_tracer, lose_tracer, tracees};
ghost use Rattle.tr_model.specs.Choices.{no_choice};
ghost use Rattle.tr_model.specs.Tables.{ids_of, thread_in, thread_of};
ghost use Rattle.tr_threads.specs.Tracing.{passes};
ghost use Rattle.tr_steps.specs.UnderWay.{IsStepOf, Moves, entry};
ghost use Rattle.tr_requests.specs.Private.{is_to_kill};

use crate::restarts::detach_thread;
use std::alloc::{AllocError, Global};
use tr_ends::consume_death;
use tr_model::{Checked, Choice, Fate, Refusal, Reply};
use tr_sigset::Signal;
use tr_steps::Step;
use tr_table::Table;
use tr_tracee::Thread;

/// Whether the thread with the id is a tracee of the actor that is to be killed as it ends.
fn is_to_kill(table: &Table, actor: u32, id: u32) -> bool
    ensures { result ≡ passes (is_to_kill actor) (thread_in table.now.table.threads id) }
{
    match table.find(id) {
        Some(thread) => {
            thread.is_tracee_of(actor) && thread.options().exitkill && !thread.life.is_dead()
        }
        None => false,
    }
}

/// The ids of an actor's tracees, in table order.
fn tracees(table: &Table, alloc: Global, actor: u32) -> Result<Vec<u32>, AllocError>
    ensures { IfOk result (λ v. v.items ≡ ids_of (tracees table.now.table actor)) }
{
    table
        .tracees(actor)
        .iter()
        .map(|tracee| tracee.id)
        .collect(alloc)
}

/// The ids of an actor's tracees that are to be killed as it ends, in table order.
#[tactic(auto, using(crate::proofs::Leaving::killed_by_ids))]
fn to_kill(table: &Table, alloc: Global, actor: u32) -> Result<Vec<u32>, AllocError>
    ensures { IfOk result (λ v. v.items ≡ ids_of (filter (is_to_kill actor) table.now.table.threads)) }
{
    table
        .tracees(actor)
        .iter()
        .map(|row| row.id)
        .filter(|id| is_to_kill(table, actor, *id))
        .collect(alloc)
}

fn kill_at(step: &mut Step, id: u32)
    requires { 3 ≤ step.old.room }
    ensures { Moves (at id exit_kill) 3 step.old step.new }
{
    if let Some(thread) = step.thread(id) {
        step.accept_as(Fate::Delivered);
        step.kill_group(thread.group);
    }
}

/// Each of these threads' groups is killed, in their order.
fn kill_each(step: &mut Step, ids: &[u32])
    requires { 3 * length ids.now ≤ step.old.room }
    ensures { Moves (each ids.now (λ id. at id exit_kill)) (3 * length ids.now) step.old step.new }
{
    for i in 0..ids.len() {
        kill_at(step, ids[i]);
    }
}

/// The number of the signal that it holds, else 0.
fn held_number(thread: &Thread) -> u8
    ensures number { result ≡ held_signal (held thread.now.life) }
    ensures few { result ≤ 64 }
{
    thread.life.held().map_or(0, |held| held.sig.number())
}

fn leave_living(step: &mut Step, thread: &Thread)
    requires room { 3 ≤ step.old.room }
    requires there { thread_of step.old.work.table thread.now.id ≡ Some thread.now }
    ensures { Moves (detach (held_signal (held thread.now.life)) thread.now) 3 step.old step.new }
{
    let signal = Signal::new(held_number(thread));
    detach_thread(step, thread, signal);
}

/// A tracee is left with what it holds; a dead one goes, but a leader stays for the starter.
fn leave_tracer(step: &mut Step, thread: &Thread)
    requires room { 3 ≤ step.old.room }
    requires there { thread_of step.old.work.table thread.now.id ≡ Some thread.now }
    ensures { Moves (leave_tracer thread.now) 3 step.old step.new }
{
    if thread.life.is_dead() {
        consume_death(step, thread);
    } else {
        leave_living(step, thread);
    }
}

/// The thread, if the actor traces it, is left with what it holds.
fn leave_at(step: &mut Step, actor: u32, id: u32)
    requires { 3 ≤ step.old.room }
    ensures { Moves (at id (lose_tracer actor)) 3 step.old step.new }
{
    if let Some(thread) = step.thread(id) {
        if thread.is_tracee_of(actor) {
            leave_tracer(step, &thread);
        }
    }
}

/// Each of these threads is left by its tracer, in their order.
fn leave_each(step: &mut Step, actor: u32, ids: &[u32])
    requires { 3 * length ids.now ≤ step.old.room }
    ensures { Moves (each ids.now (λ id. at id (lose_tracer actor)))
        (3 * length ids.now) step.old step.new }
{
    for i in 0..ids.len() {
        leave_at(step, actor, ids[i]);
    }
}

/// What the end of a tracer is answered: Nothing where the actor traces no thread, else it is due. It is never refused.
pub fn check_tracer_exit(table: &Table, actor: u32) -> Result<Checked, Refusal>
    ensures { result ≡ check table.now.table actor TracerExit }
{
    if table.tracees(actor).is_empty() {
        Ok(Checked::Quiet(Reply::Nothing))
    } else {
        Ok(Checked::Due(Choice::NONE))
    }
}

/// The end of a tracer that is due. First each group of its tracees with option exitkill that aren't dead is killed, in
/// table order; then each tracee is left, in table order: detached with the number that it holds, else with 0. A dead one
/// goes, but a leader stays, and its report passes to the starter. Where memory is refused, or the numbers are used up,
/// nothing has changed.
pub fn tracer_exit(step: &mut Step, alloc: Global, actor: u32) -> Result<Reply, AllocError>
    requires due { check step.old.work.table actor TracerExit ≡ Ok (Due no_choice) }
    ensures did { IfOk result (IsStepOf step.old.work.table (entry actor TracerExit) step.new) }
    ensures err { OnErr result (step.new.work.table ≡ step.old.work.table) }
{
    let killed = to_kill(step.table(), alloc, actor)?;
    let left = tracees(step.table(), alloc, actor)?;
    step.begin(3 * killed.len() + 3 * left.len())?;
    kill_each(step, &killed);
    leave_each(step, actor, &left);
    step.complete_group_stops();
    Ok(Reply::Done)
}
