//! How a thread sets an action of its group: sigaction(2).

ghost use Rattle.std.specs.Prelude.{◌≡◌, ◌≤◌, ◌==◌, ◌||◌, ℕ, IfOk, Ok, OnErr, nat_lt};
ghost use Rattle.tr_model.specs.declared.checked.Checked.TheVariants.{Due};
ghost use Rattle.tr_model.specs.declared.events.Event.TheVariants.{SetAction};
ghost use Rattle.tr_model.specs.Moves.{at, when};
ghost use Rattle.tr_model.specs.Preferred.{check};
ghost use Rattle.tr_model.specs.Sends.{flush_in, set_action};
ghost use Rattle.tr_model.specs.Choices.{no_choice};
ghost use Rattle.tr_steps.specs.UnderWay.{IsStepOf, Moves, entry};

use crate::scripts::script;
use std::alloc::AllocError;
use tr_group::Action;
use tr_model::{Checked, Choice, Refusal, Reply};
use tr_queues::Flush;
use tr_sigset::Signal;
use tr_steps::Step;
use tr_table::{GroupChange, Table};
use tr_tracee::Thread;

/// No action of KILL and STOP can be set.
fn cannot_be_set(sig: u8) -> bool
    ensures { result ≡ (sig == 0 || sig == 9 || sig == 19 || nat_lt 64 sig) }
{
    match Signal::new(sig) {
        Some(signal) => signal == Signal::KILL || signal == Signal::STOP,
        None => true,
    }
}

fn flush_where(step: &mut Step, ignores: bool, tgid: u32, signal: Signal)
    requires { 1 ≤ step.old.room }
    ensures { Moves (when ignores (flush_in tgid (λ n. n == signal))) 0 step.old step.new }
{
    if ignores {
        step.flush(tgid, &Flush::One(signal));
    }
}

/// A new action of a signal: one that ignores flushes what waits of the signal in all queues of the group.
fn set_for(step: &mut Step, thread: &Thread, signal: Signal, how: Action)
    requires { 1 ≤ step.old.room }
    ensures { Moves (set_action signal how thread.now) 0 step.old step.new }
{
    let ignores = how.ignores(signal);
    step.change_group(thread.group, &GroupChange::Act(signal, how));
    flush_where(step, ignores, thread.group, signal);
}

fn set_at(step: &mut Step, tid: u32, signal: Signal, how: Action)
    requires { 1 ≤ step.old.room }
    ensures { Moves (at tid (set_action signal how)) 0 step.old step.new }
{
    if let Some(thread) = step.thread(tid) {
        set_for(step, &thread, signal, how);
    }
}

/// Whether a thread's setting of an action is refused or due: ESRCH, NotRunning and Busy as for each operation of a
/// thread's own, then EINVAL for KILL, STOP and what is no signal.
pub fn check_set_action(table: &Table, tid: u32, sig: u8, how: Action) -> Result<Checked, Refusal>
    ensures { (actor : ℕ) → result ≡ check table.now.table actor (SetAction tid sig how) }
{
    let Some(thread) = table.find(tid) else {
        return Err(Refusal::Srch);
    };
    if let Some(why) = script(table, thread) {
        return Err(why);
    }
    if cannot_be_set(sig) {
        return Err(Refusal::Inval);
    }
    Ok(Checked::Due(Choice::NONE))
}

/// A setting of an action that is due: sigaction(2). A new action that ignores flushes what waits of the signal in all
/// queues of the group. Where memory is refused, or the numbers are used up, nothing has changed.
pub fn set_action(
    step: &mut Step,
    actor: u32,
    tid: u32,
    sig: u8,
    how: Action,
) -> Result<Reply, AllocError>
    requires due { check step.old.work.table actor (SetAction tid sig how) ≡ Ok (Due no_choice) }
    ensures did { IfOk result
        (IsStepOf step.old.work.table (entry actor (SetAction tid sig how)) step.new) }
    ensures err { OnErr result (step.new.work.table ≡ step.old.work.table) }
{
    let signal = Signal::new(sig).unwrap();
    step.begin(1)?;
    set_at(step, tid, signal, how);
    step.complete_group_stops();
    Ok(Reply::Done)
}
