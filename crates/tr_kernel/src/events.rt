ghost use Rattle.std.specs.Prelude.{◌≡◌, IfOk, OnErr};
ghost use Rattle.tr_model.specs.Compare.{Permits};
ghost use Rattle.tr_model.specs.Preferred.{check};
ghost use Rattle.tr_steps.specs.UnderWay.{IsStepOf};
ghost use Rattle.tr_kernel.specs.Private.{IsFixed, IsRare};

use std::alloc::{AllocError, Global};
use tr_ends::{
    check_die, check_exit, check_exit_group, check_starter_wait, check_wait, die, exit, exit_group,
    starter_wait, wait,
};
use tr_model::{Checked, Choice, Event, Refusal, Reply};
use tr_requests::{
    attach, check_attach, check_clone_thread, check_cont, check_detach, check_event_message,
    check_exec, check_finish, check_interrupt, check_listen, check_seize, check_set_options,
    check_signal_info, check_tracer_exit, clone_thread, cont, detach, exec, finish, interrupt,
    listen, seize, set_options, tracer_exit,
};
use tr_signals::{
    check_halt, check_kill, check_mask, check_pause, check_set_action, check_sigqueue, check_take,
    check_take_any, check_tgkill, check_trap, halt, kill, mask, pause, set_action, sigqueue, take,
    take_any, tgkill, trap,
};
use tr_steps::Step;
use tr_table::Table;

// Which call serves an event.

/// Whether an event is refused, answered at once, or due.
#[inline(always)]
pub(crate) fn check(table: &Table, actor: u32, event: &Event) -> Result<Checked, Refusal>
    ensures { result ≡ check table.now.table actor event.now }
{
    match event {
        Event::Kill { tgid, sig } => check_kill(table, *tgid, *sig),
        Event::Tgkill { tgid, tid, sig } => check_tgkill(table, *tgid, *tid, *sig),
        Event::Sigqueue { tgid, sig, value } => check_sigqueue(table, *tgid, *sig, *value),
        Event::Mask { tid, set } => check_mask(table, *tid, *set),
        Event::SetAction { tid, sig, how } => check_set_action(table, *tid, *sig, *how),
        Event::Pause { tid } => check_pause(table, *tid),
        Event::Take { tid } => check_take(table, *tid),
        Event::TakeAny { tgid } => check_take_any(table, *tgid),
        Event::Halt { tid } => check_halt(table, *tid),
        Event::Trap { tid } => check_trap(table, *tid),
        Event::Die { tid } => check_die(table, *tid),
        Event::CloneThread { tid } => check_clone_thread(table, *tid),
        Event::Exec { tid } => check_exec(table, *tid),
        Event::Finish { tid } => check_finish(table, *tid),
        Event::Exit { tid, code } => check_exit(table, *tid, *code),
        Event::ExitGroup { tid, code } => check_exit_group(table, *tid, *code),
        Event::Attach { tid } => check_attach(table, *tid),
        Event::Seize { tid, options } => check_seize(table, *tid, *options),
        Event::Interrupt { tid } => check_interrupt(table, actor, *tid),
        Event::Cont { tid, sig } => check_cont(table, actor, *tid, *sig),
        Event::Listen { tid } => check_listen(table, actor, *tid),
        Event::Detach { tid, sig } => check_detach(table, actor, *tid, *sig),
        Event::SetOptions { tid, options } => check_set_options(table, actor, *tid, *options),
        Event::EventMessage { tid } => check_event_message(table, actor, *tid),
        Event::SignalInfo { tid } => check_signal_info(table, actor, *tid),
        Event::TracerExit => check_tracer_exit(table, actor),
        Event::Wait { which } => check_wait(table, actor, *which),
        Event::StarterWait { which, flags } => check_starter_wait(table, actor, *which, *flags),
    }
}

/// Makes an event that is due, with any choice that the model admits. Where memory is refused nothing has changed.
///
/// What makes a frequent event is inlined, but for a mask. A reply that comes through memory is taken out of it here, so that
/// the others' needs none.
#[inline(always)]
pub(crate) fn change(
    step: &mut Step,
    alloc: Global,
    actor: u32,
    event: &Event,
    choice: Choice,
) -> Result<Reply, AllocError>
    requires due { Permits step.old.work.table actor event.now choice }
    requires fixed { IsFixed step.old.work.table actor event.now choice }
    ensures did { IfOk result
        (IsStepOf step.old.work.table
        (record { actor = actor; event = event.now; choice = choice }) step.new) }
    ensures err { OnErr result (step.new.work.table ≡ step.old.work.table) }
{
    match event {
        Event::Kill { tgid, sig } => kill(step, actor, *tgid, *sig),
        Event::Sigqueue { tgid, sig, value } => sigqueue(step, actor, *tgid, *sig, *value),
        Event::Mask { tid, set } => {
            let reply = mask(step, actor, *tid, *set)?;
            Ok(reply)
        }
        Event::Take { tid } => take(step, actor, *tid, choice.instance().unwrap()),
        Event::TakeAny { tgid } => take_any(
            step,
            actor,
            *tgid,
            choice.thread().unwrap(),
            choice.instance().unwrap(),
        ),
        Event::Halt { tid } => halt(step, actor, *tid),
        Event::Trap { tid } => trap(step, actor, *tid),
        Event::Cont { tid, sig } => cont(step, actor, *tid, *sig),
        Event::Wait { which } => wait(step, actor, *which, choice.report().unwrap()),
        _ => {
            let reply = change_rarely(step, alloc, actor, event, choice)?;
            Ok(reply)
        }
    }
}

/// Makes a rare event that is due, as `change`.
#[cold]
#[inline(never)]
fn change_rarely(
    step: &mut Step,
    alloc: Global,
    actor: u32,
    event: &Event,
    choice: Choice,
) -> Result<Reply, AllocError>
    requires due { Permits step.old.work.table actor event.now choice }
    requires fixed { IsFixed step.old.work.table actor event.now choice }
    requires rare { IsRare event.now }
    ensures did { IfOk result
        (IsStepOf step.old.work.table
        (record { actor = actor; event = event.now; choice = choice }) step.new) }
    ensures err { OnErr result (step.new.work.table ≡ step.old.work.table) }
{
    match event {
        Event::Tgkill { tgid, tid, sig } => tgkill(step, actor, *tgid, *tid, *sig),
        Event::SetAction { tid, sig, how } => set_action(step, actor, *tid, *sig, *how),
        Event::Pause { tid } => pause(step, actor, *tid),
        Event::Die { tid } => die(step, actor, *tid),
        Event::CloneThread { tid } => clone_thread(step, actor, *tid, choice.new_id().unwrap()),
        Event::Exec { tid } => exec(step, actor, *tid),
        Event::Finish { tid } => finish(step, actor, *tid),
        Event::Exit { tid, code } => exit(step, actor, *tid, *code),
        Event::ExitGroup { tid, code } => exit_group(step, actor, *tid, *code),
        Event::Attach { tid } => attach(step, actor, *tid),
        Event::Seize { tid, options } => seize(step, actor, *tid, *options),
        Event::Interrupt { tid } => interrupt(step, actor, *tid),
        Event::Listen { tid } => listen(step, actor, *tid),
        Event::Detach { tid, sig } => detach(step, actor, *tid, *sig),
        Event::SetOptions { tid, options } => set_options(step, actor, *tid, *options),
        Event::TracerExit => tracer_exit(step, alloc, actor),
        Event::StarterWait { which, flags } => starter_wait(
            step,
            actor,
            *which,
            *flags,
            choice.report().unwrap(),
        ),
        _ => unreachable!(),
    }
}
