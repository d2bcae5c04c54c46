//! How a thread comes to be traced, and what its tracer asks of it while it runs: ptrace(2).

ghost use Rattle.std.specs.Prelude.{◌≡◌, ◌≤◌, ℕ, IfOk, Ok, OnErr};
ghost use Rattle.tr_model.specs.declared.checked.Checked.TheVariants.{Due};
ghost use Rattle.tr_model.specs.declared.events.Event.TheVariants.{Attach, Interrupt, Seize, SetOptions};
ghost use Rattle.tr_model.specs.Causes.{cause_unless_stopped, traceable};
ghost use Rattle.tr_model.specs.Moves.{at};
ghost use Rattle.tr_model.specs.Preferred.{check};
ghost use Rattle.tr_model.specs.Tracing.{attach, seize, trace};
ghost use Rattle.tr_model.specs.Choices.{no_choice};
ghost use Rattle.tr_steps.specs.UnderWay.{IsStepOf, Moves, entry};
ghost use Rattle.tr_requests.specs.Private.{attach_sends};

use std::alloc::AllocError;
use tr_model::{Checked, Choice, Refusal, Reply, Target};
use tr_pending::Info;
use tr_signals::{change_own, fate_in, show_stop};
use tr_sigset::Signal;
use tr_steps::Step;
use tr_table::Table;
use tr_threads::ThreadChange;
use tr_tracee::{Options, Thread, Trace};

/// Why nobody can attach to a thread: it is traced, not live, or its group is dying.
fn traceable(table: &Table, thread: &Thread) -> Option<Refusal>
    ensures { result ≡ traceable table.now.table thread.now }
{
    if !thread.is_traced() && thread.life.is_live() && table.end_of(thread.group).is_none() {
        None
    } else {
        Some(Refusal::Perm)
    }
}

/// Why a request on a ptrace-stop is refused: the thread isn't a tracee of the actor, or in no ptrace-stop.
pub(crate) fn stopped(actor: u32, thread: &Thread) -> Option<Refusal>
    ensures { result ≡ cause_unless_stopped actor thread.now }
{
    if thread.is_tracee_of(actor) && thread.life.is_in_stop() {
        None
    } else {
        Some(Refusal::Srch)
    }
}

fn trace(step: &mut Step, actor: u32, seized: bool, options: Options, thread: &Thread)
    ensures { Moves (trace actor seized options thread.now) 0 step.old step.new }
{
    let trace = Trace {
        tracer: actor,
        seized,
        options,
    };
    step.change_thread(thread.id, &ThreadChange::TraceBy(trace));
}

/// SIGSTOP, as `PTRACE_ATTACH` sends it: by the kernel.
fn send_stop(step: &mut Step, thread: &Thread)
    requires { 3 ≤ step.old.room }
    ensures { Moves (attach_sends thread.now) 3 step.old step.new }
{
    let info = Info {
        code: 128,
        pid: 0,
        value: 0,
    };
    step.send(Signal::STOP, &info, Target::Thread(thread.id));
}

fn attach_to(step: &mut Step, actor: u32, thread: &Thread)
    requires { 4 ≤ step.old.room }
    ensures { Moves (attach actor thread.now) 4 step.old step.new }
{
    trace(step, actor, false, Options::NONE, thread);
    send_stop(step, thread);
    show_stop(step, thread);
}

fn attach_at(step: &mut Step, actor: u32, tid: u32)
    requires { 4 ≤ step.old.room }
    ensures { Moves (at tid (attach actor)) 4 step.old step.new }
{
    if let Some(thread) = step.thread(tid) {
        attach_to(step, actor, &thread);
    }
}

/// Whether an attach to a thread is refused or due: ESRCH where there is no such thread, then EPERM where it is traced,
/// not live, or its group is dying.
pub fn check_attach(table: &Table, tid: u32) -> Result<Checked, Refusal>
    ensures { (actor : ℕ) → result ≡ check table.now.table actor (Attach tid) }
{
    let Some(thread) = table.find(tid) else {
        return Err(Refusal::Srch);
    };
    match traceable(table, thread) {
        Some(why) => Err(why),
        None => Ok(Checked::Due(Choice::NONE)),
    }
}

/// An attach that is due: `PTRACE_ATTACH`. The actor traces the thread, which is sent SIGSTOP; a stopped thread is then
/// in the ptrace-stop of its group-stop. The reply has the number of the SIGSTOP, and its fate right after the step.
/// Where memory is refused, or the numbers are used up, nothing has changed.
pub fn attach(step: &mut Step, actor: u32, tid: u32) -> Result<Reply, AllocError>
    requires due { check step.old.work.table actor (Attach tid) ≡ Ok (Due no_choice) }
    ensures did { IfOk result (IsStepOf step.old.work.table (entry actor (Attach tid)) step.new) }
    ensures err { OnErr result (step.new.work.table ≡ step.old.work.table) }
{
    step.begin(4)?;
    let n = step.next_number();
    attach_at(step, actor, tid);
    step.complete_group_stops();
    let fate = fate_in(step.ended(), n);
    Ok(Reply::Sent { n, fate })
}

fn seize_by(step: &mut Step, actor: u32, options: Options, thread: &Thread)
    requires { 1 ≤ step.old.room }
    ensures { Moves (seize actor options thread.now) 1 step.old step.new }
{
    trace(step, actor, true, options, thread);
    show_stop(step, thread);
}

fn seize_at(step: &mut Step, actor: u32, options: Options, tid: u32)
    requires { 1 ≤ step.old.room }
    ensures { Moves (at tid (seize actor options)) 1 step.old step.new }
{
    if let Some(thread) = step.thread(tid) {
        seize_by(step, actor, options, &thread);
    }
}

/// Whether a seizure of a thread is refused or due: ESRCH where there is no such thread, then EPERM where it is traced,
/// not live, or its group is dying.
pub fn check_seize(table: &Table, tid: u32, options: Options) -> Result<Checked, Refusal>
    ensures { (actor : ℕ) → result ≡ check table.now.table actor (Seize tid options) }
{
    check_attach(table, tid)
}

/// A seizure that is due: `PTRACE_SEIZE`. The actor traces the thread, with these options; nothing is sent. A stopped
/// thread is then in `PTRACE_EVENT_STOP`. Where memory is refused, or the numbers are used up, nothing has changed.
pub fn seize(step: &mut Step, actor: u32, tid: u32, options: Options) -> Result<Reply, AllocError>
    requires due { check step.old.work.table actor (Seize tid options) ≡ Ok (Due no_choice) }
    ensures did { IfOk result
        (IsStepOf step.old.work.table (entry actor (Seize tid options)) step.new) }
    ensures err { OnErr result (step.new.work.table ≡ step.old.work.table) }
{
    step.begin(1)?;
    seize_at(step, actor, options, tid);
    step.complete_group_stops();
    Ok(Reply::Done)
}

/// Whether an interrupt of a thread is refused or due: ESRCH where it isn't a live tracee of the actor, then EIO where it
/// isn't seized.
pub fn check_interrupt(table: &Table, actor: u32, tid: u32) -> Result<Checked, Refusal>
    ensures { result ≡ check table.now.table actor (Interrupt tid) }
{
    let Some(thread) = table.find(tid) else {
        return Err(Refusal::Srch);
    };
    if !(thread.is_tracee_of(actor) && thread.life.is_live()) {
        return Err(Refusal::Srch);
    }
    if !thread.is_seized() {
        return Err(Refusal::Io);
    }
    Ok(Checked::Due(Choice::NONE))
}

/// An interrupt that is due: `PTRACE_INTERRUPT` sets the trap mark. Where memory is refused, or the numbers are used up,
/// nothing has changed.
pub fn interrupt(step: &mut Step, actor: u32, tid: u32) -> Result<Reply, AllocError>
    requires due { check step.old.work.table actor (Interrupt tid) ≡ Ok (Due no_choice) }
    ensures did { IfOk result
        (IsStepOf step.old.work.table (entry actor (Interrupt tid)) step.new) }
    ensures err { OnErr result (step.new.work.table ≡ step.old.work.table) }
{
    change_own(step, tid, &ThreadChange::Interrupt)
}

/// Whether new options for a tracee are refused or due: ESRCH where it isn't a tracee of the actor in a ptrace-stop.
pub fn check_set_options(
    table: &Table,
    actor: u32,
    tid: u32,
    options: Options,
) -> Result<Checked, Refusal>
    ensures { result ≡ check table.now.table actor (SetOptions tid options) }
{
    let Some(thread) = table.find(tid) else {
        return Err(Refusal::Srch);
    };
    match stopped(actor, thread) {
        Some(why) => Err(why),
        None => Ok(Checked::Due(Choice::NONE)),
    }
}

/// New options for a tracee that are due: `PTRACE_SETOPTIONS` replaces the former ones. Where memory is refused, or the
/// numbers are used up, nothing has changed.
pub fn set_options(
    step: &mut Step,
    actor: u32,
    tid: u32,
    options: Options,
) -> Result<Reply, AllocError>
    requires due { check step.old.work.table actor (SetOptions tid options) ≡ Ok (Due no_choice) }
    ensures did { IfOk result
        (IsStepOf step.old.work.table (entry actor (SetOptions tid options)) step.new) }
    ensures err { OnErr result (step.new.work.table ≡ step.old.work.table) }
{
    change_own(step, tid, &ThreadChange::SetOptions(options))
}
