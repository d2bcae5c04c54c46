//! A send that is asked for by a process: kill(2), tgkill(2), sigqueue(3).

ghost use Rattle.std.specs.Prelude.{◌≡◌, ◌≤◌, ℕ, IfOk, None, Ok, OnErr};
ghost use Rattle.tr_model.specs.declared.checked.Checked.TheVariants.{Due};
ghost use Rattle.tr_model.specs.declared.events.Event.TheVariants.{Kill, Sigqueue, Tgkill};
ghost use Rattle.tr_model.specs.Causes.{is_in};
ghost use Rattle.tr_model.specs.Preferred.{check};
ghost use Rattle.tr_model.specs.Steps.{fate_in};
ghost use Rattle.tr_model.specs.Choices.{no_choice};
ghost use Rattle.tr_model.specs.Tables.{thread_of};
ghost use Rattle.tr_steps.specs.UnderWay.{ComesTo, IsStepOf, entry};
ghost use Rattle.tr_signals.specs.Private.{is_over_limit, send_checked, send_outcome};

use std::alloc::AllocError;
use tr_model::{Checked, Choice, Ending, Fate, Refusal, Reply, Target};
use tr_pending::Info;
use tr_sigset::Signal;
use tr_steps::Step;
use tr_table::Table;

/// What comes first in each send: EINVAL for a signal above 64, then ESRCH where the target isn't there, then EAGAIN for
/// a real-time signal where as many wait as the queue limit says. Signal 0 asks whether the target is there.
fn check_send(table: &Table, is_there: bool, sig: u8) -> Result<Checked, Refusal>
    ensures { result ≡ send_checked table.now.table is_there sig }
{
    if sig > Signal::GREATEST {
        return Err(Refusal::Inval);
    }
    if !is_there {
        return Err(Refusal::Srch);
    }
    if is_over_limit(table, sig) {
        return Err(Refusal::Again);
    }
    if sig == 0 {
        return Ok(Checked::Quiet(Reply::Exists));
    }
    Ok(Checked::Due(Choice::NONE))
}

fn is_over_limit(table: &Table, sig: u8) -> bool
    ensures { result ≡ is_over_limit table.now.table sig }
{
    sig >= Signal::LEAST_REAL_TIME && table.queued() >= table.limit() as usize
}

/// What became of an accepted signal in a step, by what ended in it: pending where it did not end.
pub fn fate_in(ended: &[Ending], n: u64) -> Fate
    ensures { result ≡ fate_in ended.now n }
{
    for ending in ended {
        if ending.number == n {
            return ending.fate;
        }
    }
    Fate::Pending
}

/// Sends the signal of a number, which is accepted as the next number; the reply has its fate right after the step.
/// Where memory is refused, or the numbers are used up, nothing has changed.
#[inline(always)]
fn send_numbered(step: &mut Step, sig: u8, info: &Info, target: Target) -> Result<Reply, AllocError>
    requires least { 1 ≤ sig }
    requires greatest { sig ≤ 64 }
    ensures did { IfOk result
        (ComesTo (send_outcome sig info.now target step.old.work.table) None step.new) }
    ensures err { OnErr result (step.new.work.table ≡ step.old.work.table) }
{
    let signal = Signal::new(sig).unwrap();
    step.begin(3)?;
    let n = step.next_number();
    step.send(signal, info, target);
    step.complete_group_stops();
    let fate = fate_in(step.ended(), n);
    Ok(Reply::Sent { n, fate })
}

/// Whether a kill(2) of a group is refused, answered at once, or due. EINVAL comes for a signal above 64, then ESRCH
/// where there is no such group, then EAGAIN for a real-time signal where as many wait as the queue limit says.
pub fn check_kill(table: &Table, tgid: u32, sig: u8) -> Result<Checked, Refusal>
    ensures { (actor : ℕ) → result ≡ check table.now.table actor (Kill tgid sig) }
{
    check_send(table, table.group(tgid).is_some(), sig)
}

/// A kill(2) that is due: the signal is accepted as the next number, and the reply has its fate right after the step.
/// Where memory is refused, or the numbers are used up, nothing has changed.
#[inline(always)]
pub fn kill(step: &mut Step, actor: u32, tgid: u32, sig: u8) -> Result<Reply, AllocError>
    requires due { check step.old.work.table actor (Kill tgid sig) ≡ Ok (Due no_choice) }
    ensures did { IfOk result
        (IsStepOf step.old.work.table (entry actor (Kill tgid sig)) step.new) }
    ensures err { OnErr result (step.new.work.table ≡ step.old.work.table) }
{
    let info = Info {
        code: 0,
        pid: actor,
        value: 0,
    };
    send_numbered(step, sig, &info, Target::Group(tgid))
}

pub(crate) fn is_in(table: &Table, tgid: u32, tid: u32) -> bool
    ensures { result ≡ is_in tgid (thread_of table.now.table tid) }
{
    match table.find(tid) {
        Some(thread) => thread.group == tgid,
        None => false,
    }
}

/// Whether a tgkill(2) of a thread is refused, answered at once, or due. EINVAL comes for a signal above 64, then ESRCH
/// where the group has no such thread, then EAGAIN as for kill(2).
pub fn check_tgkill(table: &Table, tgid: u32, tid: u32, sig: u8) -> Result<Checked, Refusal>
    ensures { (actor : ℕ) → result ≡ check table.now.table actor (Tgkill tgid tid sig) }
{
    check_send(table, is_in(table, tgid, tid), sig)
}

/// A tgkill(2) that is due: `SI_TKILL`, by the actor, for one thread. Where memory is refused, or the numbers are used
/// up, nothing has changed.
pub fn tgkill(
    step: &mut Step,
    actor: u32,
    tgid: u32,
    tid: u32,
    sig: u8,
) -> Result<Reply, AllocError>
    requires due { check step.old.work.table actor (Tgkill tgid tid sig) ≡ Ok (Due no_choice) }
    ensures did { IfOk result
        (IsStepOf step.old.work.table (entry actor (Tgkill tgid tid sig)) step.new) }
    ensures err { OnErr result (step.new.work.table ≡ step.old.work.table) }
{
    let info = Info {
        code: -6,
        pid: actor,
        value: 0,
    };
    send_numbered(step, sig, &info, Target::Thread(tid))
}

/// Whether a sigqueue(3) to a group is refused, answered at once, or due, as for kill(2).
pub fn check_sigqueue(table: &Table, tgid: u32, sig: u8, value: i32) -> Result<Checked, Refusal>
    ensures { (actor : ℕ) → result ≡ check table.now.table actor (Sigqueue tgid sig value) }
{
    check_kill(table, tgid, sig)
}

/// A sigqueue(3) that is due: `SI_QUEUE`, by the actor, with a value. Where memory is refused, or the numbers are used
/// up, nothing has changed.
#[inline(always)]
pub fn sigqueue(
    step: &mut Step,
    actor: u32,
    tgid: u32,
    sig: u8,
    value: i32,
) -> Result<Reply, AllocError>
    requires due { check step.old.work.table actor (Sigqueue tgid sig value) ≡ Ok (Due no_choice) }
    ensures did { IfOk result
        (IsStepOf step.old.work.table (entry actor (Sigqueue tgid sig value)) step.new) }
    ensures err { OnErr result (step.new.work.table ≡ step.old.work.table) }
{
    let info = Info {
        code: -1,
        pid: actor,
        value,
    };
    send_numbered(step, sig, &info, Target::Group(tgid))
}
