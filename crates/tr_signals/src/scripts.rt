//! What a thread may do of its own, and when.

ghost use Rattle.std.specs.Prelude.{◌≡◌, IfOk, None, OnErr, true};
ghost use Rattle.tr_model.specs.Causes.{first_cause, script};
ghost use Rattle.tr_table.specs.Changes.{keeps_held};
ghost use Rattle.tr_steps.specs.UnderWay.{ComesTo};
ghost use Rattle.tr_signals.specs.Scripts.{own_outcome, script_checked};

use crate::takes::can_take;
use std::alloc::AllocError;
use tr_model::{Checked, Choice, Refusal, Reply};
use tr_steps::Step;
use tr_table::Table;
use tr_threads::ThreadChange;
use tr_tracee::Thread;

/// Why a thread can't do an operation of its own: it doesn't run, or has a mark to serve or a signal to take first.
pub fn script(table: &Table, thread: &Thread) -> Option<Refusal>
    ensures { result ≡ first_cause (script table.now.table thread.now) }
{
    if !thread.life.is_free() || thread.pausing {
        return Some(Refusal::NotRunning);
    }
    if thread.has_mark() || can_take(table, thread) {
        return Some(Refusal::Busy);
    }
    None
}

/// Whether a thread's operation on itself, which leaves no choice and isn't answered at once, is refused or due: ESRCH
/// where there is no such thread, then NotRunning and Busy as `script` has them.
pub fn check_script(table: &Table, tid: u32) -> Result<Checked, Refusal>
    ensures { result ≡ script_checked table.now.table tid }
{
    let Some(thread) = table.find(tid) else {
        return Err(Refusal::Srch);
    };
    match script(table, thread) {
        Some(why) => Err(why),
        None => Ok(Checked::Due(Choice::NONE)),
    }
}

/// An entry that changes the record of one thread, and leaves it what it holds. Where memory is refused, or the numbers are
/// used up, nothing has changed.
#[inline(always)]
pub fn change_own(step: &mut Step, tid: u32, change: &ThreadChange) -> Result<Reply, AllocError>
    requires keeps { keeps_held change.now ≡ true }
    ensures did { IfOk result
        (ComesTo (own_outcome tid change.now step.old.work.table) None step.new) }
    ensures err { OnErr result (step.new.work.table ≡ step.old.work.table) }
{
    step.begin(0)?;
    step.change_thread(tid, change);
    step.complete_group_stops();
    Ok(Reply::Done)
}
