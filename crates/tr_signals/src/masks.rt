//! What a thread sets of itself: sigprocmask(2), and pause(2).

ghost use Rattle.std.specs.Prelude.{◌≡◌, ℕ, IfOk, OnErr, Ok};
ghost use Rattle.tr_model.specs.declared.checked.Checked.TheVariants.{Due};
ghost use Rattle.tr_model.specs.declared.events.Event.TheVariants.{Mask, Pause};
ghost use Rattle.tr_model.specs.Preferred.{check};
ghost use Rattle.tr_model.specs.Choices.{no_choice};
ghost use Rattle.tr_steps.specs.UnderWay.{IsStepOf, entry};

use crate::scripts::{change_own, check_script};
use std::alloc::AllocError;
use tr_model::{Checked, Refusal, Reply};
use tr_sigset::SigSet;
use tr_steps::Step;
use tr_table::Table;
use tr_threads::ThreadChange;

/// Whether a thread's setting of its mask is refused or due. ESRCH comes where there is no such thread, then NotRunning
/// and Busy as for each operation of a thread's own.
pub fn check_mask(table: &Table, tid: u32, set: SigSet) -> Result<Checked, Refusal>
    ensures { (actor : ℕ) → result ≡ check table.now.table actor (Mask tid set) }
{
    check_script(table, tid)
}

/// A setting of a mask that is due: sigprocmask(2) with `SIG_SETMASK`. KILL and STOP stay unblocked. Where memory is
/// refused, or the numbers are used up, nothing has changed.
pub fn mask(step: &mut Step, actor: u32, tid: u32, set: SigSet) -> Result<Reply, AllocError>
    requires due { check step.old.work.table actor (Mask tid set) ≡ Ok (Due no_choice) }
    ensures did { IfOk result (IsStepOf step.old.work.table (entry actor (Mask tid set)) step.new) }
    ensures err { OnErr result (step.new.work.table ≡ step.old.work.table) }
{
    change_own(step, tid, &ThreadChange::Mask(set))
}

/// Whether a thread's pause(2) is refused or due, as for each operation of a thread's own.
pub fn check_pause(table: &Table, tid: u32) -> Result<Checked, Refusal>
    ensures { (actor : ℕ) → result ≡ check table.now.table actor (Pause tid) }
{
    check_script(table, tid)
}

/// A pause(2) that is due: the thread pauses until it takes a signal that it catches. Where memory is refused, or the
/// numbers are used up, nothing has changed.
pub fn pause(step: &mut Step, actor: u32, tid: u32) -> Result<Reply, AllocError>
    requires due { check step.old.work.table actor (Pause tid) ≡ Ok (Due no_choice) }
    ensures did { IfOk result (IsStepOf step.old.work.table (entry actor (Pause tid)) step.new) }
    ensures err { OnErr result (step.new.work.table ≡ step.old.work.table) }
{
    change_own(step, tid, &ThreadChange::Pausing(true))
}
