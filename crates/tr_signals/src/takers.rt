//! Which thread of a group takes a pending signal, and what it does with it: signal(7).

ghost use Rattle.std.specs.Prelude.{◌≡◌, ℕ, IfOk, IfSome, OnErr, Option, is_some, option_copied, option_map};
ghost use Rattle.std.specs.List.{find};
ghost use Rattle.tr_pending.specs.declared.instance.Instance.{Instance};
ghost use Rattle.tr_model.specs.Compare.{Permits};
ghost use Rattle.tr_model.specs.declared.events.Event.TheVariants.{TakeAny};
ghost use Rattle.tr_model.specs.Preferred.{check, taking_by};
ghost use Rattle.tr_model.specs.Choices.{takes_by};
ghost use Rattle.tr_model.specs.Tables.{group_of, members};
ghost use Rattle.tr_model.specs.Takes.{can_take};
ghost use Rattle.tr_table.specs.Rows.{RowsOf};
ghost use Rattle.tr_steps.specs.UnderWay.{IsStepOf};

use crate::takes::{best_number_for, take_due};
use std::alloc::AllocError;
use tr_lanes::first_ready;
use tr_model::{Checked, Choice, Refusal, Reply};
use tr_steps::Step;
use tr_table::Table;
use tr_tracee::Thread;

/// The first thread of the group, in table order, that can take something, by these words of its rows.
#[inline(always)]
fn first_taker<'a>(
    table: &'a Table,
    tgid: u32,
    own: &[u64],
    blocked: &[u64],
    shared: u64,
    runnable: &[u64],
) -> Option<&'a Thread>
    requires rows { RowsOf table.now.table tgid
        (record { own = own.now; blocked = blocked.now; runnable = runnable.now; shared = shared }) }
    ensures { option_copied result
        ≡ find (can_take table.now.table) (members table.now.table tgid) }
{
    let place = first_ready(own, blocked, shared, runnable)?;
    table.member(tgid, place)
}

/// The same of a group that is in the table, by all words of its rows; `None` where it isn't there.
#[inline(never)]
fn taker_by_rows(table: &Table, tgid: u32) -> Option<Option<&Thread>>
    ensures there { is_some result ≡ is_some (group_of table.now.table tgid) }
    ensures taker { IfSome result
        (λ o. option_copied o ≡ find (can_take table.now.table) (members table.now.table tgid)) }
{
    let rows = table.rows(tgid)?;
    let (own, blocked, runnable) = (rows.own(), rows.blocked(), rows.runnable());
    Some(first_taker(table, tgid, own, blocked, rows.shared(), runnable))
}

/// The same, by as few words as do.
#[inline(never)]
fn taker_in(table: &Table, tgid: u32) -> Option<Option<&Thread>>
    ensures there { is_some result ≡ is_some (group_of table.now.table tgid) }
    ensures taker { IfSome result
        (λ o. option_copied o ≡ find (can_take table.now.table) (members table.now.table tgid)) }
{
    let Some(rows) = table.shared_rows(tgid) else {
        return taker_by_rows(table, tgid);
    };
    let (own, blocked, runnable) = (rows.own(), rows.blocked(), rows.runnable());
    Some(first_taker(table, tgid, own, blocked, rows.shared(), runnable))
}

fn taking_by(tid: u32, best: Option<u64>) -> Choice
    ensures { (i : Option Instance) → best ≡ option_map (λ i. i.n) i → result ≡ taking_by tid i }
{
    match best {
        Some(n) => Choice::of_thread(tid, n),
        None => Choice::NONE,
    }
}

/// Whether a take by any thread of a group is refused, answered Nothing, or due. ESRCH comes where there is no such
/// group, and Nothing exactly where none of its threads can take anything. What is due is taken by the first thread in
/// table order that can take something.
#[tactic(auto, using(crate::proofs::TakingAny::check_is))]
pub fn check_take_any(table: &Table, tgid: u32) -> Result<Checked, Refusal>
    ensures { (actor : ℕ) → result ≡ check table.now.table actor (TakeAny tgid) }
{
    let Some(taker) = taker_in(table, tgid) else {
        return Err(Refusal::Srch);
    };
    match taker {
        Some(thread) => Ok(Checked::Due(taking_by(thread.id, best_number_for(table, thread)))),
        None => Ok(Checked::Quiet(Reply::Nothing)),
    }
}

/// A take by any thread of a group that is due, by any thread of it and of any pending instance that the model lets that
/// thread take: as `take` by that thread. Where memory is refused, or the numbers are used up, nothing has changed.
#[inline(always)]
pub fn take_any(
    step: &mut Step,
    actor: u32,
    tgid: u32,
    tid: u32,
    n: u64,
) -> Result<Reply, AllocError>
    requires due { Permits step.old.work.table actor (TakeAny tgid) (takes_by tid n) }
    ensures did { IfOk result
        (IsStepOf step.old.work.table
        (record { actor = actor; event = TakeAny tgid; choice = takes_by tid n }) step.new) }
    ensures err { OnErr result (step.new.work.table ≡ step.old.work.table) }
{
    let table = step.table();
    let thread = *table.find(tid).unwrap();
    let waiting = *table.waiting(n).unwrap();
    take_due(step, &thread, &waiting)
}
