ghost use Rattle.std.specs.Prelude.{◌≡◌, ◌==◌, filter};
ghost use Rattle.std.specs.List.{list_any};
ghost use Rattle.tr_model.specs.Steps.{is_new};
ghost use Rattle.tr_model.specs.Tables.{queue};
ghost use Rattle.tr_model.specs.Takes.{choices_in, goes_before, unblocked};
ghost use Rattle.tr_table.specs.Choices.{goes_first, is_choice, is_open, open_in};

use crate::free_ids::is_new;
use crate::table::Table;
use tr_model::Target;
use tr_pending::Instance;
use tr_queues::{Slot, same_target};
use tr_sigset::SigSet;

// What the model leaves open, tested at a table. No call here takes memory.

impl Table {
    /// Whether a thread that blocks these signals may take the instance of a number from the target's queue: it waits
    /// there unblocked, and no other that does goes before it.
    pub fn may_take(&self, target: Target, blocked: SigSet, n: u64) -> bool
        ensures { result
            ≡ list_any (λ i. i.n == n)
            (choices_in (unblocked blocked (queue self.now.table target))) }
    {
        may_take(&self.pending.slots, target, blocked, n)
    }

    /// Whether an id is free for a new thread: from 2 to the greatest, and no thread's and no group's.
    pub fn is_new(&self, id: u32) -> bool
        ensures { result ≡ is_new self.now.table id }
    {
        is_new(&self.threads, &self.groups, id)
    }
}

/// Whether an instance is to be taken before another: signal(7).
fn goes_before(first: &Instance, second: &Instance) -> bool
    ensures { result ≡ goes_before first.now second.now }
{
    if first.sig == second.sig {
        first.n < second.n
    } else if first.sig.is_real_time() {
        first.sig.number() < second.sig.number()
    } else {
        second.sig.is_real_time()
    }
}

fn is_open(slot: &Slot, target: Target, blocked: SigSet) -> bool
    ensures { result ≡ is_open target blocked slot.now }
{
    !slot.gone
        && same_target(target, slot.waiting.target)
        && !blocked.has(slot.waiting.instance.sig)
}

/// Whether nothing that waits unblocked for the target goes before the instance.
fn goes_first(slots: &[Slot], target: Target, blocked: SigSet, instance: &Instance) -> bool
    ensures { result ≡ goes_first (open_in target blocked slots.now) instance.now }
{
    for slot in slots {
        if is_open(slot, target, blocked) && goes_before(&slot.waiting.instance, instance) {
            return false;
        }
    }
    true
}

/// Whether the slot's instance has the number, and may be taken.
fn is_choice(slots: &[Slot], slot: &Slot, target: Target, blocked: SigSet, n: u64) -> bool
    ensures { result ≡ is_choice (open_in target blocked slots.now) target blocked n slot.now }
{
    let instance = &slot.waiting.instance;
    instance.n == n
        && is_open(slot, target, blocked)
        && goes_first(slots, target, blocked, instance)
}

fn may_take(slots: &[Slot], target: Target, blocked: SigSet, n: u64) -> bool
    ensures { result
        ≡ list_any (λ i. i.n == n)
        (filter (goes_first (open_in target blocked slots.now))
        (open_in target blocked slots.now)) }
{
    for slot in slots {
        if is_choice(slots, slot, target, blocked, n) {
            return true;
        }
    }
    false
}
