ghost use Rattle.std.specs.Prelude.{◌≡◌, ◌<◌, IfNone, IfOk, ◌≤◌, IfSome, None, ◌-◌, false, get_or, length, map, take, true, vec_capacity, vec_len};
ghost use Rattle.tr_model.specs.Journals.{IsSorted};
ghost use Rattle.tr_model.specs.Moves.{retarget};
ghost use Rattle.tr_queues.specs.Choices.{waiting_in};
ghost use Rattle.tr_queues.specs.Slots.{IsTrimmed, all_in, retargeted_slot, standing};
ghost use Rattle.tr_queues.specs.declared.slots.Slot.{Slot};

use std::alloc::{AllocError, Global};
use tr_model::{Target, Waiting};

/// Where an accepted instance stands. It keeps its number when it waits no more.
#[derive(Clone, Copy, Debug)]
pub struct Slot {
    pub waiting: Waiting,
    pub gone: bool,
}

/// Where the instance of a number stands, whether it still waits or not.
pub(crate) fn place_of(slots: &[Slot], n: u64) -> Option<usize>
    requires { IsSorted (all_in slots.now) }
    ensures within { IfSome result (λ i. i < length slots.now) }
    ensures found { IfSome result
        (λ i. (s : Slot) → (get_or slots.now i s).waiting.instance.n ≡ n) }
    ensures none { IfNone result (waiting_in (all_in slots.now) n ≡ None) }
{
    if let Some(place) = likely_place(slots, n) {
        return Some(place);
    }
    slots
        .binary_search_by_key(&n, |s| s.waiting.instance.n)
        .ok()
}

/// The same, where the numbers from the first on stand without a gap, or where it is the last; else mostly none.
#[inline(always)]
fn likely_place(slots: &[Slot], n: u64) -> Option<usize>
    ensures within { IfSome result (λ i. i < length slots.now) }
    ensures found { IfSome result
        (λ i. (s : Slot) → (get_or slots.now i s).waiting.instance.n ≡ n) }
{
    let first = slots.first()?.waiting.instance.n;
    let place = n.checked_sub(first)? as usize;
    if place < slots.len() && slots[place].waiting.instance.n == n {
        return Some(place);
    }
    let last = slots.len() - 1;
    if slots[last].waiting.instance.n == n {
        Some(last)
    } else {
        None
    }
}

/// Drops the slots after the last instance that still waits.
pub(crate) fn trim(slots: &mut Vec<Slot>)
    ensures waiting { standing slots.new.items ≡ standing slots.old.items }
    ensures last { IsTrimmed slots.new.items }
    ensures sorted { IsSorted (all_in slots.old.items) → IsSorted (all_in slots.new.items) }
    ensures len { vec_len slots.new ≤ vec_len slots.old }
    ensures capacity { vec_capacity slots.new ≡ vec_capacity slots.old }
{
    while ends_empty(slots) {
        let _gone = slots.pop();
    }
}

/// Whether the last slot is that of an instance that waits no more.
fn ends_empty(slots: &[Slot]) -> bool
    ensures some { result ≡ true → 0 < length slots.now }
    ensures empty { result ≡ true
        → standing (take (length slots.now - 1) slots.now) ≡ standing slots.now }
    ensures waits { result ≡ false → IsTrimmed slots.now }
{
    match slots.last() {
        Some(slot) => slot.gone,
        None => false,
    }
}

/// Drops the slots of what waits no more.
pub(crate) fn close_up(slots: &mut Vec<Slot>)
    ensures waiting { standing slots.new.items ≡ standing slots.old.items }
    ensures sorted { IsSorted (all_in slots.old.items) → IsSorted (all_in slots.new.items) }
    ensures len { vec_len slots.new ≤ vec_len slots.old }
    ensures capacity { vec_capacity slots.new ≡ vec_capacity slots.old }
{
    slots.retain(|s| !s.gone);
}

/// What waits for one thread waits for another.
pub(crate) fn retarget(slots: &mut Vec<Slot>, from: u32, to: u32)
    ensures items { slots.new.items ≡ map (retargeted_slot from to) slots.old.items }
    ensures len { vec_len slots.new ≡ vec_len slots.old }
    ensures capacity { vec_capacity slots.new ≡ vec_capacity slots.old }
{
    retarget_each(slots, from, to);
}

fn retarget_each(slots: &mut [Slot], from: u32, to: u32)
    ensures { slots.new ≡ map (retargeted_slot from to) slots.old }
{
    for slot in slots.iter_mut() {
        slot.waiting.target = aimed(from, to, slot.waiting.target);
    }
}

fn aimed(from: u32, to: u32, target: Target) -> Target
    ensures { result ≡ retarget from to target }
{
    match target {
        Target::Thread(id) if id == from => Target::Thread(to),
        _ => target,
    }
}

/// What still waits, in order of acceptance. The count is that of the places to make for it.
pub fn list_standing(
    slots: &[Slot],
    count: usize,
    alloc: Global,
) -> Result<Vec<Waiting>, AllocError>
    ensures { IfOk result (λ list. list.items ≡ standing slots.now) }
{
    let mut list = Vec::with_capacity(alloc, count)?;
    for slot in slots {
        if !slot.gone {
            list.push(slot.waiting)?;
        }
    }
    Ok(list)
}
