ghost use Rattle.std.specs.Prelude.{◌≡◌, ◌≤◌, ◌<◌, ◌-◌, ◌==◌, ◌&&◌, ◌||◌, ℕ, None, true, false, length, take, drop, IfSome};
ghost use Rattle.std.specs.List.{list_any};
ghost use Rattle.tr_kernel.specs.Private.{AreOrdered, deaths_in, deaths_to, is_exec_in, is_restart, restarts_at};

use crate::journal::Journal;
use crate::notes::{EntryFact, Note, Stopped};
use tr_model::{Entry, Event};

// Which entry restarted a thread whose stop was consumed, or broke its stop: the first of those between two waits.

/// Whether the entry is an execve(2) by a thread of this group.
fn is_exec_in(group: u32, fact: &EntryFact) -> bool
    ensures { result ≡ is_exec_in group fact.now }
{
    match fact {
        EntryFact::Exec(of) => *of == group,
        _ => false,
    }
}

/// Whether the entry restarts the thread, is the end of its tracer, or an execve(2) of another thread of its group.
fn is_restart(stop: &Stopped, tracer: u32, entry: &Entry, fact: &EntryFact) -> bool
    ensures { result ≡ is_restart stop.now tracer entry.now.actor entry.now.event fact.now }
{
    match entry.event() {
        Event::Cont { tid, .. } => tid == stop.thread,
        Event::Listen { tid } => tid == stop.thread,
        Event::Detach { tid, .. } => tid == stop.thread,
        Event::TracerExit => entry.actor() == tracer,
        Event::Exec { tid } => tid != stop.thread && is_exec_in(stop.group, fact),
        _ => false,
    }
}

fn deaths_in(note: &Option<Note>) -> u32
    ensures { result ≡ deaths_in note.now }
{
    match note {
        Some(note) => note.deaths,
        None => 0,
    }
}

/// How many deaths of groups had begun before the entry at a place, counted from 0.
fn deaths_to(journal: &Journal, place: usize) -> u32
    requires { place ≤ length journal.now.notes }
    ensures { result ≡ deaths_to journal.now.notes place }
{
    match place.checked_sub(1) {
        Some(last) => deaths_in(&journal.note(last)),
        None => 0,
    }
}

/// Whether the group is among those whose death began from one number of deaths to another.
fn died(dying: &[u32], before: u32, after: u32, group: u32) -> bool
    requires { (before ≤ after) × (after ≤ length dying.now) }
    ensures { result ≡ list_any (λ g. g == group) (take (after - before) (drop before dying.now)) }
{
    dying[before as usize..after as usize]
        .iter()
        .any(|g| *g == group)
}

/// Whether the entry at a place restarts the thread, or begins the death of its group.
fn restarts_at(stop: &Stopped, tracer: u32, journal: &Journal, dying: &[u32], place: usize) -> bool
    requires place { place < length journal.now.entries }
    requires notes { length journal.now.notes ≡ length journal.now.entries }
    requires ordered { AreOrdered journal.now.notes (length dying.now) }
    ensures { result
        ≡ restarts_at stop.now tracer journal.now.entries journal.now.notes dying.now place }
{
    let Some(note) = journal.note(place) else {
        return false;
    };
    is_restart(stop, tracer, journal.entry(place), &note.fact)
        || died(dying, deaths_to(journal, place), note.deaths, stop.group)
}

/// The first place, of those from one up to another, whose entry restarts the thread or begins the death of its group.
pub(crate) fn first_restart(
    stop: &Stopped,
    tracer: u32,
    journal: &Journal,
    dying: &[u32],
    from: usize,
    to: usize,
) -> Option<usize>
    requires to { to ≤ length journal.now.entries }
    requires notes { length journal.now.notes ≡ length journal.now.entries }
    requires ordered { AreOrdered journal.now.notes (length dying.now) }
    ensures found { IfSome result (λ p. (from ≤ p)
        × (p < to)
        × (restarts_at stop.now tracer journal.now.entries journal.now.notes dying.now p ≡ true)) }
    ensures none { result ≡ None
        → (p : ℕ)
        → from ≤ p
        → p < to
        → restarts_at stop.now tracer journal.now.entries journal.now.notes dying.now p ≡ false }
{
    for place in from..to {
        if restarts_at(stop, tracer, journal, dying, place) {
            return Some(place);
        }
    }
    None
}
