//! Waits of the starter of all groups: waitpid(2).

ghost use Rattle.std.specs.Prelude.{◌≡◌, ℕ, ◌&&◌, ◌||◌, [], if◌then◌else◌, IfOk, OnErr, filter, flat_map, is_some, not, option_copied, true};
ghost use Rattle.std.specs.List.{list_any};
ghost use Rattle.tr_wait.specs.Words.{asks_for};
ghost use Rattle.tr_model.specs.Compare.{Permits};
ghost use Rattle.tr_model.specs.declared.events.Event.TheVariants.{StarterWait};
ghost use Rattle.tr_model.specs.Preferred.{check};
ghost use Rattle.tr_model.specs.Choices.{gives_report};
ghost use Rattle.tr_model.specs.Tables.{has_traced, thread_of};
ghost use Rattle.tr_model.specs.Waits.{has_report};
ghost use Rattle.tr_model.specs.StarterWaits.{consume_note, death_number, has_death, note_number, note_wanted, ready_death, ready_for_starter, ready_note, ready_of_group, shows_note, starter_takes, wanted, with_death, group_with_note};
ghost use Rattle.tr_threads.specs.Waits.{is_untraced_death};
ghost use Rattle.tr_table.specs.Telling.{IsNextTelling};
ghost use Rattle.tr_steps.specs.UnderWay.{IsStepOf, Moves};
ghost use Rattle.tr_ends.specs.Private.{first_number, led_among};

use crate::ends::remove_thread;
use crate::waits::{due_report, has_report, number_of, waited_thread};
use std::alloc::AllocError;
use tr_model::{Checked, Group, Refusal, Reply};
use tr_steps::Step;
use tr_table::{GroupChange, Table};
use tr_tracee::{Report, Thread};
use tr_wait::{Status, WaitFlags, Which};

/// Whether the wait asks for the group, and its leader is in the table.
fn has_leader(which: Which, group: &Group, leader: Option<&Thread>) -> bool
    ensures { result ≡ (asks_for which group.now.tgid && is_some (option_copied leader.entry)) }
{
    which.asks_for(group.tgid) && leader.is_some()
}

fn has_led_among(table: &Table, groups: &[Group], which: Which) -> bool
    ensures { result
        ≡ list_any
        (λ g. asks_for which g.tgid && is_some (thread_of table.now.table g.tgid)) groups.now }
{
    groups
        .iter()
        .any(|g| has_leader(which, g, table.find(g.tgid)))
}

fn has_led(table: &Table, which: Which) -> bool
    ensures { result
        ≡ list_any (λ g. asks_for which g.tgid && is_some (thread_of table.now.table g.tgid))
        table.now.table.groups }
{
    has_led_among(table, table.asked_groups(which), which)
}

/// The report of a dead leader that nobody traces.
fn death_of(leader: Option<&Thread>) -> Option<u64>
    ensures { result ≡ first_number (death_number (option_copied leader.entry)) }
{
    let leader = leader?;
    if leader.life.is_dead() && !leader.is_traced() {
        number_of(&leader.report)
    } else {
        None
    }
}

fn is_death(leader: Option<&Thread>, number: u64) -> bool
    ensures { result ≡ has_death number (option_copied leader.entry) }
{
    match leader {
        Some(leader) => {
            leader.life.is_dead() && !leader.is_traced() && has_report(&leader.report, number)
        }
        None => false,
    }
}

/// Whether the flags ask for a note of this status: WCONTINUED for continued groups, WUNTRACED for stopped ones.
fn is_wanted(flags: WaitFlags, status: &Status) -> bool
    ensures { result ≡ wanted flags status.now }
{
    match status {
        Status::Continued => flags.continued,
        _ => flags.untraced,
    }
}

fn is_note_wanted(flags: WaitFlags, note: &Option<Report>) -> bool
    ensures { result ≡ note_wanted flags note.now }
{
    match note {
        Some(report) => is_wanted(flags, &report.status),
        None => false,
    }
}

/// Whether a group has a note that the flags ask for, while nobody traces the group.
pub fn is_note_shown(table: &Table, flags: WaitFlags, group: &Group) -> bool
    ensures { result
        ≡ (not (has_traced table.now.table group.now.tgid) && note_wanted flags group.now.note) }
{
    is_note_wanted(flags, &group.note) && !table.has_traced(group.tgid)
}

fn note_of(table: &Table, flags: WaitFlags, group: &Group) -> Option<u64>
    ensures { result
        ≡ first_number (if has_traced table.now.table group.now.tgid
        then []
        else note_number flags group.now.note) }
{
    if is_note_shown(table, flags, group) {
        number_of(&group.note)
    } else {
        None
    }
}

/// The report of a group that comes first: the leader's death, then the note.
#[tactic(auto, using(crate::proofs::Firsts::first_append))]
fn ready_of_group(
    table: &Table,
    flags: WaitFlags,
    group: &Group,
    leader: Option<&Thread>,
) -> Option<u64>
    requires { option_copied leader ≡ thread_of table.now.table group.now.tgid }
    ensures { result ≡ first_number (ready_of_group table.now.table flags group.now) }
{
    match death_of(leader) {
        Some(number) => Some(number),
        None => note_of(table, flags, group),
    }
}

/// Whether the starter may be told something: there is a death that nobody traces, or such a note.
fn may_tell(table: &Table, noted: bool) -> bool
    ensures { result ≡ (list_any is_untraced_death table.now.table.threads || noted) }
{
    table.has_untraced_deaths() || noted
}

/// The report of a group that comes first, where the starter asks for the group and its leader is in the table. The
/// leader isn't looked up where nothing can be told of the group.
fn ready_of_led(table: &Table, which: Which, flags: WaitFlags, group: &Group) -> Option<u64>
    ensures { result
        ≡ first_number (if asks_for which group.now.tgid && is_some
        (thread_of table.now.table group.now.tgid)
        then ready_of_group table.now.table flags group.now
        else []) }
{
    if !may_tell(table, is_note_shown(table, flags, group)) {
        return None;
    }
    let leader = table.find(group.tgid);
    if has_leader(which, group, leader) {
        ready_of_group(table, flags, group, leader)
    } else {
        None
    }
}

fn is_for_any(which: Which) -> bool
    ensures { result ≡ true → (n : ℕ) → asks_for which n ≡ true }
{
    match which {
        Which::Any => true,
        Which::One(id) => id == 0,
    }
}

/// The place of the next of the groups that the wait asks for, from this place on, that may have something to tell. It is
/// found at once where so many such groups stand before it.
#[inline(always)]
fn next_telling(
    table: &Table,
    groups: &[Group],
    which: Which,
    place: usize,
    likely: usize,
) -> Option<usize>
    requires { groups.now ≡ filter (λ x. asks_for which x.tgid) table.now.table.groups }
    ensures { IsNextTelling table.now.table groups.now place result }
{
    if is_for_any(which) {
        table.telling_from(place, likely)
    } else if place < groups.len() {
        Some(place)
    } else {
        None
    }
}

fn first_among(table: &Table, groups: &[Group], which: Which, flags: WaitFlags) -> Option<u64>
    requires { groups.now ≡ filter (λ x. asks_for which x.tgid) table.now.table.groups }
    ensures { result
        ≡ first_number
        (flat_map (ready_of_group table.now.table flags)
        (led_among table.now.table which groups.now)) }
{
    let (mut place, mut met) = (0, 0);
    while let Some(next) = next_telling(table, groups, which, place, met) {
        if let Some(number) = ready_of_led(table, which, flags, &groups[next]) {
            return Some(number);
        }
        place = next + 1;
        met += 1;
    }
    None
}

/// The first report, in table order, of the groups that the starter asks for.
fn first_for_starter(table: &Table, which: Which, flags: WaitFlags) -> Option<u64>
    ensures { result ≡ first_number (ready_for_starter table.now.table which flags) }
{
    if !may_tell(table, table.may_show_notes()) {
        return None;
    }
    first_among(table, table.asked_groups(which), which, flags)
}

fn is_led_death(which: Which, group: &Group, leader: Option<&Thread>, number: u64) -> bool
    ensures { result
        ≡ ((asks_for which group.now.tgid && is_some (option_copied leader.entry)) && has_death
        number (option_copied leader.entry)) }
{
    has_leader(which, group, leader) && is_death(leader, number)
}

fn death_among<'a>(
    table: &'a Table,
    groups: &[Group],
    which: Which,
    number: u64,
) -> Option<&'a Thread>
    requires { groups.now ≡ filter (λ x. asks_for which x.tgid) table.now.table.groups }
    ensures { option_copied result
        ≡ with_death table.now.table (led_among table.now.table which groups.now) number }
{
    let (mut place, mut met) = (0, 0);
    while let Some(next) = next_telling(table, groups, which, place, met) {
        let group = &groups[next];
        let leader = table.find(group.tgid);
        if is_led_death(which, group, leader, number) {
            return leader;
        }
        place = next + 1;
        met += 1;
    }
    None
}

/// The first dead leader of the groups that the starter asks for that has the report of this number.
pub(crate) fn ready_death(table: &Table, which: Which, number: u64) -> Option<&Thread>
    ensures { option_copied result ≡ ready_death table.now.table which number }
{
    if !table.has_untraced_deaths() {
        return None;
    }
    death_among(table, table.asked_groups(which), which, number)
}

fn shows_note(table: &Table, which: Which, flags: WaitFlags, group: &Group) -> bool
    ensures { result ≡ shows_note table.now.table which flags group.now }
{
    has_leader(which, group, table.find(group.tgid)) && is_note_shown(table, flags, group)
}

fn has_note(table: &Table, which: Which, flags: WaitFlags, group: &Group, number: u64) -> bool
    ensures { result
        ≡ (has_report number group.now.note && shows_note
        table.now.table which flags group.now) }
{
    has_report(&group.note, number) && shows_note(table, which, flags, group)
}

fn note_among<'a>(
    table: &Table,
    groups: &'a [Group],
    which: Which,
    flags: WaitFlags,
    number: u64,
) -> Option<&'a Group>
    requires { groups.now ≡ filter (λ x. asks_for which x.tgid) table.now.table.groups }
    ensures { option_copied result
        ≡ group_with_note (filter (shows_note table.now.table which flags) groups.now) number }
{
    let (mut place, mut met) = (0, 0);
    while let Some(next) = next_telling(table, groups, which, place, met) {
        let group = &groups[next];
        if has_note(table, which, flags, group, number) {
            return Some(group);
        }
        place = next + 1;
        met += 1;
    }
    None
}

/// The first of the groups that the starter asks for that has the note of this number.
pub(crate) fn ready_note(
    table: &Table,
    which: Which,
    flags: WaitFlags,
    number: u64,
) -> Option<&Group>
    ensures { option_copied result ≡ ready_note table.now.table which flags number }
{
    if !table.has_notes() {
        return None;
    }
    note_among(table, table.asked_groups(which), which, flags, number)
}

/// Whether a wait of the starter is refused, answered Nothing, or due with the first report in table order. ECHILD comes
/// for every other actor, and where there is no group that it asks for.
#[tactic(auto, using(crate::proofs::Firsts::any_is_left))]
pub fn check_starter_wait(
    table: &Table,
    actor: u32,
    which: Which,
    flags: WaitFlags,
) -> Result<Checked, Refusal>
    ensures { result ≡ check table.now.table actor (StarterWait which flags) }
{
    if actor != 1 || !has_led(table, which) {
        return Err(Refusal::Child);
    }
    Ok(due_report(first_for_starter(table, which, flags)))
}

/// The starter's wait gives the note of a group.
fn consume_note(step: &mut Step, group: &Option<Group>)
    ensures { Moves (consume_note group.now) 0 step.old step.new }
{
    if let Some(group) = group {
        step.change_group(group.tgid, &GroupChange::DropNote);
    }
}

/// The starter's wait gives a leader's death, and the leader goes; else the note of a group.
fn starter_takes(step: &mut Step, thread: &Option<Thread>, group: &Option<Group>)
    ensures { Moves (starter_takes thread.now group.now) 0 step.old step.new }
{
    match thread {
        Some(thread) => remove_thread(step, thread),
        None => consume_note(step, group),
    }
}

/// A wait of the starter that is due, for the report of this number: waitpid(2) with `WNOHANG`. A leader whose death is
/// told goes, and the group with its last thread; a note that is told is gone then. Where memory is refused, or the
/// numbers are used up, nothing has changed.
pub fn starter_wait(
    step: &mut Step,
    actor: u32,
    which: Which,
    flags: WaitFlags,
    r: u64,
) -> Result<Reply, AllocError>
    requires due { Permits step.old.work.table actor (StarterWait which flags) (gives_report r) }
    ensures did { IfOk result
        (IsStepOf step.old.work.table
        (record {
          actor = actor;
          event = StarterWait which flags;
          choice = gives_report r;
        }) step.new) }
    ensures err { OnErr result (step.new.work.table ≡ step.old.work.table) }
{
    let table = step.table();
    let thread = ready_death(table, which, r).copied();
    let group = ready_note(table, which, flags, r).copied();
    let reply = waited_thread(&thread, &group);
    step.begin(0)?;
    starter_takes(step, &thread, &group);
    step.complete_group_stops();
    Ok(reply)
}
