ghost use Rattle.std.specs.Prelude.{◌≡◌, ◌≤◌, ℕ, length, map, option_copied, take, unwrap_or};
ghost use Rattle.tr_lanes.specs.Digits.{set_digits};
ghost use Rattle.tr_model.specs.declared.rows.Target.TheVariants as target;
ghost use Rattle.tr_model.specs.Tables.{actions_of, group_of};
ghost use Rattle.tr_group.specs.declared.stops.Action.TheVariants as action;
ghost use Rattle.tr_sigset.specs.Sets.{has};
ghost use Rattle.tr_tracee.specs.Threads.{tracer_of};
ghost use Rattle.tr_status.specs.Statuses.{has_action, name_text, state_text, waits_for};
ghost use Rattle.tr_status.specs.Private.{code_of};

use std::simd::prelude::*;
use tr_group::Action;
use tr_lanes::hex16;
use tr_model::{Group, Target};
use tr_sigset::SigSet;
use tr_table::Table;
use tr_tracee::{Life, Thread, Trace};

// The values of a status's lines.

/// The sets of signals that a status shows, each as sixteen digits.
#[derive(Clone, Copy, Debug)]
pub(crate) struct Masks {
    pub(crate) own: [u8; 16],
    pub(crate) shared: [u8; 16],
    pub(crate) blocked: [u8; 16],
    pub(crate) ignored: [u8; 16],
    pub(crate) caught: [u8; 16],
}

/// The sets of a thread.
pub(crate) fn masks_of(table: &Table, thread: &Thread) -> Masks
    ensures own { result.own
        ≡ set_digits (waits_for table.now.table (target.Thread thread.now.id)) }
    ensures shared { result.shared
        ≡ set_digits (waits_for table.now.table (target.Group thread.now.group)) }
    ensures blocked { result.blocked ≡ set_digits (has thread.now.mask) }
    ensures ignored { result.ignored
        ≡ set_digits
        (has_action action.Ignore (actions_of (group_of table.now.table thread.now.group))) }
    ensures caught { result.caught
        ≡ set_digits
        (has_action action.Catch (actions_of (group_of table.now.table thread.now.group))) }
{
    let group = table.group(thread.group);
    Masks {
        own: digits_waiting(table, Target::Thread(thread.id)),
        shared: digits_waiting(table, Target::Group(thread.group)),
        blocked: hex16(thread.mask.bits()),
        ignored: digits_with(group, Action::Ignore),
        caught: digits_with(group, Action::Catch),
    }
}

fn digits_waiting(table: &Table, target: Target) -> [u8; 16]
    ensures { result ≡ set_digits (waits_for table.now.table target) }
{
    hex16(table.mask(target).bits())
}

fn digits_with(group: Option<&Group>, wanted: Action) -> [u8; 16]
    ensures { result ≡ set_digits (has_action wanted (actions_of (option_copied group.entry))) }
{
    hex16(signals_with(group, wanted).bits())
}

/// The signals that have this action in a group, all of them `Default` where there is no group.
fn signals_with(group: Option<&Group>, wanted: Action) -> SigSet
    ensures { (n : ℕ)
        → has result n ≡ has_action wanted (actions_of (option_copied group.entry)) n }
{
    match group {
        Some(group) => signals_in(&group.actions, wanted),
        None => signals_in(&[Action::Default; 64], wanted),
    }
}

/// The signals that have this action, by one comparison of all of them.
fn signals_in(actions: &[Action; 64], wanted: Action) -> SigSet
    ensures { (n : ℕ) → has result n ≡ has_action wanted actions.now n }
{
    let codes = codes_of(actions);
    let equal = u8x64::from_array(codes).simd_eq(u8x64::splat(code_of(wanted)));
    SigSet::from_bits(equal.to_bitmask())
}

/// Each action as a number of its own.
fn codes_of(actions: &[Action; 64]) -> [u8; 64]
    ensures { result ≡ map code_of actions.now }
{
    let mut codes = [0; 64];
    for place in 0..64 {
        codes[place] = code_of(actions[place]);
    }
    codes
}

#[inline(always)]
fn code_of(action: Action) -> u8
    ensures { result ≡ code_of action }
{
    action as u8
}
/// The name of a group's program, empty where there is no group.
pub(crate) fn name_of(group: Option<&Group>) -> &[u8]
    ensures text { result.now ≡ name_text (option_copied group.entry) }
    ensures short { length result.now ≤ 15 }
{
    match group {
        Some(group) => front(&group.name.bytes, usize::from(group.name.len)),
        None => &[],
    }
}

/// The first bytes, this many, or all where there are fewer.
fn front(bytes: &[u8], len: usize) -> &[u8]
    ensures front { result.now ≡ take len bytes.now }
    ensures short { length result.now ≤ length bytes.now }
{
    &bytes[..len.min(bytes.len())]
}

/// What the thread is doing.
pub(crate) fn state_of(thread: &Thread) -> &'static [u8]
    ensures text { result.now ≡ state_text thread.now.pausing thread.now.life }
    ensures short { length result.now ≤ 16 }
{
    match thread.life {
        Life::Free if thread.pausing => b"S (sleeping)",
        Life::Free | Life::Execing | Life::Leaving { .. } => b"R (running)",
        Life::Stopped => b"T (stopped)",
        Life::InStop(_) | Life::Listening => b"t (tracing stop)",
        Life::Dead(_) => b"Z (zombie)",
    }
}

/// The tracer's number, 0 where there is none.
pub(crate) fn tracer_number(trace: &Option<Trace>) -> u32
    ensures { result ≡ unwrap_or (tracer_of trace.now) 0 }
{
    trace.map_or(0, |trace| trace.tracer)
}
