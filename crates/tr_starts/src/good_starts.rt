ghost use Rattle.std.specs.Prelude.{true, ◌≡◌, ◌==◌, ◌&&◌, ◌++◌, length, map, nat_le};
ghost use Rattle.std.specs.List.{list_all, list_any};
ghost use Rattle.tr_starts.specs.Starts.{
  ids_started,
  is_good,
  is_good_actions,
  is_good_group,
  is_good_id,
  is_good_name,
  is_name_byte,
  leads,
  may_be_set,
  no_repeat,
};
ghost use Rattle.tr_starts.specs.Ascending.{last_ascending};

use crate::starts::{GroupStart, Start};
use tr_group::Action;
use tr_model::{GREATEST_ID, MOST_MEMBERS, MOST_THREADS};
use tr_sigset::{SigSet, Signal};

impl Start {
    /// Whether a kernel can start from it: all that its fields and those of `GroupStart` are said to be.
    #[tactic(auto, using(crate::proofs::Ids::good_ids))]
    pub fn is_good(&self) -> bool
        ensures { result ≡ is_good self.now }
    {
        let groups = self.groups.as_slice();
        are_good(groups)
            && are_few(groups)
            && have_good_ids(groups)
            && (have_ascending_ids(groups) || have_distinct_ids(groups))
    }
}

fn are_good(groups: &[GroupStart]) -> bool
    ensures { result ≡ list_all is_good_group groups.now }
{
    groups.iter().all(|group| is_good_group(group))
}

/// Whether a start may have the group: all that the fields of `GroupStart` are said to be, but for its ids.
pub fn is_good_group(group: &GroupStart) -> bool
    ensures { result ≡ is_good_group group.now }
{
    let threads = group.threads.as_slice();
    leads(group.tgid, threads)
        && threads.len() <= MOST_MEMBERS
        && is_good_name(group.name.as_slice())
        && are_good_actions(group.actions.as_slice())
}

/// Whether the first thread has this id.
pub fn leads(tgid: u32, threads: &[(u32, SigSet)]) -> bool
    ensures { result ≡ leads tgid threads.now }
{
    match threads {
        [] => false,
        [leader, ..] => leader.0 == tgid,
    }
}

/// Whether a group may have the name: 1 to 15 bytes of printable ASCII without the backslash.
pub fn is_good_name(name: &[u8]) -> bool
    ensures { result ≡ is_good_name name.now }
{
    1 <= name.len() && name.len() <= 15 && are_name_bytes(name)
}

fn are_name_bytes(name: &[u8]) -> bool
    ensures { result ≡ list_all is_name_byte name.now }
{
    name.iter()
        .all(|byte| 0x20 <= *byte && *byte <= 0x7e && *byte != b'\\')
}

fn are_good_actions(actions: &[(Signal, Action)]) -> bool
    ensures { result ≡ is_good_actions actions.now }
{
    may_be_set(actions) && have_distinct_signals(actions)
}

/// Whether the actions are none of KILL and STOP, which stay as they are: signal(7).
fn may_be_set(actions: &[(Signal, Action)]) -> bool
    ensures { result ≡ list_all may_be_set actions.now }
{
    actions.iter().all(|action| action.0 != Signal::KILL && action.0 != Signal::STOP)
}

fn have_distinct_signals(actions: &[(Signal, Action)]) -> bool
    ensures { result ≡ no_repeat (map (λ a. a.0) actions.now) }
{
    let mut rest = actions;
    while let [action, later @ ..] = rest {
        if set_signal(later, action.0.number()) {
            return false;
        }
        rest = later;
    }
    true
}

/// Whether one of the actions is of the signal of this number.
fn set_signal(actions: &[(Signal, Action)], number: u8) -> bool
    ensures { result ≡ list_any (λ a. a.0 == number) actions.now }
{
    actions.iter().any(|action| action.0.number() == number)
}

/// Whether the groups have at most 1,024 threads together.
pub fn are_few(groups: &[GroupStart]) -> bool
    ensures { result ≡ nat_le (length (ids_started groups.now)) 1024 }
{
    let mut room = MOST_THREADS;
    for group in groups {
        let threads = group.threads.as_slice().len();
        if threads > room {
            return false;
        }
        room -= threads;
    }
    true
}

fn have_good_ids(groups: &[GroupStart]) -> bool
    ensures { result ≡ list_all (λ g. list_all (λ t. is_good_id t.0) g.threads) groups.now }
{
    groups
        .iter()
        .all(|group| are_good_ids(group.threads.as_slice()))
}

/// Whether the ids of the threads are 2 to 4,194,303.
pub fn are_good_ids(threads: &[(u32, SigSet)]) -> bool
    ensures { result ≡ list_all (λ t. is_good_id t.0) threads.now }
{
    threads
        .iter()
        .all(|thread| 2 <= thread.0 && thread.0 <= GREATEST_ID)
}

/// Whether each id is above all before it, so that none stands twice.
fn have_ascending_ids(groups: &[GroupStart]) -> bool
    ensures { result ≡ true → no_repeat (ids_started groups.now) ≡ true }
{
    let mut last = 0;
    for group in groups {
        match last_ascending(group.threads.as_slice(), last) {
            Some(id) => last = id,
            None => return false,
        }
    }
    true
}

/// The last id of the threads, where each is above those before it and above this one.
fn last_ascending(threads: &[(u32, SigSet)], from: u32) -> Option<u32>
    ensures { result ≡ last_ascending from (map (λ t. t.0) threads.now) }
{
    let mut last = from;
    for thread in threads {
        if thread.0 <= last {
            return None;
        }
        last = thread.0;
    }
    Some(last)
}

fn have_distinct_ids(groups: &[GroupStart]) -> bool
    ensures { result ≡ no_repeat (ids_started groups.now) }
{
    let mut rest = groups;
    while let [group, later @ ..] = rest {
        if !are_new(group.threads.as_slice(), later) {
            return false;
        }
        rest = later;
    }
    true
}

/// Whether no id of the threads stands twice among them or is that of a thread of these groups.
fn are_new(threads: &[(u32, SigSet)], groups: &[GroupStart]) -> bool
    ensures { no_repeat (map (λ t. t.0) threads.now ++ ids_started groups.now)
        ≡ (result && no_repeat (ids_started groups.now)) }
{
    let mut rest = threads;
    while let [thread, later @ ..] = rest {
        if has_thread(later, thread.0) || start_thread(groups, thread.0) {
            return false;
        }
        rest = later;
    }
    true
}

/// Whether one of the threads has this id.
fn has_thread(threads: &[(u32, SigSet)], id: u32) -> bool
    ensures { result ≡ list_any (λ t. t.0 == id) threads.now }
{
    threads.iter().any(|thread| thread.0 == id)
}

/// Whether the groups have a thread of this id.
fn start_thread(groups: &[GroupStart], id: u32) -> bool
    ensures { result ≡ list_any (λ g. list_any (λ t. t.0 == id) g.threads) groups.now }
{
    groups
        .iter()
        .any(|group| has_thread(group.threads.as_slice(), id))
}
