ghost use Rattle.std.specs.Prelude.{filter, ◌≡◌, ℕ, ◌-◌, ◌≤◌, IfOk, IsTrue, length, map};
ghost use Rattle.std.specs.List.{list_all};
ghost use Rattle.tr_tracee.specs.Threads.{in_group};
ghost use Rattle.tr_model.specs.Journals.{occurs};
ghost use Rattle.tr_model.specs.Sends.{set_at};
ghost use Rattle.tr_model.specs.Tables.{ids_of};
ghost use Rattle.tr_starts.specs.Starts.{all_started, group_started, is_good, name_fits, name_of, table_of, thread_started, threads_started, with_actions};

use crate::group_list::Groups;
use crate::table::Table;
use crate::unsettled::Unsettled;
use std::alloc::{AllocError, Global};
use std::slice;
use tr_group::{Action, GroupStop};
use tr_index::Multiset;
use tr_model::{Group, Name};
use tr_queues::Pending;
use tr_sigset::{SigSet, Signal};
use tr_starts::{GroupStart, Start};
use tr_threads::Threads;
use tr_tracee::{Life, Thread};

// The table that a kernel starts with.

impl Table {
    /// The table of a good start: its threads run untraced, and nothing waits. What a good start is, `Start::is_good`
    /// tests.
    pub fn open(start: &Start, alloc: Global) -> Result<Table, AllocError>
        requires { IsTrue (is_good start.now) }
        ensures table { IfOk result (λ t. t.table ≡ table_of start.now) }
        ensures room { IfOk result (λ t. t.room ≡ 0) }
    {
        let threads = started_threads(start.groups.as_slice(), alloc)?;
        let groups = Groups::from_vec(started_groups(start.groups.as_slice(), alloc)?, alloc)?;
        let mut telling = Multiset::new(alloc);
        telling.reserve(start.groups.as_slice().len())?;
        Ok(Table {
            threads,
            groups,
            pending: Pending::new(alloc),
            accepted: 0,
            raised: 0,
            limit: start.limit,
            entries: start.entries,
            unsettled: Unsettled::Anywhere,
            telling,
        })
    }
}

fn started_threads(groups: &[GroupStart], alloc: Global) -> Result<Threads, AllocError>
    requires once { (n : ℕ) → occurs n (ids_of (all_started groups.now)) ≤ 1 }
    requires few { (g : ℕ) → length (filter (in_group g) (all_started groups.now)) ≤ 64 }
    ensures { IfOk result (λ ts. ts ≡ all_started groups.now) }
{
    let mut list = Vec::new(alloc);
    for group in groups {
        list.extend_from_slice(threads_of(group, alloc)?.as_slice())?;
    }
    Threads::from_vec(list, alloc)
}

fn threads_of(group: &GroupStart, alloc: Global) -> Result<Vec<Thread>, AllocError>
    ensures { IfOk result (λ ts. ts.items ≡ threads_started group.now) }
{
    let tgid = group.tgid;
    group
        .threads
        .as_slice()
        .iter()
        .map(|(id, mask)| started_thread(tgid, *id, *mask))
        .collect(alloc)
}

fn started_thread(tgid: u32, id: u32, mask: SigSet) -> Thread
    ensures { result ≡ thread_started tgid (id, mask) }
{
    let mut thread = Thread {
        id,
        group: tgid,
        mask,
        pausing: false,
        life: Life::Free,
        trace: None,
        stop_mark: false,
        trap_mark: false,
        note_mark: false,
        joined: false,
        report: None,
    };
    thread.set_mask(mask);
    thread
}

fn started_groups(groups: &[GroupStart], alloc: Global) -> Result<Vec<Group>, AllocError>
    requires { IsTrue (list_all name_fits groups.now) }
    ensures { IfOk result (λ gs. gs.items ≡ map group_started groups.now) }
{
    let mut list = Vec::new(alloc);
    for group in groups {
        list.extend_from_slice(slice::from_ref(&started_group(group)))?;
    }
    Ok(list)
}

fn started_group(start: &GroupStart) -> Group
    requires { IsTrue (name_fits start.now) }
    ensures { result ≡ group_started start.now }
{
    let mut actions = [Action::Default; 64];
    set_actions(&mut actions, start.actions.as_slice());
    Group {
        tgid: start.tgid,
        name: padded(start.name.as_slice()),
        actions,
        group_stop: GroupStop::No,
        end: None,
        note: None,
    }
}

/// The name of at most 15 bytes, padded with 0.
fn padded(bytes: &[u8]) -> Name
    requires { length bytes.now ≤ 15 }
    ensures { result ≡ name_of bytes.now }
{
    let mut name = [0; 15];
    name[..bytes.len()].copy_from_slice(bytes);
    Name {
        bytes: name,
        len: bytes.len() as u8,
    }
}

fn set_actions(actions: &mut [Action; 64], listed: &[(Signal, Action)])
    ensures { actions.new ≡ with_actions actions.old listed.now }
{
    for (signal, action) in listed {
        set_action(actions, *signal, *action);
    }
}

#[tactic(auto, using(crate::proofs::SetActions::set_at_place, crate::proofs::SetActions::length_set_at))]
fn set_action(actions: &mut [Action; 64], signal: Signal, action: Action)
    requires { length actions.old ≡ 64 }
    ensures set { actions.new ≡ set_at (signal - 1) action actions.old }
    ensures len { length actions.new ≡ 64 }
{
    actions[usize::from(signal.number() - 1)] = action;
}
