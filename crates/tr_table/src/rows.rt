ghost use Rattle.std.specs.Prelude.{◌≡◌, ◌==◌, ◌&&◌, ◌<◌, ◌≤◌, IfSome, filter, is_some, length, replicate};
ghost use Rattle.tr_tracee.specs.Threads.{in_group};
ghost use Rattle.tr_model.specs.Tables.{group_of};
ghost use Rattle.tr_queues.specs.Changes.{queue_in};
ghost use Rattle.tr_queues.specs.Queues.{count_own};
ghost use Rattle.tr_table.specs.Rows.{AreOwn, IsRows, IsWord, RowsOf};
ghost use Rattle.tr_queues.specs.Slots.{IsPending, standing};

use crate::table::Table;
use arrayvec::ArrayVec;
use std::marker::Model;
use tr_model::Target;
use tr_queues::Pending;
use tr_threads::Threads;

/// A word for each thread of a group, in table order, and one for the queue that the group shares: signal n is bit
/// n - 1. As the scans of `tr_lanes` read them.
#[derive(Drop)]
pub struct Rows<'a> {
    own: ArrayVec<u64, 64>,
    blocked: &'a [u64],
    runnable: &'a [u64],
    shared: u64,
}

impl<'a> Model for Rows<'a> {
    ghost use Rattle.tr_table.specs.Rows.{RowsView};

    ghost Value = { RowsView };

    ghost view = { λ r. record {
      own = r.own.items;
      blocked = r.blocked.now;
      runnable = r.runnable.now;
      shared = r.shared;
    } };
}

impl<'a> Rows<'a> {
    /// What waits in the own queue of each thread.
    pub fn own(&self) -> &[u64]
        ensures { result.now ≡ self.now.own }
    {
        self.own.as_slice()
    }

    /// What each thread blocks; 0 where it isn't live.
    pub fn blocked(&self) -> &[u64]
        ensures { result.now ≡ self.now.blocked }
    {
        self.blocked
    }

    /// All ones for each thread that is free and has no mark, else 0.
    pub fn runnable(&self) -> &[u64]
        ensures { result.now ≡ self.now.runnable }
    {
        self.runnable
    }

    /// What waits in the shared queue.
    pub fn shared(&self) -> u64
        ensures { result ≡ self.now.shared }
    {
        self.shared
    }
}

/// What waits for each of 64 threads where nothing waits for any.
static NOTHING: [u64; 64] = [0; 64];

/// The same words where nothing waits for a thread of the table alone: all of them are lent.
#[derive(Drop)]
pub struct SharedRows<'a> {
    blocked: &'a [u64],
    runnable: &'a [u64],
    shared: u64,
}

impl<'a> Model for SharedRows<'a> {
    ghost use Rattle.std.specs.Prelude.{◌≤◌, length, replicate};
    ghost use Rattle.tr_table.specs.Rows.{RowsView};

    ghost Value = { RowsView };

    ghost view = { λ r. record {
      own = replicate (length r.blocked.now) 0;
      blocked = r.blocked.now;
      runnable = r.runnable.now;
      shared = r.shared;
    } };

    ghost invariant = { λ r. length r.blocked.now ≤ 64 };
}

impl<'a> SharedRows<'a> {
    /// What waits in the own queue of each thread: nothing.
    pub fn own(&self) -> &[u64]
        ensures { result.now ≡ self.now.own }
    {
        &NOTHING[..self.blocked.len()]
    }

    /// What each thread blocks; 0 where it isn't live.
    pub fn blocked(&self) -> &[u64]
        ensures { result.now ≡ self.now.blocked }
    {
        self.blocked
    }

    /// All ones for each thread that is free and has no mark, else 0.
    pub fn runnable(&self) -> &[u64]
        ensures { result.now ≡ self.now.runnable }
    {
        self.runnable
    }

    /// What waits in the shared queue.
    pub fn shared(&self) -> u64
        ensures { result ≡ self.now.shared }
    {
        self.shared
    }
}

impl Table {
    /// The words of the group's threads as `rows` gives them, lent, where nothing waits for a thread of the table alone.
    /// `None` comes for a group that isn't in the table, and where something does.
    pub fn shared_rows(&self, tgid: u32) -> Option<SharedRows<'_>>
        ensures there { is_some result
            ≡ (is_some (group_of self.now.table tgid) && count_own self.now.table.waiting == 0) }
        ensures rows { IfSome result (λ r. RowsOf self.now.table tgid r) }
    {
        let _group = self.groups.find(tgid)?;
        if self.pending.waits_for_threads() {
            return None;
        }
        Some(shared_rows_of(&self.threads, &self.pending, tgid))
    }

    /// The words of the group's threads, as they stand now. `None` comes for a group that isn't in the table. It takes no
    /// memory.
    pub fn rows(&self, tgid: u32) -> Option<Rows<'_>>
        ensures there { is_some result ≡ is_some (group_of self.now.table tgid) }
        ensures rows { IfSome result (λ r. RowsOf self.now.table tgid r) }
    {
        let _group = self.groups.find(tgid)?;
        Some(rows_of(&self.threads, &self.pending, tgid))
    }
}

/// The word of what waits for the target.
fn waiting_word(pending: &Pending, target: Target) -> u64
    requires { IsPending pending.now }
    ensures { IsWord result (queue_in target (standing pending.now.slots.items)) }
{
    pending.mask(target).bits()
}

/// So many words of nothing.
fn zeros(count: usize) -> ArrayVec<u64, 64>
    requires { count ≤ 64 }
    ensures { result.items ≡ replicate count 0 }
{
    let mut words = ArrayVec::from([0; 64]);
    words.truncate(count);
    words
}

/// The words of what waits for each of these threads.
fn waiting_words(pending: &Pending, ids: &[u32]) -> ArrayVec<u64, 64>
    requires few { length ids.now ≤ 64 }
    requires kept { IsPending pending.now }
    ensures { AreOwn (standing pending.now.slots.items) ids.now result.items }
{
    let mut words = ArrayVec::new();
    for id in ids {
        words.push(waiting_word(pending, Target::Thread(*id)));
    }
    words
}

/// The same, where nothing is looked up if nothing waits for any thread of the table.
fn own_words(pending: &Pending, ids: &[u32]) -> ArrayVec<u64, 64>
    requires few { length ids.now ≤ 64 }
    requires kept { IsPending pending.now }
    ensures { AreOwn (standing pending.now.slots.items) ids.now result.items }
{
    if pending.waits_for_threads() {
        waiting_words(pending, ids)
    } else {
        zeros(ids.len())
    }
}

fn shared_rows_of<'a>(threads: &'a Threads, pending: &Pending, tgid: u32) -> SharedRows<'a>
    requires few { length (filter (in_group tgid) threads.now) ≤ 64 }
    requires kept { IsPending pending.now }
    requires none { count_own (standing pending.now.slots.items) ≡ 0 }
    ensures { IsRows threads.now (standing pending.now.slots.items) tgid result }
{
    let shared = waiting_word(pending, Target::Group(tgid));
    match threads.roster(tgid) {
        Some(roster) => SharedRows {
            blocked: roster.blocked(),
            runnable: roster.runnable(),
            shared,
        },
        None => SharedRows {
            blocked: &[],
            runnable: &[],
            shared,
        },
    }
}

fn rows_of<'a>(threads: &'a Threads, pending: &Pending, tgid: u32) -> Rows<'a>
    requires few { length (filter (in_group tgid) threads.now) ≤ 64 }
    requires kept { IsPending pending.now }
    ensures { IsRows threads.now (standing pending.now.slots.items) tgid result }
{
    let shared = waiting_word(pending, Target::Group(tgid));
    match threads.roster(tgid) {
        Some(roster) => Rows {
            own: own_words(pending, roster.ids()),
            blocked: roster.blocked(),
            runnable: roster.runnable(),
            shared,
        },
        None => Rows {
            own: ArrayVec::new(),
            blocked: &[],
            runnable: &[],
            shared,
        },
    }
}
