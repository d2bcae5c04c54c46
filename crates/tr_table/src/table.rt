ghost use Rattle.std.specs.Prelude.{◌≡◌, ◌<◌, ◌≤◌, length, option_copied};
ghost use Rattle.tr_model.specs.Journals.{DistinctIds};
ghost use Rattle.tr_model.specs.Tables.{group_in, thread_in};

use crate::group_list::Groups;
use crate::unsettled::Unsettled;
use std::alloc::{AllocError, Global};
use std::marker::Model;
use tr_index::Multiset;
use tr_model::Group;
use tr_queues::Pending;
use tr_threads::Threads;
use tr_tracee::Thread;

/// The kernel's table: its threads and groups in table order, and all pending instances in order of acceptance.
pub struct Table {
    pub(crate) threads: Threads,
    pub(crate) groups: Groups,
    pub(crate) pending: Pending,
    pub(crate) accepted: u64,
    pub(crate) raised: u64,
    pub(crate) limit: u32,
    pub(crate) entries: u32,
    pub(crate) unsettled: Unsettled,
    /// The places of the groups that have something to tell the starter, and maybe of more, but for those that are unsettled.
    pub(crate) telling: Multiset,
}

impl Model for Table {
    ghost use Rattle.tr_table.specs.Order.{IsTable};
    ghost use Rattle.tr_queues.specs.Slots.{standing};
    ghost use Rattle.tr_table.specs.View.{View};

    ghost Value = { View };

    ghost view = { λ t. record {
      table = record { threads = t.threads; groups = t.groups; waiting = standing t.pending.slots.items; accepted = t.accepted; raised = t.raised; limit = t.limit; entries = t.entries };
      room = t.pending.room;
    } };

    ghost invariant = { λ t. IsTable t.threads t.groups t.pending t.accepted t.unsettled t.telling.numbers };
}

impl Drop for Table {
    fn drop(self) {
        let Table {
            threads: _,
            groups: _,
            pending: _,
            accepted: _,
            raised: _,
            limit: _,
            entries: _,
            unsettled: _,
            telling: _,
        } = self;
    }
}

impl Table {
    /// The record of a thread. No two threads have one id.
    pub fn find(&self, id: u32) -> Option<&Thread>
        ensures found { option_copied result ≡ thread_in self.now.table.threads id }
        ensures distinct { DistinctIds self.now.table }
        ensures few { length self.now.table.groups ≤ 1024 }
    {
        self.threads.find(id)
    }

    /// The record of a group.
    pub fn group(&self, tgid: u32) -> Option<&Group>
        ensures { option_copied result ≡ group_in self.now.table.groups tgid }
    {
        self.groups.find(tgid)
    }

    /// How many signals were accepted.
    pub fn accepted(&self) -> u64
        ensures { result ≡ self.now.table.accepted }
    {
        self.accepted
    }

    /// How many reports were raised.
    pub fn raised(&self) -> u64
        ensures { result ≡ self.now.table.raised }
    {
        self.raised
    }

    /// The queue limit.
    pub fn limit(&self) -> u32
        ensures { result ≡ self.now.table.limit }
    {
        self.limit
    }

    /// The entry limit.
    pub fn entries(&self) -> u32
        ensures { result ≡ self.now.table.entries }
    {
        self.entries
    }
}
