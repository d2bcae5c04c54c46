ghost use Rattle.std.specs.Prelude.{◌≡◌, ◌<◌, ◌&&◌, length, option_copied, option_map, slice_get, slice_index};
ghost use Rattle.std.specs.List.{list_any};
ghost use Rattle.tr_sigset.specs.Sets.{has};
ghost use Rattle.tr_tracee.specs.Lives.{is_live};
ghost use Rattle.tr_pending.specs.Waiting.{best_of, is_waiting};
ghost use Rattle.tr_model.specs.Journals.{IsSorted};
ghost use Rattle.tr_model.specs.Tables.{action_of, all_dead, end_of, group_of, has_live, has_stop_mark, has_traced, members, others_dead, owner, queue, stop_of};
ghost use Rattle.tr_table.specs.Changes.{tgids};
ghost use Rattle.tr_queues.specs.Choices.{waiting_in};

use crate::groups::{action_in, end_in, stop_in};
use crate::table::Table;
use tr_group::{Action, GroupStop};
use tr_model::{Target, Waiting};
use tr_pending::Instance;
use tr_sigset::{SigSet, Signal};
use tr_threads::owner_of;
use tr_tracee::{End, Thread};

// What is read off a table. No call here takes memory.

impl Table {
    /// The group that a target belongs to, 0 for the target of no thread.
    pub fn owner(&self, target: Target) -> u32
        ensures { result ≡ owner self.now.table target }
    {
        owner_of(&self.threads, target)
    }

    /// Whether somebody traces a thread of the group.
    pub fn has_traced(&self, tgid: u32) -> bool
        ensures { result ≡ has_traced self.now.table tgid }
    {
        self.threads.has_traced(tgid)
    }

    /// Whether each thread of the group is dead.
    pub fn all_dead(&self, tgid: u32) -> bool
        ensures { result ≡ all_dead self.now.table tgid }
    {
        self.threads.all_dead(tgid)
    }

    /// Whether each other thread of the thread's group is dead.
    pub fn others_dead(&self, thread: &Thread) -> bool
        ensures { result ≡ others_dead self.now.table thread.now }
    {
        self.threads.others_dead(thread.group, thread.id)
    }

    /// How many threads the group has, dead ones too.
    pub fn member_count(&self, tgid: u32) -> usize
        ensures { result ≡ length (members self.now.table tgid) }
    {
        self.threads.count_members(tgid)
    }

    /// The thread at a place of the group, from 0, in table order.
    pub fn member(&self, tgid: u32, place: usize) -> Option<&Thread>
        ensures { option_copied result ≡ slice_get (members self.now.table tgid) place }
    {
        self.threads.member(tgid, place)
    }

    /// Whether some thread of the group is live.
    pub fn has_live(&self, tgid: u32) -> bool
        ensures { result ≡ has_live self.now.table tgid }
    {
        self.threads.has_live(tgid)
    }

    /// Whether some thread of the group has a stop mark.
    pub fn has_stop_mark(&self, tgid: u32) -> bool
        ensures { result ≡ has_stop_mark self.now.table tgid }
    {
        self.threads.has_stop_mark(tgid)
    }

    /// Whether some live thread of the group blocks the signal.
    pub fn some_blocks(&self, tgid: u32, signal: Signal) -> bool
        ensures { result
            ≡ list_any (λ t. is_live t.life && has t.mask signal) (members self.now.table tgid) }
    {
        self.threads.some_blocks(tgid, signal)
    }

    /// The group-stop of a group, `No` for a group that isn't there.
    pub fn stop_of(&self, tgid: u32) -> GroupStop
        ensures { result ≡ stop_of (group_of self.now.table tgid) }
    {
        stop_in(&self.groups, tgid)
    }

    /// How a dying group ends.
    pub fn end_of(&self, tgid: u32) -> Option<End>
        ensures { result ≡ end_of (group_of self.now.table tgid) }
    {
        end_in(&self.groups, tgid)
    }

    /// A group's action of a signal, `Default` for a group that isn't there.
    pub fn action_of(&self, tgid: u32, signal: Signal) -> Action
        ensures { result ≡ action_of self.now.table tgid signal }
    {
        action_in(&self.groups, tgid, signal)
    }

    /// How many instances wait in all queues.
    pub fn queued(&self) -> usize
        ensures { result ≡ length self.now.table.waiting }
    {
        self.pending.len()
    }

    /// Whether an instance of the signal waits for the target.
    #[inline(always)]
    pub fn is_waiting(&self, target: Target, signal: Signal) -> bool
        ensures { result ≡ is_waiting signal (queue self.now.table target) }
    {
        self.pending.is_waiting(target, signal)
    }

    /// The first instance of the least signal number that isn't blocked, of those that wait for the target.
    pub fn best(&self, target: Target, blocked: SigSet) -> Option<Instance>
        ensures { result ≡ best_of blocked (queue self.now.table target) }
    {
        self.pending.best(target, blocked)
    }

    /// The number of the first instance of the least signal number that isn't blocked, of those that wait for the target.
    #[inline(always)]
    pub fn best_number(&self, target: Target, blocked: SigSet) -> Option<u64>
        ensures { result ≡ option_map (λ i. i.n) (best_of blocked (queue self.now.table target)) }
    {
        self.pending.best_number(target, blocked)
    }

    /// The pending instance of a number, with the queue that it waits in.
    #[inline(always)]
    pub fn waiting(&self, n: u64) -> Option<&Waiting>
        ensures waiting { option_copied result ≡ waiting_in self.now.table.waiting n }
        ensures sorted { IsSorted self.now.table.waiting }
    {
        self.pending.waiting(n)
    }

    /// How many groups there are.
    pub fn group_count(&self) -> usize
        ensures { result ≡ length (tgids self.now.table) }
    {
        self.groups.as_slice().len()
    }

    /// The id of the group at a place, from 0.
    pub fn tgid_at(&self, i: usize) -> u32
        requires { i < length (tgids self.now.table) }
        ensures { result ≡ slice_index (tgids self.now.table) i }
    {
        self.groups.as_slice()[i].tgid
    }

    /// How many threads there are.
    pub fn thread_count(&self) -> usize
        ensures { result ≡ length self.now.table.threads }
    {
        self.threads.as_slice().len()
    }
}
