ghost use Rattle.std.specs.Prelude.{◌≡◌, ◌+◌, ◌<◌, ◌≤◌, ◌^◌, ◌++◌, ◌==◌, ◌∷◌, [], OnErr, OnOk, filter, flat_map, length, map, not, vec_len, vec_capacity, nat_le};
ghost use Rattle.tr_model.specs.declared.fates.Fate.TheVariants.{Delivered, Flushed};
ghost use Rattle.tr_model.specs.declared.rows.Target.TheVariants as target;
ghost use Rattle.tr_model.specs.Moves.{changed, ended_by_change, ending_of, group_changed, only_group, with_note, without_instance};
ghost use Rattle.tr_model.specs.Tables.{Table};
ghost use Rattle.tr_tracee.specs.Threads.{at_group, at_thread};
ghost use Rattle.tr_threads.specs.Changes.{thread_changed_by};
ghost use Rattle.tr_queues.specs.Changes.{is_flushed};
ghost use Rattle.tr_table.specs.Changes.{group_changed_by};
ghost use Rattle.tr_threads.specs.Held.{held_count};
ghost use Rattle.tr_queues.specs.Queues.{AllBelow};

use crate::groups::GroupChange;
use crate::table::Table;
use std::alloc::AllocError;
use tr_model::{Ending, Fate, Target, Waiting};
use tr_pending::{Info, Instance};
use tr_queues::{Flush, Picked};
use tr_sigset::Signal;
use tr_threads::ThreadChange;
use tr_wait::Status;

// What happens to a table, one list at a time. Only `reserve` takes memory.

impl Table {
    /// Whether so many places are reserved.
    pub fn has_room(&self, places: usize) -> bool
        ensures { result ≡ nat_le places self.now.room }
    {
        places <= self.pending.room
    }

    /// Reserves places for this many more instances, whatever they wait for. Where memory is refused nothing has changed.
    pub fn reserve(&mut self, more: usize) -> Result<(), AllocError>
        ensures table { self.new.table ≡ self.old.table }
        ensures ok { OnOk result (more ≤ self.new.room) }
        ensures room { self.old.room ≤ self.new.room }
        ensures err { OnErr result (self.new ≡ self.old) }
        ensures short { OnErr result (self.old.room < more) }
    {
        self.pending.reserve(more)
    }

    /// What happens to each thread of a group. What that takes out of a signal-delivery-stop is the caller's to tell.
    pub fn change_members(&mut self, tgid: u32, change: &ThreadChange)
        ensures { self.new
            ≡ record self.old {
              table = record self.old.table {
                threads = map
                    (at_group tgid (thread_changed_by change.now)) self.old.table.threads;
              };
            } }
    {
        self.threads.change_members(tgid, change);
        self.unsettled.touch(tgid);
    }

    /// What happens to each thread of a group. What that takes out of a signal-delivery-stop is flushed, and appended to
    /// `ended`.
    pub fn change_and_flush(&mut self, tgid: u32, change: &ThreadChange, ended: &mut Vec<Ending>)
        requires { vec_len ended.old + held_count self.old.table.threads ≤ vec_capacity ended.old }
        ensures table { self.new
            ≡ record self.old {
              table = record self.old.table {
                threads = map
                    (at_group tgid (thread_changed_by change.now)) self.old.table.threads;
              };
            } }
        ensures ended { ended.new.items
            ≡ ended.old.items
            ++ flat_map
            (ended_by_change Flushed
            (at_group tgid (thread_changed_by change.now))) self.old.table.threads }
        ensures len { vec_len ended.new
            ≡ vec_len ended.old
            + length (flat_map
            (ended_by_change Flushed
            (at_group tgid (thread_changed_by change.now))) self.old.table.threads) }
        ensures capacity { vec_capacity ended.new ≡ vec_capacity ended.old }
    {
        self.threads.log_flushed(tgid, change, ended);
        self.threads.change_members(tgid, change);
        self.unsettled.touch(tgid);
    }

    /// What happens to the record of the thread with the id, which is the only one with it.
    #[inline(always)]
    pub fn change_thread(&mut self, id: u32, change: &ThreadChange)
        ensures table { self.new
            ≡ record self.old {
              table = record self.old.table {
                threads = map
                    (at_thread id (thread_changed_by change.now)) self.old.table.threads;
              };
            } }
        ensures only { map (at_thread id (thread_changed_by change.now)) self.old.table.threads
            ≡ changed id (thread_changed_by change.now) self.old.table.threads }
    {
        if let Some(place) = self.threads.place(id) {
            let group = self.threads.at(place).group;
            self.threads.change_at(place, change);
            self.unsettled.touch(group);
        }
    }

    /// What happens to the record of a group.
    pub fn change_group(&mut self, tgid: u32, change: &GroupChange)
        ensures { self.new
            ≡ record self.old {
              table = record self.old.table {
                groups = map
                    (only_group tgid (group_changed_by change.now)) self.old.table.groups;
              };
            } }
    {
        self.groups.change(tgid, change);
        self.unsettled.touch(tgid);
    }

    /// A note of a group for the starter, with the next report.
    pub fn note(&mut self, tgid: u32, status: &Status)
        requires { self.old.table.raised + 1 < 2 ^ 64 }
        ensures { self.new
            ≡ record self.old {
              table = record self.old.table {
                groups = group_changed tgid
                    (with_note (self.old.table.raised + 1) status.now) self.old.table.groups;
                raised = self.old.table.raised + 1;
              };
            } }
    {
        self.raised += 1;
        self.groups.note(tgid, self.raised, status);
        self.unsettled.touch(tgid);
    }

    /// Accepts a signal that doesn't wait, and gives its number, which is above all that wait.
    pub fn accept(&mut self) -> u64
        requires { self.old.table.accepted + 1 < 2 ^ 64 }
        ensures table { self.new
            ≡ record self.old {
              table = record self.old.table { accepted = self.old.table.accepted + 1 };
            } }
        ensures number { result ≡ self.old.table.accepted + 1 }
        ensures last { AllBelow result self.old.table.waiting }
    {
        let number = self.accepted + 1;
        self.accepted = number;
        number
    }

    /// Accepts a signal that waits for a target.
    pub fn enqueue(&mut self, signal: Signal, info: &Info, target: Target)
        requires number { self.old.table.accepted + 1 < 2 ^ 64 }
        requires room { 0 < self.old.room }
        ensures table { self.new.table
            ≡ record self.old.table {
              waiting = self.old.table.waiting
                  ++ record {
                    instance = record {
                      n = self.old.table.accepted + 1;
                      sig = signal;
                      info = info.now;
                    };
                    target = target;
                  } ∷ [];
              accepted = self.old.table.accepted + 1;
            } }
        ensures room { self.new.room + 1 ≡ self.old.room }
    {
        self.accepted += 1;
        let instance = Instance {
            n: self.accepted,
            sig: signal,
            info: *info,
        };
        self.pending.push(&Waiting { instance, target });
    }

    /// Flushes pending signals of a group, and appends them to `ended`.
    pub fn flush(&mut self, tgid: u32, flush: &Flush, ended: &mut Vec<Ending>)
        requires { vec_len ended.old + length self.old.table.waiting ≤ vec_capacity ended.old }
        ensures table { self.new.table
            ≡ record self.old.table {
              waiting = filter
                  (λ q. not (is_flushed self.old.table.threads tgid flush.now q)) self.old.table.waiting;
            } }
        ensures room { self.new.room ≡ self.old.room }
        ensures ended { ended.new.items
            ≡ ended.old.items
            ++ map (ending_of Flushed)
            (filter (is_flushed self.old.table.threads tgid flush.now) self.old.table.waiting) }
        ensures len { vec_len ended.new
            ≡ vec_len ended.old
            + length (filter
            (is_flushed self.old.table.threads tgid flush.now) self.old.table.waiting) }
        ensures capacity { vec_capacity ended.new ≡ vec_capacity ended.old }
    {
        let picked = Picked::Group(tgid, *flush);
        self.pending.flush(&self.threads, &picked, ended);
    }

    /// Delivers the pending instance of a number, and appends it to `ended`.
    pub fn deliver(&mut self, n: u64, ended: &mut Vec<Ending>)
        requires { vec_len ended.old + length self.old.table.waiting ≤ vec_capacity ended.old }
        ensures table { self.new.table
            ≡ record self.old.table {
              waiting = filter (λ q. not (q.instance.n == n)) self.old.table.waiting;
            } }
        ensures room { self.new.room ≡ self.old.room }
        ensures ended { ended.new.items
            ≡ ended.old.items
            ++ map (ending_of Delivered) (filter (λ q. q.instance.n == n) self.old.table.waiting) }
        ensures len { vec_len ended.new
            ≡ vec_len ended.old + length (filter (λ q. q.instance.n == n) self.old.table.waiting) }
        ensures capacity { vec_capacity ended.new ≡ vec_capacity ended.old }
    {
        if self.pending.remove(n).is_some() {
            ended.push_reserved(Ending {
                number: n,
                fate: Fate::Delivered,
            });
        }
    }

    /// Takes the pending instance of a number out, for a signal-delivery-stop to hold.
    pub fn pull(&mut self, n: u64)
        ensures table { self.new.table
            ≡ record self.old.table { waiting = without_instance n self.old.table.waiting } }
        ensures room { self.new.room ≡ self.old.room }
    {
        let _pulled = self.pending.remove(n);
    }
}
