ghost use Rattle.std.specs.Prelude.{◌≡◌, ◌+◌, ◌<◌, ◌≤◌, ◌++◌, if◌then◌else◌, filter, length, map, not, vec_len, vec_capacity};
ghost use Rattle.tr_model.specs.declared.fates.Fate.TheVariants.{Flushed};
ghost use Rattle.tr_model.specs.Moves.{ending_of};
ghost use Rattle.tr_model.specs.Tables.{queue, same_target};
ghost use Rattle.tr_pending.specs.declared.queue.Put.TheVariants as put;
ghost use Rattle.tr_pending.specs.Waiting.{first_of, merges};
ghost use Rattle.tr_queues.specs.Queues.{AllBelow, is_of, without_one};
ghost use Rattle.tr_table.specs.Queues.{after_put};

use crate::table::Table;
use tr_model::{Ending, Target, Waiting};
use tr_pending::{Instance, Put};
use tr_queues::{Picked, note_picked};
use tr_sigset::{SigSet, Signal};

// The queue of one thread or of one group, as `Queue` has it. No call here takes memory: `reserve` does.

impl Table {
    /// How many instances wait for the target.
    pub fn queue_len(&self, target: Target) -> usize
        ensures { result ≡ length (queue self.now.table target) }
    {
        self.pending.queue_len(target)
    }

    /// Puts an accepted instance last in the target's queue, unless its signal is a standard one that already waits
    /// there.
    pub fn put_instance(&mut self, target: Target, instance: &Instance) -> Put
        requires room { 0 < self.old.room }
        requires accepted { instance.now.n ≤ self.old.table.accepted }
        requires last { AllBelow instance.now.n self.old.table.waiting }
        ensures answer { result
            ≡ (if merges instance.now.sig
            (queue self.old.table target) then put.Merged else put.Queued) }
        ensures table { self.new.table
            ≡ record self.old.table {
              waiting = after_put target instance.now self.old.table.waiting;
            } }
        ensures room { self.old.room
            ≡ (if merges instance.now.sig
            (queue self.old.table target) then self.new.room else self.new.room + 1) }
    {
        let signal = instance.sig;
        if !signal.is_real_time() && self.pending.is_waiting(target, signal) {
            return Put::Merged;
        }
        self.pending.push(&Waiting {
            instance: *instance,
            target,
        });
        Put::Queued
    }

    /// Takes the first instance of a signal out of the target's queue. `None` where none waits there.
    pub fn take_sig(&mut self, target: Target, signal: Signal) -> Option<Instance>
        ensures taken { result ≡ first_of signal (queue self.old.table target) }
        ensures table { self.new.table
            ≡ record self.old.table { waiting = without_one target signal self.old.table.waiting } }
        ensures room { self.new.room ≡ self.old.room }
    {
        self.pending.take_first(target, signal)
    }

    /// Takes all instances whose signal is in a set out of the target's queue. It appends their numbers to `gone`, in
    /// order of acceptance, and says how many they were.
    pub fn flush_set(&mut self, target: Target, set: SigSet, gone: &mut Vec<u64>) -> u64
        requires { vec_len gone.old + length self.old.table.waiting ≤ vec_capacity gone.old }
        ensures count { result ≡ length (filter (is_of target set) self.old.table.waiting) }
        ensures named { gone.new.items
            ≡ gone.old.items
            ++ map (λ q. q.instance.n) (filter (is_of target set) self.old.table.waiting) }
        ensures table { self.new.table
            ≡ record self.old.table {
              waiting = filter (λ q. not (is_of target set q)) self.old.table.waiting;
            } }
        ensures room { self.new.room ≡ self.old.room }
        ensures capacity { vec_capacity gone.new ≡ vec_capacity gone.old }
    {
        let picked = Picked::Set(target, set);
        let count = note_picked(&self.pending.slots, &self.threads, &picked, gone);
        self.pending.drop_picked(&self.threads, &picked);
        count
    }

    /// Flushes the target's queue, and appends what it held to `ended`, in order of acceptance.
    pub fn flush_queue(&mut self, target: Target, ended: &mut Vec<Ending>)
        requires { vec_len ended.old + length self.old.table.waiting ≤ vec_capacity ended.old }
        ensures table { self.new.table
            ≡ record self.old.table {
              waiting = filter (λ q. not (same_target target q.target)) self.old.table.waiting;
            } }
        ensures room { self.new.room ≡ self.old.room }
        ensures ended { ended.new.items
            ≡ ended.old.items
            ++ map (ending_of Flushed)
            (filter (λ q. same_target target q.target) self.old.table.waiting) }
        ensures len { vec_len ended.new
            ≡ vec_len ended.old
            + length (filter (λ q. same_target target q.target) self.old.table.waiting) }
        ensures capacity { vec_capacity ended.new ≡ vec_capacity ended.old }
    {
        self.pending
            .flush(&self.threads, &Picked::Queue(target), ended);
    }
}
