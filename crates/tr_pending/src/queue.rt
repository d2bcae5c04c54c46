ghost use Rattle.std.specs.Prelude.{◌≡◌, ◌+◌, ◌<◌, ◌≤◌, ◌==◌, [], ◌++◌, if◌then◌else◌, OnErr, OnOk, length, map, vec_capacity, vec_len};
ghost use Rattle.std.specs.List.{position};
ghost use Rattle.tr_pending.specs.View.{places};
ghost use Rattle.tr_pending.specs.Waiting.{IsMask, after_put, best_of, first_of, flushed_by, is_waiting, kept_by, merges, without_first};

use crate::instance::Instance;
use std::alloc::{AllocError, Global};
use std::marker::Model;
use tr_sigset::{SigSet, Signal};

/// What became of an instance that was put.
#[derive(Clone, Copy, Debug, PartialEq, Eq)]
pub enum Put {
    /// It waits.
    Queued,
    /// An instance of its signal waited already, and it was merged with that one.
    Merged,
}

/// The instances that wait for one thread or one group, in order of acceptance. Contracts see them as `waiting`,
/// and as `room` how many more there are places for.
#[derive(Drop)]
pub struct Queue {
    items: Vec<Instance>,
    /// The signals of `items`.
    mask: SigSet,
}

impl Model for Queue {
    ghost use Rattle.std.specs.Prelude.{◌-◌, vec_capacity, vec_len};
    ghost use Rattle.tr_pending.specs.View.{QueueView};
    ghost use Rattle.tr_pending.specs.Waiting.{IsMask};

    ghost Value = { QueueView };

    ghost view = { λ q. record {
      waiting = q.items.items;
      room = vec_capacity q.items - vec_len q.items;
    } };

    ghost invariant = { λ q. IsMask q.mask q.items.items };
}

impl Queue {
    /// A queue in which nothing waits. It takes no memory.
    pub fn new(alloc: Global) -> Queue
        ensures { (result.waiting ≡ []) × (result.room ≡ 0) }
    {
        Queue {
            items: Vec::new(alloc),
            mask: SigSet::empty(),
        }
    }

    /// How many instances wait.
    pub fn len(&self) -> usize
        ensures { result ≡ length self.now.waiting }
    {
        self.items.len()
    }

    /// Whether nothing waits.
    pub fn is_empty(&self) -> bool
        ensures { result ≡ (length self.now.waiting == 0) }
    {
        self.items.is_empty()
    }

    /// Makes sure of a place for one more instance. `Err` comes only where there was none and memory is short, and
    /// then the queue is as it was. No other call takes memory.
    pub fn reserve_one(&mut self) -> Result<(), AllocError>
        ensures waiting { self.new.waiting ≡ self.old.waiting }
        ensures ok { OnOk result (0 < self.new.room) }
        ensures err { OnErr result (self.old.room ≡ 0) }
        ensures room { self.old.room ≤ self.new.room }
        ensures unchanged { OnErr result (self.new ≡ self.old) }
    {
        self.items.reserve(1)
    }

    /// Puts an instance last, unless its signal is a standard one that already waits.
    pub fn put(&mut self, instance: Instance) -> Put
        requires { 0 < self.old.room }
        ensures answer { result
            ≡ (if merges instance.sig self.old.waiting then Put.Merged else Put.Queued) }
        ensures waiting { self.new.waiting ≡ after_put instance self.old.waiting }
        ensures room { places self.new ≡ places self.old }
    {
        let signal = instance.sig;
        if !signal.is_real_time() && self.mask.has(signal) {
            return Put::Merged;
        }
        self.items.push_reserved(instance);
        self.mask = self.mask.with(signal);
        Put::Queued
    }

    /// The first instance of the least signal number that isn't blocked. `None` where all that wait are blocked.
    pub fn best(&self, blocked: SigSet) -> Option<Instance>
        ensures { result ≡ best_of blocked self.now.waiting }
    {
        match self.mask.minus(blocked).least() {
            Some(signal) => first_in(&self.items, signal),
            None => None,
        }
    }

    /// Takes the first instance of a signal. `None` where none waits.
    pub fn take_sig(&mut self, signal: Signal) -> Option<Instance>
        ensures taken { result ≡ first_of signal self.old.waiting }
        ensures waiting { self.new.waiting ≡ without_first signal self.old.waiting }
        ensures room { places self.new ≡ places self.old }
    {
        match place_of(&self.items, signal) {
            Some(place) => {
                let instance = self.items.remove(place);
                if !waits(&self.items, signal) {
                    self.mask = self.mask.without(signal);
                }
                Some(instance)
            }
            None => None,
        }
    }

    /// Takes all instances whose signal is in a set. It appends their numbers to `gone`, in their order, and says how
    /// many they were.
    pub fn flush(&mut self, set: SigSet, gone: &mut Vec<u64>) -> u64
        requires { vec_len gone.old + length self.old.waiting ≤ vec_capacity gone.old }
        ensures count { result ≡ length (flushed_by set self.old.waiting) }
        ensures named { gone.new.items
            ≡ gone.old.items ++ map (λ i. i.n) (flushed_by set self.old.waiting) }
        ensures waiting { self.new.waiting ≡ kept_by set self.old.waiting }
        ensures room { places self.new ≡ places self.old }
        ensures capacity { vec_capacity gone.new ≡ vec_capacity gone.old }
    {
        let count = note_gone(&self.items, set, gone);
        keep_others(&mut self.items, set);
        self.mask = self.mask.minus(set);
        count
    }

    /// The set of the signals that wait.
    pub fn mask(&self) -> SigSet
        ensures { IsMask result self.now.waiting }
    {
        self.mask
    }
}

/// Whether an instance of the signal waits.
fn waits(items: &[Instance], signal: Signal) -> bool
    ensures { result ≡ is_waiting signal items.now }
{
    items.iter().any(|i| i.sig == signal)
}

/// The place of the first instance of the signal.
fn place_of(items: &[Instance], signal: Signal) -> Option<usize>
    ensures { result ≡ position (λ i. i.sig == signal) items.now }
{
    items.iter().position(|i| i.sig == signal)
}

/// The first instance of the signal.
fn first_in(items: &[Instance], signal: Signal) -> Option<Instance>
    ensures { result ≡ first_of signal items.now }
{
    let place = place_of(items, signal)?;
    Some(items[place])
}

/// Appends the numbers of the instances whose signal is in the set, and counts them.
fn note_gone(items: &[Instance], set: SigSet, gone: &mut Vec<u64>) -> u64
    requires { vec_len gone.old + length items.now ≤ vec_capacity gone.old }
    ensures count { result ≡ length (flushed_by set items.now) }
    ensures named { gone.new.items ≡ gone.old.items ++ map (λ i. i.n) (flushed_by set items.now) }
    ensures capacity { vec_capacity gone.new ≡ vec_capacity gone.old }
{
    let mut count = 0;
    for i in items {
        if set.has(i.sig) {
            gone.push_reserved(i.n);
            count += 1;
        }
    }
    count
}

/// Drops the instances whose signal is in the set.
fn keep_others(items: &mut Vec<Instance>, set: SigSet)
    ensures items { items.new.items ≡ kept_by set items.old.items }
    ensures len { vec_len items.new ≤ vec_len items.old }
    ensures capacity { vec_capacity items.new ≡ vec_capacity items.old }
{
    items.retain(|i| !set.has(i.sig));
}
