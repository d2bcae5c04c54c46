ghost use Rattle.std.specs.Prelude.{List, ◌≡◌, ◌+◌, ◌≤◌, ◌++◌, ◌||◌, filter, length, map, vec_len, vec_capacity};
ghost use Rattle.std.specs.List.{list_any};
ghost use Rattle.tr_sigset.specs.Sets.{has};
ghost use Rattle.tr_pending.specs.declared.instance.Instance.{Instance};
ghost use Rattle.tr_pending.specs.Waiting.{IsMask};
ghost use Rattle.tr_model.specs.Moves.{ending_of};
ghost use Rattle.tr_model.specs.Tables.{same_target};
ghost use Rattle.tr_model.specs.declared.fates.Fate.TheVariants.{Flushed};
ghost use Rattle.tr_queues.specs.Changes.{flushes, is_flushed, is_picked};
ghost use Rattle.tr_queues.specs.Queues.{is_of, is_one};
ghost use Rattle.tr_queues.specs.Slots.{standing};

use crate::slots::Slot;
use tr_model::{Ending, Fate, Target, Waiting};
use tr_sigset::{SigSet, Signal};
use tr_threads::{Threads, owner_of};

/// Which pending signals of a group are flushed.
#[derive(Clone, Copy, Debug)]
pub enum Flush {
    /// The stop signals.
    Stops,
    /// SIGCONT.
    Cont,
    /// One signal.
    One(Signal),
}

/// Which instances are picked, of all that wait.
#[derive(Clone, Copy, Debug)]
pub enum Picked {
    /// Those of the group's queues that are flushed.
    Group(u32, Flush),
    /// A whole queue.
    Queue(Target),
    /// Those of a queue whose signal is in the set.
    Set(Target, SigSet),
}

/// Whether some of the signals is STOP, TSTP, TTIN or TTOU.
fn has_stop(signals: SigSet) -> bool
    ensures { result
        ≡ (has signals 19 || (has signals 20 || (has signals 21 || has signals 22))) }
{
    signals.has(Signal::STOP)
        || signals.has(Signal::TSTP)
        || signals.has(Signal::TTIN)
        || signals.has(Signal::TTOU)
}

impl Flush {
    /// Whether it is of some of these signals.
    pub(crate) fn takes_some(&self, signals: SigSet) -> bool
        ensures { (is : List Instance)
            → IsMask signals is
            → result ≡ list_any (λ i. flushes self.now i.sig) is }
    {
        match self {
            Flush::Stops => has_stop(signals),
            Flush::Cont => signals.has(Signal::CONT),
            Flush::One(signal) => signals.has(*signal),
        }
    }
}

fn flushes(flush: &Flush, signal: Signal) -> bool
    ensures { result ≡ flushes flush.now signal }
{
    match flush {
        Flush::Stops => signal.is_stop(),
        Flush::Cont => signal == Signal::CONT,
        Flush::One(flushed) => signal == *flushed,
    }
}

fn is_flushed(threads: &Threads, tgid: u32, flush: &Flush, waiting: &Waiting) -> bool
    ensures { result ≡ is_flushed threads.now tgid flush.now waiting.now }
{
    flushes(flush, waiting.instance.sig) && owner_of(threads, waiting.target) == tgid
}

fn is_in(target: Target, set: SigSet, waiting: &Waiting) -> bool
    ensures { result ≡ is_of target set waiting.now }
{
    same_target(target, waiting.target) && set.has(waiting.instance.sig)
}

pub(crate) fn is_picked(threads: &Threads, picked: &Picked, waiting: &Waiting) -> bool
    ensures { result ≡ is_picked threads.now picked.now waiting.now }
{
    match picked {
        Picked::Group(tgid, flush) => is_flushed(threads, *tgid, flush, waiting),
        Picked::Queue(target) => same_target(*target, waiting.target),
        Picked::Set(target, set) => is_in(*target, *set, waiting),
    }
}

pub(crate) fn is_one(target: Target, signal: Signal, waiting: &Waiting) -> bool
    ensures { result ≡ is_one target signal waiting.now }
{
    same_target(target, waiting.target) && waiting.instance.sig == signal
}

/// Says whether two targets are the same thread or group.
pub fn same_target(a: Target, b: Target) -> bool
    ensures { result ≡ same_target a b }
{
    match (a, b) {
        (Target::Thread(a), Target::Thread(b)) => a == b,
        (Target::Group(a), Target::Group(b)) => a == b,
        _ => false,
    }
}

/// Appends what is picked as flushed, in order of acceptance.
pub(crate) fn log_picked(
    ended: &mut Vec<Ending>,
    slots: &[Slot],
    threads: &Threads,
    picked: &Picked,
)
    requires { vec_len ended.old + length (standing slots.now) ≤ vec_capacity ended.old }
    ensures items { ended.new.items
        ≡ ended.old.items
        ++ map (ending_of Flushed)
        (filter (is_picked threads.now picked.now) (standing slots.now)) }
    ensures len { vec_len ended.new
        ≡ vec_len ended.old
        + length (filter (is_picked threads.now picked.now) (standing slots.now)) }
    ensures capacity { vec_capacity ended.new ≡ vec_capacity ended.old }
{
    for slot in slots {
        if !slot.gone && is_picked(threads, picked, &slot.waiting) {
            ended.push_reserved(Ending {
                number: slot.waiting.instance.n,
                fate: Fate::Flushed,
            });
        }
    }
}

/// Appends the numbers of what is picked, in order of acceptance, and counts them.
pub fn note_picked(slots: &[Slot], threads: &Threads, picked: &Picked, gone: &mut Vec<u64>) -> u64
    requires { vec_len gone.old + length (standing slots.now) ≤ vec_capacity gone.old }
    ensures count { result
        ≡ length (filter (is_picked threads.now picked.now) (standing slots.now)) }
    ensures named { gone.new.items
        ≡ gone.old.items
        ++ map (λ q. q.instance.n)
        (filter (is_picked threads.now picked.now) (standing slots.now)) }
    ensures capacity { vec_capacity gone.new ≡ vec_capacity gone.old }
{
    let mut count = 0;
    for slot in slots {
        if !slot.gone && is_picked(threads, picked, &slot.waiting) {
            gone.push_reserved(slot.waiting.instance.n);
            count += 1;
        }
    }
    count
}
