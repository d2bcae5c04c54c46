ghost use Rattle.std.specs.Prelude.{◌≡◌, ◌==◌, ◌+◌, ◌*◌, ◌<◌, ◌≤◌, ◌++◌, ◌∷◌, [], OnErr, OnOk, false, filter, get_or, length, map, not, option_copied, option_map, set, vec_capacity, vec_len};
ghost use Rattle.indexmap.specs.IndexMap.{index_map_len};
ghost use Rattle.std.specs.List.{list_any};
ghost use Rattle.tr_model.specs.declared.fates.Fate.TheVariants.{Flushed};
ghost use Rattle.tr_model.specs.declared.rows.Target.TheVariants as target;
ghost use Rattle.tr_model.specs.Moves.{ending_of, instance_in, retargeted, without_instance};
ghost use Rattle.tr_pending.specs.Waiting.{IsMask, best_of, first_of, is_waiting};
ghost use Rattle.tr_queues.specs.Choices.{waiting_in};
ghost use Rattle.tr_queues.specs.Changes.{holds, is_flushed, is_picked, queue_in};
ghost use Rattle.tr_queues.specs.Lines.{IsQueue, line_at};
ghost use Rattle.tr_queues.specs.Queues.{AllBelow, count_own, own_share, without_one};
ghost use Rattle.tr_queues.specs.Slots.{IsPending, emptied, standing};
ghost use Rattle.tr_queues.specs.declared.slots.Slot.{Slot};

use crate::hashing::WordHashing;
use crate::lines::{
    Line, LineKey, Queue, enter_all, enter_line, enter_queue, find, find_line, leave_line,
    leave_queue,
};
use crate::picked::{Flush, Picked, is_picked, log_picked};
use crate::slots::{Slot, close_up, place_of, retarget, trim};
use indexmap::IndexMap;
use std::alloc::{AllocError, Global};
use std::hash::BuildHasherDefault;
use tr_model::{Ending, Target, Waiting};
use tr_pending::Instance;
use tr_sigset::{SigSet, Signal};
use tr_threads::Threads;

/// How many pairs of lines may stay beside a pair for each instance that waits.
const MOST_EMPTY: usize = 64;

/// For how many more instances at least there are places where some are made.
const FEWEST_PLACES: usize = 16;

/// One of a thread's own queue, none of a group's.
fn own_share(target: Target) -> usize
    ensures { result ≡ own_share target }
{
    match target {
        Target::Thread(_) => 1,
        Target::Group(_) => 0,
    }
}

/// All that waits, in slots that stand in order of acceptance, with an index of its lines and queues.
pub struct Pending {
    /// Those of instances that are gone stay among the others, until they are closed up.
    pub slots: Vec<Slot>,
    lines: IndexMap<LineKey, Line, WordHashing>,
    queues: IndexMap<Target, Queue, WordHashing>,
    /// How many instances wait.
    pub count: usize,
    /// How many of these wait for threads, and not for groups.
    own: usize,
    /// For how many more there are places.
    pub room: usize,
}

impl Drop for Pending {
    fn drop(self) {
        let Pending {
            slots: _,
            lines: _,
            queues: _,
            count: _,
            own: _,
            room: _,
        } = self;
    }
}

impl Pending {
    /// Nothing waits, and no place is reserved.
    pub fn new(alloc: Global) -> Pending
        ensures kept { IsPending result }
        ensures waiting { standing result.slots.items ≡ [] }
        ensures room { result.room ≡ 0 }
    {
        Pending {
            slots: Vec::new(alloc),
            lines: IndexMap::with_hasher(alloc, BuildHasherDefault::new()),
            queues: IndexMap::with_hasher(alloc, BuildHasherDefault::new()),
            count: 0,
            own: 0,
            room: 0,
        }
    }

    /// How many instances wait.
    pub fn len(&self) -> usize
        requires { IsPending self.now }
        ensures { result ≡ length (standing self.now.slots.items) }
    {
        self.count
    }

    /// Whether something waits for a thread, and not for a group.
    pub fn waits_for_threads(&self) -> bool
        requires { IsPending self.now }
        ensures { result ≡ not (count_own (standing self.now.slots.items) == 0) }
    {
        self.own != 0
    }

    /// Whether something may wait for the target: for a thread, or for a group.
    #[inline(always)]
    fn may_wait(&self, target: Target) -> bool
        requires { IsPending self.now }
        ensures { result ≡ false → queue_in target (standing self.now.slots.items) ≡ [] }
    {
        match target {
            Target::Thread(_) => self.own != 0,
            Target::Group(_) => self.own != self.count,
        }
    }

    /// What is kept of the target's queue.
    #[inline(always)]
    fn queue(&self, target: Target) -> Option<Queue>
        requires { IsPending self.now }
        ensures { IsQueue result (queue_in target (standing self.now.slots.items)) }
    {
        if !self.may_wait(target) {
            return None;
        }
        let (_, queue) = find(&self.queues, &target)?;
        Some(queue)
    }

    /// How many instances wait for the target.
    pub fn queue_len(&self, target: Target) -> usize
        requires { IsPending self.now }
        ensures { result ≡ length (queue_in target (standing self.now.slots.items)) }
    {
        match self.queue(target) {
            Some(queue) => queue.count,
            None => 0,
        }
    }

    /// The set of the signals that wait for the target.
    #[inline(always)]
    pub fn mask(&self, target: Target) -> SigSet
        requires { IsPending self.now }
        ensures { IsMask result (queue_in target (standing self.now.slots.items)) }
    {
        match self.queue(target) {
            Some(queue) => queue.mask,
            None => SigSet::empty(),
        }
    }

    /// Whether an instance of the signal waits for the target.
    #[inline(always)]
    pub fn is_waiting(&self, target: Target, signal: Signal) -> bool
        requires { IsPending self.now }
        ensures { result ≡ is_waiting signal (queue_in target (standing self.now.slots.items)) }
    {
        self.mask(target).has(signal)
    }

    /// What waits with a number.
    #[inline(always)]
    pub fn waiting(&self, n: u64) -> Option<&Waiting>
        requires { IsPending self.now }
        ensures waiting { option_copied result ≡ waiting_in (standing self.now.slots.items) n }
    {
        let place = place_of(&self.slots, n)?;
        let slot = &self.slots[place];
        if slot.gone { None } else { Some(&slot.waiting) }
    }

    /// The line of the instances of a signal that wait for the target, where there are any.
    #[inline(always)]
    fn line(&self, target: Target, signal: Signal) -> Option<Line>
        ensures { result ≡ line_at self.now.lines target signal }
    {
        let key = LineKey {
            target,
            signal: signal.number(),
        };
        let (_, line) = find_line(&self.lines, &key)?;
        Some(line)
    }

    /// The first instance of a signal that waits for the target.
    fn first(&self, target: Target, signal: Signal) -> Option<Instance>
        requires { IsPending self.now }
        ensures { result ≡ first_of signal (queue_in target (standing self.now.slots.items)) }
    {
        let line = self.line(target, signal)?;
        Some(self.waiting(line.first)?.instance)
    }

    /// The first instance of the least signal number that isn't blocked, of those that wait for the target.
    pub fn best(&self, target: Target, blocked: SigSet) -> Option<Instance>
        requires { IsPending self.now }
        ensures { result ≡ best_of blocked (queue_in target (standing self.now.slots.items)) }
    {
        match self.mask(target).minus(blocked).least() {
            Some(signal) => self.first(target, signal),
            None => None,
        }
    }

    /// The number of the first instance of the least signal number that isn't blocked, of those that wait for the target.
    #[inline(always)]
    pub fn best_number(&self, target: Target, blocked: SigSet) -> Option<u64>
        requires { IsPending self.now }
        ensures { result
            ≡ option_map (λ i. i.n)
            (best_of blocked (queue_in target (standing self.now.slots.items))) }
    {
        match self.mask(target).minus(blocked).least() {
            Some(signal) => Some(self.line(target, signal)?.first),
            None => None,
        }
    }

    /// Puts an instance last. Its number is above all that wait.
    pub fn push(&mut self, waiting: &Waiting)
        requires kept { IsPending self.old }
        requires room { 0 < self.old.room }
        requires last { AllBelow waiting.now.instance.n (standing self.old.slots.items) }
        ensures kept { IsPending self.new }
        ensures waiting { standing self.new.slots.items
            ≡ standing self.old.slots.items ++ waiting.now ∷ [] }
        ensures room { self.new.room + 1 ≡ self.old.room }
    {
        trim(&mut self.slots);
        enter_line(&mut self.lines, waiting);
        enter_queue(&mut self.queues, waiting);
        self.slots.push_reserved(Slot {
            waiting: *waiting,
            gone: false,
        });
        self.count += 1;
        self.own += own_share(waiting.target);
        self.room -= 1;
    }

    /// Takes the instance at a place out. Its slot stays.
    fn remove_at(&mut self, place: usize)
        requires kept { IsPending self.old }
        requires within { place < vec_len self.old.slots }
        requires there { (s : Slot) → (get_or self.old.slots.items place s).gone ≡ false }
        ensures kept { IsPending self.new }
        ensures slots { (s : Slot)
            → self.new.slots.items
            ≡ set self.old.slots.items place (emptied (get_or self.old.slots.items place s)) }
        ensures room { self.new.room ≡ self.old.room }
    {
        let waiting = self.slots[place].waiting;
        let stays = leave_line(&mut self.lines, &waiting, &self.slots[place + 1..]);
        leave_queue(&mut self.queues, &waiting, stays);
        self.own -= own_share(waiting.target);
        self.slots[place].gone = true;
        self.count -= 1;
    }

    /// Takes the instance of a number out.
    pub fn remove(&mut self, n: u64) -> Option<Instance>
        requires kept { IsPending self.old }
        ensures taken { result ≡ instance_in (standing self.old.slots.items) n }
        ensures kept { IsPending self.new }
        ensures waiting { standing self.new.slots.items
            ≡ without_instance n (standing self.old.slots.items) }
        ensures room { self.new.room ≡ self.old.room }
    {
        let place = place_of(&self.slots, n)?;
        if self.slots[place].gone {
            return None;
        }
        let taken = self.slots[place].waiting.instance;
        self.remove_at(place);
        Some(taken)
    }

    /// Takes the first instance of a signal that waits for the target out.
    pub fn take_first(&mut self, target: Target, signal: Signal) -> Option<Instance>
        requires { IsPending self.old }
        ensures taken { result ≡ first_of signal (queue_in target (standing self.old.slots.items)) }
        ensures kept { IsPending self.new }
        ensures waiting { standing self.new.slots.items
            ≡ without_one target signal (standing self.old.slots.items) }
        ensures room { self.new.room ≡ self.old.room }
    {
        let line = self.line(target, signal)?;
        self.remove(line.first)
    }

    /// Drops the empty lines and queues, where they have become many.
    fn drop_empty(&mut self)
        requires { IsPending self.old }
        ensures kept { IsPending self.new }
        ensures few { index_map_len self.new.lines ≤ 2 * (self.new.count + 64) + 1 }
        ensures slots { self.new.slots ≡ self.old.slots }
        ensures count { self.new.count ≡ self.old.count }
        ensures room { self.new.room ≡ self.old.room }
    {
        if (self.lines.len() / 2).saturating_sub(MOST_EMPTY) > self.count {
            enter_all(&mut self.lines, &mut self.queues, &self.slots);
        }
    }

    /// Makes places for this many more. Where memory is refused, what waits and what is promised stays.
    pub fn reserve(&mut self, more: usize) -> Result<(), AllocError>
        requires { IsPending self.old }
        ensures kept { IsPending self.new }
        ensures waiting { standing self.new.slots.items ≡ standing self.old.slots.items }
        ensures ok { OnOk result (more ≤ self.new.room) }
        ensures room { self.old.room ≤ self.new.room }
        ensures err { OnErr result (self.new.room ≡ self.old.room) }
        ensures short { OnErr result (self.old.room < more) }
    {
        if more <= self.room {
            return Ok(());
        }
        let places = more.max(FEWEST_PLACES);
        let all = self.count.checked_add(places).ok_or(AllocError)?;
        self.drop_empty();
        if self.slots.len() / 2 > self.count {
            close_up(&mut self.slots);
        }
        self.slots.reserve(places)?;
        let lines = all.saturating_sub(self.lines.len());
        self.lines.reserve(lines.max(places))?;
        let queues = all.saturating_sub(self.queues.len());
        self.queues.reserve(queues.max(places))?;
        self.room = places;
        Ok(())
    }

    /// What waits for one thread waits for another.
    pub fn retarget(&mut self, from: u32, to: u32)
        requires { IsPending self.old }
        ensures kept { IsPending self.new }
        ensures waiting { standing self.new.slots.items
            ≡ map (retargeted from to) (standing self.old.slots.items) }
        ensures room { self.new.room ≡ self.old.room }
    {
        if self.queue_len(Target::Thread(from)) == 0 {
            return;
        }
        retarget(&mut self.slots, from, to);
        enter_all(&mut self.lines, &mut self.queues, &self.slots);
    }

    /// Whether the target's queue holds what is flushed.
    fn holds(&self, target: Target, flush: &Flush) -> bool
        requires { IsPending self.now }
        ensures { result ≡ holds flush.now target (standing self.now.slots.items) }
    {
        flush.takes_some(self.mask(target))
    }

    /// Whether the own queue of a thread with one of these ids holds what is flushed.
    fn threads_hold(&self, ids: &[u32], flush: &Flush) -> bool
        requires { IsPending self.now }
        ensures { result
            ≡ list_any
            (λ id. holds flush.now (target.Thread id) (standing self.now.slots.items)) ids.now }
    {
        ids.iter().any(|id| self.holds(Target::Thread(*id), flush))
    }

    /// Whether a queue of the group may hold what is flushed.
    fn may_group_hold(&self, threads: &Threads, tgid: u32, flush: &Flush) -> bool
        requires { IsPending self.now }
        ensures { result ≡ false
            → list_any (is_flushed threads.now tgid flush.now) (standing self.now.slots.items)
            ≡ false }
    {
        if self.count == 0 {
            return false;
        }
        // The target of no thread has the owner 0.
        if tgid == 0 || self.holds(Target::Group(tgid), flush) {
            return true;
        }
        self.threads_hold(threads.member_ids(tgid).as_slice(), flush)
    }

    /// Whether something may be picked; where not, none is.
    fn may_pick(&self, threads: &Threads, picked: &Picked) -> bool
        requires { IsPending self.now }
        ensures { result ≡ false
            → list_any (is_picked threads.now picked.now) (standing self.now.slots.items) ≡ false }
    {
        match picked {
            Picked::Group(tgid, flush) => self.may_group_hold(threads, *tgid, flush),
            Picked::Queue(target) => self.queue_len(*target) > 0,
            Picked::Set(target, _) => self.queue_len(*target) > 0,
        }
    }

    /// Takes out what is picked, and appends it to `ended` as flushed, in order of acceptance.
    pub fn flush(&mut self, threads: &Threads, picked: &Picked, ended: &mut Vec<Ending>)
        requires kept { IsPending self.old }
        requires places { vec_len ended.old + length (standing self.old.slots.items)
            ≤ vec_capacity ended.old }
        ensures kept { IsPending self.new }
        ensures waiting { standing self.new.slots.items
            ≡ filter (λ q. not (is_picked threads.now picked.now q))
            (standing self.old.slots.items) }
        ensures room { self.new.room ≡ self.old.room }
        ensures ended { ended.new.items
            ≡ ended.old.items
            ++ map (ending_of Flushed)
            (filter (is_picked threads.now picked.now) (standing self.old.slots.items)) }
        ensures len { vec_len ended.new
            ≡ vec_len ended.old
            + length (filter (is_picked threads.now picked.now) (standing self.old.slots.items)) }
        ensures capacity { vec_capacity ended.new ≡ vec_capacity ended.old }
    {
        if self.may_pick(threads, picked) {
            log_picked(ended, &self.slots, threads, picked);
            self.drop_picked(threads, picked);
        }
    }

    /// Takes out what is picked.
    pub fn drop_picked(&mut self, threads: &Threads, picked: &Picked)
        requires { IsPending self.old }
        ensures kept { IsPending self.new }
        ensures waiting { standing self.new.slots.items
            ≡ filter (λ q. not (is_picked threads.now picked.now q))
            (standing self.old.slots.items) }
        ensures room { self.new.room ≡ self.old.room }
    {
        for place in 0..self.slots.len() {
            let slot = &self.slots[place];
            if !slot.gone && is_picked(threads, picked, &slot.waiting) {
                self.remove_at(place);
            }
        }
    }
}
