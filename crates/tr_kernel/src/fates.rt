ghost use Rattle.std.specs.Prelude.{◌≡◌, ◌↔◌, ◌++◌, ◌+◌, ◌≤◌, ◌<◌, ◌-◌, ◌^◌, [], IsTrue, None, OnOk, length, replicate, slice_get, vec_len, vec_capacity};
ghost use Rattle.tr_model.specs.declared.fates.Fate.TheVariants.{Pending};
ghost use Rattle.tr_model.specs.Journals.{same_fate};
ghost use Rattle.tr_kernel.specs.Private.{counted_under, ending_noted, endings_noted, tally};

use crate::lists::at_position;
use std::alloc::{AllocError, Global};
use std::marker::Model;
use tr_model::{Ending, Fate, Totals};

/// How many numbers have ended, by their fates. All others are pending.
#[derive(Clone, Copy)]
struct EndedCounts {
    merged: u64,
    delivered: u64,
    suppressed: u64,
    flushed: u64,
}

/// The fate of each accepted number, that of number n at place n - 1, and how many have ended, by their fates.
#[derive(Drop)]
pub(crate) struct Fates {
    list: Vec<Fate>,
    counts: EndedCounts,
}

impl Model for Fates {
    ghost use Rattle.std.specs.Prelude.{◌≡◌, ◌-◌, vec_capacity, vec_len};
    ghost use Rattle.tr_kernel.specs.Kept.{FateList};
    ghost use Rattle.tr_kernel.specs.Private.{counts_of};

    ghost Value = { FateList };

    ghost view = { λ f. record {
      fates = f.list.items;
      room = vec_capacity f.list - vec_len f.list;
    } };

    ghost invariant = { λ f. f.counts ≡ counts_of f.list.items };
}

fn same_fate(a: Fate, b: Fate) -> bool
    ensures { result ≡ same_fate a b }
{
    a as u8 == b as u8
}

impl EndedCounts {
    /// Counts a number that was pending under its fate.
    #[inline(always)]
    fn add(&mut self, fate: Fate)
        requires merged { self.old.merged + 1 < 2 ^ 64 }
        requires delivered { self.old.delivered + 1 < 2 ^ 64 }
        requires suppressed { self.old.suppressed + 1 < 2 ^ 64 }
        requires flushed { self.old.flushed + 1 < 2 ^ 64 }
        ensures { self.new ≡ counted_under fate self.old }
    {
        match fate {
            Fate::Pending => {}
            Fate::Merged => self.merged += 1,
            Fate::Delivered => self.delivered += 1,
            Fate::Suppressed => self.suppressed += 1,
            Fate::Flushed => self.flushed += 1,
        }
    }
}

impl Fates {
    pub(crate) fn new(alloc: Global) -> Fates
        ensures { result.fates ≡ [] }
    {
        Fates {
            list: Vec::new(alloc),
            counts: EndedCounts {
                merged: 0,
                delivered: 0,
                suppressed: 0,
                flushed: 0,
            },
        }
    }

    /// Makes room for so many more numbers.
    #[cold]
    #[inline(never)]
    pub(crate) fn reserve(&mut self, more: usize) -> Result<(), AllocError>
        ensures fates { self.new.fates ≡ self.old.fates }
        ensures room { OnOk result (more ≤ self.new.room) }
    {
        self.list.reserve(more)
    }

    /// Whether there is room for so many more numbers.
    #[inline(always)]
    pub(crate) fn has_room(&self, more: usize) -> bool
        ensures { IsTrue result ↔ more ≤ self.now.room }
    {
        self.list.capacity() - self.list.len() >= more
    }

    /// How many numbers were accepted.
    pub(crate) fn len(&self) -> usize
        ensures { result ≡ length self.now.fates }
    {
        self.list.len()
    }

    /// The fate of a number, from 1.
    pub(crate) fn at(&self, number: u64) -> Option<Fate>
        ensures none { number ≡ 0 → result ≡ None }
        ensures at { 1 ≤ number → result ≡ slice_get self.now.fates (number - 1) }
    {
        at_position(&self.list, number)
    }

    /// How many numbers there are, and how many have each fate.
    pub(crate) fn totals(&self) -> Totals
        ensures { result ≡ tally self.now.fates (length self.now.fates) }
    {
        let counts = self.counts;
        let accepted = self.list.len() as u64;
        let ended = counts.merged + counts.delivered + counts.suppressed + counts.flushed;
        Totals {
            accepted,
            pending: accepted - ended,
            merged: counts.merged,
            delivered: counts.delivered,
            suppressed: counts.suppressed,
            flushed: counts.flushed,
        }
    }

    /// Appends this many accepted numbers, whose fate is open.
    #[inline(always)]
    fn accept(&mut self, more: usize)
        requires { more ≤ self.old.room }
        ensures fates { self.new.fates ≡ self.old.fates ++ replicate more Pending }
        ensures room { self.old.room ≤ self.new.room + more }
    {
        append_pending(&mut self.list, more);
    }

    /// Appends this many accepted numbers, and writes down what ended. Most entries accept one signal or none, and one that
    /// ends at once gets its fate at once.
    #[inline(always)]
    pub(crate) fn enter(&mut self, more: usize, ended: &[Ending])
        requires { more ≤ self.old.room }
        ensures { self.new.fates ≡ endings_noted ended.now (self.old.fates ++ replicate more Pending) }
    {
        let next = self.list.len() as u64 + 1;
        match ended {
            [] => self.accept(more),
            [ending] if more == 1 && ending.number == next => {
                self.list.push_reserved(ending.fate);
                self.counts.add(ending.fate);
            }
            _ => {
                self.accept(more);
                self.write_all(ended);
            }
        }
    }

    /// Writes down what ended.
    #[inline(always)]
    fn write_all(&mut self, ended: &[Ending])
        ensures { self.new.fates ≡ endings_noted ended.now self.old.fates }
    {
        for ending in ended {
            self.write(ending);
        }
    }

    #[inline(always)]
    fn write(&mut self, ending: &Ending)
        ensures { self.new.fates ≡ ending_noted 1 ending.now self.old.fates }
    {
        let place = ending.number as usize;
        if 1 <= place
            && place <= self.list.len()
            && same_fate(Fate::Pending, self.list[place - 1])
        {
            self.list[place - 1] = ending.fate;
            self.counts.add(ending.fate);
        }
    }
}

/// Appends so many open fates. Most entries accept one signal or none.
#[inline(always)]
fn append_pending(list: &mut Vec<Fate>, more: usize)
    requires { vec_len list.old + more ≤ vec_capacity list.old }
    ensures items { list.new.items ≡ list.old.items ++ replicate more Pending }
    ensures capacity { vec_capacity list.new ≡ vec_capacity list.old }
{
    match more {
        0 => {}
        1 => list.push_reserved(Fate::Pending),
        _ => append_each_pending(list, more),
    }
}

#[inline(never)]
fn append_each_pending(list: &mut Vec<Fate>, more: usize)
    requires { vec_len list.old + more ≤ vec_capacity list.old }
    ensures items { list.new.items ≡ list.old.items ++ replicate more Pending }
    ensures capacity { vec_capacity list.new ≡ vec_capacity list.old }
{
    for _ in 0..more {
        list.push_reserved(Fate::Pending);
    }
}
