ghost use Rattle.std.specs.Prelude.{◌≡◌, ℕ, ◌+◌, ◌<◌, ◌≤◌, ◌==◌, [], OnOk, filter, if◌then◌else◌, length, map, nat_lt, not, vec_capacity};
ghost use Rattle.std.specs.List.Sorted.{IsNonDecreasing};
ghost use Rattle.tr_model.specs.Journals.{occurs};
ghost use Rattle.tr_index.specs.Counts.{bool_to_nat};
ghost use Rattle.tr_index.specs.Multisets.{IsNextFrom, lowered};

use std::alloc::{AllocError, Global};
use std::marker::Model;

/// Numbers, each counted as often as it was added. They rise.
#[derive(Drop)]
pub struct Multiset {
    numbers: Vec<u32>,
}

impl Model for Multiset {
    ghost use Rattle.std.specs.Prelude.{vec_capacity};
    ghost use Rattle.std.specs.List.Sorted.{IsNonDecreasing};
    ghost use Rattle.tr_index.specs.Multisets.{MultisetView};

    ghost Value = { MultisetView };

    ghost view = { λ t. record { numbers = t.numbers.items; places = vec_capacity t.numbers } };

    ghost invariant = { λ t. IsNonDecreasing t.numbers.items };
}

/// The first of these numbers, which rise, that isn't below this one.
fn first_from(numbers: &[u32], n: u32) -> Option<u32>
    requires { IsNonDecreasing numbers.now }
    ensures { IsNextFrom n numbers.now result }
{
    match numbers.first() {
        None => None,
        // Mostly it is the first.
        Some(first) if n <= *first => Some(*first),
        Some(_) => {
            let place = numbers.partition_point(|m| *m < n);
            numbers.get(place).copied()
        }
    }
}

/// The same, looked for at a likely place first.
#[inline(always)]
fn first_near(numbers: &[u32], likely: usize, n: u32) -> Option<u32>
    requires { IsNonDecreasing numbers.now }
    ensures { IsNextFrom n numbers.now result }
{
    if 0 < likely && likely < numbers.len() {
        let number = numbers[likely];
        if numbers[likely - 1] < n && n <= number {
            return Some(number);
        }
    }
    first_from(numbers, n)
}

fn lower(n: u32, m: u32) -> u32
    ensures { result ≡ lowered n m }
{
    if n < m { m - 1 } else { m }
}

fn lower_each(numbers: &mut [u32], n: u32)
    ensures { numbers.new ≡ map (lowered n) numbers.old }
{
    for m in numbers.iter_mut() {
        *m = lower(n, *m);
    }
}

/// Lowers the numbers above this one by 1.
fn lower_above(numbers: &mut Vec<u32>, n: u32)
    ensures items { numbers.new.items ≡ map (lowered n) numbers.old.items }
    ensures capacity { vec_capacity numbers.new ≡ vec_capacity numbers.old }
{
    lower_each(numbers, n);
}

/// Drops a number, as often as it is there.
fn drop_number(numbers: &mut Vec<u32>, n: u32)
    ensures items { numbers.new.items ≡ filter (λ m. not (m == n)) numbers.old.items }
    ensures capacity { vec_capacity numbers.new ≡ vec_capacity numbers.old }
{
    numbers.retain(|m| *m != n);
}

impl Multiset {
    /// Makes a multiset of no numbers, which takes no memory.
    pub fn new(alloc: Global) -> Multiset
        ensures { result.numbers ≡ [] }
    {
        Multiset {
            numbers: Vec::new(alloc),
        }
    }

    /// Makes places for so many numbers. The numbers stay as they are.
    pub fn reserve(&mut self, count: usize) -> Result<(), AllocError>
        ensures numbers { self.new.numbers ≡ self.old.numbers }
        ensures places { self.old.places ≤ self.new.places }
        ensures ok { OnOk result (count ≤ self.new.places) }
    {
        self.numbers
            .reserve(count.saturating_sub(self.numbers.len()))
    }

    /// Says whether a number is counted.
    pub fn contains(&self, n: u32) -> bool
        ensures { result ≡ not (occurs n self.now.numbers == 0) }
    {
        // Mostly there is one number alone.
        self.numbers.first() == Some(&n) || self.numbers.binary_search(&n).is_ok()
    }

    /// Gives the least number counted that isn't below this one, and looks first whether so many numbers stand before it.
    #[inline(always)]
    pub fn next_near(&self, likely: usize, n: u32) -> Option<u32>
        ensures { IsNextFrom n self.now.numbers result }
    {
        first_near(&self.numbers, likely, n)
    }

    /// Says whether no number is counted.
    pub fn is_empty(&self) -> bool
        ensures { result ≡ (length self.now.numbers == 0) }
    {
        self.numbers.is_empty()
    }

    /// Says whether there is a place for one more number.
    pub fn has_room(&self) -> bool
        ensures { result ≡ nat_lt (length self.now.numbers) self.now.places }
    {
        self.numbers.len() < self.numbers.capacity()
    }

    /// Drops all numbers. The places stay.
    pub fn clear(&mut self)
        ensures numbers { self.new.numbers ≡ [] }
        ensures places { self.new.places ≡ self.old.places }
    {
        self.numbers.clear();
    }

    /// Counts a number once more.
    pub fn insert(&mut self, n: u32)
        requires { length self.old.numbers < self.old.places }
        ensures counted { (m : ℕ)
            → occurs m self.new.numbers ≡ occurs m self.old.numbers + bool_to_nat (n == m) }
        ensures sized { length self.new.numbers ≡ length self.old.numbers + 1 }
        ensures places { self.new.places ≡ self.old.places }
    {
        // Mostly it comes last.
        if self.numbers.last().is_none_or(|last| *last <= n) {
            self.numbers.push_reserved(n);
            return;
        }
        let place = self.numbers.partition_point(|m| *m < n);
        let _inserted = self.numbers.insert(place, n);
    }

    /// Counts a number once less.
    pub fn remove(&mut self, n: u32)
        requires { 1 ≤ occurs n self.old.numbers }
        ensures counted { (m : ℕ)
            → occurs m self.new.numbers + bool_to_nat (n == m) ≡ occurs m self.old.numbers }
        ensures sized { length self.new.numbers + 1 ≡ length self.old.numbers }
        ensures places { self.new.places ≡ self.old.places }
    {
        // Mostly it stands last.
        if self.numbers.last().copied() == Some(n) {
            let _last = self.numbers.pop();
            return;
        }
        if let Ok(place) = self.numbers.binary_search(&n) {
            let _removed = self.numbers.remove(place);
        }
    }

    /// Takes a number out, as often as it is counted, and lowers all that are above it by 1.
    pub fn close_up(&mut self, n: u32)
        ensures counted { (m : ℕ)
            → occurs m self.new.numbers
            ≡ occurs (if nat_lt m n then m else m + 1) self.old.numbers }
        ensures sized { length self.new.numbers ≤ length self.old.numbers }
        ensures places { self.new.places ≡ self.old.places }
    {
        drop_number(&mut self.numbers, n);
        lower_above(&mut self.numbers, n);
    }
}
