ghost use Rattle.std.specs.Prelude.{◌≡◌, ℕ, ◌≤◌, ◌==◌, ◌&&◌, ◌||◌, [], MatchOption, false, filter, length, true};
ghost use Rattle.std.specs.Option.{option_map_or};
ghost use Rattle.std.specs.List.{list_all, list_any};
ghost use Rattle.tr_sigset.specs.Sets.{has, in_word};
ghost use Rattle.tr_tracee.specs.Lives.{is_dead, is_live};
ghost use Rattle.tr_tracee.specs.Threads.{in_group, is_traced};
ghost use Rattle.tr_model.specs.Journals.{occurs};
ghost use Rattle.tr_model.specs.Tables.{ids_of, thread_in};
ghost use Rattle.tr_threads.specs.Rosters.{roster_of};

use crate::roster_list::Roster;
use crate::threads::Threads;
use arrayvec::ArrayVec;
use tr_sigset::{SigSet, Signal};

// What is asked of the threads of one group.

impl Threads {
    /// Says whether the group has a thread.
    pub fn has_member(&self, tgid: u32) -> bool
        ensures { result ≡ list_any (in_group tgid) self.now }
    {
        self.count_members(tgid) != 0
    }

    /// Says how many threads the group has.
    pub fn count_members(&self, tgid: u32) -> usize
        ensures { result ≡ length (filter (in_group tgid) self.now) }
    {
        self.rosters.count(tgid)
    }

    /// Copies the ids of the group's threads, in table order.
    pub fn member_ids(&self, tgid: u32) -> ArrayVec<u32, 64>
        ensures ids { result.items ≡ ids_of (filter (in_group tgid) self.now) }
        ensures once { (n : ℕ) → occurs n (ids_of self.now) ≤ 1 }
    {
        self.rosters.copy_ids(tgid)
    }

    /// Lends the ids of the group's threads, in table order.
    pub fn ids_in(&self, tgid: u32) -> &[u32]
        ensures ids { result.now ≡ ids_of (filter (in_group tgid) self.now) }
        ensures once { (n : ℕ) → occurs n (ids_of self.now) ≤ 1 }
    {
        self.rosters.ids(tgid)
    }

    /// Lends what is kept of the group's threads beside their records. `None` comes where it has none.
    pub fn roster(&self, tgid: u32) -> Option<&Roster>
        ensures { MatchOption result (filter (in_group tgid) self.now ≡ [])
            (λ r. r.now ≡ roster_of (filter (in_group tgid) self.now)) }
    {
        self.rosters.roster(tgid)
    }

    /// Says whether a thread of the group is traced.
    pub fn has_traced(&self, tgid: u32) -> bool
        ensures { result ≡ list_any is_traced (filter (in_group tgid) self.now) }
    {
        self.rosters.has_traced(tgid)
    }

    /// Says whether each thread of the group is dead.
    pub fn all_dead(&self, tgid: u32) -> bool
        ensures { result ≡ list_all (λ t. is_dead t.life) (filter (in_group tgid) self.now) }
    {
        self.rosters.all_dead(tgid)
    }

    /// Says whether a thread of the group is live.
    pub fn has_live(&self, tgid: u32) -> bool
        ensures { result ≡ list_any (λ t. is_live t.life) (filter (in_group tgid) self.now) }
    {
        self.rosters.has_live(tgid)
    }

    /// Says whether a thread of the group has a stop mark.
    pub fn has_stop_mark(&self, tgid: u32) -> bool
        ensures { result ≡ list_any (λ t. t.stop_mark) (filter (in_group tgid) self.now) }
    {
        self.rosters.has_stop_mark(tgid)
    }

    /// Says whether each thread of the group but that with the id is dead.
    pub fn others_dead(&self, tgid: u32, id: u32) -> bool
        ensures { result
            ≡ list_all (λ t. t.id == id || is_dead t.life) (filter (in_group tgid) self.now) }
    {
        all_are_or_are_dead(self, self.ids_in(tgid), id)
    }

    /// Says whether a live thread of the group blocks the signal.
    pub fn some_blocks(&self, tgid: u32, signal: Signal) -> bool
        ensures { result
            ≡ list_any (λ t. is_live t.life && has t.mask signal)
            (filter (in_group tgid) self.now) }
    {
        match self.roster(tgid) {
            Some(roster) => some_holds(roster.blocked(), signal),
            None => false,
        }
    }
}

/// Whether the thread of an id is the one with the other, or dead.
fn is_or_is_dead(threads: &Threads, n: u32, id: u32) -> bool
    ensures { result
        ≡ option_map_or (λ t. t.id == id || is_dead t.life) (thread_in threads.now n) true }
{
    match threads.find(n) {
        Some(thread) => thread.id == id || thread.life.is_dead(),
        None => true,
    }
}

/// Whether one of these words holds the signal.
fn some_holds(words: &[u64], signal: Signal) -> bool
    ensures { result ≡ list_any (λ word. in_word word signal) words.now }
{
    words
        .iter()
        .any(|word| SigSet::from_bits(*word).has(signal))
}

fn all_are_or_are_dead(threads: &Threads, ids: &[u32], id: u32) -> bool
    ensures { result
        ≡ list_all
        (λ n. option_map_or (λ t. t.id == id || is_dead t.life)
        (thread_in threads.now n) true) ids.now }
{
    ids.iter().all(|n| is_or_is_dead(threads, *n, id))
}
