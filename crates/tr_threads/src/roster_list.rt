ghost use Rattle.std.specs.Prelude.{◌≡◌, ℕ, ◌<◌, ◌≤◌, ◌==◌, [], filter, MatchOption, OnErr, OnOk, if◌then◌else◌, length, not, true, vec_capacity, vec_len};
ghost use Rattle.tr_model.specs.Journals.{occurs};
ghost use Rattle.tr_index.specs.Places.{place_in};
ghost use Rattle.tr_threads.specs.Rosters.{CountAlike, Counts, HasRow, HaveSameWords, IsSmall, no_one, rewritten, roster_in, roster_of, unless_empty, with_counts, with_last, with_marks, with_words, without};
ghost use Rattle.tr_index.specs.Counts.{bool_to_nat};
ghost use Rattle.tr_threads.specs.Rows.{AreWords};
ghost use Rattle.tr_tracee.specs.Lives.{is_live};
ghost use Rattle.tr_tracee.specs.Threads.{in_group};

use crate::words::{blocked_word, runnable_word};
use arrayvec::ArrayVec;
use std::alloc::{AllocError, Global};
use std::marker::Model;
use tr_index::{Index, recounted};
use tr_tracee::Thread;

/// The threads of one group: their ids and the words of each, in table order, and how many of them are in a standing.
#[derive(Drop)]
pub struct Roster {
    ids: ArrayVec<u32, 64>,
    blocked: ArrayVec<u64, 64>,
    runnable: ArrayVec<u64, 64>,
    /// Where in the table the first of them stood when an id was last looked for, if they stand together there.
    base: usize,
    live: usize,
    dead: usize,
    traced: usize,
    marked: usize,
}

impl Model for Roster {
    ghost use Rattle.std.specs.Prelude.{◌≡◌, length};
    ghost use Rattle.tr_threads.specs.Rosters.{RosterView};
    ghost use Rattle.tr_threads.specs.Rows.{AreWords};

    ghost Value = { RosterView };

    ghost view = { λ r. record {
      ids = r.ids.items;
      blocked = r.blocked.items;
      runnable = r.runnable.items;
      live = r.live;
      dead = r.dead;
      traced = r.traced;
      marked = r.marked;
    } };

    ghost invariant = { λ r. (length r.blocked.items ≡ length r.ids.items)
        × (length r.runnable.items ≡ length r.ids.items)
        × AreWords r.blocked.items };
}

/// Where the id stands first, or the length where it doesn't stand.
fn place_in(ids: &[u32], id: u32) -> usize
    ensures { result ≡ place_in id ids.now }
{
    let mut place = 0;
    while place < ids.len() && ids[place] != id {
        place += 1;
    }
    place
}

impl Roster {
    /// The roster of a group of these threads.
    pub(crate) fn collect(threads: &[Thread], tgid: u32) -> Roster
        requires { length (filter (in_group tgid) threads.now) ≤ 64 }
        ensures { result ≡ roster_of (filter (in_group tgid) threads.now) }
    {
        let mut roster = Roster::new();
        for thread in threads {
            if thread.group == tgid {
                roster.push(thread);
            }
        }
        roster
    }

    fn new() -> Roster
        ensures { result ≡ no_one }
    {
        Roster {
            ids: ArrayVec::new(),
            blocked: ArrayVec::new(),
            runnable: ArrayVec::new(),
            base: 0,
            live: 0,
            dead: 0,
            traced: 0,
            marked: 0,
        }
    }

    /// Lends their ids.
    pub fn ids(&self) -> &[u32]
        ensures { result.now ≡ self.now.ids }
    {
        self.ids.as_slice()
    }

    /// Lends what each of them blocks; 0 where it isn't live.
    pub fn blocked(&self) -> &[u64]
        ensures words { result.now ≡ self.now.blocked }
        ensures fits { AreWords result.now }
    {
        self.blocked.as_slice()
    }

    /// Lends a word of each of them: all ones where it may take, else 0.
    pub fn runnable(&self) -> &[u64]
        ensures { result.now ≡ self.now.runnable }
    {
        self.runnable.as_slice()
    }

    /// Where the id of the thread at a place of the table stands, or the length. It is looked for first where that place
    /// suggests.
    #[inline(always)]
    fn place(&mut self, id: u32, at: usize) -> usize
        requires { occurs id self.old.ids ≤ 1 }
        ensures place { result ≡ place_in id self.old.ids }
        ensures kept { self.new ≡ self.old }
    {
        let likely = at.wrapping_sub(self.base);
        if likely < self.ids.len() && self.ids[likely] == id {
            return likely;
        }
        let place = place_in(&self.ids, id);
        self.base = at.wrapping_sub(place);
        place
    }

    /// A thread comes last.
    fn push(&mut self, thread: &Thread)
        requires room { length self.old.ids < 64 }
        requires small { IsSmall self.old }
        ensures { self.new ≡ with_last thread.now self.old }
    {
        self.ids.push(thread.id);
        self.blocked.push(blocked_word(thread));
        self.runnable.push(runnable_word(thread));
        self.live = recounted(self.live, false, thread.life.is_live());
        self.dead = recounted(self.dead, false, thread.life.is_dead());
        self.traced = recounted(self.traced, false, thread.is_traced());
        self.marked = recounted(self.marked, false, thread.stop_mark);
    }

    /// A thread goes, and those after it move up.
    fn remove(&mut self, thread: &Thread)
        requires small { IsSmall self.old }
        requires counts { Counts thread.now self.old }
        ensures { self.new ≡ without thread.now self.old }
    {
        let place = place_in(&self.ids, thread.id);
        if place < self.ids.len() {
            let _id = self.ids.remove(place);
            let _blocked = self.blocked.remove(place);
            let _runnable = self.runnable.remove(place);
        }
        self.live = recounted(self.live, thread.life.is_live(), false);
        self.dead = recounted(self.dead, thread.life.is_dead(), false);
        self.traced = recounted(self.traced, thread.is_traced(), false);
        self.marked = recounted(self.marked, thread.stop_mark, false);
    }

    /// The words of the thread with the id, at a place of the table, become those of this record.
    fn rewrite_words(&mut self, id: u32, thread: &Thread, at: usize)
        requires once { occurs id self.old.ids ≤ 1 }
        ensures { self.new ≡ with_words id thread.now self.old }
    {
        let place = self.place(id, at);
        if place < self.ids.len() {
            self.blocked[place] = blocked_word(thread);
            self.runnable[place] = runnable_word(thread);
        }
    }

    /// Counts a thread as what it has become.
    fn recount(&mut self, before: &Thread, after: &Thread)
        requires small { IsSmall self.old }
        requires counts { Counts before.now self.old }
        ensures { self.new ≡ with_counts before.now after.now self.old }
    {
        self.live = recounted(self.live, before.life.is_live(), after.life.is_live());
        self.dead = recounted(self.dead, before.life.is_dead(), after.life.is_dead());
        self.traced = recounted(self.traced, before.is_traced(), after.is_traced());
        self.marked = recounted(self.marked, before.stop_mark, after.stop_mark);
    }

    /// Takes the thread at a place of the table as what it has become, whose words or counts may be as before.
    #[inline(always)]
    fn rewrite(
        &mut self,
        before: &Thread,
        after: &Thread,
        at: usize,
        same_words: bool,
        counts_alike: bool,
    )
        requires once { occurs before.now.id self.old.ids ≤ 1 }
        requires row { HasRow before.now self.old }
        requires small { IsSmall self.old }
        requires counts { Counts before.now self.old }
        requires same_words { same_words ≡ true → HaveSameWords before.now after.now }
        requires counts_alike { counts_alike ≡ true → CountAlike before.now after.now }
        ensures { self.new ≡ rewritten before.now after.now self.old }
    {
        if !same_words {
            self.rewrite_words(before.id, after, at);
        }
        if !counts_alike {
            self.recount(before, after);
        }
    }

    /// Takes the thread at a place of the table as what it has become, where it stands as before, and had a stop mark or
    /// not.
    #[inline(always)]
    fn rewrite_marks(&mut self, had_mark: bool, after: &Thread, at: usize)
        requires once { occurs after.now.id self.old.ids ≤ 1 }
        requires few { self.old.marked ≤ 64 }
        requires counted { bool_to_nat had_mark ≤ self.old.marked }
        ensures { self.new ≡ with_marks had_mark after.now self.old }
    {
        let place = self.place(after.id, at);
        if place < self.ids.len() {
            self.runnable[place] = runnable_word(after);
        }
        self.marked = recounted(self.marked, had_mark, after.stop_mark);
    }
}

/// Whether two records of a thread count as the same, where both are live or neither is.
#[inline(always)]
fn count_alike(before: &Thread, after: &Thread) -> bool
    requires { is_live before.now.life ≡ is_live after.now.life }
    ensures { result ≡ true → CountAlike before.now after.now }
{
    before.stop_mark == after.stop_mark
        && before.is_traced() == after.is_traced()
        && before.life.is_dead() == after.life.is_dead()
}

/// Whether two records of a thread have the same words, where both are live or neither is.
#[inline(always)]
fn have_same_words(before: &Thread, after: &Thread) -> bool
    requires { is_live before.now.life ≡ is_live after.now.life }
    ensures { result ≡ true → HaveSameWords before.now after.now }
{
    before.mask.bits() == after.mask.bits() && before.is_ready_to_take() == after.is_ready_to_take()
}

/// Makes a place for one more roster; where there is none, for no more, since a roster is large and many tables have one group.
fn make_place(list: &mut Vec<Roster>) -> Result<(), AllocError>
    ensures items { list.new.items ≡ list.old.items }
    ensures room { OnOk result (vec_len list.new < vec_capacity list.new) }
{
    if list.is_empty() {
        list.reserve_exact(1)
    } else {
        list.reserve(1)
    }
}

/// The roster of each group that has threads, found by the group's id.
#[derive(Drop)]
pub(crate) struct Rosters {
    index: Index,
    list: Vec<Roster>,
    /// Where the roster stands that was looked for last: often it is the next one too.
    recent: usize,
}

impl Model for Rosters {
    ghost use Rattle.std.specs.Prelude.{List, ℕ, ◌≡◌, length};
    ghost use Rattle.std.specs.List.{zip};
    ghost use Rattle.tr_threads.specs.Rosters.{RosterView};

    ghost Value = { List (ℕ × RosterView) };

    ghost view = { λ r. zip r.index r.list.items };

    ghost invariant = { λ r. length r.index ≡ length r.list.items };
}

impl Rosters {
    pub(crate) fn new(alloc: Global) -> Rosters
        ensures { result ≡ [] }
    {
        Rosters {
            index: Index::new(alloc),
            list: Vec::new(alloc),
            recent: 0,
        }
    }

    /// The roster of a group that has threads.
    pub(crate) fn roster(&self, tgid: u32) -> Option<&Roster>
        ensures { MatchOption result (roster_in self.now tgid ≡ no_one)
            (λ r. r.now ≡ roster_in self.now tgid) }
    {
        let place = self.index.place_near(self.recent, tgid)?;
        Some(&self.list[place])
    }

    /// The ids of a group's threads, in table order.
    pub(crate) fn ids(&self, tgid: u32) -> &[u32]
        ensures { result.now ≡ (roster_in self.now tgid).ids }
    {
        match self.roster(tgid) {
            Some(roster) => roster.ids.as_slice(),
            None => &[],
        }
    }

    /// How many threads a group has.
    pub(crate) fn count(&self, tgid: u32) -> usize
        ensures { result ≡ length (roster_in self.now tgid).ids }
    {
        match self.roster(tgid) {
            Some(roster) => roster.ids.len(),
            None => 0,
        }
    }

    /// A copy of the ids of a group's threads.
    pub(crate) fn copy_ids(&self, tgid: u32) -> ArrayVec<u32, 64>
        ensures { result.items ≡ (roster_in self.now tgid).ids }
    {
        let mut ids = ArrayVec::new();
        if let Some(roster) = self.roster(tgid) {
            for id in roster.ids.as_slice() {
                ids.push(*id);
            }
        }
        ids
    }

    /// Whether all threads of a group are dead.
    pub(crate) fn all_dead(&self, tgid: u32) -> bool
        ensures { result
            ≡ ((roster_in self.now tgid).dead == length (roster_in self.now tgid).ids) }
    {
        match self.roster(tgid) {
            Some(roster) => roster.dead == roster.ids.len(),
            None => true,
        }
    }

    pub(crate) fn has_live(&self, tgid: u32) -> bool
        ensures { result ≡ not ((roster_in self.now tgid).live == 0) }
    {
        match self.roster(tgid) {
            Some(roster) => roster.live != 0,
            None => false,
        }
    }

    pub(crate) fn has_traced(&self, tgid: u32) -> bool
        ensures { result ≡ not ((roster_in self.now tgid).traced == 0) }
    {
        match self.roster(tgid) {
            Some(roster) => roster.traced != 0,
            None => false,
        }
    }

    pub(crate) fn has_stop_mark(&self, tgid: u32) -> bool
        ensures { result ≡ not ((roster_in self.now tgid).marked == 0) }
    {
        match self.roster(tgid) {
            Some(roster) => roster.marked != 0,
            None => false,
        }
    }

    /// A thread comes last in its group. Where memory is refused nothing has changed.
    pub(crate) fn push(&mut self, thread: &Thread) -> Result<(), AllocError>
        requires room { length (roster_in self.old thread.now.group).ids < 64 }
        requires small { IsSmall (roster_in self.old thread.now.group) }
        ensures ok { OnOk result ((g : ℕ)
            → roster_in self.new g
            ≡ (if thread.now.group == g then with_last thread.now
            (roster_in self.old g) else roster_in self.old g)) }
        ensures err { OnErr result (self.new ≡ self.old) }
    {
        match self.index.place(thread.group) {
            Some(place) => self.list[place].push(thread),
            None => {
                let mut roster = Roster::new();
                roster.push(thread);
                make_place(&mut self.list)?;
                self.index.push(thread.group)?;
                self.list.push_reserved(roster);
            }
        }
        Ok(())
    }

    /// A thread of a group goes.
    pub(crate) fn remove(&mut self, thread: &Thread)
        requires small { IsSmall (roster_in self.old thread.now.group) }
        requires counts { Counts thread.now (roster_in self.old thread.now.group) }
        ensures { (g : ℕ)
            → roster_in self.new g
            ≡ (if thread.now.group == g then unless_empty
            (without thread.now (roster_in self.old g)) else roster_in self.old g) }
    {
        let Some(place) = self.index.place(thread.group) else {
            return;
        };
        self.list[place].remove(thread);
        if self.list[place].ids.is_empty() {
            self.index.remove(place);
            let _empty = self.list.remove(place);
        }
    }

    /// The record of a thread has become this one, which stands as before, and had a stop mark or not.
    #[inline(always)]
    pub(crate) fn rewrite_marks(&mut self, had_mark: bool, after: &Thread, at: usize)
        requires there { 0 < length (roster_in self.old after.now.group).ids }
        requires once { occurs after.now.id (roster_in self.old after.now.group).ids ≤ 1 }
        requires few { (roster_in self.old after.now.group).marked ≤ 64 }
        requires counted { bool_to_nat had_mark ≤ (roster_in self.old after.now.group).marked }
        ensures { (g : ℕ)
            → roster_in self.new g
            ≡ (if after.now.group == g then with_marks had_mark after.now
            (roster_in self.old g) else roster_in self.old g) }
    {
        let Some(place) = self.index.place_near(self.recent, after.group) else {
            return;
        };
        self.recent = place;
        self.list[place].rewrite_marks(had_mark, after, at);
    }

    /// A group that has threads has this roster from now on.
    pub(crate) fn set(&mut self, tgid: u32, roster: Roster)
        requires { 0 < length (roster_in self.old tgid).ids }
        ensures { (g : ℕ)
            → roster_in self.new g
            ≡ (if tgid == g then unless_empty roster else roster_in self.old g) }
    {
        let Some(place) = self.index.place(tgid) else {
            return;
        };
        if roster.ids.is_empty() {
            self.index.remove(place);
            let _empty = self.list.remove(place);
        } else {
            self.list[place] = roster;
        }
    }

    /// The thread at a place of the table has become another one of its group.
    #[inline(always)]
    pub(crate) fn rewrite(&mut self, before: &Thread, after: &Thread, at: usize)
        requires there { 0 < length (roster_in self.old before.now.group).ids }
        requires once { occurs before.now.id (roster_in self.old before.now.group).ids ≤ 1 }
        requires row { HasRow before.now (roster_in self.old before.now.group) }
        requires small { IsSmall (roster_in self.old before.now.group) }
        requires counts { Counts before.now (roster_in self.old before.now.group) }
        ensures { (g : ℕ)
            → roster_in self.new g
            ≡ (if before.now.group == g then rewritten before.now after.now
            (roster_in self.old g) else roster_in self.old g) }
    {
        let live_alike = before.life.is_live() == after.life.is_live();
        let same_words = live_alike && have_same_words(before, after);
        let counts_alike = live_alike && count_alike(before, after);
        if same_words && counts_alike {
            return;
        }
        let Some(place) = self.index.place(before.group) else {
            return;
        };
        self.list[place].rewrite(before, after, at, same_words, counts_alike);
    }
}
