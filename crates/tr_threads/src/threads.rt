ghost use Rattle.std.specs.Prelude.{◌≡◌, ◌<◌, ◌≤◌, ◌++◌, ◌∷◌, ◌==◌, ◌&&◌, [], ℕ, IfOk, None, OnErr, OnOk, length, Some, filter, get_or, not, option_copied, remove, slice_set};
ghost use Rattle.tr_tracee.specs.Lives.{is_dead};
ghost use Rattle.tr_tracee.specs.Threads.{in_group};
ghost use Rattle.tr_model.specs.Journals.{occurs};
ghost use Rattle.tr_model.specs.Moves.{changed, dropped};
ghost use Rattle.tr_model.specs.Tables.{ids_of, owner_in, thread_in};
ghost use Rattle.tr_threads.specs.Changes.{thread_changed_by};
ghost use Rattle.tr_threads.specs.Kept.{IsPlace, IsThreads};
ghost use Rattle.tr_threads.specs.Tracing.{HasPlaces, IsTracing};
ghost use Rattle.tr_threads.specs.Alike.{Turns};
ghost use Rattle.tr_threads.specs.declared.thread_changes.Turned.TheVariants as turned;
ghost use Rattle.tr_threads.specs.Rosters.{roster_in, roster_of};

use crate::roster_list::Rosters;
use crate::thread_changes::{ThreadChange, Turned};
use crate::tracing::Tracing;
use std::alloc::{AllocError, Global};
use std::marker::Model;
use std::slice;
use tr_index::Index;
use tr_model::Target;
use tr_tracee::Thread;

/// The threads of a table, in table order.
pub struct Threads {
    pub(crate) list: Vec<Thread>,
    pub(crate) index: Index,
    pub(crate) rosters: Rosters,
    pub(crate) tracing: Tracing,
}

impl Drop for Threads {
    fn drop(self) {
        let Threads {
            list: _,
            index: _,
            rosters: _,
            tracing: _,
        } = self;
    }
}

impl Model for Threads {
    ghost use Rattle.std.specs.Prelude.{List};
    ghost use Rattle.tr_tracee.specs.declared.thread.Thread.{Thread};
    ghost use Rattle.tr_threads.specs.Kept.{IsKept};

    ghost Value = { List Thread };

    ghost view = { λ t. t.list.items };

    ghost invariant = { λ t. IsKept t.list.items t.index t.rosters t.tracing };
}

/// The rosters of all groups of a list.
fn rosters_of(threads: &[Thread], alloc: Global) -> Result<Rosters, AllocError>
    requires { (g : ℕ) → length (filter (in_group g) threads.now) ≤ 64 }
    ensures { IfOk result
        (λ rosters. (g : ℕ) → roster_in rosters g ≡ roster_of (filter (in_group g) threads.now)) }
{
    let mut rosters = Rosters::new(alloc);
    for thread in threads {
        rosters.push(thread)?;
    }
    Ok(rosters)
}

fn index_of(threads: &[Thread], alloc: Global) -> Result<Index, AllocError>
    requires { (n : ℕ) → occurs n (ids_of threads.now) ≤ 1 }
    ensures { IfOk result (λ ids. ids ≡ ids_of threads.now) }
{
    let mut index = Index::new(alloc);
    for thread in threads {
        index.push(thread.id)?;
    }
    Ok(index)
}

/// What is kept of these threads for the waits of tracers.
fn tracing_of(threads: &[Thread], alloc: Global) -> Result<Tracing, AllocError>
    ensures { IfOk result
        (λ tracing. IsTracing threads.now tracing × HasPlaces (length threads.now) tracing) }
{
    let mut tracing = Tracing::new(alloc);
    tracing.grow(threads.len())?;
    for thread in threads {
        tracing.add(thread);
    }
    Ok(tracing)
}

/// A thread comes last. Where memory is refused nothing has changed.
fn append(
    list: &mut Vec<Thread>,
    index: &mut Index,
    rosters: &mut Rosters,
    tracing: &mut Tracing,
    thread: &Thread,
) -> Result<(), AllocError>
    requires kept { IsThreads list.old.items index.old rosters.old }
    requires traced { IsTracing list.old.items tracing.old }
    requires places { HasPlaces (length list.old.items) tracing.old }
    requires new { thread_in list.old.items thread.now.id ≡ None }
    requires room { length (filter (in_group thread.now.group) list.old.items) < 64 }
    ensures ok { OnOk result (list.new.items ≡ list.old.items ++ thread.now ∷ []) }
    ensures err { OnErr result (list.new.items ≡ list.old.items) }
    ensures kept { IsThreads list.new.items index.new rosters.new }
    ensures traced { IsTracing list.new.items tracing.new }
    ensures places { HasPlaces (length list.new.items) tracing.new }
{
    list.reserve(1)?;
    tracing.grow(list.len() + 1)?;
    index.push(thread.id)?;
    if let Err(refused) = rosters.push(thread) {
        index.remove(list.as_slice().len());
        return Err(refused);
    }
    tracing.add(thread);
    list.extend_from_slice(slice::from_ref(thread))
}

impl Threads {
    /// Makes threads of a list, with what is kept beside it. Where memory is refused the list goes.
    pub fn from_vec(list: Vec<Thread>, alloc: Global) -> Result<Self, AllocError>
        requires once { (n : ℕ) → occurs n (ids_of list.items) ≤ 1 }
        requires few { (g : ℕ) → length (filter (in_group g) list.items) ≤ 64 }
        ensures { IfOk result (λ ts. ts ≡ list.items) }
    {
        let index = index_of(&list, alloc)?;
        let rosters = rosters_of(&list, alloc)?;
        let tracing = tracing_of(&list, alloc)?;
        Ok(Threads {
            list,
            index,
            rosters,
            tracing,
        })
    }

    /// Says where the thread with an id stands.
    pub fn place(&self, id: u32) -> Option<usize>
        ensures place { IsPlace id self.now result }
        ensures once { (n : ℕ) → occurs n (ids_of self.now) ≤ 1 }
    {
        self.index.place(id)
    }

    /// The same, looked for first at a likely place.
    #[inline(always)]
    fn place_near(&self, likely: usize, id: u32) -> Option<usize>
        ensures { IsPlace id self.now result }
    {
        self.index.place_near(likely, id)
    }

    /// Lends the record of the thread with an id.
    pub fn find(&self, id: u32) -> Option<&Thread>
        ensures { option_copied result ≡ thread_in self.now id }
    {
        let place = self.place(id)?;
        Some(&self.list[place])
    }

    /// Lends the record at a place.
    pub fn at(&self, place: usize) -> &Thread
        requires { place < length self.now }
        ensures { (d : Thread) → result.now ≡ get_or self.now place d }
    {
        &self.list[place]
    }

    /// Lends all records, in table order.
    pub fn as_slice(&self) -> &[Thread]
        ensures { result.now ≡ self.now }
    {
        self.list.as_slice()
    }

    /// Makes a change of the thread at a place, where its record stands.
    #[inline(always)]
    pub fn change_at(&mut self, place: usize, change: &ThreadChange)
        requires { place < length self.old }
        ensures { (d : Thread)
            → self.new
            ≡ slice_set self.old place (thread_changed_by change.now (get_or self.old place d)) }
    {
        match change.turned(&self.list[place]) {
            Turned::Nothing => {}
            Turned::Marks => self.change_marks(place, change),
            Turned::Report => self.change_report(place, change),
            Turned::Stop => self.change_stop(place, change),
            Turned::More => self.change_all(place, change),
        }
    }

    /// The same by a change that turns marks alone.
    #[inline(always)]
    fn change_marks(&mut self, place: usize, change: &ThreadChange)
        requires place { place < length self.old }
        requires turned { (d : Thread)
            → Turns turned.Marks (get_or self.old place d)
            (thread_changed_by change.now (get_or self.old place d)) }
        ensures { (d : Thread)
            → self.new
            ≡ slice_set self.old place (thread_changed_by change.now (get_or self.old place d)) }
    {
        let thread = &mut self.list[place];
        let had_mark = thread.stop_mark;
        change.make(thread);
        self.rosters
            .rewrite_marks(had_mark, &self.list[place], place);
    }

    /// The same by a change that turns a report alone.
    #[inline(always)]
    fn change_report(&mut self, place: usize, change: &ThreadChange)
        requires place { place < length self.old }
        requires turned { (d : Thread)
            → Turns turned.Report (get_or self.old place d)
            (thread_changed_by change.now (get_or self.old place d)) }
        ensures { (d : Thread)
            → self.new
            ≡ slice_set self.old place (thread_changed_by change.now (get_or self.old place d)) }
    {
        let former = self.list[place];
        change.make(&mut self.list[place]);
        self.tracing
            .rewrite_report(&former, &self.list, &self.index, place);
    }

    /// The same by a change into a stop or out of it.
    #[inline(always)]
    fn change_stop(&mut self, place: usize, change: &ThreadChange)
        requires place { place < length self.old }
        requires turned { (d : Thread)
            → Turns turned.Stop (get_or self.old place d)
            (thread_changed_by change.now (get_or self.old place d)) }
        ensures { (d : Thread)
            → self.new
            ≡ slice_set self.old place (thread_changed_by change.now (get_or self.old place d)) }
    {
        let former = self.list[place];
        change.make(&mut self.list[place]);
        self.rosters
            .rewrite_marks(former.stop_mark, &self.list[place], place);
        self.tracing
            .rewrite_report(&former, &self.list, &self.index, place);
    }

    /// The same by any change.
    #[inline(never)]
    fn change_all(&mut self, place: usize, change: &ThreadChange)
        requires { place < length self.old }
        ensures { (d : Thread)
            → self.new
            ≡ slice_set self.old place (thread_changed_by change.now (get_or self.old place d)) }
    {
        let former = self.list[place];
        change.make(&mut self.list[place]);
        self.rosters.rewrite(&former, &self.list[place], place);
        self.tracing
            .rewrite(&former, &self.list, &self.index, place);
    }

    /// Makes a change of the thread with the id, and looks for it first at a likely place. Gives the place that is likely next.
    #[inline(always)]
    pub fn change_near(&mut self, likely: usize, id: u32, change: &ThreadChange) -> usize
        ensures { self.new ≡ changed id (thread_changed_by change.now) self.old }
    {
        match self.place_near(likely, id) {
            Some(place) => {
                self.change_at(place, change);
                place.wrapping_add(1)
            }
            None => likely,
        }
    }

    /// Puts a thread last. Where memory is refused nothing has changed.
    pub fn add(&mut self, thread: &Thread) -> Result<(), AllocError>
        requires new { thread_in self.old thread.now.id ≡ None }
        requires room { length (filter (in_group thread.now.group) self.old) < 64 }
        ensures ok { OnOk result (self.new ≡ self.old ++ thread.now ∷ []) }
        ensures err { OnErr result (self.new ≡ self.old) }
    {
        append(
            &mut self.list,
            &mut self.index,
            &mut self.rosters,
            &mut self.tracing,
            thread,
        )
    }

    /// The thread at a place goes, and those after it move up.
    fn remove_at(&mut self, place: usize)
        requires { place < length self.old }
        ensures { self.new ≡ remove self.old place }
    {
        self.tracing.forget(&self.list, &self.index, place);
        let removed = self.list.remove(place);
        self.index.remove(place);
        self.rosters.remove(&removed);
    }

    /// Takes the thread with the id out.
    pub fn remove(&mut self, id: u32)
        ensures { self.new ≡ dropped id self.old }
    {
        if let Some(place) = self.place(id) {
            self.remove_at(place);
        }
    }

    /// Takes the thread with the id out if it is dead.
    pub fn remove_dead(&mut self, id: u32)
        ensures { self.new ≡ filter (λ t. not (t.id == id && is_dead t.life)) self.old }
    {
        if let Some(place) = self.place(id) {
            if self.list[place].life.is_dead() {
                self.remove_at(place);
            }
        }
    }
}

/// Gives the group of a target: of a thread its own, 0 where there is no such thread.
pub fn owner_of(threads: &Threads, target: Target) -> u32
    ensures { result ≡ owner_in threads.now target }
{
    match target {
        Target::Group(tgid) => tgid,
        Target::Thread(id) => match threads.find(id) {
            Some(thread) => thread.group,
            None => 0,
        },
    }
}
