ghost use Rattle.std.specs.Prelude.{◌≡◌, List, ℕ, ◌<◌, ◌≤◌, ◌++◌, ◌∷◌, [], None, OnOk, Some, false, get_or, if◌then◌else◌, length, remove, slice_set};
ghost use Rattle.tr_tracee.specs.declared.thread.Thread.{Thread};
ghost use Rattle.tr_model.specs.Journals.{occurs};
ghost use Rattle.tr_model.specs.Tables.{ids_of};
ghost use Rattle.tr_threads.specs.Alike.{StandAlike};
ghost use Rattle.tr_threads.specs.Tracing.{CountsDeath, HasPlace, HasPlaces, IsTracing, IsUnkept, RecountsDeath, tracer, waiter};
ghost use Rattle.tr_threads.specs.Waits.{is_stray_death, is_untraced_death};

use crate::tracee_list::TraceeList;
use std::alloc::{AllocError, Global};
use tr_index::{Index, recounted};
use tr_tracee::Thread;

/// What is kept of the threads for waits: of their tracers, and of the starter.
#[derive(Drop)]
pub(crate) struct Tracing {
    /// All tracees.
    pub(crate) tracees: TraceeList,
    /// Those that have a report.
    pub(crate) reporting: TraceeList,
    /// For the starter: how many dead threads that nobody traces have a report.
    pub(crate) untraced_deaths: usize,
    /// How many of those don't lead their group.
    pub(crate) stray_deaths: usize,
}

fn waiter_of(thread: &Thread) -> Option<u32>
    ensures { result ≡ waiter thread.now }
{
    if thread.report.is_some() {
        thread.tracer()
    } else {
        None
    }
}

/// The tracer, where there is a report that it may wait for.
fn waiter_if(reports: bool, tracer: u32) -> Option<u32>
    ensures { result ≡ (if reports then Some tracer else None) }
{
    if reports { Some(tracer) } else { None }
}

/// Says whether the thread's death is the starter's to be told: it is dead, nobody traces it, and it has a report.
#[inline(always)]
pub fn is_untraced_death(thread: &Thread) -> bool
    ensures { result ≡ is_untraced_death thread.now }
{
    thread.life.is_dead() && !thread.is_traced() && thread.report.is_some()
}

fn is_stray_death(thread: &Thread) -> bool
    ensures { result ≡ is_stray_death thread.now }
{
    is_untraced_death(thread) && !thread.is_leader()
}

/// Whether something may be kept of a thread: somebody traces it, or it is dead.
fn may_be_kept(thread: &Thread) -> bool
    ensures { result ≡ false → IsUnkept thread.now }
{
    thread.is_traced() || thread.life.is_dead()
}

impl Tracing {
    pub(crate) fn new(alloc: Global) -> Tracing
        ensures { IsTracing [] result }
    {
        Tracing {
            tracees: TraceeList::new(alloc),
            reporting: TraceeList::new(alloc),
            untraced_deaths: 0,
            stray_deaths: 0,
        }
    }

    /// Makes places for so many threads. What is kept stays as it is.
    pub(crate) fn grow(&mut self, count: usize) -> Result<(), AllocError>
        ensures kept { (ts : List Thread) → IsTracing ts self.old → IsTracing ts self.new }
        ensures places { (n : ℕ) → HasPlaces n self.old → HasPlaces n self.new }
        ensures ok { OnOk result (HasPlaces count self.new) }
    {
        self.tracees.reserve(count)?;
        self.reporting.reserve(count)
    }

    /// A thread comes last.
    pub(crate) fn add(&mut self, thread: &Thread)
        requires { HasPlace self.old }
        ensures kept { (ts : List Thread)
            → IsTracing ts self.old
            → IsTracing (ts ++ thread.now ∷ []) self.new }
        ensures places { (n : ℕ) → HasPlaces n self.old → HasPlaces n self.new }
    {
        self.tracees.push(thread.tracer(), thread.id);
        self.reporting.push(waiter_of(thread), thread.id);
        self.untraced_deaths = recounted(self.untraced_deaths, false, is_untraced_death(thread));
        self.stray_deaths = recounted(self.stray_deaths, false, is_stray_death(thread));
    }

    /// The thread at a place has become what stands there; it was this one, which has its id.
    #[inline(always)]
    pub(crate) fn rewrite(
        &mut self,
        former: &Thread,
        threads: &[Thread],
        index: &Index,
        place: usize,
    )
        requires kept { IsTracing (slice_set threads.now place former.now) self.old }
        requires room { HasPlaces (length threads.now) self.old }
        requires indexed { index.now ≡ ids_of threads.now }
        requires once { (n : ℕ) → occurs n index.now ≤ 1 }
        requires place { place < length threads.now }
        requires same { (d : Thread) → former.now.id ≡ (get_or threads.now place d).id }
        ensures kept { IsTracing threads.now self.new }
        ensures places { (n : ℕ) → HasPlaces n self.old → HasPlaces n self.new }
    {
        let thread = &threads[place];
        if !may_be_kept(former) && !may_be_kept(thread) {
            return;
        }
        let (tracer, waiter) = (former.tracer(), waiter_of(former));
        self.tracees
            .relist(index, place, thread.id, tracer, thread.tracer());
        self.reporting
            .relist(index, place, thread.id, waiter, waiter_of(thread));
        self.recount_deaths(former, thread);
    }

    /// The same of a thread that stands as before: of what is kept for waits, its report alone may be other.
    #[inline(always)]
    pub(crate) fn rewrite_report(
        &mut self,
        former: &Thread,
        threads: &[Thread],
        index: &Index,
        place: usize,
    )
        requires kept { IsTracing (slice_set threads.now place former.now) self.old }
        requires room { HasPlaces (length threads.now) self.old }
        requires indexed { index.now ≡ ids_of threads.now }
        requires once { (n : ℕ) → occurs n index.now ≤ 1 }
        requires place { place < length threads.now }
        requires same { (d : Thread) → former.now.id ≡ (get_or threads.now place d).id }
        requires alike { (d : Thread) → StandAlike former.now (get_or threads.now place d) }
        ensures kept { IsTracing threads.now self.new }
        ensures places { (n : ℕ) → HasPlaces n self.old → HasPlaces n self.new }
    {
        let thread = &threads[place];
        let (had, has) = (former.report.is_some(), thread.report.is_some());
        if had == has {
            return;
        }
        let Some(tracer) = thread.tracer() else {
            self.recount_deaths(former, thread);
            return;
        };
        let (before, after) = (waiter_if(had, tracer), waiter_if(has, tracer));
        self.reporting
            .relist(index, place, thread.id, before, after);
    }

    /// The death of a thread counts as that of the record that it has become.
    #[inline(always)]
    fn recount_deaths(&mut self, former: &Thread, thread: &Thread)
        requires { CountsDeath former.now self.old }
        ensures tracees { self.new.tracees ≡ self.old.tracees }
        ensures reporting { self.new.reporting ≡ self.old.reporting }
        ensures deaths { RecountsDeath former.now thread.now self.old self.new }
    {
        self.untraced_deaths = recounted(
            self.untraced_deaths,
            is_untraced_death(former),
            is_untraced_death(thread),
        );
        self.stray_deaths = recounted(
            self.stray_deaths,
            is_stray_death(former),
            is_stray_death(thread),
        );
    }

    /// The thread at a place is to go.
    pub(crate) fn forget(&mut self, threads: &[Thread], index: &Index, place: usize)
        requires kept { IsTracing threads.now self.old }
        requires room { HasPlaces (length threads.now) self.old }
        requires indexed { index.now ≡ ids_of threads.now }
        requires once { (n : ℕ) → occurs n index.now ≤ 1 }
        requires place { place < length threads.now }
        ensures kept { IsTracing (remove threads.now place) self.new }
        ensures places { (n : ℕ) → HasPlaces n self.old → HasPlaces n self.new }
    {
        let former = &threads[place];
        let (tracer, waiter) = (former.tracer(), waiter_of(former));
        self.tracees.relist(index, place, former.id, tracer, None);
        self.reporting.relist(index, place, former.id, waiter, None);
        self.untraced_deaths = recounted(self.untraced_deaths, is_untraced_death(former), false);
        self.stray_deaths = recounted(self.stray_deaths, is_stray_death(former), false);
    }
}
