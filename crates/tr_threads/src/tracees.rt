ghost use Rattle.std.specs.Prelude.{◌≡◌, ℕ, filter, find, map, option_copied};
ghost use Rattle.std.specs.List.{All, list_any};
ghost use Rattle.tr_tracee.specs.Threads.{is_tracee_of};
ghost use Rattle.tr_model.specs.Tables.{ids_of, thread_in};
ghost use Rattle.tr_threads.specs.Tracing.{first_of, if_passes, reports};
ghost use Rattle.tr_threads.specs.Waits.{is_report, is_stray_death, is_untraced_death};

use crate::threads::Threads;
use crate::tracee_list::Listed;
use tr_tracee::{Report, Thread};

// What a wait asks of the threads: whom an actor traces, which of these has a report, and whether a death is the starter's
// to be told.

impl Threads {
    /// Says whether the actor traces a thread.
    pub fn has_tracee(&self, actor: u32) -> bool
        ensures { result ≡ list_any (is_tracee_of actor) self.now }
    {
        self.tracing.tracees.contains(actor)
    }

    /// Lends the actor's tracees, by their ids, in table order.
    pub fn tracees(&self, actor: u32) -> &[Listed]
        ensures ids { map (λ l. l.id) result.now ≡ ids_of (filter (is_tracee_of actor) self.now) }
        ensures tracer { All (λ l. l.tracer ≡ actor) result.now }
    {
        self.tracing.tracees.under(actor)
    }

    /// Lends the thread with the id, where the actor traces it.
    pub fn tracee(&self, actor: u32, id: u32) -> Option<&Thread>
        ensures { option_copied result ≡ if_passes (is_tracee_of actor) (thread_in self.now id) }
    {
        let thread = self.find(id)?;
        if thread.is_tracee_of(actor) {
            Some(thread)
        } else {
            None
        }
    }

    /// Lends the first of the actor's tracees that has a report, and that of the number where one is given.
    pub fn first_reporting(&self, actor: u32, number: Option<u64>) -> Option<&Thread>
        ensures { option_copied result ≡ find (reports actor number) self.now }
    {
        first_among(self, self.tracing.reporting.under(actor), actor, number)
    }

    /// Says whether some dead thread that nobody traces has a report.
    pub fn has_untraced_deaths(&self) -> bool
        ensures { result ≡ list_any is_untraced_death self.now }
    {
        self.tracing.untraced_deaths != 0
    }

    /// Says whether some dead thread that nobody traces, and that doesn't lead its group, has a report.
    pub fn has_stray_deaths(&self) -> bool
        ensures { result ≡ list_any is_stray_death self.now }
    {
        self.tracing.stray_deaths != 0
    }
}

fn is_report(report: &Option<Report>, number: Option<u64>) -> bool
    ensures { result ≡ is_report number report.now }
{
    match (report, number) {
        (Some(report), Some(number)) => report.number == number,
        (Some(_), None) => true,
        _ => false,
    }
}

/// Gives the thread, where it has a report, and that of the number where one is given.
pub fn with_report(thread: Option<&Thread>, number: Option<u64>) -> Option<&Thread>
    ensures { option_copied result
        ≡ if_passes (λ t. is_report number t.report) (option_copied thread.entry) }
{
    let thread = thread?;
    if is_report(&thread.report, number) {
        Some(thread)
    } else {
        None
    }
}

/// The first of these threads that has such a report for the actor.
fn first_among<'a>(
    threads: &'a Threads,
    rows: &[Listed],
    actor: u32,
    number: Option<u64>,
) -> Option<&'a Thread>
    ensures { option_copied result ≡ first_of (reports actor number) threads.now (map (λ l. l.id) rows.now) }
{
    for row in rows {
        if let Some(thread) = with_report(threads.tracee(actor, row.id), number) {
            return Some(thread);
        }
    }
    None
}
