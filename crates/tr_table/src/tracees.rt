ghost use Rattle.std.specs.Prelude.{◌≡◌, ℕ, filter, find, map, option_copied};
ghost use Rattle.std.specs.List.{All, list_any};
ghost use Rattle.tr_wait.specs.Words.{asks_for};
ghost use Rattle.tr_tracee.specs.Threads.{is_tracee_of};
ghost use Rattle.tr_model.specs.Journals.{DistinctIds};
ghost use Rattle.tr_model.specs.Tables.{ids_of};
ghost use Rattle.tr_model.specs.Waits.{asked_tracees};
ghost use Rattle.tr_threads.specs.Tracing.{if_passes};
ghost use Rattle.tr_table.specs.Asked.{is_asked};
ghost use Rattle.tr_threads.specs.Waits.{is_report};

use crate::table::Table;
use tr_threads::{Listed, with_report};
use tr_tracee::Thread;
use tr_wait::Which;

// What a wait of a tracer asks: whom the actor traces, and which of its tracees has a report.

impl Table {
    /// Whether the actor traces a thread that the wait asks for.
    pub fn has_asked(&self, actor: u32, which: Which) -> bool
        ensures { result
            ≡ list_any (λ t. asks_for which t.id)
            (filter (is_tracee_of actor) self.now.table.threads) }
    {
        match only_asked(which) {
            Some(id) => self.threads.tracee(actor, id).is_some(),
            None => self.threads.has_tracee(actor),
        }
    }

    /// Lends the actor's tracees, by their ids, in table order.
    pub fn tracees(&self, actor: u32) -> &[Listed]
        ensures ids { map (λ l. l.id) result.now
            ≡ ids_of (filter (is_tracee_of actor) self.now.table.threads) }
        ensures tracer { All (λ l. l.tracer ≡ actor) result.now }
        ensures distinct { DistinctIds self.now.table }
    {
        self.threads.tracees(actor)
    }

    /// The first, in table order, of the actor's tracees that the wait asks for that has a report, and that of the number
    /// where one is given.
    pub fn reported(&self, actor: u32, which: Which, number: Option<u64>) -> Option<&Thread>
        ensures { option_copied result
            ≡ find (λ t. is_report number t.report) (asked_tracees self.now.table actor which) }
    {
        match only_asked(which) {
            Some(id) => with_report(self.threads.tracee(actor, id), number),
            None => self.threads.first_reporting(actor, number),
        }
    }
}

/// The one id that a wait asks for, `None` where it asks for any.
pub(crate) fn only_asked(which: Which) -> Option<u32>
    ensures { (n : ℕ) → asks_for which n ≡ is_asked result n }
{
    match which {
        Which::Any => None,
        Which::One(0) => None,
        Which::One(id) => Some(id),
    }
}
