ghost use Rattle.std.specs.Prelude.{◌≡◌, ◌+◌, ◌<◌, ◌^◌, get_or, length, slice_set};
ghost use Rattle.tr_tracee.specs.declared.thread.Thread.{Thread};
ghost use Rattle.tr_tracee.specs.Threads.{tracer_of};
ghost use Rattle.tr_model.specs.Moves.{enter, report_death};
ghost use Rattle.tr_threads.specs.Changes.{thread_changed_by};
ghost use Rattle.tr_table.specs.Moved.{Raises};

use crate::table::Table;
use tr_model::Raise;
use tr_threads::ThreadChange;
use tr_tracee::{End, Stop};
use tr_wait::Status;

// Reports on threads. Each has the next number, which no report had before.

impl Table {
    /// A thread enters a ptrace-stop, if it may, with the next report, which comes back.
    pub fn enter(&mut self, id: u32, stop: &Stop) -> Option<Raise>
        requires { self.old.table.raised + 1 < 2 ^ 64 }
        ensures { Raises (enter id stop.now) self.old self.new result }
    {
        let place = self.threads.place(id)?;
        if !self.threads.at(place).life.may_enter() {
            return None;
        }
        let change = ThreadChange::Enter(*stop, self.raised + 1);
        Some(self.raise_at(place, &change, &stop.status()))
    }

    /// The death of a dead thread is told by the next report, which comes back.
    pub fn report_death(&mut self, id: u32, end: &End) -> Option<Raise>
        requires { self.old.table.raised + 1 < 2 ^ 64 }
        ensures { Raises (report_death id end.now) self.old self.new result }
    {
        let place = self.threads.place(id)?;
        if !self.threads.at(place).life.is_dead() {
            return None;
        }
        let status = end.status();
        let change = ThreadChange::Report(self.raised + 1, status);
        Some(self.raise_at(place, &change, &status))
    }

    /// The next report, on the thread at a place, which changes so.
    #[inline(always)]
    fn raise_at(&mut self, place: usize, change: &ThreadChange, status: &Status) -> Raise
        requires place { place < length self.old.table.threads }
        requires number { self.old.table.raised + 1 < 2 ^ 64 }
        ensures table { (d : Thread)
            → self.new
            ≡ record self.old {
              table = record self.old.table {
                threads = slice_set self.old.table.threads place
                    (thread_changed_by change.now (get_or self.old.table.threads place d));
                raised = self.old.table.raised + 1;
              };
            } }
        ensures raise { (d : Thread)
            → result
            ≡ record {
              number = self.old.table.raised + 1;
              whom = tracer_of (get_or self.old.table.threads place d).trace;
              id = (get_or self.old.table.threads place d).id;
              status = status.now;
            } }
    {
        let thread = self.threads.at(place);
        let (id, whom) = (thread.id, thread.tracer());
        self.unsettled.touch(thread.group);
        self.raised += 1;
        self.threads.change_at(place, change);
        Raise {
            number: self.raised,
            whom,
            id,
            status: *status,
        }
    }
}
