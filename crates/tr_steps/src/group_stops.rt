//! Group-stops: "Group-stop" of ptrace(2).

ghost use Rattle.std.specs.Prelude.{◌≡◌, ◌≤◌, not, ◌&&◌, length};
ghost use Rattle.tr_wait.specs.declared.status.Status.TheVariants as status;
ghost use Rattle.tr_group.specs.GroupStops.{is_complete, is_stopping};
ghost use Rattle.tr_model.specs.GroupStops.{complete_group_stop, complete_group_stops, complete_stop, continue_all, ended_stop, initiate, note_stop};
ghost use Rattle.tr_model.specs.Moves.{alter, note, only_group, regroup, when};
ghost use Rattle.tr_model.specs.Tables.{group_of, has_stop_mark, has_traced, stop_in_effect, stop_of};
ghost use Rattle.tr_tracee.specs.Marks.{cont_noted};
ghost use Rattle.tr_tracee.specs.Threads.{at_group};
ghost use Rattle.tr_steps.specs.UnderWay.{Moves};
ghost use Rattle.tr_table.specs.Settled.{NoStopBut};

use crate::steps::Step;
use tr_sigset::Signal;
use tr_table::{GroupChange, Unsettled};
use tr_wait::Status;

impl Step {
    /// The signal of the group-stop in effect.
    pub fn stop_now(&self, tgid: u32) -> Option<Signal>
        ensures { result ≡ stop_in_effect self.now.work.table tgid }
    {
        self.table().stop_of(tgid).signal()
    }

    fn tells_starter(&self, tgid: u32) -> bool
        ensures { result
            ≡ (is_complete (stop_of (group_of self.now.work.table tgid))
            && not (has_traced self.now.work.table tgid)) }
    {
        self.table().stop_of(tgid).is_complete() && !self.table().has_traced(tgid)
    }

    fn can_complete(&self, tgid: u32) -> bool
        ensures { result
            ≡ (is_stopping (stop_of (group_of self.now.work.table tgid))
            && not (has_stop_mark self.now.work.table tgid)) }
    {
        self.table().stop_of(tgid).is_stopping() && !self.table().has_stop_mark(tgid)
    }

    /// A group-stop begins.
    pub fn initiate(&mut self, tgid: u32, signal: Signal)
        ensures { Moves (initiate tgid signal) 0 self.old self.new }
    {
        self.change_group(tgid, &GroupChange::Begin(signal));
        self.mark_all(tgid);
    }

    fn end_stop_where(&mut self, ends: bool, tells: bool, tgid: u32)
        requires { 1 ≤ self.old.room }
        ensures { Moves (when ends
            (λ u. when tells (note tgid status.Continued)
            (regroup (only_group tgid ended_stop) u))) 1 self.old self.new }
    {
        if ends {
            self.change_group(tgid, &GroupChange::EndStop);
            if tells {
                self.note(tgid, &Status::Continued);
            }
        }
    }

    /// A SIGCONT continues the group, and each signal-delivery-stop of the group notes that it came.
    pub fn continue_all(&mut self, tgid: u32)
        requires { 1 ≤ self.old.room }
        ensures { Moves (λ w. continue_all tgid
            (alter (at_group tgid cont_noted) w)) 1 self.old self.new }
    {
        let ends = self.stop_now(tgid).is_some();
        let tells = self.tells_starter(tgid);
        self.continue_threads(tgid, ends);
        self.end_stop_where(ends, tells, tgid);
    }

    fn note_stop(&mut self, tgid: u32, stop: Option<Signal>)
        requires { 1 ≤ self.old.room }
        ensures { Moves (note_stop tgid stop) 1 self.old self.new }
    {
        if let Some(signal) = stop {
            if !self.table().has_traced(tgid) {
                self.note(tgid, &Status::Stopped(signal));
            }
        }
    }

    #[cold]
    #[inline(never)]
    fn complete_stop(&mut self, tgid: u32)
        requires { 1 ≤ self.old.room }
        ensures { Moves (complete_stop tgid) 1 self.old self.new }
    {
        let stop = self.stop_now(tgid);
        self.change_group(tgid, &GroupChange::Complete);
        self.note_stop(tgid, stop);
    }

    fn complete_group_stop(&mut self, tgid: u32)
        requires { 1 ≤ self.old.room }
        ensures { Moves (complete_group_stop tgid) 1 self.old self.new }
    {
        if self.can_complete(tgid) {
            self.complete_stop(tgid);
        }
    }

    /// The last change of a step: a group-stop whose threads have all stopped is complete.
    #[inline(always)]
    #[tactic(auto, using(tr_table::proofs::Settling::none_complete))]
    pub fn complete_group_stops(&mut self)
        requires { length self.old.work.table.groups ≤ self.old.room }
        ensures work { self.new.work ≡ complete_group_stops self.old.work }
        ensures taken_from { self.new.taken_from ≡ self.old.taken_from }
    {
        match self.table.settle() {
            Unsettled::Nowhere => {}
            unsettled => self.complete_unsettled(unsettled),
        }
    }

    /// The same, where no stop of another group than these can be complete. The table is settled again.
    #[cold]
    #[inline(never)]
    fn complete_unsettled(&mut self, unsettled: Unsettled)
        requires room { length self.old.work.table.groups ≤ self.old.room }
        requires stops { NoStopBut unsettled self.old.work.table.threads self.old.work.table.groups }
        ensures work { self.new.work ≡ complete_group_stops self.old.work }
        ensures taken_from { self.new.taken_from ≡ self.old.taken_from }
    {
        self.complete_in(unsettled);
        let _open = self.table.settle();
    }

    /// The stops of these groups are complete, where all their threads have stopped.
    #[tactic(auto, using(tr_table::proofs::Settling::none_complete, tr_table::proofs::Settling::one_complete, tr_table::proofs::Settling::some_there))]
    fn complete_in(&mut self, unsettled: Unsettled)
        requires room { length self.old.work.table.groups ≤ self.old.room }
        requires stops { NoStopBut unsettled self.old.work.table.threads self.old.work.table.groups }
        ensures work { self.new.work ≡ complete_group_stops self.old.work }
        ensures taken_from { self.new.taken_from ≡ self.old.taken_from }
    {
        match unsettled {
            Unsettled::In(tgid) if self.can_complete(tgid) => self.complete_stop(tgid),
            Unsettled::Nowhere | Unsettled::In(_) => {}
            Unsettled::Anywhere => self.complete_each_group_stop(),
        }
    }

    #[cold]
    #[inline(never)]
    fn complete_each_group_stop(&mut self)
        requires { length self.old.work.table.groups ≤ self.old.room }
        ensures work { self.new.work ≡ complete_group_stops self.old.work }
        ensures taken_from { self.new.taken_from ≡ self.old.taken_from }
    {
        let count = self.table().group_count();
        for i in 0..count {
            let tgid = self.table().tgid_at(i);
            self.complete_group_stop(tgid);
        }
    }
}
