//! The small moves of a step, each the model's move of the same name. None takes memory.

ghost use Rattle.std.specs.Prelude.{◌≡◌, ◌≤◌, ◌<◌, ◌+◌, ◌++◌, ◌==◌, None, OnErr, OnOk, Some, false, is_some, true, length, vec_len, vec_capacity};
ghost use Rattle.tr_model.specs.declared.fates.Fate.TheVariants.{Flushed};
ghost use Rattle.tr_model.specs.Moves.{accept_as, added, alter, become, drop_empty, end_waiting, ended_hold, enqueue, enter, note, only_group, pulled, regroup, remove_dead, report_death, take_place, tell_dying, tell_killed};
ghost use Rattle.tr_model.specs.Restarts.{listen, resume};
ghost use Rattle.tr_model.specs.Tables.{members, same_target, thread_of};
ghost use Rattle.tr_model.specs.Sends.{flush_in};
ghost use Rattle.tr_model.specs.Takes.{deliver};
ghost use Rattle.tr_tracee.specs.declared.life.Stop.TheVariants as stop;
ghost use Rattle.tr_tracee.specs.Ends.{begun_to_leave, begun_to_leave_by_exec};
ghost use Rattle.tr_tracee.specs.Lives.{held};
ghost use Rattle.tr_tracee.specs.Marks.{marked};
ghost use Rattle.tr_tracee.specs.Threads.{at_group, at_thread};
ghost use Rattle.tr_threads.specs.Changes.{continued_by, thread_changed_by};
ghost use Rattle.tr_queues.specs.Changes.{flushes};
ghost use Rattle.tr_table.specs.Changes.{group_changed_by, keeps_held};
ghost use Rattle.tr_index.specs.Counts.{bool_to_nat};
ghost use Rattle.tr_steps.specs.UnderWay.{Moves};

use crate::steps::Step;
use std::alloc::AllocError;
use tr_model::{Ending, Fate, Raise, Target};
use tr_pending::{Info, Instance};
use tr_queues::Flush;
use tr_sigset::Signal;
use tr_table::GroupChange;
use tr_threads::ThreadChange;
use tr_tracee::{End, Stop, Thread};
use tr_wait::Status;

impl Step {
    /// Each live thread of a group that takes no part in the group-stop yet gets the stop mark.
    pub fn mark_all(&mut self, tgid: u32)
        ensures { Moves (alter (at_group tgid marked)) 0 self.old self.new }
    {
        self.table.change_members(tgid, &ThreadChange::Mark);
    }

    /// A SIGCONT comes to the threads of a group, whose signal-delivery-stops note it; `in_effect` says whether a group-stop
    /// is in effect.
    pub fn continue_threads(&mut self, tgid: u32, in_effect: bool)
        ensures { Moves (alter (at_group tgid (continued_by in_effect))) 0 self.old self.new }
    {
        self.table
            .change_members(tgid, &ThreadChange::Continue(in_effect));
    }

    /// What happens to the record of one thread, where that leaves it what it holds.
    #[tactic(auto, using(crate::proofs::Helds::helds_kept_by))]
    #[inline(always)]
    pub fn change_thread(&mut self, id: u32, change: &ThreadChange)
        requires keeps { keeps_held change.now ≡ true }
        ensures { Moves (alter (at_thread id (thread_changed_by change.now))) 0 self.old self.new }
    {
        self.table.change_thread(id, change);
    }

    /// What happens to the record of one group.
    #[tactic(auto, using(crate::proofs::Groups::as_many_regrouped))]
    pub fn change_group(&mut self, tgid: u32, change: &GroupChange)
        ensures { Moves (regroup
            (only_group tgid (group_changed_by change.now))) 0 self.old self.new }
    {
        self.table.change_group(tgid, change);
    }

    /// A note of a group for the starter, with the next report.
    #[tactic(auto, using(crate::proofs::Groups::as_many_noted))]
    pub fn note(&mut self, tgid: u32, status: &Status)
        requires { 1 ≤ self.old.room }
        ensures { Moves (note tgid status.now) 1 self.old self.new }
    {
        self.room -= 1;
        self.table.note(tgid, status);
        self.news.raise(&Raise {
            number: self.table.raised(),
            whom: None,
            id: tgid,
            status: *status,
        });
    }

    /// The next signal is accepted and ends at once.
    pub fn accept_as(&mut self, fate: Fate)
        requires { 1 ≤ self.old.room }
        ensures { Moves (accept_as fate) 1 self.old self.new }
    {
        self.room -= 1;
        let number = self.table.accept();
        self.ended.push_reserved(Ending { number, fate });
    }

    /// The next signal is accepted and waits for a target.
    #[inline(never)]
    pub fn enqueue(&mut self, signal: Signal, info: &Info, target: Target)
        requires { 1 ≤ self.old.room }
        ensures { Moves (enqueue signal info.now target) 1 self.old self.new }
    {
        self.room -= 1;
        self.table.enqueue(signal, info, target);
    }

    /// Pending signals of a group are flushed.
    #[tactic(auto, using(crate::proofs::Helds::filter_halves))]
    #[inline(never)]
    pub fn flush(&mut self, tgid: u32, flush: &Flush)
        requires { 1 ≤ self.old.room }
        ensures { Moves (flush_in tgid (flushes flush.now)) 0 self.old self.new }
    {
        self.table.flush(tgid, flush, &mut self.ended);
    }

    /// The pending instance of a number is delivered.
    #[tactic(auto, using(crate::proofs::Helds::filter_halves))]
    pub fn deliver(&mut self, n: u64)
        requires { 1 ≤ self.old.room }
        ensures { Moves (deliver n) 0 self.old self.new }
    {
        self.table.deliver(n, &mut self.ended);
    }

    /// What waits for a target is flushed.
    #[tactic(auto, using(crate::proofs::Helds::filter_halves))]
    pub fn flush_queue(&mut self, target: Target)
        requires { 1 ≤ self.old.room }
        ensures { Moves (end_waiting Flushed
            (λ q. same_target target q.target)) 0 self.old self.new }
    {
        self.table.flush_queue(target, &mut self.ended);
    }

    /// A thread enters a ptrace-stop, if it may.
    pub fn enter(&mut self, id: u32, stop: &Stop)
        requires { 1 ≤ self.old.room }
        ensures { Moves (enter id stop.now) 1 self.old self.new }
    {
        self.room -= 1;
        let raise = self.table.enter(id, stop);
        self.news.raise_some(&raise);
    }

    /// The report of a dead thread's death.
    pub fn report_death(&mut self, id: u32, end: &End)
        requires { 1 ≤ self.old.room }
        ensures { Moves (report_death id end.now) 1 self.old self.new }
    {
        self.room -= 1;
        let raise = self.table.report_death(id, end);
        self.news.raise_some(&raise);
    }

    /// A dead thread goes.
    #[tactic(auto, using(crate::proofs::Helds::helds_kept))]
    pub fn remove_dead(&mut self, id: u32)
        ensures { Moves (remove_dead (λ t. t.id == id)) 0 self.old self.new }
    {
        self.table.remove_dead(id);
    }

    /// A group without threads goes.
    #[tactic(auto, using(crate::proofs::Helds::fewer_kept))]
    pub fn drop_empty(&mut self, tgid: u32)
        ensures { Moves (drop_empty tgid) 0 self.old self.new }
    {
        self.table.remove_group(tgid);
    }

    /// Each thread of a group that isn't dead begins to leave, and what they held is flushed.
    pub fn leave(&mut self, tgid: u32, kill: bool, end: &End)
        requires { 1 ≤ self.old.room }
        ensures { Moves (become Flushed
            (at_group tgid (begun_to_leave kill end.now))) 0 self.old self.new }
    {
        let change = ThreadChange::BeginToLeave(kill, *end);
        self.table.change_and_flush(tgid, &change, &mut self.ended);
    }

    /// Each other thread of a group that isn't dead begins to leave, since the thread with the id has called execve(2),
    /// and what they held is flushed.
    pub fn leave_for_exec(&mut self, tgid: u32, id: u32, end: &End)
        requires { 1 ≤ self.old.room }
        ensures { Moves (become Flushed
            (at_group tgid (begun_to_leave_by_exec id end.now))) 0 self.old self.new }
    {
        let change = ThreadChange::LeaveForExec(id, *end);
        self.table.change_and_flush(tgid, &change, &mut self.ended);
    }

    /// A thread enters a signal-delivery-stop, which holds the pending instance, if it may.
    #[tactic(auto, using(crate::proofs::Helds::fewer_without))]
    pub fn hold(&mut self, id: u32, instance: &Instance)
        requires { 1 ≤ self.old.room }
        ensures { Moves (λ w. enter id (stop.Signal instance.now false) (pulled instance.now w)) 1
            self.old self.new }
    {
        self.table.pull(instance.n);
        let stop = Stop::Signal {
            held: *instance,
            cont_came: false,
        };
        self.enter(id, &stop);
    }

    /// A thread is restarted from its stop, and what that held ends with this fate.
    pub fn resume(&mut self, thread: &Thread, fate: Fate)
        requires room { 1 ≤ self.old.room }
        requires there { thread_of self.old.work.table thread.now.id ≡ Some thread.now }
        ensures { Moves (resume fate thread.now) 0 self.old self.new }
    {
        end_held(&mut self.ended, &thread.life.held(), fate);
        self.table.change_thread(thread.id, &ThreadChange::Restart);
    }

    /// A tracee listens, if it is in an event stop; that held nothing.
    pub fn listen(&mut self, thread: &Thread)
        requires there { thread_of self.old.work.table thread.now.id ≡ Some thread.now }
        ensures { Moves (listen thread.now) 0 self.old self.new }
    {
        self.table.change_thread(thread.id, &ThreadChange::Listen);
    }

    /// A new thread comes last in the table. Where memory is refused nothing has changed.
    #[tactic(auto, using(crate::proofs::Put::helds_added))]
    pub fn add(&mut self, thread: &Thread) -> Result<(), AllocError>
        requires new_id { thread_of self.old.work.table thread.now.id ≡ None }
        requires place { length (members self.old.work.table thread.now.group) < 64 }
        requires holds_none { held thread.now.life ≡ None }
        ensures ok { OnOk result (Moves (added thread.now) 0 self.old self.new) }
        ensures err { OnErr result (self.new ≡ self.old) }
    {
        self.table.add(thread)
    }

    /// An execing thread takes the place and the id of its dead leader, and what waits for it goes with it.
    pub fn take_place(&mut self, id: u32)
        requires { 1 ≤ self.old.room }
        ensures { Moves (take_place id) 1 self.old self.new }
    {
        self.room -= 1;
        let leader = self.table.take_place(id);
        self.news.rename_some(leader);
    }

    /// The death of a group began.
    pub fn tell_dying(&mut self, tgid: u32)
        requires { 1 ≤ self.old.room }
        ensures { Moves (tell_dying tgid) 1 self.old self.new }
    {
        self.room -= 1;
        self.news.tell_dying(tgid);
    }

    /// A KILL was delivered to a group.
    pub fn tell_killed(&mut self, tgid: u32)
        requires { 1 ≤ self.old.room }
        ensures { Moves (tell_killed tgid) 1 self.old self.new }
    {
        self.room -= 1;
        self.news.tell_killed(tgid);
    }
}

/// Appends the instance that a stop held, if it held one, with its fate.
fn end_held(ended: &mut Vec<Ending>, held: &Option<Instance>, fate: Fate)
    requires { vec_len ended.old + bool_to_nat (is_some held.now) ≤ vec_capacity ended.old }
    ensures items { ended.new.items ≡ ended.old.items ++ ended_hold fate held.now None }
    ensures len { vec_len ended.new ≡ vec_len ended.old + bool_to_nat (is_some held.now) }
    ensures capacity { vec_capacity ended.new ≡ vec_capacity ended.old }
{
    if let Some(held) = held {
        ended.push_reserved(Ending {
            number: held.n,
            fate,
        });
    }
}
