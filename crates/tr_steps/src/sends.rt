//! What becomes of an accepted signal: kill(2), tgkill(2), sigqueue(3) and signal(7), by six rules in their order.

ghost use Rattle.std.specs.Prelude.{◌≡◌, ◌≤◌, IfSome, is_some};
ghost use Rattle.tr_pending.specs.Waiting.{merges};
ghost use Rattle.tr_model.specs.Sends.{before_send, continue_by_signal, is_ignored, is_open, is_reachable, put, put_unless_ignored, send, send_kill, send_other};
ghost use Rattle.tr_model.specs.Tables.{action_of, owner, queue};
ghost use Rattle.tr_steps.specs.UnderWay.{Moves};

use crate::steps::Step;
use tr_group::Action;
use tr_model::{Fate, Target};
use tr_pending::Info;
use tr_queues::Flush;
use tr_sigset::Signal;

impl Step {
    // First: KILL is delivered at once, whichever thread it aims at; a group whose threads are all dead flushes it.

    #[cold]
    #[inline(never)]
    fn send_kill(&mut self, tgid: u32)
        requires { 3 ≤ self.old.room }
        ensures { Moves (send_kill tgid) 3 self.old self.new }
    {
        if self.table().all_dead(tgid) {
            self.accept_as(Fate::Flushed);
        } else {
            self.accept_as(Fate::Delivered);
            self.kill_group(tgid);
        }
    }

    // Second: in a dying group, or at what isn't live, it is flushed.

    /// The action of a signal, where it can reach anybody.
    #[inline(always)]
    pub(crate) fn reachable_action(&self, signal: Signal, target: Target) -> Option<Action>
        ensures reachable { is_some result ≡ is_reachable self.now.work.table target }
        ensures action { IfSome result
            (λ a. a ≡ action_of self.now.work.table (owner self.now.work.table target) signal) }
    {
        let table = self.table();
        let is_live = match target {
            Target::Thread(id) => table.find(id).is_some_and(|t| t.life.is_live()),
            Target::Group(tgid) => table.has_live(tgid),
        };
        if !is_live {
            return None;
        }
        match table.group(table.owner(target)) {
            Some(group) if group.end.is_some() => None,
            Some(group) => Some(group.actions[usize::from(signal.number() - 1)]),
            None => Some(Action::Default),
        }
    }

    // Third: a stop signal flushes SIGCONT; SIGCONT flushes stop signals and continues the group.

    #[inline(never)]
    fn continue_by_signal(&mut self, tgid: u32)
        requires { 1 ≤ self.old.room }
        ensures { Moves (continue_by_signal tgid) 1 self.old self.new }
    {
        self.flush(tgid, &Flush::Stops);
        self.continue_all(tgid);
    }

    fn before_send(&mut self, signal: Signal, tgid: u32)
        requires { 1 ≤ self.old.room }
        ensures { Moves (before_send signal tgid) 1 self.old self.new }
    {
        if signal.is_stop() {
            self.flush(tgid, &Flush::Cont);
        } else if signal == Signal::CONT {
            self.continue_by_signal(tgid);
        }
    }

    // Fourth: where the action ignores it, it is flushed if nobody there is traced or blocks it.

    #[inline(never)]
    fn is_open(&self, signal: Signal, target: Target) -> bool
        ensures { result ≡ is_open self.now.work.table signal target }
    {
        let table = self.table();
        match target {
            Target::Thread(id) => {
                table
                    .find(id)
                    .is_some_and(|t| t.trace.is_none() && !t.mask.has(signal))
            }
            Target::Group(tgid) => !table.has_traced(tgid) && !table.some_blocks(tgid, signal),
        }
    }

    #[inline(always)]
    pub(crate) fn is_ignored(&self, signal: Signal, target: Target, action: Action) -> bool
        requires { action
            ≡ action_of self.now.work.table (owner self.now.work.table target) signal }
        ensures { result ≡ is_ignored self.now.work.table signal target }
    {
        action.ignores(signal) && self.is_open(signal, target)
    }

    // Fifth: a standard signal that waits in the same queue already merges. Sixth: else it is pending.

    #[inline(always)]
    pub(crate) fn merges(&self, signal: Signal, target: Target) -> bool
        ensures { result ≡ merges signal (queue self.now.work.table target) }
    {
        !signal.is_real_time() && self.table().is_waiting(target, signal)
    }

    /// An accepted signal merges with one that waits for the target already, or waits for it.
    #[inline(always)]
    pub fn put(&mut self, signal: Signal, info: &Info, target: Target)
        requires { 1 ≤ self.old.room }
        ensures { Moves (put signal info.now target) 1 self.old self.new }
    {
        if self.merges(signal, target) {
            self.accept_as(Fate::Merged);
        } else {
            self.enqueue(signal, info, target);
        }
    }

    #[inline(always)]
    fn put_unless_ignored(&mut self, signal: Signal, info: &Info, target: Target, action: Action)
        requires room { 1 ≤ self.old.room }
        requires action { action
            ≡ action_of self.old.work.table (owner self.old.work.table target) signal }
        ensures { Moves (put_unless_ignored signal info.now target) 1 self.old self.new }
    {
        if self.is_ignored(signal, target, action) {
            self.accept_as(Fate::Flushed);
        } else {
            self.put(signal, info, target);
        }
    }

    /// Sends a stop signal, or SIGCONT, to what can be reached.
    #[cold]
    #[inline(never)]
    fn send_job_control(&mut self, signal: Signal, info: &Info, target: Target)
        requires { 2 ≤ self.old.room }
        ensures { Moves
            (λ w. put_unless_ignored signal info.now target
            (before_send signal (owner w.table target) w)) 2 self.old self.new }
    {
        let tgid = self.table().owner(target);
        self.before_send(signal, tgid);
        let action = self.table().action_of(self.table().owner(target), signal);
        self.put_unless_ignored(signal, info, target, action);
    }

    #[inline(always)]
    fn send_other(&mut self, signal: Signal, info: &Info, target: Target)
        requires { 2 ≤ self.old.room }
        ensures { Moves (send_other signal info.now target) 2 self.old self.new }
    {
        let Some(action) = self.reachable_action(signal, target) else {
            self.accept_as(Fate::Flushed);
            return;
        };
        if signal.is_stop() || signal == Signal::CONT {
            self.send_job_control(signal, info, target);
        } else {
            self.put_unless_ignored(signal, info, target, action);
        }
    }

    /// Sends a signal.
    pub fn send(&mut self, signal: Signal, info: &Info, target: Target)
        requires { 3 ≤ self.old.room }
        ensures { Moves (send signal info.now target) 3 self.old self.new }
    {
        if signal == Signal::KILL {
            let tgid = self.table().owner(target);
            self.send_kill(tgid);
            return;
        }
        // Here the kind of target is decided once; each rule would ask for it again.
        match target {
            Target::Group(tgid) => self.send_other(signal, info, Target::Group(tgid)),
            Target::Thread(id) => self.send_other(signal, info, Target::Thread(id)),
        }
    }
}
