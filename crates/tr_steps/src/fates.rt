//! What becomes of a signal right after its send, told before it: by the same six rules, from the table as it stands.

ghost use Rattle.std.specs.Prelude.{◌≡◌, if◌then◌else◌};
ghost use Rattle.tr_model.specs.Foreseen.{fate_of_put, fate_of_send, fate_unless_ignored};
ghost use Rattle.tr_model.specs.Tables.{action_of, all_dead, owner};
ghost use Rattle.tr_model.specs.declared.fates.Fate.TheVariants.{Delivered, Flushed};

use crate::steps::Step;
use tr_group::Action;
use tr_model::{Fate, Target};
use tr_sigset::Signal;

impl Step {
    fn fate_of_kill(&self, target: Target) -> Fate
        ensures { result
            ≡ (if all_dead self.now.work.table
            (owner self.now.work.table target) then Flushed else Delivered) }
    {
        if self.table().all_dead(self.table().owner(target)) {
            Fate::Flushed
        } else {
            Fate::Delivered
        }
    }

    /// What becomes of a signal that is put into the target's queue now.
    pub fn fate_of_put(&self, signal: Signal, target: Target) -> Fate
        ensures { result ≡ fate_of_put self.now.work.table signal target }
    {
        if self.merges(signal, target) {
            Fate::Merged
        } else {
            Fate::Pending
        }
    }

    fn fate_unless_ignored(&self, signal: Signal, target: Target, action: Action) -> Fate
        requires { action
            ≡ action_of self.now.work.table (owner self.now.work.table target) signal }
        ensures { result ≡ fate_unless_ignored self.now.work.table signal target }
    {
        if self.is_ignored(signal, target, action) {
            Fate::Flushed
        } else {
            self.fate_of_put(signal, target)
        }
    }

    /// What becomes of a signal that is sent now.
    pub fn fate_of_send(&self, signal: Signal, target: Target) -> Fate
        ensures { result ≡ fate_of_send self.now.work.table signal target }
    {
        if signal == Signal::KILL {
            self.fate_of_kill(target)
        } else if let Some(action) = self.reachable_action(signal, target) {
            self.fate_unless_ignored(signal, target, action)
        } else {
            Fate::Flushed
        }
    }
}
