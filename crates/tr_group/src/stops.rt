ghost use Rattle.std.specs.Prelude.{◌≡◌};
ghost use Rattle.tr_group.specs.Actions.{ignoring, reset};
ghost use Rattle.tr_group.specs.GroupStops.{begun, completed, is_complete, is_stopping, stop_signal};

use tr_sigset::{Base, Signal};

/// What a group does at a signal: the dispositions of signal(7).
#[derive(Clone, Copy, Debug, PartialEq, Eq)]
pub enum Action {
    /// `SIG_DFL`: the signal's default action.
    Default,
    /// `SIG_IGN`.
    Ignore,
    /// A handler.
    Catch,
}

/// The group-stop of a group: "Group-stop" of ptrace(2).
#[derive(Clone, Copy, Debug, PartialEq, Eq)]
pub enum GroupStop {
    /// None is in effect.
    No,
    /// Some thread still has to stop for it.
    Stopping(Signal),
    /// No thread has to stop for it any more.
    Stopped(Signal),
}

impl Action {
    /// Whether it ignores a signal: `Ignore`, or `Default` where the signal's default action does nothing at its
    /// delivery (CHLD, CONT, URG, WINCH).
    pub fn ignores(self, signal: Signal) -> bool
        ensures { result ≡ ignoring self signal }
    {
        match self {
            Action::Ignore => true,
            Action::Default => matches!(signal.default_action(), Base::Ignored | Base::Continue),
            Action::Catch => false,
        }
    }

    /// What execve(2) makes of it: a caught signal has its default action, an ignored one stays ignored.
    pub fn reset(self) -> Action
        ensures { result ≡ reset self }
    {
        match self {
            Action::Catch => Action::Default,
            Action::Default | Action::Ignore => self,
        }
    }
}

impl GroupStop {
    /// The signal of the group-stop in effect, if one is.
    pub fn signal(&self) -> Option<Signal>
        ensures { result ≡ stop_signal self.now }
    {
        match self {
            GroupStop::No => None,
            GroupStop::Stopping(signal) | GroupStop::Stopped(signal) => Some(*signal),
        }
    }

    /// Whether some thread still has to stop for it.
    pub fn is_stopping(&self) -> bool
        ensures { result ≡ is_stopping self.now }
    {
        matches!(self, GroupStop::Stopping(_))
    }

    /// Whether it is in effect and no thread has to stop for it any more.
    pub fn is_complete(&self) -> bool
        ensures { result ≡ is_complete self.now }
    {
        matches!(self, GroupStop::Stopped(_))
    }

    /// Begins a group-stop. One that is in effect keeps its signal and its kind.
    pub fn begin(&mut self, signal: Signal)
        ensures { self.new ≡ begun signal self.old }
    {
        if let GroupStop::No = *self {
            *self = GroupStop::Stopping(signal);
        }
    }

    /// Completes a group-stop under way.
    pub fn complete(&mut self)
        ensures { self.new ≡ completed self.old }
    {
        *self = completed_from(self);
    }
}

fn completed_from(stop: &GroupStop) -> GroupStop
    ensures { result ≡ completed stop.now }
{
    match stop {
        GroupStop::Stopping(signal) => GroupStop::Stopped(*signal),
        _ => *stop,
    }
}
