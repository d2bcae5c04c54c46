ghost use Rattle.std.specs.Prelude.{◌≡◌};
ghost use Rattle.tr_tracee.specs.Lives.{cont_came, held, is_dead, is_event_stop, is_execing, is_free, is_in_event_stop, is_in_stop, is_leaving, is_live, is_stopped, message, serves_marks, status_of_end, status_of_stop, was_told};
ghost use Rattle.tr_tracee.specs.Stops.{may_enter};

use tr_pending::Instance;
use tr_sigset::Signal;
use tr_wait::{Status, StopSig};

/// How a thread ends.
#[derive(Clone, Copy, Debug, PartialEq, Eq)]
pub enum End {
    /// By itself, with this code.
    Exited(u8),
    /// By a signal.
    Killed(Signal),
}

/// A ptrace-stop: "Stopped states" of ptrace(2).
#[derive(Clone, Copy, Debug, PartialEq, Eq)]
pub enum Stop {
    /// A signal-delivery-stop. It holds the instance until the restart; `cont_came` says that a SIGCONT was sent to
    /// the group meanwhile.
    Signal { held: Instance, cont_came: bool },
    /// The group-stop of an attached tracee, by this signal.
    Group(Signal),
    /// `PTRACE_EVENT_CLONE`: the new thread's id.
    Clone(u32),
    /// `PTRACE_EVENT_EXEC`: the id that the thread had before.
    Exec(u32),
    /// `PTRACE_EVENT_EXIT`: the word of the thread's end.
    Exit(u32),
    /// `PTRACE_EVENT_STOP` of a seized tracee.
    Event(StopSig),
}

/// What a thread is doing.
#[derive(Clone, Copy, Debug, PartialEq, Eq)]
pub enum Life {
    /// It runs, or pauses.
    Free,
    /// It is stopped by a group-stop, untraced.
    Stopped,
    /// It is in a ptrace-stop.
    InStop(Stop),
    /// Its tracer restarted it by `PTRACE_LISTEN` from a `PTRACE_EVENT_STOP`.
    Listening,
    /// It ends: once it is told it dies at its next step, else that step is its exit stop.
    Leaving { end: End, told: bool },
    /// It has ended.
    Dead(End),
    /// It waits in execve(2) for the other threads of its group to die.
    Execing,
}

impl End {
    /// The status that waits tell of this end.
    pub fn status(&self) -> Status
        ensures { result ≡ status_of_end self.now }
    {
        match *self {
            End::Exited(code) => Status::Exited(code),
            End::Killed(signal) => Status::Killed(signal),
        }
    }
}

impl Stop {
    /// The status that waits tell of this stop.
    pub fn status(&self) -> Status
        ensures { result ≡ status_of_stop self.now }
    {
        match *self {
            Stop::Signal { held, .. } => Status::Stopped(held.sig),
            Stop::Group(signal) => Status::Stopped(signal),
            Stop::Clone(_) => Status::Clone,
            Stop::Exec(_) => Status::Exec,
            Stop::Exit(_) => Status::Exit,
            Stop::Event(shown) => Status::EventStop(shown),
        }
    }

    /// Whether it is a `PTRACE_EVENT_STOP`.
    pub fn is_event(&self) -> bool
        ensures { result ≡ is_event_stop self.now }
    {
        matches!(self, Stop::Event(_))
    }
}

impl Life {
    /// Whether it runs, or pauses.
    pub fn is_free(&self) -> bool
        ensures { result ≡ is_free self.now }
    {
        matches!(self, Life::Free)
    }

    /// Whether it has ended.
    pub fn is_dead(&self) -> bool
        ensures { result ≡ is_dead self.now }
    {
        matches!(self, Life::Dead(_))
    }

    /// Whether it is in a ptrace-stop.
    pub fn is_in_stop(&self) -> bool
        ensures { result ≡ is_in_stop self.now }
    {
        matches!(self, Life::InStop(_))
    }

    /// Whether it is stopped in a group-stop, and nobody traces it.
    pub fn is_stopped(&self) -> bool
        ensures { result ≡ is_stopped self.now }
    {
        matches!(self, Life::Stopped)
    }

    /// Whether it is in a `PTRACE_EVENT_STOP`.
    pub fn is_in_event_stop(&self) -> bool
        ensures { result ≡ is_in_event_stop self.now }
    {
        matches!(self, Life::InStop(Stop::Event(_)))
    }

    /// Whether it leaves.
    pub fn is_leaving(&self) -> bool
        ensures { result ≡ is_leaving self.now }
    {
        matches!(self, Life::Leaving { .. })
    }

    /// Whether a SIGCONT came during its signal-delivery-stop.
    pub fn cont_came(&self) -> bool
        ensures { result ≡ cont_came self.now }
    {
        match self {
            Life::InStop(Stop::Signal { cont_came, .. }) => *cont_came,
            _ => false,
        }
    }

    /// Whether it waits in execve(2) for the deaths of the other threads of its group.
    pub fn is_execing(&self) -> bool
        ensures { result ≡ is_execing self.now }
    {
        matches!(self, Life::Execing)
    }

    /// What `PTRACE_GETEVENTMSG` gives at its stop: the new thread's id, the id that it had before execve(2), or the
    /// word of its end. `None` elsewhere.
    pub fn message(&self) -> Option<u32>
        ensures { result ≡ message self.now }
    {
        match self {
            Life::InStop(Stop::Clone(message) | Stop::Exec(message) | Stop::Exit(message)) => {
                Some(*message)
            }
            _ => None,
        }
    }

    /// Whether it may enter a ptrace-stop: it runs, is stopped or listens, or leaves and wasn't told to.
    pub fn may_enter(&self) -> bool
        ensures { result ≡ may_enter self.now }
    {
        matches!(
            self,
            Life::Free | Life::Stopped | Life::Listening | Life::Leaving { told: false, .. }
        )
    }

    /// Whether it serves marks: it runs or listens.
    pub fn serves_marks(&self) -> bool
        ensures { result ≡ serves_marks self.now }
    {
        matches!(self, Life::Free | Life::Listening)
    }

    /// Whether it is live: it doesn't leave, isn't dead, and isn't in its exit stop.
    pub fn is_live(&self) -> bool
        ensures { result ≡ is_live self.now }
    {
        !matches!(
            self,
            Life::Leaving { .. } | Life::Dead(_) | Life::InStop(Stop::Exit(_))
        )
    }

    /// Whether it was told to leave already, or is in its exit stop.
    pub fn was_told(&self) -> bool
        ensures { result ≡ was_told self.now }
    {
        match self {
            Life::Leaving { told, .. } => *told,
            Life::InStop(Stop::Exit(_)) => true,
            _ => false,
        }
    }

    /// The instance that its signal-delivery-stop holds.
    pub fn held(&self) -> Option<Instance>
        ensures { result ≡ held self.now }
    {
        match self {
            Life::InStop(Stop::Signal { held, .. }) => Some(*held),
            _ => None,
        }
    }
}
