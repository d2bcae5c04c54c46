ghost use Rattle.std.specs.Prelude.{◌≡◌};
ghost use Rattle.tr_reasons.specs.Reasons.{AreOfCauses, refusal_of};

use tr_model::Refusal;

/// Why an event is refused: a condition that its cause is made of. The number is that of the thread, the group, the signal
/// or the actor that it is about.
#[derive(Clone, Copy, Debug, PartialEq, Eq)]
pub enum Reason {
    /// No thread has the id.
    NoThread(u32),
    /// No group has the id.
    NoGroup(u32),
    /// The thread is of another group than the one that was named.
    OfAnotherGroup(u32),
    /// The number is above 64.
    NoSignal(u8),
    /// As many signals wait as the queue limit says.
    QueueFull(u32),
    /// The thread doesn't run.
    NotRunning(u32),
    /// The thread waits in pause(2).
    Pausing(u32),
    /// The thread has a stop, a trap or a note of a SIGCONT to serve first.
    HasMark(u32),
    /// The thread has a pending signal to take first.
    MayTake(u32),
    /// No action of this number can be set.
    FixedAction(u8),
    /// The table has as many threads as it may have.
    TableFull,
    /// The group has as many threads as it may have.
    GroupFull(u32),
    /// The thread isn't to stop for a group-stop.
    NoGroupStop(u32),
    /// Neither an interrupt nor a SIGCONT asks the thread for a trap.
    NoTrap(u32),
    /// The thread neither runs nor listens.
    NotServing(u32),
    /// The thread doesn't end.
    NotLeaving(u32),
    /// The thread isn't in execve(2).
    NotExecing(u32),
    /// Another thread of the thread's group isn't dead.
    OthersAlive(u32),
    /// The thread is traced already.
    Traced(u32),
    /// The thread that is to be traced has ended, or is about to.
    Ended(u32),
    /// The group of the thread that is to be traced is about to end.
    GroupEnding(u32),
    /// The actor doesn't trace the thread.
    NotTracee(u32),
    /// The tracee has ended, or is about to.
    TraceeEnded(u32),
    /// The tracee is in no ptrace-stop.
    NotStopped(u32),
    /// The tracee was attached, and not seized.
    NotSeized(u32),
    /// The tracee is in another ptrace-stop than `PTRACE_EVENT_STOP`.
    NoEventStop(u32),
    /// The number with which a tracee is to be restarted is above 64.
    NoRestartSignal(u8),
    /// The ptrace-stop of the tracee has no message.
    NoMessage(u32),
    /// The tracee is in a group-stop, which holds no signal.
    InGroupStop(u32),
    /// The tracee is in no signal-delivery-stop.
    NoDelivery(u32),
    /// The actor traces no thread that the wait asks for.
    NoTracee(u32),
    /// The actor isn't the starter.
    NotStarter(u32),
    /// The starter has no group that the wait asks for.
    NoChild,
}

/// Gives the refusal of a reason.
pub fn refusal_of(reason: Reason) -> Refusal
    ensures { result ≡ refusal_of reason }
{
    match reason {
        Reason::NoThread(_)
        | Reason::NoGroup(_)
        | Reason::OfAnotherGroup(_)
        | Reason::NotTracee(_)
        | Reason::TraceeEnded(_)
        | Reason::NotStopped(_) => Refusal::Srch,
        Reason::NoSignal(_) | Reason::FixedAction(_) | Reason::InGroupStop(_) => Refusal::Inval,
        Reason::QueueFull(_) | Reason::TableFull | Reason::GroupFull(_) => Refusal::Again,
        Reason::NotRunning(_) | Reason::Pausing(_) => Refusal::NotRunning,
        Reason::HasMark(_) | Reason::MayTake(_) => Refusal::Busy,
        Reason::NoGroupStop(_)
        | Reason::NoTrap(_)
        | Reason::NotServing(_)
        | Reason::NotLeaving(_)
        | Reason::NotExecing(_)
        | Reason::OthersAlive(_) => Refusal::NotDue,
        Reason::Traced(_) | Reason::Ended(_) | Reason::GroupEnding(_) => Refusal::Perm,
        Reason::NotSeized(_) | Reason::NoEventStop(_) | Reason::NoRestartSignal(_) => Refusal::Io,
        Reason::NoMessage(_) | Reason::NoDelivery(_) => Refusal::Unmodelled,
        Reason::NoTracee(_) | Reason::NotStarter(_) | Reason::NoChild => Refusal::Child,
    }
}

/// The reasons of an event are those of the causes that refuse it, one of each in their order, at every table. So its first
/// reason is that of the refusal that it is answered.
pub fn reasons_are_of_causes()
    ensures { AreOfCauses }
{}
