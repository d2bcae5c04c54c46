use crate::fates::Fate;
use tr_pending::{Info, Instance};
use tr_sigset::Signal;

/// What a taker did with a signal.
#[derive(Clone, Copy, Debug, PartialEq, Eq)]
pub enum Did {
    /// It ran a handler.
    Caught,
    /// Nothing.
    Ignored,
    /// Its group began to die.
    Dying,
    /// Its group began to stop.
    Stopping,
    /// A tracee: it entered a signal-delivery-stop.
    Reported,
}

/// The answer to an event that isn't refused. Each variant's small fields come first, so that it is 32 bytes.
#[derive(Clone, Copy, Debug, PartialEq, Eq)]
pub enum Reply {
    /// It is done, and there is nothing to tell.
    Done,
    /// The target of signal 0 is there.
    Exists,
    /// There was nothing to take, nothing to wait for or no tracee.
    Nothing,
    /// The signal's fate right after the step, and the number that it was accepted as.
    Sent { fate: Fate, n: u64 },
    /// What was done with a signal that was taken, by which thread, and the signal.
    Took { did: Did, tid: u32, inst: Instance },
    /// The new thread's id.
    Cloned { tid: u32 },
    /// The report of a thread or a group: its status as a word, and its number.
    Waited { id: u32, word: u32, report: u64 },
    /// `PTRACE_GETEVENTMSG`.
    Message { value: u32 },
    /// `PTRACE_GETSIGINFO`.
    Signal { sig: Signal, info: Info },
}

/// Why an event was refused: the errors of the manual pages, and this model's own.
#[derive(Clone, Copy, Debug, PartialEq, Eq)]
pub enum Refusal {
    /// EPERM: the thread is traced, isn't live, or its group is dying.
    Perm,
    /// ESRCH: no such group or thread, or no stopped tracee of the actor.
    Srch,
    /// EIO: a request that the tracee's stop or its kind of tracing doesn't allow, or a signal above 64.
    Io,
    /// ECHILD: nothing that the wait asks for.
    Child,
    /// EAGAIN: the queue limit, or a limit of threads.
    Again,
    /// ENOMEM: memory was refused.
    NoMemory,
    /// EINVAL: a signal that isn't one, or isn't allowed here; or no signal to tell of, at an attached tracee's
    /// group-stop.
    Inval,
    /// The thread has a mark to serve or a signal to take first.
    Busy,
    /// The thread isn't asked to do this.
    NotDue,
    /// The thread doesn't run.
    NotRunning,
    /// Outside this model.
    Unmodelled,
    /// A name that is never answered.
    ThreadedExec,
    /// The journal has as many entries as the entry limit.
    JournalFull,
}
