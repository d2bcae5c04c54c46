ghost use Rattle.std.specs.Prelude.{◌≡◌};
ghost use Rattle.tr_tracee.specs.Threads.{has_mark, is_leader, is_ready_to_take, is_traced, is_tracee_of, options_of, seized, tracer_of};

use crate::life::Life;
use tr_sigset::SigSet;
use tr_wait::Status;

/// The options of a tracer: `PTRACE_O_TRACECLONE`, `PTRACE_O_TRACEEXEC`, `PTRACE_O_TRACEEXIT` and
/// `PTRACE_O_EXITKILL` of ptrace(2).
#[derive(Clone, Copy, Debug, PartialEq, Eq)]
pub struct Options {
    /// `PTRACE_O_TRACECLONE`: it stops at its clone(2), and the new thread is traced too.
    pub clone: bool,
    /// `PTRACE_O_TRACEEXEC`: it stops once its execve(2) is done.
    pub exec: bool,
    /// `PTRACE_O_TRACEEXIT`: it stops before it ends, unless KILL ends it.
    pub exit: bool,
    /// `PTRACE_O_EXITKILL`: it is killed as its tracer ends.
    pub exitkill: bool,
}

/// Who traces a thread, and how.
#[derive(Clone, Copy, Debug, PartialEq, Eq)]
pub struct Trace {
    /// The actor that traces it.
    pub tracer: u32,
    /// By `PTRACE_SEIZE`, else by `PTRACE_ATTACH`.
    pub seized: bool,
    pub options: Options,
}

/// A report that no wait has consumed yet. Its number counts from 1 over the whole kernel.
#[derive(Clone, Copy, Debug, PartialEq, Eq)]
pub struct Report {
    pub number: u64,
    pub status: Status,
}

/// The record of one thread.
#[derive(Clone, Copy, Debug, PartialEq, Eq)]
pub struct Thread {
    pub id: u32,
    /// Its group's id, which is the leader's.
    pub group: u32,
    /// The signals that it blocks.
    pub mask: SigSet,
    /// It waits in pause(2).
    pub pausing: bool,
    /// What it is doing.
    pub life: Life,
    /// Who traces it, if anybody.
    pub trace: Option<Trace>,
    /// It is to stop for its group's group-stop.
    pub stop_mark: bool,
    /// It is to stop for `PTRACE_INTERRUPT`.
    pub trap_mark: bool,
    /// It is to stop since a SIGCONT came.
    pub note_mark: bool,
    /// It takes part in the group-stop in effect.
    pub joined: bool,
    /// What its tracer, or the starter, may wait for.
    pub report: Option<Report>,
}

impl Options {
    /// No option.
    pub const NONE: Options = Options {
        clone: false,
        exec: false,
        exit: false,
        exitkill: false,
    };
}

impl Thread {
    /// Whether it is its group's leader.
    pub fn is_leader(&self) -> bool
        ensures { result ≡ is_leader self.now }
    {
        self.id == self.group
    }

    /// Who traces it, if anybody does.
    pub fn tracer(&self) -> Option<u32>
        ensures { result ≡ tracer_of self.now.trace }
    {
        match &self.trace {
            Some(trace) => Some(trace.tracer),
            None => None,
        }
    }

    /// Whether somebody traces it.
    pub fn is_traced(&self) -> bool
        ensures { result ≡ is_traced self.now }
    {
        self.trace.is_some()
    }

    /// Whether this actor traces it.
    pub fn is_tracee_of(&self, actor: u32) -> bool
        ensures { result ≡ is_tracee_of actor self.now }
    {
        match &self.trace {
            Some(trace) => trace.tracer == actor,
            None => false,
        }
    }

    /// Whether it is traced by `PTRACE_SEIZE`.
    pub fn is_seized(&self) -> bool
        ensures { result ≡ seized self.now.trace }
    {
        match &self.trace {
            Some(trace) => trace.seized,
            None => false,
        }
    }

    /// Its tracer's options, none where it has no tracer.
    pub fn options(&self) -> Options
        ensures { result ≡ options_of self.now.trace }
    {
        match &self.trace {
            Some(trace) => trace.options,
            None => Options::NONE,
        }
    }

    /// Whether it has a mark to serve.
    pub fn has_mark(&self) -> bool
        ensures { result ≡ has_mark self.now }
    {
        self.stop_mark || self.trap_mark || self.note_mark
    }

    /// Whether it may take a signal: it runs or pauses, and has no mark.
    pub fn is_ready_to_take(&self) -> bool
        ensures { result ≡ is_ready_to_take self.now }
    {
        self.life.is_free() && !self.has_mark()
    }
}
