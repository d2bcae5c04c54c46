use tr_group::Action;
use tr_sigset::SigSet;
use tr_tracee::Options;
use tr_wait::{WaitFlags, Which};

/// What an actor asks for. Ids are any numbers; one that isn't in the table meets `Refusal::Srch`.
#[derive(Clone, Copy, Debug, PartialEq, Eq)]
pub enum Event {
    /// kill(2).
    Kill { tgid: u32, sig: u8 },
    /// tgkill(2).
    Tgkill { tgid: u32, tid: u32, sig: u8 },
    /// sigqueue(3).
    Sigqueue { tgid: u32, sig: u8, value: i32 },
    /// The thread sets its mask: sigprocmask(2) with `SIG_SETMASK`.
    Mask { tid: u32, set: SigSet },
    /// The thread sets an action of its group: sigaction(2).
    SetAction { tid: u32, sig: u8, how: Action },
    /// The thread pauses: pause(2).
    Pause { tid: u32 },
    /// The thread takes a pending signal.
    Take { tid: u32 },
    /// Some thread of the group takes a pending signal.
    TakeAny { tgid: u32 },
    /// The thread stops for its group's group-stop.
    Halt { tid: u32 },
    /// The tracee enters `PTRACE_EVENT_STOP`.
    Trap { tid: u32 },
    /// The leaving thread enters its exit stop, or dies.
    Die { tid: u32 },
    /// The thread makes a thread of its group: clone(2) with `CLONE_THREAD`.
    CloneThread { tid: u32 },
    /// The thread calls execve(2).
    Exec { tid: u32 },
    /// The execve(2) of a thread whose group has no other thread left is done.
    Finish { tid: u32 },
    /// The thread ends: _exit(2) as the raw system call.
    Exit { tid: u32, code: u32 },
    /// The group ends: exit_group(2).
    ExitGroup { tid: u32, code: u32 },
    /// `PTRACE_ATTACH`.
    Attach { tid: u32 },
    /// `PTRACE_SEIZE`.
    Seize { tid: u32, options: Options },
    /// `PTRACE_INTERRUPT`.
    Interrupt { tid: u32 },
    /// `PTRACE_CONT`.
    Cont { tid: u32, sig: u8 },
    /// `PTRACE_LISTEN`.
    Listen { tid: u32 },
    /// `PTRACE_DETACH`.
    Detach { tid: u32, sig: u8 },
    /// `PTRACE_SETOPTIONS`.
    SetOptions { tid: u32, options: Options },
    /// `PTRACE_GETEVENTMSG`.
    EventMessage { tid: u32 },
    /// `PTRACE_GETSIGINFO`.
    SignalInfo { tid: u32 },
    /// The tracer ends.
    TracerExit,
    /// The tracer's waitpid(2) with `__WALL` and `WNOHANG`.
    Wait { which: Which },
    /// The starter's waitpid(2) with `WNOHANG`. The starter, actor 1, is the parent of all groups.
    StarterWait { which: Which, flags: WaitFlags },
}
