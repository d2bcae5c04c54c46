ghost use Rattle.std.specs.Prelude.{◌≡◌};
ghost use Rattle.tr_wait.specs.Words.{stop_number, stop_sig_of};

use tr_sigset::Signal;

/// The signal that a `PTRACE_EVENT_STOP` shows: ptrace(2).
#[derive(Clone, Copy, Debug, PartialEq, Eq)]
pub enum StopSig {
    /// SIGTRAP: outside a group-stop.
    Trap,
    /// SIGSTOP: in a group-stop of this signal, as the next three.
    Stop,
    /// SIGTSTP.
    Tstp,
    /// SIGTTIN.
    Ttin,
    /// SIGTTOU.
    Ttou,
}

impl StopSig {
    /// The number of the signal.
    pub fn number(self) -> u8
        ensures { result ≡ stop_number self }
    {
        match self {
            StopSig::Trap => 5,
            StopSig::Stop => 19,
            StopSig::Tstp => 20,
            StopSig::Ttin => 21,
            StopSig::Ttou => 22,
        }
    }

    /// What a group-stop by this signal shows. Of a signal that isn't one of the four stop signals it is `Trap`.
    pub fn of(signal: Signal) -> StopSig
        ensures { result ≡ stop_sig_of signal }
    {
        match signal.number() {
            19 => StopSig::Stop,
            20 => StopSig::Tstp,
            21 => StopSig::Ttin,
            22 => StopSig::Ttou,
            _ => StopSig::Trap,
        }
    }
}

/// What a wait tells of a thread or a group: waitpid(2) and ptrace(2).
#[derive(Clone, Copy, Debug, PartialEq, Eq)]
pub enum Status {
    /// It ended by itself, with this code.
    Exited(u8),
    /// A signal ended it.
    Killed(Signal),
    /// It stopped: in a signal-delivery-stop or a group-stop of this signal.
    Stopped(Signal),
    /// The stop of `PTRACE_EVENT_CLONE`.
    Clone,
    /// The stop of `PTRACE_EVENT_EXEC`.
    Exec,
    /// The stop of `PTRACE_EVENT_EXIT`.
    Exit,
    /// `PTRACE_EVENT_STOP`.
    EventStop(StopSig),
    /// A stopped group continued.
    Continued,
}
