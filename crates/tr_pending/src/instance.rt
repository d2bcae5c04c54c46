use tr_sigset::Signal;

/// What the taker of a signal is told of its sender: the fields of siginfo_t, sigaction(2).
#[derive(Clone, Copy, Debug, PartialEq, Eq)]
pub struct Info {
    /// `si_code`: 0 by kill(2), -1 by sigqueue(3), -6 by tgkill(2).
    pub code: i32,
    /// `si_pid`: the sender.
    pub pid: u32,
    /// `si_value`, by sigqueue(3) alone.
    pub value: i32,
}

/// An accepted signal.
#[derive(Clone, Copy, Debug, PartialEq, Eq)]
pub struct Instance {
    /// Its number, from 1 up in order of acceptance over the whole kernel.
    pub n: u64,
    /// Which signal it is.
    pub sig: Signal,
    /// What its taker is told of its sender.
    pub info: Info,
}
