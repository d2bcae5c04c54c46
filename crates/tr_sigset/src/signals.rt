ghost use Rattle.std.specs.Prelude.{◌≡◌, SomeIff};
ghost use Rattle.tr_sigset.specs.Signals.{IsSignal, base_of, is_real_time, is_stop};

use std::marker::Model;

/// What a signal does to a process by default: the column "Action" of signal(7).
#[derive(Clone, Copy, Debug, PartialEq, Eq)]
pub enum Base {
    /// The process ends.
    Term,
    /// The process ends. This model writes no core file, so it ends as by `Term`.
    Core,
    /// Nothing happens.
    Ignored,
    /// The process stops.
    Stop,
    /// A stopped process continues.
    Continue,
}

/// The default actions of HUP (1) to SYS (31); a real-time signal ends the process.
const NAMED: [Base; 31] = [
    Base::Term, // HUP
    Base::Term, // INT
    Base::Core, // QUIT
    Base::Core, // ILL
    Base::Core, // TRAP
    Base::Core, // ABRT
    Base::Core, // BUS
    Base::Core, // FPE
    Base::Term, // KILL
    Base::Term, // USR1
    Base::Core, // SEGV
    Base::Term, // USR2
    Base::Term, // PIPE
    Base::Term, // ALRM
    Base::Term, // TERM
    Base::Term, // STKFLT
    Base::Ignored, // CHLD
    Base::Continue, // CONT
    Base::Stop, // STOP
    Base::Stop, // TSTP
    Base::Stop, // TTIN
    Base::Stop, // TTOU
    Base::Ignored, // URG
    Base::Core, // XCPU
    Base::Core, // XFSZ
    Base::Term, // VTALRM
    Base::Term, // PROF
    Base::Ignored, // WINCH
    Base::Term, // IO
    Base::Term, // PWR
    Base::Core, // SYS
];

/// A signal. Contracts see its number, 1 to 64, as signal(7) has it on x86 and ARM. It stands in four bytes, so that an
/// accepted signal has no hole, which would be copied on its own.
#[derive(Clone, Copy, Debug, PartialEq, Eq)]
pub struct Signal {
    number: u32,
}

impl Model for Signal {
    ghost use Rattle.std.specs.Prelude.{ℕ, ◌≤◌};

    ghost Value = { ℕ };

    ghost view = { λ s. s.number };

    ghost invariant = { λ s. (1 ≤ s.number) × (s.number ≤ 64) };

    ghost inverse = { λ n. record { number = n } };
}

impl Signal {
    /// The greatest number of a signal: that of SIGRTMAX.
    pub const GREATEST: u8 = 64;

    /// The least number of a real-time signal.
    pub const LEAST_REAL_TIME: u8 = 32;

    /// SIGKILL, which no thread can block, catch or ignore.
    pub const KILL: Signal = Signal { number: 9 };

    /// SIGTRAP, which execve(2) sends to an attached tracee.
    pub const TRAP: Signal = Signal { number: 5 };

    /// SIGCONT, which continues a stopped process.
    pub const CONT: Signal = Signal { number: 18 };

    /// SIGSTOP, which no thread can block, catch or ignore.
    pub const STOP: Signal = Signal { number: 19 };

    /// SIGTSTP, which the suspend key sends.
    pub const TSTP: Signal = Signal { number: 20 };

    /// SIGTTIN, which a read from the terminal in the background sends.
    pub const TTIN: Signal = Signal { number: 21 };

    /// SIGTTOU, which a write to it sends.
    pub const TTOU: Signal = Signal { number: 22 };

    /// The signal of a number, where that is 1 to 64.
    pub fn new(number: u8) -> Option<Signal>
        ensures { SomeIff result (IsSignal number) number }
    {
        if 1 <= number && number <= Signal::GREATEST {
            Some(Signal {
                number: u32::from(number),
            })
        } else {
            None
        }
    }

    /// Its number, 1 to 64.
    pub fn number(self) -> u8
        ensures value { result ≡ self }
        ensures range { IsSignal result }
    {
        self.number as u8
    }

    /// What it does by default.
    pub fn default_action(self) -> Base
        ensures { result ≡ base_of self }
    {
        if self.is_real_time() {
            return Base::Term;
        }
        NAMED[self.number as usize - 1]
    }

    /// Whether it is one of the four stop signals: STOP, TSTP, TTIN, TTOU (19 to 22).
    pub fn is_stop(self) -> bool
        ensures { result ≡ is_stop self }
    {
        19 <= self.number && self.number <= 22
    }

    /// Whether it is a real-time signal (32 to 64), whose instances queue and never merge.
    pub fn is_real_time(self) -> bool
        ensures { result ≡ is_real_time self }
    {
        u32::from(Signal::LEAST_REAL_TIME) <= self.number
    }
}
