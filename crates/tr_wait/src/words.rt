ghost use Rattle.std.specs.Prelude.{◌≡◌, ◌≢◌, ◌+◌, ◌*◌, Some, IfSome, MatchOption};
ghost use Rattle.std.specs.Option.{SomeIff};
ghost use Rattle.tr_sigset.specs.Signals.{IsSignal};
ghost use Rattle.tr_wait.specs.Words.{IsMeaning, IsStatus, stop_number, word};
ghost use Rattle.tr_wait.specs.declared.status.Status.{Status};
ghost use Rattle.tr_wait.specs.declared.status.Status.TheVariants.{EventStop};
ghost use Rattle.tr_wait.specs.declared.status.StopSig.{StopSig};

use crate::status::{Status, StopSig};
use tr_sigset::Signal;

/// The word of a wait status, which the macros of waitpid(2) read.
#[derive(Clone, Copy, Debug, PartialEq, Eq)]
pub struct Word(pub u32);

/// The low byte of a stop's word. The signal stands above it, in eight bits, and the event above that.
const STOPPED: u32 = 0x7f;

/// The word of a group that continued.
const CONTINUED: u32 = 0xffff;

/// The event `PTRACE_EVENT_STOP`.
const EVENT_STOP: u32 = 128;

/// SIGTRAP and the event `PTRACE_EVENT_CLONE`.
const CLONE: u32 = 3 << 8 | 5;

/// SIGTRAP and the event `PTRACE_EVENT_EXEC`.
const EXEC: u32 = 4 << 8 | 5;

/// SIGTRAP and the event `PTRACE_EVENT_EXIT`.
const EXIT: u32 = 6 << 8 | 5;

/// The word of a status.
pub fn encode(status: Status) -> Word
    ensures { result.0 ≡ word status }
{
    Word(match status {
        Status::Exited(code) => u32::from(code) << 8,
        Status::Killed(signal) => u32::from(signal.number()),
        Status::Stopped(signal) => u32::from(signal.number()) << 8 | STOPPED,
        Status::Clone => CLONE << 8 | STOPPED,
        Status::Exec => EXEC << 8 | STOPPED,
        Status::Exit => EXIT << 8 | STOPPED,
        Status::EventStop(shown) => event_stop(shown),
        Status::Continued => CONTINUED,
    })
}

/// The word of an event stop.
fn event_stop(shown: StopSig) -> u32
    ensures { result ≡ word (EventStop shown) }
{
    EVENT_STOP << 16 | u32::from(shown.number()) << 8 | STOPPED
}

/// The status of a word. `None` where no status has it.
pub fn decode(code: Word) -> Option<Status>
    ensures exact { (s : Status) → IsStatus s → word s ≡ code.0 → result ≡ Some s }
    ensures only { IfSome result (λ s. IsStatus s × (word s ≡ code.0)) }
{
    let bits = code.0;
    if bits == CONTINUED {
        return Some(Status::Continued);
    }
    match bits & 0xff {
        0 => exited(bits >> 8),
        STOPPED => stopped(bits >> 8),
        _ => Some(Status::Killed(signal_of(bits)?)),
    }
}

/// The status of a word with this code above a low byte of 0.
fn exited(code: u32) -> Option<Status>
    ensures { IsMeaning (code * 256) result }
{
    Some(Status::Exited(u8::try_from(code).ok()?))
}

/// The status of a stop's word with these bits above the low byte.
fn stopped(shown: u32) -> Option<Status>
    ensures { IsMeaning (shown * 256 + 0x7f) result }
{
    match shown {
        CLONE => Some(Status::Clone),
        EXEC => Some(Status::Exec),
        EXIT => Some(Status::Exit),
        _ if shown >> 8 == EVENT_STOP => Some(Status::EventStop(stop_sig(shown & 0xff)?)),
        _ => Some(Status::Stopped(signal_of(shown)?)),
    }
}

/// What an event stop with a signal of this number shows.
fn stop_sig(number: u32) -> Option<StopSig>
    ensures { MatchOption result ((s : StopSig) → stop_number s ≢ number)
        (λ s. stop_number s ≡ number) }
{
    match number {
        5 => Some(StopSig::Trap),
        19 => Some(StopSig::Stop),
        20 => Some(StopSig::Tstp),
        21 => Some(StopSig::Ttin),
        22 => Some(StopSig::Ttou),
        _ => None,
    }
}

/// The signal of a number.
fn signal_of(number: u32) -> Option<Signal>
    ensures { SomeIff result (IsSignal number) number }
{
    Signal::new(u8::try_from(number).ok()?)
}
