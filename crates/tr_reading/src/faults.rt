ghost use Rattle.std.specs.Prelude.{◌≡◌, ◌≤◌, length};
ghost use Rattle.tr_reading.specs.declared.faults.ScenarioFault.TheVariants.{NoMemory};

use std::alloc::{AllocError, AllocFailed};
use thiserror::Error;

/// Why a scenario was not read, or not run to its end. It is shown by its name.
#[derive(Clone, Copy, Debug, PartialEq, Eq, Error)]
pub enum ScenarioFault {
    /// The text isn't JSON or isn't UTF-8.
    #[error("NotJson")]
    NotJson,
    /// A key is missing or unknown, or its value is of the wrong kind or out of range.
    #[error("BadField")]
    BadField,
    /// A whole number stands where a signal is wanted, and isn't 1 to 64.
    #[error("BadSignal")]
    BadSignal,
    /// There are too many bytes, steps, items and ops, or calls.
    #[error("TooLarge")]
    TooLarge,
    /// Two threads have one id, a group has two actions of one signal, or two workers are of one actor.
    #[error("Repeated")]
    Repeated,
    /// No kernel can start so.
    #[error("BadStart")]
    BadStart,
    /// The run's entries don't settle with what the workers were told.
    #[error("Unsettled")]
    Unsettled,
    /// Memory was refused.
    #[error("NoMemory")]
    NoMemory,
    /// The reader failed.
    #[error("ReadFault")]
    ReadFault,
    /// The writer failed.
    #[error("WriteFault")]
    WriteFault,
}

impl ScenarioFault {
    ghost use Rattle.tr_reading.specs.Faults.{scenario_fault_name};

    /// Gives the name by which it is told.
    pub fn name(self) -> &'static str
        ensures name { result.now ≡ scenario_fault_name self }
        ensures short { length result.now ≤ 10 }
    {
        match self {
            ScenarioFault::NotJson => "NotJson",
            ScenarioFault::BadField => "BadField",
            ScenarioFault::BadSignal => "BadSignal",
            ScenarioFault::TooLarge => "TooLarge",
            ScenarioFault::Repeated => "Repeated",
            ScenarioFault::BadStart => "BadStart",
            ScenarioFault::Unsettled => "Unsettled",
            ScenarioFault::NoMemory => "NoMemory",
            ScenarioFault::ReadFault => "ReadFault",
            ScenarioFault::WriteFault => "WriteFault",
        }
    }
}

impl From<AllocError> for ScenarioFault {
    ghost from_gives = { λ _ e. e ≡ NoMemory };

    fn from(_error: AllocError) -> ScenarioFault {
        ScenarioFault::NoMemory
    }
}

impl<T: Drop> From<AllocFailed<T>> for ScenarioFault {
    ghost from_gives = { λ _ e. e ≡ NoMemory };

    fn from(_error: AllocFailed<T>) -> ScenarioFault {
        ScenarioFault::NoMemory
    }
}
