ghost use Rattle.std.specs.Prelude.{◌≡◌, ◌≢◌};
ghost use Rattle.tr_reading.specs.declared.faults.ScenarioFault.TheVariants as scenario;
ghost use Rattle.tracebox.specs.declared.faults.Fault.TheVariants.{Scenario, Usage};
ghost use Rattle.tracebox.specs.Faults.{fault_name, fault_status};

use std::alloc::AllocError;
use std::io::ErrorKind;
use tr_reading::ScenarioFault;
use tr_status::Failed;

/// Why the program didn't do what it was asked for.
#[derive(Clone, Copy, Debug, PartialEq, Eq)]
pub enum Fault {
    /// The command line isn't one that the program takes.
    Usage,
    /// No status has the word.
    NotAWord,
    /// The scenario is refused, or memory or a device.
    Scenario(ScenarioFault),
}

impl From<ScenarioFault> for Fault {
    ghost from_gives = { λ fault e. e ≡ Scenario fault };

    fn from(fault: ScenarioFault) -> Fault {
        Fault::Scenario(fault)
    }
}

impl From<Failed> for Fault {
    ghost from_gives = { λ _ e. e ≡ Scenario scenario.WriteFault };

    fn from(_failed: Failed) -> Fault {
        Fault::Scenario(ScenarioFault::WriteFault)
    }
}

impl From<AllocError> for Fault {
    ghost from_gives = { λ _ e. e ≡ Scenario scenario.NoMemory };

    fn from(_error: AllocError) -> Fault {
        Fault::Scenario(ScenarioFault::NoMemory)
    }
}

impl Fault {
    /// The name by which the program tells it.
    pub fn name(self) -> &'static str
        ensures { result.now ≡ fault_name self }
    {
        match self {
            Fault::Usage => "Usage",
            Fault::NotAWord => "NotAWord",
            Fault::Scenario(fault) => fault.name(),
        }
    }

    /// The exit status: 1 for refused input and what doesn't settle, 2 for a command line, 3 for memory or a device.
    pub fn status(self) -> u8
        ensures { result ≡ fault_status self }
    {
        match self {
            Fault::Usage => 2,
            Fault::Scenario(
                ScenarioFault::NoMemory | ScenarioFault::ReadFault | ScenarioFault::WriteFault,
            ) => 3,
            Fault::NotAWord | Fault::Scenario(_) => 1,
        }
    }
}

/// Why the words of a command line can't be had.
pub(crate) fn words_fault(kind: ErrorKind) -> Fault
    ensures memory { kind ≡ ErrorKind.OutOfMemory → result ≡ Scenario scenario.NoMemory }
    ensures usage { kind ≢ ErrorKind.OutOfMemory → result ≡ Usage }
{
    match kind {
        ErrorKind::OutOfMemory => Fault::Scenario(ScenarioFault::NoMemory),
        _ => Fault::Usage,
    }
}
