ghost use Rattle.std.specs.Prelude.{◌≡◌};
ghost use Rattle.tr_hub.specs.Seats.{event_of};

use tr_model::Event;
use tr_wait::{WaitFlags, Which};

/// A wait for a report: waitpid(2).
#[derive(Clone, Copy, Debug, PartialEq, Eq)]
pub enum WaitCall {
    /// A tracer's, for its tracees.
    Tracer(Which),
    /// The starter's, for the groups.
    Starter(Which, WaitFlags),
}

impl WaitCall {
    /// The event of one try.
    pub fn event(self) -> Event
        ensures { result ≡ event_of self }
    {
        match self {
            WaitCall::Tracer(which) => Event::Wait { which },
            WaitCall::Starter(which, flags) => Event::StarterWait { which, flags },
        }
    }
}
