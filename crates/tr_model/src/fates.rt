/// What has become of an accepted signal.
#[derive(Clone, Copy, Debug, PartialEq, Eq)]
pub enum Fate {
    /// It waits in a queue, or a signal-delivery-stop holds it.
    Pending,
    /// A standard signal of its number waited already.
    Merged,
    /// A thread acted on it, or it is a KILL that took effect at once.
    Delivered,
    /// Its tracer restarted the thread without it.
    Suppressed,
    /// It was thrown away.
    Flushed,
}

/// An instance that a step ended, and how. The fate is never `Pending`.
#[derive(Clone, Copy, Debug, PartialEq, Eq)]
pub struct Ending {
    pub number: u64,
    pub fate: Fate,
}

/// How many of the accepted signals have each fate.
#[derive(Clone, Copy, Debug, PartialEq, Eq)]
pub struct Totals {
    /// All accepted signals: the sum of the five others.
    pub accepted: u64,
    /// Those that wait in a queue, or are held by a signal-delivery-stop.
    pub pending: u64,
    /// Those that found a standard signal of their number waiting.
    pub merged: u64,
    /// Those that a thread acted on, and KILLs that took effect at once.
    pub delivered: u64,
    /// Those without which a tracer restarted the thread that held them.
    pub suppressed: u64,
    /// Those that were thrown away.
    pub flushed: u64,
}
