use tr_wait::Status;

/// A report as a step raised it: on a thread, or as a note of a group.
#[derive(Clone, Copy, Debug, PartialEq, Eq)]
pub struct Raise {
    /// The report's number, counted over the whole kernel.
    pub number: u64,
    /// The tracer that may wait for it. None for the starter.
    pub whom: Option<u32>,
    /// The id of the thread or of the group.
    pub id: u32,
    pub status: Status,
}
