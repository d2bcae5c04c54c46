use tr_group::{Action, GroupStop};
use tr_pending::Instance;
use tr_tracee::{End, Report};

/// Whose queue: a thread's own, or a group's shared one.
#[derive(Clone, Copy, Debug, PartialEq, Eq, Hash)]
pub enum Target {
    /// The own queue of the thread with this id: tgkill(2).
    Thread(u32),
    /// The shared queue of the group with this id: kill(2).
    Group(u32),
}

/// An instance in a queue.
#[derive(Clone, Copy, Debug, PartialEq, Eq)]
pub struct Waiting {
    /// What waits.
    pub instance: Instance,
    /// In whose queue it waits.
    pub target: Target,
}

/// The name of a group's program: its first `len` bytes, 1 to 15; the others are 0.
#[derive(Clone, Copy, Debug, PartialEq, Eq)]
pub struct Name {
    pub bytes: [u8; 15],
    pub len: u8,
}

/// The record of a thread group.
#[derive(Clone, Copy, Debug, PartialEq, Eq)]
pub struct Group {
    /// Its leader's id.
    pub tgid: u32,
    pub name: Name,
    /// The actions of signals 1 to 64.
    pub actions: [Action; 64],
    /// Its group-stop, if one is in effect: ptrace(2).
    pub group_stop: GroupStop,
    /// How it ends, once it is dying.
    pub end: Option<End>,
    /// Its note for the starter: that it stopped, or continued.
    pub note: Option<Report>,
}
