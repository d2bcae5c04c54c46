ghost use Rattle.std.specs.Prelude.{◌≡◌, ◌↔◌, IsTrue};

use crate::rows::{Group, Name, Target, Waiting};
use crate::sameness::Same;
use tr_group::{Action, GroupStop};
use tr_tracee::{End, Life, Report, Stop, Thread, Trace};
use tr_wait::Status;

// Equality of a table's rows.

impl<T: Same> Same for Option<T> {
    fn same(&self, other: &Option<T>) -> bool {
        match self {
            Some(value) => matches!(other, Some(v) if value.same(v)),
            None => other.is_none(),
        }
    }
}

impl Same for Status {
    fn same(&self, other: &Status) -> bool {
        match self {
            Status::Exited(code) => matches!(other, Status::Exited(c) if code == c),
            Status::Killed(signal) => matches!(other, Status::Killed(s) if signal.same(s)),
            Status::Stopped(signal) => matches!(other, Status::Stopped(s) if signal.same(s)),
            Status::Clone => matches!(other, Status::Clone),
            Status::Exec => matches!(other, Status::Exec),
            Status::Exit => matches!(other, Status::Exit),
            Status::EventStop(shown) => matches!(other, Status::EventStop(s) if shown == s),
            Status::Continued => matches!(other, Status::Continued),
        }
    }
}

impl Same for End {
    fn same(&self, other: &End) -> bool {
        match self {
            End::Exited(code) => matches!(other, End::Exited(c) if code == c),
            End::Killed(signal) => matches!(other, End::Killed(s) if signal.same(s)),
        }
    }
}

impl Same for Stop {
    fn same(&self, other: &Stop) -> bool {
        match self {
            Stop::Signal { held, cont_came } => {
                matches!(other, Stop::Signal { held: h, cont_came: c } if cont_came == c && held.same(h))
            }
            Stop::Group(signal) => matches!(other, Stop::Group(s) if signal.same(s)),
            Stop::Clone(id) => matches!(other, Stop::Clone(i) if id == i),
            Stop::Exec(id) => matches!(other, Stop::Exec(i) if id == i),
            Stop::Exit(word) => matches!(other, Stop::Exit(w) if word == w),
            Stop::Event(shown) => matches!(other, Stop::Event(s) if shown == s),
        }
    }
}

impl Same for Life {
    fn same(&self, other: &Life) -> bool {
        match self {
            Life::Free => matches!(other, Life::Free),
            Life::Stopped => matches!(other, Life::Stopped),
            Life::InStop(stop) => matches!(other, Life::InStop(s) if stop.same(s)),
            Life::Listening => matches!(other, Life::Listening),
            Life::Leaving { end, told } => {
                matches!(other, Life::Leaving { end: e, told: t } if told == t && end.same(e))
            }
            Life::Dead(end) => matches!(other, Life::Dead(e) if end.same(e)),
            Life::Execing => matches!(other, Life::Execing),
        }
    }
}

impl Same for Trace {
    fn same(&self, other: &Trace) -> bool {
        self.tracer == other.tracer
            && self.seized == other.seized
            && self.options.same(&other.options)
    }
}

impl Same for Report {
    fn same(&self, other: &Report) -> bool {
        self.number == other.number && self.status.same(&other.status)
    }
}

/// Whether two threads have one id, group and mask, and pause alike.
fn same_place(thread: &Thread, other: &Thread) -> bool
    ensures { IsTrue result
        ↔ ((thread.now.id ≡ other.now.id)
        × (thread.now.group ≡ other.now.group)
        × (thread.now.mask ≡ other.now.mask)
        × (thread.now.pausing ≡ other.now.pausing)) }
{
    thread.id == other.id
        && thread.group == other.group
        && thread.mask == other.mask
        && thread.pausing == other.pausing
}

/// Whether two threads have the same to serve.
fn same_marks(thread: &Thread, other: &Thread) -> bool
    ensures { IsTrue result
        ↔ ((thread.now.stop_mark ≡ other.now.stop_mark)
        × (thread.now.trap_mark ≡ other.now.trap_mark)
        × (thread.now.note_mark ≡ other.now.note_mark)
        × (thread.now.joined ≡ other.now.joined)) }
{
    thread.stop_mark == other.stop_mark
        && thread.trap_mark == other.trap_mark
        && thread.note_mark == other.note_mark
        && thread.joined == other.joined
}

impl Same for Thread {
    fn same(&self, other: &Thread) -> bool {
        same_place(self, other)
            && same_marks(self, other)
            && self.life.same(&other.life)
            && self.report.same(&other.report)
            && self.trace.same(&other.trace)
    }
}

impl Same for GroupStop {
    fn same(&self, other: &GroupStop) -> bool {
        match self {
            GroupStop::No => matches!(other, GroupStop::No),
            GroupStop::Stopping(signal) => {
                matches!(other, GroupStop::Stopping(s) if signal.same(s))
            }
            GroupStop::Stopped(signal) => matches!(other, GroupStop::Stopped(s) if signal.same(s)),
        }
    }
}

impl Same for Action {
    fn same(&self, other: &Action) -> bool {
        self == other
    }
}

impl Same for Name {
    fn same(&self, other: &Name) -> bool {
        self.len == other.len && self.bytes == other.bytes
    }
}

impl Same for Group {
    fn same(&self, other: &Group) -> bool {
        self.tgid == other.tgid
            && self.group_stop.same(&other.group_stop)
            && self.end.same(&other.end)
            && self.note.same(&other.note)
            && self.name.same(&other.name)
            && same_list(&self.actions, &other.actions)
    }
}

impl Same for Target {
    fn same(&self, other: &Target) -> bool {
        match self {
            Target::Thread(id) => matches!(other, Target::Thread(i) if id == i),
            Target::Group(id) => matches!(other, Target::Group(i) if id == i),
        }
    }
}

impl Same for Waiting {
    fn same(&self, other: &Waiting) -> bool {
        self.instance.same(&other.instance) && self.target.same(&other.target)
    }
}

/// Whether two lists have the same items, in the same order.
pub fn same_list<T: Same>(list: &[T], other: &[T]) -> bool
    ensures { IsTrue result ↔ (list.now ≡ other.now) }
{
    if list.len() != other.len() {
        return false;
    }
    for (at, item) in list.iter().enumerate() {
        if !item.same(&other[at]) {
            return false;
        }
    }
    true
}
