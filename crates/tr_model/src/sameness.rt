ghost use Rattle.std.specs.Prelude.{◌≡◌, ◌↔◌, IsTrue};

use crate::events::Event;
use crate::replies::Reply;
use tr_pending::{Info, Instance};
use tr_sigset::Signal;
use tr_tracee::Options;
use tr_wait::{WaitFlags, Which};

/// Equality that contracts know. Of enums as long as `Event` a derived `==` tells them nothing.
pub trait Same {
    ghost use Rattle.std.specs.Prelude.{◌≡◌, ◌↔◌, IsTrue};

    fn same(&self, other: &Self) -> bool
        ensures { IsTrue result ↔ (self.now ≡ other.now) };
}

impl Same for Event {
    fn same(&self, other: &Event) -> bool {
        match self {
            Event::Kill { tgid, sig } => {
                matches!(other, Event::Kill { tgid: t, sig: s } if tgid == t && sig == s)
            }
            Event::Tgkill { tgid, tid, sig } => {
                matches!(other, Event::Tgkill { tgid: g, tid: t, sig: s } if tgid == g && tid == t && sig == s)
            }
            Event::Sigqueue { tgid, sig, value } => {
                matches!(other, Event::Sigqueue { tgid: g, sig: s, value: v } if tgid == g && sig == s && value == v)
            }
            Event::Mask { tid, set } => {
                matches!(other, Event::Mask { tid: t, set: s } if tid == t && set == s)
            }
            Event::SetAction { tid, sig, how } => {
                matches!(other, Event::SetAction { tid: t, sig: s, how: h } if tid == t && sig == s && how == h)
            }
            Event::Pause { tid } => matches!(other, Event::Pause { tid: t } if tid == t),
            Event::Take { tid } => matches!(other, Event::Take { tid: t } if tid == t),
            Event::TakeAny { tgid } => matches!(other, Event::TakeAny { tgid: t } if tgid == t),
            Event::Halt { tid } => matches!(other, Event::Halt { tid: t } if tid == t),
            Event::Trap { tid } => matches!(other, Event::Trap { tid: t } if tid == t),
            Event::Die { tid } => matches!(other, Event::Die { tid: t } if tid == t),
            Event::CloneThread { tid } => {
                matches!(other, Event::CloneThread { tid: t } if tid == t)
            }
            Event::Exec { tid } => matches!(other, Event::Exec { tid: t } if tid == t),
            Event::Finish { tid } => matches!(other, Event::Finish { tid: t } if tid == t),
            Event::Exit { tid, code } => {
                matches!(other, Event::Exit { tid: t, code: c } if tid == t && code == c)
            }
            Event::ExitGroup { tid, code } => {
                matches!(other, Event::ExitGroup { tid: t, code: c } if tid == t && code == c)
            }
            Event::Attach { tid } => matches!(other, Event::Attach { tid: t } if tid == t),
            Event::Seize { tid, options } => {
                matches!(other, Event::Seize { tid: t, options: o } if tid == t && options.same(o))
            }
            Event::Interrupt { tid } => matches!(other, Event::Interrupt { tid: t } if tid == t),
            Event::Cont { tid, sig } => {
                matches!(other, Event::Cont { tid: t, sig: s } if tid == t && sig == s)
            }
            Event::Listen { tid } => matches!(other, Event::Listen { tid: t } if tid == t),
            Event::Detach { tid, sig } => {
                matches!(other, Event::Detach { tid: t, sig: s } if tid == t && sig == s)
            }
            Event::SetOptions { tid, options } => {
                matches!(other, Event::SetOptions { tid: t, options: o } if tid == t && options.same(o))
            }
            Event::EventMessage { tid } => {
                matches!(other, Event::EventMessage { tid: t } if tid == t)
            }
            Event::SignalInfo { tid } => matches!(other, Event::SignalInfo { tid: t } if tid == t),
            Event::TracerExit => matches!(other, Event::TracerExit),
            Event::Wait { which } => matches!(other, Event::Wait { which: w } if which.same(w)),
            Event::StarterWait { which, flags } => {
                matches!(other, Event::StarterWait { which: w, flags: f } if which.same(w) && flags.same(f))
            }
        }
    }
}

impl Same for Options {
    fn same(&self, other: &Options) -> bool {
        self.clone == other.clone
            && self.exec == other.exec
            && self.exit == other.exit
            && self.exitkill == other.exitkill
    }
}

impl Same for Which {
    fn same(&self, other: &Which) -> bool {
        match self {
            Which::Any => matches!(other, Which::Any),
            Which::One(id) => matches!(other, Which::One(i) if id == i),
        }
    }
}

impl Same for WaitFlags {
    fn same(&self, other: &WaitFlags) -> bool {
        self.untraced == other.untraced && self.continued == other.continued
    }
}

impl Same for Reply {
    fn same(&self, other: &Reply) -> bool {
        match self {
            Reply::Done => matches!(other, Reply::Done),
            Reply::Exists => matches!(other, Reply::Exists),
            Reply::Nothing => matches!(other, Reply::Nothing),
            Reply::Sent { n, fate } => {
                matches!(other, Reply::Sent { n: m, fate: f } if n == m && fate == f)
            }
            Reply::Took { tid, inst, did } => {
                matches!(other, Reply::Took { tid: t, inst: i, did: d } if tid == t && inst.same(i) && did == d)
            }
            Reply::Cloned { tid } => matches!(other, Reply::Cloned { tid: t } if tid == t),
            Reply::Waited { id, word, report } => {
                matches!(other, Reply::Waited { id: i, word: w, report: r } if id == i && word == w && report == r)
            }
            Reply::Message { value } => {
                matches!(other, Reply::Message { value: v } if value == v)
            }
            Reply::Signal { sig, info } => {
                matches!(other, Reply::Signal { sig: s, info: i } if sig.same(s) && info.same(i))
            }
        }
    }
}

impl Same for Signal {
    fn same(&self, other: &Signal) -> bool {
        self.number() == other.number()
    }
}

impl Same for Info {
    fn same(&self, other: &Info) -> bool {
        self.code == other.code && self.pid == other.pid && self.value == other.value
    }
}

impl Same for Instance {
    fn same(&self, other: &Instance) -> bool {
        self.n == other.n && self.sig.same(&other.sig) && self.info.same(&other.info)
    }
}
