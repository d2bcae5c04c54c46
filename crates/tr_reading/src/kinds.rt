ghost use Rattle.std.specs.Prelude.{◌≡◌, ◌≤◌, length, map};
ghost use Rattle.serde_json.specs.View.{view};
ghost use Rattle.tr_reading.specs.Fields.{Gives};
ghost use Rattle.tr_reading.specs.Kinds.{event_name, fields_of, kind_at, kind_name, kind_named, kind_of};

use crate::faults::ScenarioFault;
use crate::fields::text;
use serde_json::Value;
use tr_model::Event;

/// Which event a step is.
#[derive(Clone, Copy, Debug, PartialEq, Eq)]
pub enum Kind {
    /// "kill": kill(2).
    Kill,
    /// "tgkill": tgkill(2).
    Tgkill,
    /// "sigqueue": sigqueue(3).
    Sigqueue,
    /// "mask": sigprocmask(2).
    Mask,
    /// "action": sigaction(2).
    SetAction,
    /// "pause": pause(2).
    Pause,
    /// "take": the thread takes a pending signal.
    Take,
    /// "take_any": some thread of the group takes one.
    TakeAny,
    /// "halt": the thread stops for a group-stop.
    Halt,
    /// "trap": the tracee enters `PTRACE_EVENT_STOP`.
    Trap,
    /// "die": the leaving thread enters its exit stop, or dies.
    Die,
    /// "clone": clone(2) with `CLONE_THREAD`.
    CloneThread,
    /// "exec": execve(2), or its first part.
    Exec,
    /// "finish": execve(2) is done, the other threads being dead.
    Finish,
    /// "exit": _exit(2) of one thread.
    Exit,
    /// "exit_group": exit_group(2).
    ExitGroup,
    /// "attach": `PTRACE_ATTACH`.
    Attach,
    /// "seize": `PTRACE_SEIZE`.
    Seize,
    /// "interrupt": `PTRACE_INTERRUPT`.
    Interrupt,
    /// "cont": `PTRACE_CONT`.
    Cont,
    /// "listen": `PTRACE_LISTEN`.
    Listen,
    /// "detach": `PTRACE_DETACH`.
    Detach,
    /// "options": `PTRACE_SETOPTIONS`.
    SetOptions,
    /// "message": `PTRACE_GETEVENTMSG`.
    EventMessage,
    /// "siginfo": `PTRACE_GETSIGINFO`.
    SignalInfo,
    /// "tracer_exit": the actor ends, and leaves its tracees.
    TracerExit,
    /// "wait": waitpid(2) by a tracer.
    Wait,
    /// "starter_wait": waitpid(2) by the starter.
    StarterWait,
}

const KINDS: [Kind; 28] = [
    Kind::Kill,
    Kind::Tgkill,
    Kind::Sigqueue,
    Kind::Mask,
    Kind::SetAction,
    Kind::Pause,
    Kind::Take,
    Kind::TakeAny,
    Kind::Halt,
    Kind::Trap,
    Kind::Die,
    Kind::CloneThread,
    Kind::Exec,
    Kind::Finish,
    Kind::Exit,
    Kind::ExitGroup,
    Kind::Attach,
    Kind::Seize,
    Kind::Interrupt,
    Kind::Cont,
    Kind::Listen,
    Kind::Detach,
    Kind::SetOptions,
    Kind::EventMessage,
    Kind::SignalInfo,
    Kind::TracerExit,
    Kind::Wait,
    Kind::StarterWait,
];

/// The kind whose name stands at a key.
#[tactic(auto, unfolding(crate::specs::Kinds::kind_at))]
pub fn kind_at(object: &Value, key: &str) -> Result<Kind, ScenarioFault>
    ensures { Gives (λ k. k) result (kind_at key.now (view object.now)) }
{
    let text = text(object, key)?;
    match named(text) {
        Some(kind) => Ok(kind),
        None => Err(ScenarioFault::BadField),
    }
}

fn named(text: &str) -> Option<Kind>
    ensures { result ≡ kind_named text.now }
{
    KINDS.iter().copied().find(|kind| name(*kind) == text)
}

/// Its name in a scenario.
fn name(kind: Kind) -> &'static str
    ensures text { result.now ≡ kind_name kind }
    ensures short { length result.now ≤ 12 }
{
    match kind {
        Kind::Kill => "kill",
        Kind::Tgkill => "tgkill",
        Kind::Sigqueue => "sigqueue",
        Kind::Mask => "mask",
        Kind::SetAction => "action",
        Kind::Pause => "pause",
        Kind::Take => "take",
        Kind::TakeAny => "take_any",
        Kind::Halt => "halt",
        Kind::Trap => "trap",
        Kind::Die => "die",
        Kind::CloneThread => "clone",
        Kind::Exec => "exec",
        Kind::Finish => "finish",
        Kind::Exit => "exit",
        Kind::ExitGroup => "exit_group",
        Kind::Attach => "attach",
        Kind::Seize => "seize",
        Kind::Interrupt => "interrupt",
        Kind::Cont => "cont",
        Kind::Listen => "listen",
        Kind::Detach => "detach",
        Kind::SetOptions => "options",
        Kind::EventMessage => "message",
        Kind::SignalInfo => "siginfo",
        Kind::TracerExit => "tracer_exit",
        Kind::Wait => "wait",
        Kind::StarterWait => "starter_wait",
    }
}

/// The name that an event is read by and printed by.
pub fn event_name(event: &Event) -> &'static str
    ensures text { result.now ≡ event_name event.now }
    ensures short { length result.now ≤ 12 }
{
    name(kind_of(event))
}

fn kind_of(event: &Event) -> Kind
    ensures { result ≡ kind_of event.now }
{
    match event {
        Event::Kill { .. } => Kind::Kill,
        Event::Tgkill { .. } => Kind::Tgkill,
        Event::Sigqueue { .. } => Kind::Sigqueue,
        Event::Mask { .. } => Kind::Mask,
        Event::SetAction { .. } => Kind::SetAction,
        Event::Pause { .. } => Kind::Pause,
        Event::Take { .. } => Kind::Take,
        Event::TakeAny { .. } => Kind::TakeAny,
        Event::Halt { .. } => Kind::Halt,
        Event::Trap { .. } => Kind::Trap,
        Event::Die { .. } => Kind::Die,
        Event::CloneThread { .. } => Kind::CloneThread,
        Event::Exec { .. } => Kind::Exec,
        Event::Finish { .. } => Kind::Finish,
        Event::Exit { .. } => Kind::Exit,
        Event::ExitGroup { .. } => Kind::ExitGroup,
        Event::Attach { .. } => Kind::Attach,
        Event::Seize { .. } => Kind::Seize,
        Event::Interrupt { .. } => Kind::Interrupt,
        Event::Cont { .. } => Kind::Cont,
        Event::Listen { .. } => Kind::Listen,
        Event::Detach { .. } => Kind::Detach,
        Event::SetOptions { .. } => Kind::SetOptions,
        Event::EventMessage { .. } => Kind::EventMessage,
        Event::SignalInfo { .. } => Kind::SignalInfo,
        Event::TracerExit => Kind::TracerExit,
        Event::Wait { .. } => Kind::Wait,
        Event::StarterWait { .. } => Kind::StarterWait,
    }
}

/// Gives the fields of an event of this kind.
pub fn fields_of(kind: Kind) -> &'static [&'static str]
    ensures { map (λ n. n.now) result.now ≡ fields_of kind }
{
    match kind {
        Kind::Kill => &["tgid", "sig"],
        Kind::Tgkill => &["tgid", "tid", "sig"],
        Kind::Sigqueue => &["tgid", "sig", "value"],
        Kind::Mask => &["tid", "set"],
        Kind::SetAction => &["tid", "sig", "how"],
        Kind::Pause
        | Kind::Take
        | Kind::Halt
        | Kind::Trap
        | Kind::Die
        | Kind::CloneThread
        | Kind::Exec
        | Kind::Finish
        | Kind::Attach
        | Kind::Interrupt
        | Kind::Listen
        | Kind::EventMessage
        | Kind::SignalInfo
        | Kind::Wait => &["tid"],
        Kind::TakeAny => &["tgid"],
        Kind::Exit | Kind::ExitGroup => &["tid", "code"],
        Kind::Seize | Kind::SetOptions => &["tid", "options"],
        Kind::Cont | Kind::Detach => &["tid", "sig"],
        Kind::TracerExit => &[],
        Kind::StarterWait => &["tgid", "untraced", "continued"],
    }
}
