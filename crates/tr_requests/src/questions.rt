//! What a tracer asks at a ptrace-stop: `PTRACE_GETEVENTMSG` and `PTRACE_GETSIGINFO` of ptrace(2). Neither makes an entry.

ghost use Rattle.std.specs.Prelude.{◌≡◌};
ghost use Rattle.tr_model.specs.declared.events.Event.TheVariants.{EventMessage, SignalInfo};
ghost use Rattle.tr_model.specs.Preferred.{check};

use crate::tracing::stopped;
use tr_model::{Checked, Refusal, Reply};
use tr_table::Table;
use tr_tracee::{Life, Stop};

/// What a tracer's question for a stop's message is answered: ESRCH where the thread isn't a tracee of the actor in a
/// ptrace-stop, then Unmodelled at a stop that has no message, else the message: the new thread's id, the id before
/// execve(2), or the word of the end.
pub fn check_event_message(table: &Table, actor: u32, tid: u32) -> Result<Checked, Refusal>
    ensures { result ≡ check table.now.table actor (EventMessage tid) }
{
    let Some(thread) = table.find(tid) else {
        return Err(Refusal::Srch);
    };
    if let Some(why) = stopped(actor, thread) {
        return Err(why);
    }
    match thread.life.message() {
        Some(value) => Ok(Checked::Quiet(Reply::Message { value })),
        None => Err(Refusal::Unmodelled),
    }
}

/// What a tracer's question for the signal of a stop is answered: ESRCH where the thread isn't a tracee of the actor in a
/// ptrace-stop, then EINVAL at the group-stop of an attached tracee and Unmodelled at event stops, else the signal that
/// the signal-delivery-stop holds, with its information.
pub fn check_signal_info(table: &Table, actor: u32, tid: u32) -> Result<Checked, Refusal>
    ensures { result ≡ check table.now.table actor (SignalInfo tid) }
{
    let Some(thread) = table.find(tid) else {
        return Err(Refusal::Srch);
    };
    if let Some(why) = stopped(actor, thread) {
        return Err(why);
    }
    match &thread.life {
        Life::InStop(Stop::Signal { held, .. }) => Ok(Checked::Quiet(Reply::Signal {
            sig: held.sig,
            info: held.info,
        })),
        Life::InStop(Stop::Group(_)) => Err(Refusal::Inval),
        _ => Err(Refusal::Unmodelled),
    }
}
