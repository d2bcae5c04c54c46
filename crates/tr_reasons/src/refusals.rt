ghost use Rattle.std.specs.Prelude.{◌≡◌, [], codes};
ghost use Rattle.tr_reasons.specs.Reasons.{refusal_of};
ghost use Rattle.tr_reasons.specs.Sentences.{errors_page, line_of, queue_page, reason_line, refusal_name, told};

use crate::reasons::{Reason, refusal_of};
use crate::sentences::{Sentence, by_signal, plain};
use tr_model::{Event, Refusal};

/// Gives the name of a refusal.
fn refusal_name(why: Refusal) -> &'static str
    ensures { result.now ≡ refusal_name why }
{
    match why {
        Refusal::Perm => "EPERM",
        Refusal::Srch => "ESRCH",
        Refusal::Io => "EIO",
        Refusal::Child => "ECHILD",
        Refusal::Again => "EAGAIN",
        Refusal::NoMemory => "ENOMEM",
        Refusal::Inval => "EINVAL",
        Refusal::Busy => "Busy",
        Refusal::NotDue => "NotDue",
        Refusal::NotRunning => "NotRunning",
        Refusal::Unmodelled => "Unmodelled",
        Refusal::ThreadedExec => "ThreadedExec",
        Refusal::JournalFull => "JournalFull",
    }
}

/// Gives the page that has the errors of an event.
fn errors_page(event: &Event) -> &'static str
    ensures { result.now ≡ errors_page event.now }
{
    match event {
        Event::Kill { .. } => "kill(2), ERRORS",
        Event::Tgkill { .. } => "tgkill(2), ERRORS",
        Event::Sigqueue { .. } => "sigqueue(3), ERRORS",
        Event::Attach { .. }
        | Event::Seize { .. }
        | Event::Interrupt { .. }
        | Event::Cont { .. }
        | Event::Listen { .. }
        | Event::Detach { .. }
        | Event::SetOptions { .. }
        | Event::EventMessage { .. }
        | Event::SignalInfo { .. } => "ptrace(2), ERRORS",
        _ => "this model's choice",
    }
}

/// Gives the page that lets an event meet a full queue.
fn queue_page(event: &Event) -> &'static str
    ensures { result.now ≡ queue_page event.now }
{
    match event {
        Event::Kill { .. } => "this model's choice",
        _ => errors_page(event),
    }
}

/// Makes a sentence on a reason, with a number.
fn because(
    reason: Reason,
    before: &'static str,
    number: u32,
    after: &'static str,
    source: &'static str,
) -> Sentence
    ensures { line_of result ≡ told (refusal_name (refusal_of reason)) before.now number [] after.now
        source.now }
{
    plain(
        refusal_name(refusal_of(reason)),
        before,
        number,
        after,
        source,
    )
}

/// Makes a sentence on a number that is no signal.
fn above_all_signals(reason: Reason, sig: u8, source: &'static str) -> Sentence
    ensures { line_of result ≡ told (refusal_name (refusal_of reason)) [] sig []
        (codes " is above 64, the greatest signal") source.now }
{
    because(
        reason,
        "",
        u32::from(sig),
        " is above 64, the greatest signal",
        source,
    )
}

/// Tells why an event is refused.
pub(crate) fn reason_sentence(event: &Event, reason: Reason) -> Sentence
    ensures { line_of result ≡ reason_line event.now reason }
{
    match reason {
        Reason::NoThread(tid) => because(
            reason,
            "there is no thread ",
            tid,
            "",
            errors_page(event),
        ),
        Reason::NoGroup(tgid) => because(
            reason,
            "there is no group ",
            tgid,
            "",
            errors_page(event),
        ),
        Reason::OfAnotherGroup(tid) => because(
            reason,
            "thread ",
            tid,
            " is of another group",
            errors_page(event),
        ),
        Reason::NoSignal(sig) => above_all_signals(reason, sig, errors_page(event)),
        Reason::QueueFull(limit) => because(
            reason,
            "as many signals wait as the queue limit says, ",
            limit,
            "",
            queue_page(event),
        ),
        Reason::NotRunning(tid) => because(
            reason,
            "thread ",
            tid,
            " doesn't run",
            "this model's choice",
        ),
        Reason::Pausing(tid) => because(
            reason,
            "thread ",
            tid,
            " waits in pause(2)",
            "pause(2), DESCRIPTION",
        ),
        Reason::HasMark(tid) => because(
            reason,
            "thread ",
            tid,
            " has a stop to make first",
            "this model's choice",
        ),
        Reason::MayTake(tid) => because(
            reason,
            "thread ",
            tid,
            " has a pending signal to take first",
            "signal(7), \"Execution of signal handlers\"",
        ),
        Reason::FixedAction(sig) => by_signal(
            refusal_name(Refusal::Inval),
            "the action of signal ",
            sig,
            " can't be set",
            "sigaction(2), ERRORS",
        ),
        Reason::TableFull => because(
            Reason::TableFull,
            "the table has its ",
            1024,
            " threads",
            "clone(2), ERRORS",
        ),
        Reason::GroupFull(tgid) => because(
            reason,
            "group ",
            tgid,
            " has its 64 threads",
            "clone(2), ERRORS",
        ),
        Reason::NoGroupStop(tid) => because(
            reason,
            "no group-stop asks thread ",
            tid,
            " to stop",
            "ptrace(2), \"Group-stop\"",
        ),
        Reason::NoTrap(tid) => because(
            reason,
            "neither an interrupt nor a SIGCONT asks thread ",
            tid,
            " to stop",
            "this model's choice",
        ),
        Reason::NotServing(tid) => because(
            reason,
            "thread ",
            tid,
            " neither runs nor listens",
            "ptrace(2), \"Stopped states\"",
        ),
        Reason::NotLeaving(tid) => because(
            reason,
            "thread ",
            tid,
            " isn't about to end",
            "ptrace(2), \"Death under ptrace\"",
        ),
        Reason::NotExecing(tid) => because(
            reason,
            "thread ",
            tid,
            " isn't in execve(2)",
            "ptrace(2), \"execve(2) under ptrace\"",
        ),
        Reason::OthersAlive(tid) => because(
            reason,
            "another thread of the group of thread ",
            tid,
            " isn't dead",
            "ptrace(2), \"execve(2) under ptrace\"",
        ),
        Reason::Traced(tid) => because(
            reason,
            "thread ",
            tid,
            " is traced already",
            "ptrace(2), ERRORS",
        ),
        Reason::Ended(tid) => because(
            reason,
            "thread ",
            tid,
            " has ended, or is about to",
            "ptrace(2), ERRORS",
        ),
        Reason::GroupEnding(tgid) => because(
            reason,
            "group ",
            tgid,
            " is about to end",
            "ptrace(2), ERRORS",
        ),
        Reason::NotTracee(tid) => because(
            reason,
            "thread ",
            tid,
            " isn't traced by the actor",
            "ptrace(2), ERRORS",
        ),
        Reason::TraceeEnded(tid) => because(
            reason,
            "thread ",
            tid,
            " has ended, or is about to",
            "ptrace(2), ERRORS",
        ),
        Reason::NotStopped(tid) => because(
            reason,
            "thread ",
            tid,
            " isn't in a ptrace-stop",
            "ptrace(2), ERRORS",
        ),
        Reason::NotSeized(tid) => because(
            reason,
            "thread ",
            tid,
            " was attached, and not seized",
            "ptrace(2), PTRACE_SEIZE",
        ),
        Reason::NoEventStop(tid) => because(
            reason,
            "thread ",
            tid,
            " isn't in PTRACE_EVENT_STOP",
            "this model's choice",
        ),
        Reason::NoRestartSignal(sig) => above_all_signals(reason, sig, "ptrace(2), ERRORS"),
        Reason::NoMessage(tid) => because(
            reason,
            "the ptrace-stop of thread ",
            tid,
            " has no message",
            "this model's choice",
        ),
        Reason::InGroupStop(tid) => because(
            reason,
            "thread ",
            tid,
            " is in a group-stop, which holds no signal",
            "ptrace(2), \"Group-stop\"",
        ),
        Reason::NoDelivery(tid) => because(
            reason,
            "thread ",
            tid,
            " isn't in a signal-delivery-stop",
            "this model's choice",
        ),
        Reason::NoTracee(actor) => because(
            reason,
            "actor ",
            actor,
            " traces no thread that the wait asks for",
            "waitpid(2), ERRORS",
        ),
        Reason::NotStarter(actor) => because(
            reason,
            "actor ",
            actor,
            " isn't the starter, actor 1",
            "waitpid(2), ERRORS",
        ),
        Reason::NoChild => because(
            Reason::NoChild,
            "the starter, actor ",
            1,
            ", has no group that the wait asks for",
            "waitpid(2), ERRORS",
        ),
    }
}
