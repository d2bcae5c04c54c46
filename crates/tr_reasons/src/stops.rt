ghost use Rattle.std.specs.Prelude.{◌≡◌, option_copied};
ghost use Rattle.tr_reasons.specs.Sentences.{line_of, lines_of, ptrace_stop_line, stop_line, thread_line};

use crate::sentences::{Sentence, by_signal, plain};
use tr_tracee::{Life, Stop, Thread};

/// Tells of the ptrace-stop that a thread is in.
fn ptrace_stop_sentence(tid: u32, stop: &Stop) -> Sentence
    ensures { line_of result ≡ ptrace_stop_line tid stop.now }
{
    match stop {
        Stop::Signal { held, .. } => by_signal(
            "reported",
            "signal ",
            held.sig.number(),
            " waits at the tracer",
            "ptrace(2), \"Signal-delivery-stop\"",
        ),
        Stop::Group(signal) => by_signal(
            "stopped",
            "the tracer is told of the group-stop by signal ",
            signal.number(),
            "",
            "ptrace(2), \"Group-stop\"",
        ),
        Stop::Clone(new) => plain(
            "stopped",
            "PTRACE_EVENT_CLONE, with the new thread ",
            *new,
            "",
            "ptrace(2), \"PTRACE_EVENT stops\"",
        ),
        Stop::Exec(former) => plain(
            "stopped",
            "PTRACE_EVENT_EXEC, with the former id ",
            *former,
            "",
            "ptrace(2), \"PTRACE_EVENT stops\"",
        ),
        Stop::Exit(_) => plain(
            "stopped",
            "PTRACE_EVENT_EXIT of thread ",
            tid,
            "",
            "ptrace(2), \"PTRACE_EVENT stops\"",
        ),
        Stop::Event(shown) => by_signal(
            "stopped",
            "PTRACE_EVENT_STOP by signal ",
            shown.number(),
            "",
            "ptrace(2), \"PTRACE_EVENT stops\"",
        ),
    }
}

/// Tells of the stop that a thread is in, if it is in one.
fn stop_sentence(tid: u32, life: &Life) -> Option<Sentence>
    ensures { lines_of result ≡ stop_line tid life.now }
{
    match life {
        Life::InStop(stop) => Some(ptrace_stop_sentence(tid, stop)),
        Life::Stopped => Some(plain(
            "stopped",
            "thread ",
            tid,
            " stops with its group",
            "ptrace(2), \"Group-stop\"",
        )),
        _ => None,
    }
}

/// Tells of the stop of a thread, if there is one.
pub(crate) fn thread_sentence(thread: Option<&Thread>) -> Option<Sentence>
    ensures { lines_of result ≡ thread_line (option_copied thread.entry) }
{
    match thread {
        Some(thread) => stop_sentence(thread.id, &thread.life),
        None => None,
    }
}
