ghost use Rattle.std.specs.Prelude.{◌≡◌, ◌++◌, [], OnOk, map};
ghost use Rattle.tr_status.specs.Texts.{texts};
ghost use Rattle.tr_reasons.specs.Sentences.{full_line, line_of, lines_of, named, quiet_line, signal_names, told};

use itoa::Buffer;
use std::alloc::AllocError;
use tr_model::Event;
use tr_scenario::Page;

/// What is told of an answer, and where its rule stands.
#[derive(Clone, Copy, Drop)]
pub struct Sentence {
    /// What it is about: an error, or a word of a reply.
    pub name: &'static str,
    pub before: &'static str,
    pub number: u32,
    /// The name of the signal of this number, if it is one.
    pub aside: &'static str,
    pub after: &'static str,
    /// The manual page, and its section.
    pub source: &'static str,
}

/// Appends the line of a sentence.
fn push_sentence(page: &mut Page, sentence: &Sentence) -> Result<(), AllocError>
    ensures { OnOk result (page.new ≡ page.old ++ line_of sentence.now) }
{
    let mut digits = Buffer::new();
    let pieces: [&[u8]; 10] = [
        b"  ",
        sentence.name.as_bytes(),
        b": ",
        sentence.before.as_bytes(),
        digits.format(sentence.number).as_bytes(),
        sentence.aside.as_bytes(),
        sentence.after.as_bytes(),
        b"; ",
        sentence.source.as_bytes(),
        b"\n",
    ];
    push_pieces(page, &pieces)
}

/// Appends pieces, one after the other.
fn push_pieces(page: &mut Page, pieces: &[&[u8]]) -> Result<(), AllocError>
    ensures { OnOk result (page.new ≡ page.old ++ texts (map (λ p. p.now) pieces.now)) }
{
    for piece in pieces {
        page.push(piece)?;
    }
    Ok(())
}

/// Appends the line of a sentence, where there is one.
pub(crate) fn push_lines(page: &mut Page, sentence: &Option<Sentence>) -> Result<(), AllocError>
    ensures { OnOk result (page.new ≡ page.old ++ lines_of sentence.now) }
{
    match sentence {
        Some(sentence) => push_sentence(page, sentence),
        None => Ok(()),
    }
}

/// Gives the names of the standard signals by their numbers.
fn names() -> &'static [&'static str]
    ensures { map (λ n. n.now) result.now ≡ signal_names }
{
    &[
        "",
        " (SIGHUP)",
        " (SIGINT)",
        " (SIGQUIT)",
        " (SIGILL)",
        " (SIGTRAP)",
        " (SIGABRT)",
        " (SIGBUS)",
        " (SIGFPE)",
        " (SIGKILL)",
        " (SIGUSR1)",
        " (SIGSEGV)",
        " (SIGUSR2)",
        " (SIGPIPE)",
        " (SIGALRM)",
        " (SIGTERM)",
        " (SIGSTKFLT)",
        " (SIGCHLD)",
        " (SIGCONT)",
        " (SIGSTOP)",
        " (SIGTSTP)",
        " (SIGTTIN)",
        " (SIGTTOU)",
        " (SIGURG)",
        " (SIGXCPU)",
        " (SIGXFSZ)",
        " (SIGVTALRM)",
        " (SIGPROF)",
        " (SIGWINCH)",
        " (SIGIO)",
        " (SIGPWR)",
        " (SIGSYS)",
    ]
}

/// Gives a standard signal's name in parentheses, and nothing for another number.
fn named(sig: u8) -> &'static str
    ensures { result.now ≡ named sig }
{
    match names().get(sig as usize) {
        Some(name) => name,
        None => "",
    }
}

/// Makes a sentence that names no signal.
pub(crate) fn plain(
    name: &'static str,
    before: &'static str,
    number: u32,
    after: &'static str,
    source: &'static str,
) -> Sentence
    ensures { line_of result ≡ told name.now before.now number [] after.now source.now }
{
    Sentence {
        name,
        before,
        number,
        aside: "",
        after,
        source,
    }
}

/// Makes a sentence on a signal.
pub(crate) fn by_signal(
    name: &'static str,
    before: &'static str,
    sig: u8,
    after: &'static str,
    source: &'static str,
) -> Sentence
    ensures { line_of result ≡ told name.now before.now sig (named sig) after.now source.now }
{
    Sentence {
        name,
        before,
        number: u32::from(sig),
        aside: named(sig),
        after,
        source,
    }
}

/// Tells that the journal takes no more.
pub(crate) fn full_sentence(entries: u32) -> Sentence
    ensures { line_of result ≡ full_line entries }
{
    plain(
        "JournalFull",
        "the journal has its ",
        entries,
        " entries",
        "this model's choice",
    )
}

/// Tells what an event that makes no entry finds.
pub(crate) fn quiet_sentence(actor: u32, event: &Event) -> Option<Sentence>
    ensures { lines_of result ≡ quiet_line actor event.now }
{
    match event {
        Event::Kill { .. } => Some(plain(
            "exists",
            "signal ",
            0,
            " only asks whether the target is there",
            "kill(2), DESCRIPTION",
        )),
        Event::Tgkill { .. } => Some(plain(
            "exists",
            "signal ",
            0,
            " only asks whether the target is there",
            "kill(2), DESCRIPTION",
        )),
        Event::Sigqueue { .. } => Some(plain(
            "exists",
            "signal ",
            0,
            " only asks whether the target is there",
            "sigqueue(3), DESCRIPTION",
        )),
        Event::Take { tid } => Some(plain(
            "nothing",
            "no signal waits that thread ",
            *tid,
            " may take",
            "signal(7), \"Signal mask and pending signals\"",
        )),
        Event::TakeAny { tgid } => Some(plain(
            "nothing",
            "no thread of group ",
            *tgid,
            " may take what waits",
            "signal(7), \"Signal mask and pending signals\"",
        )),
        Event::EventMessage { tid } => Some(plain(
            "message",
            "it is that of the ptrace-stop of thread ",
            *tid,
            "",
            "ptrace(2), PTRACE_GETEVENTMSG",
        )),
        Event::SignalInfo { tid } => Some(plain(
            "info",
            "it is of the signal that the stop of thread ",
            *tid,
            " holds",
            "ptrace(2), PTRACE_GETSIGINFO",
        )),
        Event::TracerExit => Some(plain(
            "nothing",
            "actor ",
            actor,
            " traces no thread",
            "ptrace(2), \"Attaching and detaching\"",
        )),
        Event::Wait { .. } => Some(plain(
            "nothing",
            "no thread that actor ",
            actor,
            " traces and asks for has a report",
            "waitpid(2), WNOHANG",
        )),
        Event::StarterWait { .. } => Some(plain(
            "nothing",
            "no group that actor ",
            actor,
            " asks for has a report",
            "waitpid(2), WNOHANG",
        )),
        _ => None,
    }
}
