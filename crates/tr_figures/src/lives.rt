ghost use Rattle.std.specs.Prelude.{◌≡◌, ◌∷◌, ◌++◌, [], OnOk, decimal, false, map};
ghost use Rattle.tr_tracee.specs.declared.life.Life.TheVariants.{InStop};
ghost use Rattle.tr_figures.specs.declared.styles.Style.TheVariants.{Name};
ghost use Rattle.tr_figures.specs.Elements.{printed, words};
ghost use Rattle.tr_figures.specs.Lives.{end_words, group_words, life_words, signal_name, signal_names, style_of_group, style_of_life};

use crate::elements::push_words;
use crate::styles::Style;
use itoa::Buffer;
use std::alloc::AllocError;
use tr_group::GroupStop;
use tr_scenario::Page;
use tr_tracee::{End, Life, Stop};

/// Gives the names of signals by their numbers.
fn signal_names() -> &'static [&'static str]
    ensures { map (λ n. n.now) result.now ≡ signal_names }
{
    &[
        "0", "HUP", "INT", "QUIT", "ILL", "TRAP", "ABRT", "BUS", "FPE", "KILL", "USR1", "SEGV",
        "USR2", "PIPE", "ALRM", "TERM", "STKFLT", "CHLD", "CONT", "STOP", "TSTP", "TTIN", "TTOU",
        "URG", "XCPU", "XFSZ", "VTALRM", "PROF", "WINCH", "IO", "PWR", "SYS", "rt32", "rt33",
        "rt34", "rt35", "rt36", "rt37", "rt38", "rt39", "rt40", "rt41", "rt42", "rt43", "rt44",
        "rt45", "rt46", "rt47", "rt48", "rt49", "rt50", "rt51", "rt52", "rt53", "rt54", "rt55",
        "rt56", "rt57", "rt58", "rt59", "rt60", "rt61", "rt62", "rt63", "rt64",
    ]
}

/// Gives the name of a signal, or says that the number is none.
pub(crate) fn signal_name(sig: u8) -> &'static str
    ensures { result.now ≡ signal_name sig }
{
    match signal_names().get(sig as usize) {
        Some(name) => name,
        None => "no signal",
    }
}

/// Gives the class of a thread's block.
pub(crate) fn style_of_life(pausing: bool, life: &Life) -> Style
    ensures { result ≡ style_of_life pausing life.now }
{
    match life {
        Life::Free if pausing => Style::Pausing,
        Life::Free => Style::Running,
        Life::Stopped => Style::Stopped,
        Life::InStop(Stop::Signal { .. }) => Style::SignalStop,
        Life::InStop(Stop::Group(_)) => Style::GroupStop,
        Life::InStop(Stop::Clone(_) | Stop::Exec(_) | Stop::Event(_)) => Style::EventStop,
        Life::InStop(Stop::Exit(_)) => Style::ExitStop,
        Life::Listening => Style::Listening,
        Life::Leaving { .. } => Style::Leaving,
        Life::Dead(_) => Style::Dead,
        Life::Execing => Style::Execing,
    }
}

/// Gives the class of a group's block.
pub(crate) fn style_of_group(end: Option<End>, stop: GroupStop) -> Style
    ensures { result ≡ style_of_group end stop }
{
    match (end, stop) {
        (Some(_), _) => Style::Leaving,
        (None, GroupStop::No) => Style::NoStop,
        (None, GroupStop::Stopping(_)) => Style::Stopping,
        (None, GroupStop::Stopped(_)) => Style::Stopped,
    }
}

/// Appends a word, and a number after it, at a place in a block.
fn push_number(page: &mut Page, x: u64, word: &[u8], number: u64) -> Result<(), AllocError>
    ensures { OnOk result (page.new
        ≡ page.old ++ printed (words Name x 30 (word.now ∷ decimal number ∷ []))) }
{
    let mut digits = Buffer::new();
    push_words(
        page,
        Style::Name,
        x,
        30,
        &[word, digits.format(number).as_bytes()],
    )
}

/// Appends a word, and the name of a signal after it, at a place in a block.
fn push_signal(page: &mut Page, x: u64, word: &'static [u8], sig: u8) -> Result<(), AllocError>
    ensures { OnOk result (page.new
        ≡ page.old ++ printed (words Name x 30 (word.now ∷ signal_name sig ∷ []))) }
{
    let pieces: [&[u8]; 2] = [word, signal_name(sig).as_bytes()];
    push_words(page, Style::Name, x, 30, &pieces)
}

/// Appends a word at a place in a block.
fn push_word(page: &mut Page, x: u64, word: &[u8]) -> Result<(), AllocError>
    ensures { OnOk result (page.new
        ≡ page.old ++ printed (words Name x 30 (word.now ∷ []))) }
{
    push_words(page, Style::Name, x, 30, &[word])
}

/// Appends how a thread or a group ends, after a word, at a place in its block.
fn push_end(page: &mut Page, x: u64, word: &'static [u8], end: &End) -> Result<(), AllocError>
    ensures { OnOk result
        (page.new ≡ page.old ++ printed (words Name x 30 (end_words word.now end.now))) }
{
    match end {
        End::Exited(code) => push_number(page, x, word, u64::from(*code)),
        End::Killed(signal) => push_signal(page, x, word, signal.number()),
    }
}

/// Appends the words of a ptrace-stop.
fn push_stop(page: &mut Page, x: u64, stop: &Stop) -> Result<(), AllocError>
    ensures { OnOk result (page.new
        ≡ page.old ++ printed (words Name x 30 (life_words false (InStop stop.now)))) }
{
    match stop {
        Stop::Signal { held, .. } => push_signal(page, x, b"signal ", held.sig.number()),
        Stop::Group(signal) => push_signal(page, x, b"group ", signal.number()),
        Stop::Clone(id) => push_number(page, x, b"clone ", u64::from(*id)),
        Stop::Exec(id) => push_number(page, x, b"exec ", u64::from(*id)),
        Stop::Exit(_) => push_word(page, x, b"exit stop"),
        Stop::Event(shown) => push_signal(page, x, b"event ", shown.number()),
    }
}

/// Appends what a thread is doing.
pub(crate) fn push_life(
    page: &mut Page,
    x: u64,
    pausing: bool,
    life: &Life,
) -> Result<(), AllocError>
    ensures { OnOk result (page.new
        ≡ page.old ++ printed (words Name x 30 (life_words pausing life.now))) }
{
    match life {
        Life::Free if pausing => push_word(page, x, b"pausing"),
        Life::Free => push_word(page, x, b"free"),
        Life::Stopped => push_word(page, x, b"stopped"),
        Life::InStop(stop) => push_stop(page, x, stop),
        Life::Listening => push_word(page, x, b"listening"),
        Life::Leaving { end, .. } => push_end(page, x, b"leaving ", end),
        Life::Dead(end) => push_end(page, x, b"dead ", end),
        Life::Execing => push_word(page, x, b"execing"),
    }
}

/// Appends what a group is doing.
pub(crate) fn push_group_words(
    page: &mut Page,
    x: u64,
    end: Option<End>,
    stop: GroupStop,
) -> Result<(), AllocError>
    ensures { OnOk result
        (page.new ≡ page.old ++ printed (words Name x 30 (group_words end stop))) }
{
    match end {
        Some(end) => push_end(page, x, b"dying ", &end),
        None => match stop {
            GroupStop::No => push_word(page, x, b"no stop"),
            GroupStop::Stopping(signal) => push_signal(page, x, b"stopping ", signal.number()),
            GroupStop::Stopped(signal) => push_signal(page, x, b"stopped ", signal.number()),
        },
    }
}
