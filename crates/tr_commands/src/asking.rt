ghost use Rattle.std.specs.Prelude.{◌≡◌, ◌⊎◌, ◌≤◌, IfOk, IfSome, map, option_and_then, option_map};
ghost use Rattle.clap.specs.Words.{first_of, found_of, kind_of, rows_of, subcommand_rows_of};
ghost use Rattle.tr_commands.specs.declared.asking.AskFault.TheVariants.{NoMemory};
ghost use Rattle.tr_commands.specs.Asks.{Answers, Blames, HasCount, answer_of, asked_by, count_value, fault_at, is_set, named, search_asked, turns_asked, word_asked};

use crate::commands::command;
use crate::numerals::{count, hexadecimal};
use clap::error::ErrorKind;
use clap::{ArgMatches, Error};
use std::alloc::{AllocError, Global};
use std::convert::AsStr;
use tr_wait::Word;

/// What a command line asks for.
#[derive(Clone, Copy, Debug, PartialEq, Eq)]
pub enum Ask {
    /// Run the scenario on standard input, one call after another.
    Serial,
    /// Run it by workers on threads, each with so many turns, 1 to 100,000,000.
    Threads(u64),
    /// Explore the schedules of its workers.
    Explore {
        /// Whether each call is made in every way that the model leaves open.
        free: bool,
        /// The most states, 1 to 100,000,000.
        states: u32,
    },
    /// Seek one end of them, and tell the calls of a schedule that leads there.
    Replay {
        /// The most states, 1 to 100,000,000.
        states: u32,
        /// The number of the end, 1 to 100,000,000.
        end: u32,
    },
    /// Run it as `Serial`, and tell why each call is answered so.
    Explain,
    /// Run it as `Serial`, and draw the run.
    Draw,
    /// Hold a dialogue: answer each line on standard input.
    Live,
    /// Compare the record on standard input with what the model admits.
    Compare,
    /// Tell the status of this word.
    Decode(Word),
}

/// Why a command line asks for nothing.
#[derive(Clone, Copy, Debug, PartialEq, Eq)]
pub enum AskFault {
    /// It wants help, or the program's version.
    Help,
    /// It isn't one that the program takes.
    Usage,
    /// Memory was refused.
    NoMemory,
}

/// A command line that asks for nothing.
#[derive(Drop)]
pub struct Declined {
    pub fault: AskFault,
    /// The help or the version that it wants; empty at another fault.
    pub text: String,
}

/// What the words of a command line ask for, of which the first is the program's name: `serial`; `threads`, with the
/// turns of each worker, 100,000 where none are given; `explore`, with the most states, 1,000,000 where none are given, and
/// either free or not, or the number of an end; `explain`; `draw`; `live`; `compare`; or `decode` and a word of 1 to 8 hexadecimal
/// digits of either case without a prefix. `Usage` for a word of another form, and for an end of free schedules. Where `clap` doesn't take the words, `Help` if they want help or the version, with that text,
/// else `Usage`. `NoMemory` where memory is refused, also to that text.
pub fn asked<'a, S: AsStr>(alloc: Global, words: &'a [S]) -> Result<Ask, Declined>
    ensures answers { Answers (map S.text words.entry.now) (answer_of result) }
    ensures blames { Blames (map S.text words.entry.now) (answer_of result) }
    ensures counts { IfOk result HasCount }
{
    let Ok(command) = command(alloc) else {
        return Err(without_text(alloc, AskFault::NoMemory));
    };
    match command.try_get_matches_from(words) {
        Ok(matches) => ask_of(alloc, &matches),
        Err(error) => Err(declined_by(alloc, &error)),
    }
}

fn without_text(alloc: Global, fault: AskFault) -> Declined
    ensures { result.fault ≡ fault }
{
    Declined {
        fault,
        text: String::new(alloc),
    }
}

/// What an error of `clap` comes to, with its text where that is help or the version.
fn declined_by(alloc: Global, error: &Error) -> Declined
    ensures { (result.fault ≡ NoMemory) ⊎ (result.fault ≡ fault_at (kind_of error.now)) }
{
    match fault_at(error.kind()) {
        AskFault::Help => match error.to_string(alloc) {
            Ok(text) => Declined {
                fault: AskFault::Help,
                text,
            },
            Err(AllocError) => without_text(alloc, AskFault::NoMemory),
        },
        fault => without_text(alloc, fault),
    }
}

fn fault_at(kind: ErrorKind) -> AskFault
    ensures { result ≡ fault_at kind }
{
    match kind {
        ErrorKind::OutOfMemory => AskFault::NoMemory,
        ErrorKind::DisplayHelp | ErrorKind::DisplayVersion => AskFault::Help,
        _ => AskFault::Usage,
    }
}

fn ask_of(alloc: Global, matches: &ArgMatches<'_>) -> Result<Ask, Declined>
    ensures asked { answer_of result ≡ asked_by (subcommand_rows_of matches.now) }
    ensures counts { IfOk result HasCount }
{
    match subcommand_ask(matches) {
        Ok(ask) => Ok(ask),
        Err(fault) => Err(without_text(alloc, fault)),
    }
}

fn subcommand_ask(matches: &ArgMatches<'_>) -> Result<Ask, AskFault>
    ensures asked { result ≡ asked_by (subcommand_rows_of matches.now) }
    ensures counts { IfOk result HasCount }
{
    match matches.subcommand() {
        Some((name, inner)) => named_ask(name, inner),
        None => Err(AskFault::Usage),
    }
}

fn named_ask(name: &str, matches: &ArgMatches<'_>) -> Result<Ask, AskFault>
    ensures named { result ≡ named name.now (rows_of (found_of matches.now)) }
    ensures counts { IfOk result HasCount }
{
    if name == "serial" {
        Ok(Ask::Serial)
    } else if name == "threads" {
        threads_ask(value(matches, "turns"))
    } else if name == "explore" {
        explore_ask(
            value(matches, "states"),
            value(matches, "free"),
            value(matches, "end"),
        )
    } else if name == "explain" {
        Ok(Ask::Explain)
    } else if name == "draw" {
        Ok(Ask::Draw)
    } else if name == "live" {
        Ok(Ask::Live)
    } else if name == "compare" {
        Ok(Ask::Compare)
    } else if name == "decode" {
        decode_ask(value(matches, "WORD"))
    } else {
        Err(AskFault::Usage)
    }
}

fn threads_ask(text: Option<&str>) -> Result<Ask, AskFault>
    ensures asked { result ≡ turns_asked (option_map (λ t. t.now) text.entry) }
    ensures counts { IfOk result HasCount }
{
    match text {
        Some(text) => match count(text) {
            Some(turns) => Ok(Ask::Threads(turns)),
            None => Err(AskFault::Usage),
        },
        None => Err(AskFault::Usage),
    }
}

fn explore_ask(states: Option<&str>, free: Option<&str>, end: Option<&str>) -> Result<Ask, AskFault>
    ensures asked { result
        ≡ search_asked (option_map (λ t. t.now) states.entry)
        (option_map (λ t. t.now) free.entry) (option_map (λ t. t.now) end.entry) }
    ensures counts { IfOk result HasCount }
{
    let states = small_count(states).ok_or(AskFault::Usage)?;
    let free = is_set(free);
    if end.is_none() {
        return Ok(Ask::Explore { free, states });
    }
    if free {
        return Err(AskFault::Usage);
    }
    let end = small_count(end).ok_or(AskFault::Usage)?;
    Ok(Ask::Replay { states, end })
}

/// Whether a flag was given.
fn is_set(text: Option<&str>) -> bool
    ensures { result ≡ is_set (option_map (λ t. t.now) text.entry) }
{
    match text {
        Some(text) => text == "true",
        None => false,
    }
}

/// The whole number that a text is, if there is one: 1 to 100,000,000.
fn small_count(text: Option<&str>) -> Option<u32>
    ensures value { result ≡ option_and_then count_value (option_map (λ t. t.now) text.entry) }
    ensures bounds { IfSome result (λ n. (1 ≤ n) × (n ≤ 100000000)) }
{
    match text {
        Some(text) => match count(text) {
            Some(count) => Some(count as u32),
            None => None,
        },
        None => None,
    }
}

fn decode_ask(text: Option<&str>) -> Result<Ask, AskFault>
    ensures asked { result ≡ word_asked (option_map (λ t. t.now) text.entry) }
    ensures counts { IfOk result HasCount }
{
    match text {
        Some(text) => match hexadecimal(text) {
            Some(bits) => Ok(Ask::Decode(Word(bits))),
            None => Err(AskFault::Usage),
        },
        None => Err(AskFault::Usage),
    }
}

/// The first value of an argument.
fn value<'a>(matches: &ArgMatches<'a>, id: &str) -> Option<&'a str>
    ensures { option_map (λ t. t.now) result ≡ first_of id.now (rows_of (found_of matches.now)) }
{
    matches.get_str(id)
}
