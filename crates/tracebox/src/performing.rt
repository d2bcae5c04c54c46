ghost use Rattle.std.specs.Prelude.{◌≡◌, ◌≢◌, ◌+◌, ◌<◌, ◌-◌, ◌^◌, Err, IfErr, IfOk, map};
ghost use Rattle.std.specs.IoError.{error_kind};
ghost use Rattle.tr_reading.specs.declared.faults.ScenarioFault.TheVariants as scenario;
ghost use Rattle.tracebox.specs.declared.faults.Fault.TheVariants.{Scenario, Usage};
ghost use Rattle.tracebox.specs.Faults.{fault_status};
ghost use Rattle.tracebox.specs.Performing.{Attempts, Declines, Decodes, Ends, Performs, Says, Tells, ending_of, ending_status, replay_ending, search_ending};

use crate::faults::{Fault, words_fault};
use crate::meanings::{put_line, write_meaning};
use std::alloc::Global;
use std::convert::AsStr;
use std::io::{self, ErrorKind};
use std::sync::Wait;
use std::thread::Threads;
use tr_answers::compare;
use tr_commands::{Ask, AskFault, Declined, asked};
use tr_live::converse;
use tr_picture::draw;
use tr_reading::ScenarioFault;
use tr_reasons::explain;
use tr_scenario::{Source, serial, threaded};
use tr_schedules::{explore_schedules, replay_end};
use tr_status::{Sink, put_all};
use tr_wait::{Word, decode};

/// How what was asked for ends where it has no fault.
#[derive(Clone, Copy, Debug, PartialEq, Eq)]
pub enum Ending {
    /// It is done; the answers of a record agree.
    Done,
    /// It is done, and an answer of the record differs.
    Differs,
    /// There are more states than may be looked at.
    TooMany,
    /// The end that was sought wasn't found.
    NoEnd,
}

impl Ending {
    /// The exit status: 1 where an answer differs, there are too many states, or an end wasn't found.
    pub fn status(self) -> u8
        ensures { result ≡ ending_status self }
    {
        match self {
            Ending::Done => 0,
            Ending::Differs | Ending::TooMany | Ending::NoEnd => 1,
        }
    }
}

/// Does what the words of a command line ask for, of which the first is the program's name, and gives the exit status:
/// 0, also after help, which goes to the writer; 1 for a refused input, a word that no status has, a run that doesn't
/// settle, too many states, an end that isn't there or a record of which an answer differs, 2 for a command line that the
/// program doesn't take, 3 where memory is refused or the reader or the writer fails. A fault goes to `faults` by its name.
/// Where that can't be written the status stays.
pub fn perform<T: AllocGlobal + Threads + Wait + Sync, S: AsStr, R: Source, W: Sink, E: Sink>(
    rt: &T,
    words: &[S],
    reader: &mut R,
    writer: &mut W,
    faults: &mut E,
) -> u8
    requires failures { (R.shown reader.old).failures < 2 ^ 64 - 1 }
    requires interruptions { (R.shown reader.old).interruptions + 1048576 < 2 ^ 64 }
    requires room { W.failures writer.old < 2 ^ 64 - 1 }
    requires faults { E.failures faults.old < 2 ^ 64 - 1 }
    ensures { Performs R.shown W.taken W.failures E.taken E.failures
        (map S.text words.now) reader.old reader.new writer.old writer.new faults.old faults.new result }
{
    match attempt(rt, rt.alloc(), words, reader, writer) {
        Ok(ending) => ending.status(),
        Err(fault) => report(fault, faults),
    }
}

/// Performs the words of a command line, where they could be had. Else nothing is read or written: it is want of memory, or
/// `Usage` where a word isn't UTF-8.
pub fn perform_words<
    T: AllocGlobal + Threads + Wait + Sync,
    S: AsStr + Drop,
    R: Source,
    W: Sink,
    E: Sink,
>(rt: &T, words: io::Result<Vec<S>>, reader: &mut R, writer: &mut W, faults: &mut E) -> u8
    requires failures { (R.shown reader.old).failures < 2 ^ 64 - 1 }
    requires interruptions { (R.shown reader.old).interruptions + 1048576 < 2 ^ 64 }
    requires room { W.failures writer.old < 2 ^ 64 - 1 }
    requires faults { E.failures faults.old < 2 ^ 64 - 1 }
    ensures performs { IfOk words
        (λ v. Performs R.shown W.taken W.failures E.taken E.failures
        (map S.text v.items) reader.old reader.new writer.old writer.new faults.old faults.new result) }
    ensures memory { IfErr words (λ e. error_kind e ≡ ErrorKind.OutOfMemory
        → Ends E.taken E.failures faults.old faults.new (Err (Scenario scenario.NoMemory)) result) }
    ensures usage { IfErr words (λ e. error_kind e ≢ ErrorKind.OutOfMemory
        → Ends E.taken E.failures faults.old faults.new (Err Usage) result) }
    ensures same { IfErr words (λ _. (reader.new ≡ reader.old) × (writer.new ≡ writer.old)) }
{
    match words {
        Ok(words) => perform(rt, words.as_slice(), reader, writer, faults),
        Err(error) => report(words_fault(error.kind()), faults),
    }
}

/// Writes the line of a fault, as far as the sink takes it, and gives the exit status.
pub fn report<E: Sink>(fault: Fault, faults: &mut E) -> u8
    requires { E.failures faults.old < 2 ^ 64 - 1 }
    ensures status { result ≡ fault_status fault }
    ensures told { Tells E.taken E.failures faults.old faults.new fault }
{
    let _ = put_line(b"tracebox: ", fault.name().as_bytes(), faults);
    fault.status()
}

fn attempt<T: Threads + Wait + Sync, S: AsStr, R: Source, W: Sink>(
    rt: &T,
    alloc: Global,
    words: &[S],
    reader: &mut R,
    writer: &mut W,
) -> Result<Ending, Fault>
    requires failures { (R.shown reader.old).failures < 2 ^ 64 - 1 }
    requires interruptions { (R.shown reader.old).interruptions + 1048576 < 2 ^ 64 }
    requires room { W.failures writer.old < 2 ^ 64 - 1 }
    ensures { Attempts R.shown W.taken W.failures
        (map S.text words.now) reader.old reader.new writer.old writer.new result }
{
    match asked(alloc, words) {
        Ok(Ask::Serial) => serial(alloc, reader, writer)?,
        Ok(Ask::Threads(turns)) => threaded(rt, alloc, reader, writer, turns)?,
        Ok(Ask::Explore { free, states }) => {
            return Ok(search_ending(explore_schedules(alloc, reader, writer, free, states)?));
        }
        Ok(Ask::Replay { states, end }) => {
            return Ok(replay_ending(replay_end(alloc, reader, writer, states, end)?));
        }
        Ok(Ask::Explain) => explain(alloc, reader, writer)?,
        Ok(Ask::Draw) => draw(alloc, reader, writer)?,
        Ok(Ask::Live) => converse(alloc, reader, writer)?,
        Ok(Ask::Compare) => return Ok(ending_of(compare(alloc, reader, writer)?)),
        Ok(Ask::Decode(word)) => write_decoded(word, writer)?,
        Err(declined) => write_declined(&declined, writer)?,
    }
    Ok(Ending::Done)
}

/// How a comparison ends.
fn ending_of(agrees: bool) -> Ending
    ensures { result ≡ ending_of agrees }
{
    if agrees {
        Ending::Done
    } else {
        Ending::Differs
    }
}

/// How a search ends.
fn search_ending(complete: bool) -> Ending
    ensures { result ≡ search_ending complete }
{
    if complete {
        Ending::Done
    } else {
        Ending::TooMany
    }
}

/// How the search for one end ends.
fn replay_ending(found: bool) -> Ending
    ensures { result ≡ replay_ending found }
{
    if found { Ending::Done } else { Ending::NoEnd }
}

/// Writes the status that a word has.
fn write_decoded<W: Sink>(word: Word, writer: &mut W) -> Result<(), Fault>
    requires { W.failures writer.old < 2 ^ 64 - 1 }
    ensures { Decodes W.taken W.failures writer.old writer.new word result }
{
    match decode(word) {
        Some(status) => Ok(write_meaning(status, writer)?),
        None => Err(Fault::NotAWord),
    }
}

/// Writes the help that is wanted; any other fault is the program's.
fn write_declined<W: Sink>(declined: &Declined, writer: &mut W) -> Result<(), Fault>
    requires { W.failures writer.old < 2 ^ 64 - 1 }
    ensures { Declines W.taken W.failures declined.now.fault writer.old writer.new result }
{
    match declined.fault {
        AskFault::Help => write_text(&declined.text, writer),
        AskFault::Usage => Err(Fault::Usage),
        AskFault::NoMemory => Err(Fault::Scenario(ScenarioFault::NoMemory)),
    }
}

fn write_text<W: Sink>(text: &str, writer: &mut W) -> Result<(), Fault>
    requires { W.failures writer.old < 2 ^ 64 - 1 }
    ensures { Says W.taken W.failures writer.old writer.new text.now result }
{
    Ok(put_all(writer, text.as_bytes())?)
}
