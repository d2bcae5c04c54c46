ghost use Rattle.std.specs.Prelude.{◌≡◌, ◌↔◌, ◌≤◌, ◌<◌, ◌+◌, ◌++◌, ◌∷◌, ◌^◌, [], ℕ, IsTrue, length, option_copied, vec_len, vec_capacity, OnOk};
ghost use Rattle.tr_model.specs.Compare.{Permits};
ghost use Rattle.tr_kernel.specs.Notes.{exec_fact, is_some_group, is_stop_status, shows_stop, stop_fact, times};
ghost use Rattle.tr_kernel.specs.Private.{AreTransferred, fact_after, fact_before, fact_in, fact_with, killed_in, note_noticed, note_with, origin_of, shown, transfers_in};

use crate::lists::append;
use std::alloc::{AllocError, Global};
use std::marker::Model;
use tr_ends::ready_thread;
use tr_model::{Choice, Event, Reply, Target};
use tr_sigset::Signal;
use tr_steps::Step;
use tr_table::Table;
use tr_tracee::{Report, Thread};
use tr_wait::Status;

// What each entry leaves beside the journal, so that the laws answer without a look at an old table.

/// The most deaths that are listed: a note counts them in four bytes.
const MOST_DEATHS: usize = u32::MAX as usize;

/// A thread whose stop report a tracer's wait consumed, and its group.
#[derive(Clone, Copy)]
pub(crate) struct Stopped {
    pub(crate) thread: u32,
    pub(crate) group: u32,
}

/// What a take took, and how often the id of the queue's thread had passed to another thread by then.
#[derive(Clone, Copy)]
pub(crate) struct TakenFrom {
    pub(crate) number: u64,
    pub(crate) signal: Signal,
    pub(crate) queue: Target,
    pub(crate) transfers: u32,
}

/// What an entry is to the laws.
#[derive(Clone, Copy)]
pub(crate) enum EntryFact {
    Nothing,
    /// A tracer's wait for a stop.
    Stop(Stopped),
    Take(TakenFrom),
    /// An execve(2) by a thread of this group.
    Exec(u32),
}

/// What an entry is to the laws, as far as the table before it shows: what a take takes shows after.
#[derive(Clone, Copy)]
pub(crate) enum FactBefore {
    Nothing,
    Stop(Stopped),
    Exec(u32),
}

impl FactBefore {
    fn fact(self) -> EntryFact
        ensures { result ≡ shown self }
    {
        match self {
            FactBefore::Nothing => EntryFact::Nothing,
            FactBefore::Stop(stopped) => EntryFact::Stop(stopped),
            FactBefore::Exec(group) => EntryFact::Exec(group),
        }
    }
}

/// The queue that a take took from, and how often the id of its thread had passed to another thread by then.
#[derive(Clone, Copy)]
pub(crate) struct Origin {
    pub(crate) queue: Target,
    pub(crate) transfers: u32,
}

/// What is noticed of an entry beside its reply.
#[derive(Clone, Copy)]
pub(crate) struct Noticed {
    pub(crate) before: FactBefore,
    pub(crate) origin: Option<Origin>,
    /// It delivered a KILL.
    pub(crate) killed: bool,
    /// How many deaths of groups had begun after it.
    pub(crate) deaths: u32,
}

/// What an entry leaves.
#[derive(Clone, Copy)]
pub(crate) struct Note {
    pub(crate) fact: EntryFact,
    /// It delivered a KILL.
    pub(crate) killed: bool,
    /// How many deaths of groups had begun after it.
    pub(crate) deaths: u32,
}

/// How often an id passed to another thread.
#[derive(Clone, Copy)]
pub(crate) struct IdTransfer {
    pub(crate) id: u32,
    pub(crate) times: u64,
}

/// What the entries of a journal have in common to the laws: all groups whose death began, in order, and of each id that
/// passed to another thread how often.
pub(crate) struct Notes {
    dying: Vec<u32>,
    transfers: Vec<IdTransfer>,
    /// How many deaths one more entry may begin, for which there is also the place of an id.
    room: usize,
}

impl Drop for Notes {
    fn drop(self) {
        let Notes {
            dying: _,
            transfers: _,
            room: _,
        } = self;
    }
}

impl Model for Notes {
    ghost use Rattle.tr_kernel.specs.KeptNotes.{HasPlaces, KeptNotes, kept_notes};

    ghost Value = { KeptNotes };

    ghost view = { kept_notes };

    ghost invariant = { HasPlaces };
}

// What the table shows before the step

/// Whether a status is that of a ptrace-stop.
fn is_stop_status(status: &Status) -> bool
    ensures { result ≡ is_stop_status status.now }
{
    match status {
        Status::Exited(_) | Status::Killed(_) | Status::Continued => false,
        _ => true,
    }
}

fn shows_stop(report: &Option<Report>) -> bool
    ensures { result ≡ shows_stop report.now }
{
    match report {
        Some(report) => is_stop_status(&report.status),
        None => false,
    }
}

fn stop_fact(thread: Option<&Thread>) -> FactBefore
    ensures { shown result ≡ stop_fact (option_copied thread.entry) }
{
    match thread {
        Some(thread) => {
            if shows_stop(&thread.report) {
                FactBefore::Stop(Stopped {
                    thread: thread.id,
                    group: thread.group,
                })
            } else {
                FactBefore::Nothing
            }
        }
        None => FactBefore::Nothing,
    }
}

fn exec_fact(thread: Option<&Thread>) -> FactBefore
    ensures { shown result ≡ exec_fact (option_copied thread.entry) }
{
    match thread {
        Some(thread) => FactBefore::Exec(thread.group),
        None => FactBefore::Nothing,
    }
}

/// What an entry is to the laws, as far as the table before it shows.
#[inline(always)]
pub(crate) fn fact_before(table: &Table, actor: u32, event: &Event, choice: Choice) -> FactBefore
    requires due { Permits table.now.table actor event.now choice }
    ensures { shown result ≡ fact_before table.now.table actor event.now choice }
{
    match event {
        Event::Wait { which } => stop_fact(ready_thread(
            table,
            actor,
            *which,
            choice.report().unwrap(),
        )),
        Event::Exec { tid } => exec_fact(table.find(*tid)),
        _ => FactBefore::Nothing,
    }
}

// What passed on

/// How often an id passed on.
fn times(transfers: &[IdTransfer], id: u32) -> u64
    ensures { result ≡ times id transfers.now }
{
    for entry in transfers {
        if entry.id == id {
            return entry.times;
        }
    }
    0
}

fn transfers_in(transfers: &[IdTransfer], queue: Target) -> u32
    requires few { (n : ℕ) → times n transfers.now < 2 ^ 32 }
    ensures { result ≡ transfers_in transfers.now queue }
{
    match queue {
        Target::Thread(id) => times(transfers, id) as u32,
        Target::Group(_) => 0,
    }
}

/// An id passes on once more.
#[tactic(auto, using(crate::proofs::Transfers::set_counts, crate::proofs::Transfers::append_counts))]
fn count_transfer(transfers: &mut Vec<IdTransfer>, id: u32)
    requires room { vec_len transfers.old < vec_capacity transfers.old }
    requires few { times id transfers.old.items < 2 ^ 32 }
    ensures { AreTransferred (id ∷ []) transfers.old.items transfers.new.items }
{
    for place in 0..transfers.len() {
        if transfers[place].id == id {
            transfers[place].times += 1;
            return;
        }
    }
    append(transfers, &IdTransfer { id, times: 1 });
}

fn count_first_transfer(transfers: &mut Vec<IdTransfer>, ids: &[u32])
    requires room { vec_len transfers.old < vec_capacity transfers.old }
    requires few { (n : ℕ) → times n transfers.old.items < 2 ^ 32 }
    requires one { length ids.now ≤ 1 }
    ensures { AreTransferred ids.now transfers.old.items transfers.new.items }
{
    if let Some(id) = ids.first() {
        count_transfer(transfers, *id);
    }
}

// What the step shows

/// The queue that a step took from, with the transfers of its id.
#[inline(always)]
fn origin_of(transfers: &[IdTransfer], queue: Option<Target>) -> Option<Origin>
    requires few { (n : ℕ) → times n transfers.now < 2 ^ 32 }
    ensures { result ≡ origin_of transfers.now queue }
{
    let queue = queue?;
    Some(Origin {
        queue,
        transfers: transfers_in(transfers, queue),
    })
}

fn append_all(list: &mut Vec<u32>, more: &[u32])
    requires { vec_len list.old + length more.now ≤ vec_capacity list.old }
    ensures { list.new.items ≡ list.old.items ++ more.now }
{
    for item in more {
        list.push_reserved(*item);
    }
}

/// What an entry with this reply is to the laws.
fn fact_with(before: FactBefore, origin: Option<Origin>, reply: &Reply) -> EntryFact
    ensures { result ≡ fact_with (shown before) origin reply.now }
{
    match (origin, reply) {
        (Some(Origin { queue, transfers }), Reply::Took { inst, .. }) => {
            EntryFact::Take(TakenFrom {
                number: inst.n,
                signal: inst.sig,
                queue,
                transfers,
            })
        }
        _ => before.fact(),
    }
}

impl Noticed {
    /// The note of an entry with this reply.
    pub(crate) fn note(&self, reply: &Reply) -> Note
        ensures { result ≡ note_noticed self.now reply.now }
    {
        Note {
            fact: fact_with(self.before, self.origin, reply),
            killed: self.killed,
            deaths: self.deaths,
        }
    }
}

// What a note says

pub(crate) fn fact_in(note: &Option<Note>) -> EntryFact
    ensures { result ≡ fact_in note.now }
{
    match note {
        Some(note) => note.fact,
        None => EntryFact::Nothing,
    }
}

pub(crate) fn is_killed(note: &Option<Note>) -> bool
    ensures { result ≡ killed_in note.now }
{
    match note {
        Some(note) => note.killed,
        None => false,
    }
}

impl Notes {
    pub(crate) fn new(alloc: Global) -> Notes
        ensures dying { result.dying ≡ [] }
        ensures transfers { result.transfers ≡ [] }
    {
        Notes {
            dying: Vec::new(alloc),
            transfers: Vec::new(alloc),
            room: 0,
        }
    }

    pub(crate) fn dying(&self) -> &[u32]
        ensures { result.now ≡ self.now.dying }
    {
        self.dying.as_slice()
    }

    /// Makes room for one entry, by which at most this many deaths of groups begin. Where memory is refused the notes are as
    /// before. It is refused also where 2^32 deaths might come to be listed, since a note counts them in four bytes.
    #[cold]
    #[inline(never)]
    pub(crate) fn reserve(&mut self, deaths: usize) -> Result<(), AllocError>
        ensures dying { self.new.dying ≡ self.old.dying }
        ensures transfers { self.new.transfers ≡ self.old.transfers }
        ensures room { OnOk result (deaths ≤ self.new.room) }
    {
        self.room = 0;
        if deaths > MOST_DEATHS - self.dying.len() {
            return Err(AllocError);
        }
        self.dying.reserve(deaths)?;
        self.transfers.reserve(1)?;
        self.room = deaths;
        Ok(())
    }

    /// Whether there is room for one entry, by which so many deaths of groups begin.
    #[inline(always)]
    pub(crate) fn has_room(&self, deaths: usize) -> bool
        ensures { IsTrue result ↔ deaths ≤ self.now.room }
    {
        deaths <= self.room
    }

    /// Notes what a step did, for which there is room, and tells what is noticed of its entry: of what it was before the
    /// step, and of what the step made.
    #[inline(always)]
    pub(crate) fn notice(&mut self, before: FactBefore, step: &Step, reply: &Reply) -> Noticed
        requires room { 0 < self.old.room }
        requires dying { length step.now.work.dying ≤ self.old.room }
        requires few { (n : ℕ) → times n self.old.transfers < 2 ^ 32 }
        requires one { length step.now.work.renamed ≤ 1 }
        ensures before { result.before ≡ before }
        ensures noticed { note_noticed result reply.now
            ≡ note_with (fact_after (shown before) step.now.taken_from self.old.transfers reply.now)
            (length self.old.dying) step.now.work }
        ensures dying { self.new.dying ≡ self.old.dying ++ step.now.work.dying }
        ensures transfers { AreTransferred step.now.work.renamed self.old.transfers self.new.transfers }
    {
        let origin = match reply {
            Reply::Took { .. } => origin_of(&self.transfers, step.news().taken_from()),
            _ => None,
        };
        let killed = !step.news().is_plain() && self.note_news(step);
        Noticed {
            before,
            origin,
            killed,
            deaths: self.dying.len() as u32,
        }
    }

    /// Notes a step by which a group began to die, a KILL was delivered or an id passed on, and tells whether a KILL was. Few
    /// steps are so.
    #[cold]
    #[inline(never)]
    fn note_news(&mut self, step: &Step) -> bool
        requires room { 0 < self.old.room }
        requires dying { length step.now.work.dying ≤ self.old.room }
        requires few { (n : ℕ) → times n self.old.transfers < 2 ^ 32 }
        requires one { length step.now.work.renamed ≤ 1 }
        ensures killed { result ≡ is_some_group step.now.work.killed }
        ensures dying { self.new.dying ≡ self.old.dying ++ step.now.work.dying }
        ensures transfers { AreTransferred step.now.work.renamed self.old.transfers self.new.transfers }
    {
        self.room = 0;
        append_all(&mut self.dying, step.news().dying());
        count_first_transfer(&mut self.transfers, step.news().renamed());
        self.count_room();
        !step.news().killed().is_empty()
    }

    /// Counts the room that is left.
    #[inline(always)]
    fn count_room(&mut self)
        ensures dying { self.new.dying ≡ self.old.dying }
        ensures transfers { self.new.transfers ≡ self.old.transfers }
    {
        self.room = if self.transfers.len() < self.transfers.capacity() {
            self.dying.capacity().min(MOST_DEATHS) - self.dying.len()
        } else {
            0
        };
    }
}
