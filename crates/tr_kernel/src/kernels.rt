ghost use Rattle.std.specs.Prelude.{◌≡◌, ◌≢◌, ◌↔◌, ℕ, ◌≤◌, ◌<◌, ◌+◌, ◌-◌, ◌^◌, IsSome, IsTrue, length, slice_get, IfOk, IfErr, IfSome, OnErr, OnOk, Ok, Err, Some, None, false, true};
ghost use Rattle.tr_model.specs.declared.fates.Fate.{Fate};
ghost use Rattle.tr_model.specs.declared.replies.Refusal.{Refusal};
ghost use Rattle.tr_model.specs.Journals.{HasFate, consumed_by, ended_by, fate_of, occurs, totals};
ghost use Rattle.tr_model.specs.Laws.{OneFate};
ghost use Rattle.tr_model.specs.Compare.{IsLet, Permits, entry_for};
ghost use Rattle.tr_model.specs.Preferred.{check};
ghost use Rattle.tr_starts.specs.Starts.{is_good, table_of};
ghost use Rattle.tr_kernel.specs.Foreseen.{choice_ahead, choice_with_room, foreseen, foreseen_entry};
ghost use Rattle.tr_kernel.specs.Heard.{IsHeard, call_of};
ghost use Rattle.tr_kernel.specs.Laws.{KillsAt, RaisedBefore, WaitsAt, consumed_at};
ghost use Rattle.tr_kernel.specs.Notes.{notes_of};
ghost use Rattle.tr_kernel.specs.Private.{IsRestartAt, fact_at};
ghost use Rattle.tr_kernel.specs.States.{AcceptsFew, IsDue, IsHistory, IsMade, IsWithheld, opened};

use crate::entries::{report_of, write_entry};
use crate::events::check;
use crate::fates::Fates;
use crate::foreseen::{Prospect, reply_before};
use crate::hearing::{choice_of, is_admitted, is_refusal, is_reply};
use crate::journal::Journal;
use crate::notes::{EntryFact, Notes, Stopped, fact_in, is_killed};
use crate::restarts::first_restart;
use std::alloc::{AllocError, Global};
use std::marker::Model;
use tr_model::{Checked, Choice, Entry, Event, Fate, Refusal, Reply, Totals};
use tr_starts::Start;
use tr_steps::Step;
use tr_table::Table;

/// Why a kernel can't start.
#[derive(Clone, Copy, Debug, PartialEq, Eq)]
pub enum StartFault {
    /// The start breaks a limit or a rule: `Start::is_good`.
    BadStart,
    /// Memory was refused.
    NoMemory,
}

/// A table of threads and groups, the journal that replays to it, the reply of each entry and the fate of each accepted
/// signal.
pub struct Kernel {
    start: Start,
    pub(crate) step: Step,
    pub(crate) journal: Journal,
    pub(crate) fates: Fates,
    pub(crate) notes: Notes,
    pub(crate) alloc: Global,
}

impl Drop for Kernel {
    fn drop(self) {
        let Kernel {
            start: _,
            step: _,
            journal: _,
            fates: _,
            notes: _,
            alloc: _,
        } = self;
    }
}

impl Model for Kernel {
    ghost use Rattle.tr_starts.specs.Starts.{table_of};
    ghost use Rattle.tr_kernel.specs.Notes.{IsNoted};
    ghost use Rattle.tr_kernel.specs.States.{State, IsHistory};

    ghost Value = { State };

    ghost view = { λ k. record {
      start = k.start;
      table = k.step.work.table;
      journal = k.journal.entries;
      replies = k.journal.replies;
      fates = k.fates.fates;
    } };

    ghost invariant = { λ k.
        IsHistory (record {
          start = k.start;
          table = k.step.work.table;
          journal = k.journal.entries;
          replies = k.journal.replies;
          fates = k.fates.fates;
        })
        × IsNoted (table_of k.start) k.journal.entries
        k.journal.notes k.notes.dying k.notes.transfers };
}

impl Kernel {
    /// A kernel with the table of a start and an empty journal. `BadStart` comes exactly where the start isn't good.
    pub fn new(alloc: Global, start: Start) -> Result<Kernel, StartFault>
        ensures ok { IfOk result (λ k. (is_good start ≡ true) × (k ≡ opened start)) }
        ensures bad { is_good start ≡ false → result ≡ Err StartFault.BadStart }
        ensures err { is_good start ≡ true → IfErr result (λ why. why ≡ StartFault.NoMemory) }
    {
        if !start.is_good() {
            return Err(StartFault::BadStart);
        }
        match Table::open(&start, alloc) {
            Ok(table) => Ok(Kernel {
                start,
                step: Step::new(table, alloc),
                journal: Journal::new(alloc),
                fates: Fates::new(alloc),
                notes: Notes::new(alloc),
                alloc,
            }),
            Err(AllocError) => Err(StartFault::NoMemory),
        }
    }

    /// What the kernel started from.
    pub fn start(&self) -> &Start
        ensures { result.now ≡ self.now.start }
    {
        &self.start
    }

    /// The table that it holds.
    pub fn table(&self) -> &Table
        ensures { result.now.table ≡ self.now.table }
    {
        self.step.table()
    }

    /// The entries so far. They replay from the start's table to the table held; every accepted signal waits, is held,
    /// or was ended by exactly one of them; and no two waits among them consumed one report.
    pub fn journal(&self) -> &[Entry]
        ensures entries { result.now ≡ self.now.journal }
        ensures history { IsHistory self.now }
        ensures one_fate { OneFate (table_of self.now.start) self.now.journal self.now.table }
        ensures one_wait { (r : ℕ) → occurs r (consumed_by self.now.journal) ≤ 1 }
    {
        self.journal.entries()
    }

    /// How many entries were made: the position of the last one, from 1.
    pub fn position(&self) -> u64
        ensures { result ≡ length self.now.journal }
    {
        self.journal.entries().len() as u64
    }

    /// The reply of the entry at a position, from 1.
    pub fn reply_at(&self, position: u64) -> Option<Reply>
        ensures none { position ≡ 0 → result ≡ None }
        ensures at { 1 ≤ position → result ≡ slice_get self.now.replies (position - 1) }
    {
        self.journal.reply_at(position)
    }

    /// What has become of the accepted signal of a number, from 1 up: its one fate. None for 0 and for numbers not accepted
    /// so far.
    pub fn fate(&self, number: u64) -> Option<Fate>
        ensures fate { result
            ≡ fate_of (table_of self.now.start) self.now.journal self.now.table number }
        ensures has { IfSome result
            (λ f. HasFate
            (ended_by (table_of self.now.start) self.now.journal) self.now.table number f) }
        ensures only { IfSome result (λ f. (g : Fate)
            → HasFate (ended_by (table_of self.now.start) self.now.journal) self.now.table number g
            → g ≡ f) }
    {
        self.fates.at(number)
    }

    /// How many signals were accepted, and how many have each fate.
    pub fn totals(&self) -> Totals
        ensures totals { result ≡ totals (table_of self.now.start) self.now.journal self.now.table }
        ensures sum { result.pending + result.merged + result.delivered + result.suppressed
            + result.flushed
            ≡ result.accepted }
    {
        self.fates.totals()
    }

    /// The report that the wait at a position, from 1, consumed; None where the entry there isn't a wait of a tracer or
    /// the starter, and where there is none. An entry before raised it, for whom the wait consumed it, and no other wait
    /// consumed it.
    pub fn consumed_at(&self, position: u64) -> Option<u64>
        ensures report { result ≡ consumed_at self.now.journal position }
        ensures exactly { IsSome result ↔ WaitsAt self.now.journal position }
        ensures raised { IfSome result
            (λ r. RaisedBefore (table_of self.now.start) self.now.journal position r) }
        ensures once { IfSome result
            (λ r. (p : ℕ) → p ≢ position → consumed_at self.now.journal p ≢ Some r) }
    {
        report_of(&self.journal.entry_at(position))
    }

    /// What the entry at a position is to the laws.
    pub(crate) fn fact_at(&self, position: u64) -> EntryFact
        ensures fact { result
            ≡ fact_at (notes_of (table_of self.now.start) self.now.journal) position }
        ensures history { IsHistory self.now }
    {
        fact_in(&self.journal.note_at(position))
    }

    /// Whether the entry at a position delivers a KILL.
    pub(crate) fn kills_at(&self, position: u64) -> bool
        ensures { IsTrue result
            ↔ ((g : ℕ) × KillsAt (table_of self.now.start) self.now.journal position g) }
    {
        is_killed(&self.journal.note_at(position))
    }

    /// The position of the first entry, between a wait for this thread's stop and a later position, that restarts the
    /// thread or begins the death of its group.
    pub(crate) fn first_restart(&self, stop: &Stopped, i: u64, j: u64) -> Option<u64>
        requires { (1 ≤ i) × (i < j) × (j ≤ length self.now.journal) }
        ensures found { IfSome result
            (λ k. IsRestartAt (table_of self.now.start) self.now.journal i j stop.now k) }
        ensures none { result ≡ None
            → (k : ℕ)
            → IsRestartAt (table_of self.now.start) self.now.journal i j stop.now k
            → ⊥ }
    {
        let tracer = self.journal.entry(i as usize - 1).actor();
        let place = first_restart(
            stop,
            tracer,
            &self.journal,
            self.notes.dying(),
            i as usize,
            j as usize - 1,
        )?;
        Some(place as u64 + 1)
    }

    /// Gives the answer that `step` would give to a call now if memory is given, and changes nothing.
    pub fn foresee(&self, actor: u32, event: &Event) -> Result<Reply, Refusal>
        ensures foreseen { result ≡ foreseen self.now (call_of actor event.now) }
        ensures history { IsHistory self.now }
    {
        self.prospect(actor, event).answer
    }

    /// Gives what `foresee` gives, and of an answer with an entry the choice with which `step_as` makes it.
    pub fn prospect(&self, actor: u32, event: &Event) -> Prospect
        ensures foreseen { result.answer ≡ foreseen self.now (call_of actor event.now) }
        ensures choice { result.choice ≡ choice_ahead self.now (call_of actor event.now) }
        ensures history { IsHistory self.now }
    {
        let found = match check(self.step.table(), actor, event) {
            Ok(checked) => checked,
            Err(why) => return Prospect::without_entry(Err(why)),
        };
        match found {
            Checked::Quiet(reply) => Prospect::without_entry(Ok(reply)),
            Checked::Due(choice) => self.prospect_of_entry(actor, event, choice),
        }
    }

    /// Gives the reply of the entry that is due, with its choice, or `JournalFull`.
    fn prospect_of_entry(&self, actor: u32, event: &Event, choice: Choice) -> Prospect
        requires due { Permits self.now.table actor event.now choice }
        ensures foreseen { result.answer
            ≡ foreseen_entry self.now (entry_for (call_of actor event.now) choice) }
        ensures choice { result.choice ≡ choice_with_room self.now choice }
    {
        if self.journal.is_full(self.step.table().entries()) {
            return Prospect::without_entry(Err(Refusal::JournalFull));
        }
        Prospect {
            answer: Ok(reply_before(&self.step, actor, event, choice)),
            choice: Some(choice),
        }
    }

    /// Hears what another system answered to a call of an actor, and says whether the model lets the call have that
    /// answer: a refusal, an answer without an entry, or the reply of a step, whatever was chosen. Where it is that of a
    /// step the kernel makes that step, else nothing changes.
    ///
    /// `JournalFull` and `NoMemory` come only where it is that of a step, as for `step_as`; nothing has changed then.
    pub fn hear(
        &mut self,
        actor: u32,
        event: Event,
        told: &Result<Reply, Refusal>,
    ) -> Result<bool, Refusal>
        ensures heard { IsHeard self.old actor event told.now result self.new }
        ensures full { IsDue self.old actor event
            → IsLet self.old.table (call_of actor event) told.now
            → self.old.table.entries ≤ length self.old.journal
            → result ≡ Err Refusal.JournalFull }
        ensures bounded { AcceptsFew self.old.table self.new.table }
        ensures history { IsHistory self.new }
    {
        let found = match check(self.step.table(), actor, &event) {
            Ok(checked) => checked,
            Err(why) => return Ok(is_refusal(told, why)),
        };
        match found {
            Checked::Quiet(reply) => Ok(is_reply(told, &reply)),
            Checked::Due(_) => match told {
                Ok(reply) => self.hear_reply(actor, &event, reply),
                Err(_) => Ok(false),
            },
        }
    }

    /// Hears a reply to an event that is due.
    fn hear_reply(&mut self, actor: u32, event: &Event, told: &Reply) -> Result<bool, Refusal>
        requires due { IsDue self.old actor event.now }
        ensures heard { IsHeard self.old actor event.now (Ok told.now) result self.new }
        ensures full { IsLet self.old.table (call_of actor event.now) (Ok told.now)
            → self.old.table.entries ≤ length self.old.journal
            → result ≡ Err Refusal.JournalFull }
        ensures bounded { AcceptsFew self.old.table self.new.table }
        ensures history { IsHistory self.new }
    {
        if !is_admitted(&self.step, actor, event, told) {
            return Ok(false);
        }
        match self.step_as(actor, event, choice_of(event, told)) {
            Ok(_) => Ok(true),
            Err(why) => Err(why),
        }
    }

    /// Makes the entry of an event that is due, with any choice that the model admits for it.
    ///
    /// `JournalFull` comes exactly where the journal has as many entries as the entry limit; `NoMemory` only where it isn't
    /// full. After a refusal nothing has changed.
    #[inline(always)]
    pub fn step_as(&mut self, actor: u32, event: &Event, choice: Choice) -> Result<Reply, Refusal>
        requires due { Permits self.old.table actor event.now choice }
        ensures ok { IfOk result
            (λ reply. IsMade self.old
            (record { actor = actor; event = event.now; choice = choice }) reply self.new) }
        ensures room { OnOk result (length self.old.journal < self.old.table.entries) }
        ensures err { IfErr result (λ why. IsWithheld self.old why) }
        ensures unchanged { OnErr result (self.new ≡ self.old) }
        ensures full { self.old.table.entries ≤ length self.old.journal
            → result ≡ Err Refusal.JournalFull }
        ensures bounded { AcceptsFew self.old.table self.new.table }
        ensures history { IsHistory self.new }
    {
        if self.journal.is_full(self.step.table().entries()) {
            return Err(Refusal::JournalFull);
        }
        self.enter(actor, event, choice)
    }

    /// Makes the entry of an event that is due. Where memory is refused nothing has changed.
    #[inline(always)]
    fn enter(&mut self, actor: u32, event: &Event, choice: Choice) -> Result<Reply, Refusal>
        requires few { length self.old.journal < 2 ^ 32 }
        requires due { Permits self.old.table actor event.now choice }
        ensures ok { IfOk result
            (λ reply. IsMade self.old
            (record { actor = actor; event = event.now; choice = choice }) reply self.new) }
        ensures err { IfErr result (λ why. why ≡ Refusal.NoMemory) }
        ensures unchanged { OnErr result (self.new ≡ self.old) }
        ensures bounded { AcceptsFew self.old.table self.new.table }
        ensures history { IsHistory self.new }
    {
        let made = write_entry(
            &mut self.step,
            &mut self.journal,
            &mut self.fates,
            &mut self.notes,
            self.alloc,
            actor,
            event,
            choice,
        );
        match made {
            Ok(reply) => Ok(reply),
            Err(AllocError) => Err(Refusal::NoMemory),
        }
    }
}
