ghost use Rattle.std.specs.Prelude.{◌≡◌, ◌∷◌, ◌++◌, ◌+◌, ◌≤◌, ◌<◌, ◌^◌, [], ℕ, length, IfOk, OnOk, OnErr};
ghost use Rattle.tr_model.specs.Compare.{Permits};
ghost use Rattle.tr_model.specs.Steps.{after, work_of};
ghost use Rattle.tr_kernel.specs.Laws.{report_of};
ghost use Rattle.tr_kernel.specs.Notes.{times};
ghost use Rattle.tr_kernel.specs.Private.{AreTransferred, entry_with, fates_after, noted};
ghost use Rattle.tr_kernel.specs.States.{AcceptsFew};

use crate::events::change;
use crate::fates::Fates;
use crate::journal::Journal;
use crate::note_list::KeptNote;
use crate::notes::{Notes, fact_before};
use crate::replies::{BLOCK, BriefReply, Mark, WholeReply};
use std::alloc::{AllocError, Global};
use tr_model::{Choice, Entry, Event, MOST_THREADS, Reply};
use tr_steps::Step;
use tr_table::Table;

/// The most signals that one entry accepts: one for each thread of a tracer that ends.
const ACCEPTED_AT_ONCE: usize = MOST_THREADS;

/// The most deaths of groups that one entry begins: two for each thread, where a tracer ends, and one.
fn deaths_at_once(table: &Table) -> usize
    ensures { result ≡ length table.now.table.threads + length table.now.table.threads + 1 }
{
    2 * table.threads().len() + 1
}

/// The report that an entry consumed, where it is a wait.
pub(crate) fn report_of(entry: &Option<Entry>) -> Option<u64>
    ensures { result ≡ report_of entry.now }
{
    match entry {
        Some(entry) => match entry.event() {
            Event::Wait { .. } | Event::StarterWait { .. } => entry.choice().report(),
            _ => None,
        },
        None => None,
    }
}

/// An entry takes less than 72 bytes, with its reply, its note and its share of the mark of its block.
const _: () = prove!(
    (size_of::<Entry>() + size_of::<BriefReply>() + size_of::<WholeReply>() + size_of::<KeptNote>())
        * BLOCK
        + size_of::<Mark>()
        < 72 * BLOCK
);

/// Makes room as `make_room`, where there is none for sure.
#[cold]
#[inline(never)]
fn grow(
    journal: &mut Journal,
    fates: &mut Fates,
    notes: &mut Notes,
    deaths: usize,
) -> Result<(), AllocError>
    ensures entries { journal.new.entries ≡ journal.old.entries }
    ensures replies { journal.new.replies ≡ journal.old.replies }
    ensures fates { fates.new.fates ≡ fates.old.fates }
    ensures notes { journal.new.notes ≡ journal.old.notes }
    ensures dying { notes.new.dying ≡ notes.old.dying }
    ensures transfers { notes.new.transfers ≡ notes.old.transfers }
    ensures entry_room { OnOk result (0 < journal.new.room) }
    ensures fate_room { OnOk result (1024 ≤ fates.new.room) }
    ensures note_room { OnOk result (deaths ≤ notes.new.room) }
{
    journal.reserve_one()?;
    fates.reserve(ACCEPTED_AT_ONCE)?;
    notes.reserve(deaths)
}

/// Makes room for an entry, the signals that it accepts and its note, by which at most this many deaths of groups begin.
/// Mostly there is room, and nothing is called.
#[inline(always)]
fn make_room(
    journal: &mut Journal,
    fates: &mut Fates,
    notes: &mut Notes,
    deaths: usize,
) -> Result<(), AllocError>
    ensures entries { journal.new.entries ≡ journal.old.entries }
    ensures replies { journal.new.replies ≡ journal.old.replies }
    ensures fates { fates.new.fates ≡ fates.old.fates }
    ensures notes { journal.new.notes ≡ journal.old.notes }
    ensures dying { notes.new.dying ≡ notes.old.dying }
    ensures transfers { notes.new.transfers ≡ notes.old.transfers }
    ensures entry_room { OnOk result (0 < journal.new.room) }
    ensures fate_room { OnOk result (1024 ≤ fates.new.room) }
    ensures note_room { OnOk result (deaths ≤ notes.new.room) }
{
    if journal.has_room() && fates.has_room(ACCEPTED_AT_ONCE) && notes.has_room(deaths) {
        return Ok(());
    }
    grow(journal, fates, notes, deaths)
}

/// Makes the entry of an event that is due, with any choice that the model admits, and writes it down, with its reply, the
/// fates and its note. All that may want memory comes first. Where memory is refused nothing has changed.
#[tactic(auto, using(crate::proofs::Logs::deaths_few, crate::proofs::Checks::permits_fixed, crate::proofs::Checks::permits_fits))]
#[inline(always)]
pub(crate) fn write_entry(
    step: &mut Step,
    journal: &mut Journal,
    fates: &mut Fates,
    notes: &mut Notes,
    alloc: Global,
    actor: u32,
    event: &Event,
    choice: Choice,
) -> Result<Reply, AllocError>
    requires due { Permits step.old.work.table actor event.now choice }
    requires few_passes { (id : ℕ) → times id notes.old.transfers < 2 ^ 32 }
    requires few_notes { length journal.old.notes < 2 ^ 32 }
    requires counted { length fates.old.fates ≡ step.old.work.table.accepted }
    requires bounded { AcceptsFew step.old.work.table
        (after step.old.work.table (entry_with actor event.now choice)).work.table }
    ensures work { OnOk result (step.new.work
        ≡ work_of step.old.work.table (entry_with actor event.now choice)) }
    ensures table { OnOk result (step.new.work.table
        ≡ (after step.old.work.table (entry_with actor event.now choice)).work.table) }
    ensures reply { IfOk result
        (λ r. r ≡ (after step.old.work.table (entry_with actor event.now choice)).reply) }
    ensures journal { OnOk result
        (journal.new.entries ≡ journal.old.entries ++ entry_with actor event.now choice ∷ []) }
    ensures replies { IfOk result (λ r. journal.new.replies ≡ journal.old.replies ++ r ∷ []) }
    ensures fates { OnOk result (fates.new.fates
        ≡ fates_after fates.old.fates
        (after step.old.work.table (entry_with actor event.now choice)).work) }
    ensures notes { OnOk result (journal.new.notes
        ≡ journal.old.notes
        ++ noted notes.old.transfers (length notes.old.dying) step.old.work.table
        (entry_with actor event.now choice) ∷ []) }
    ensures dying { OnOk result (notes.new.dying
        ≡ notes.old.dying
        ++ (work_of step.old.work.table (entry_with actor event.now choice)).dying) }
    ensures transfers { OnOk result
        (AreTransferred
        (work_of step.old.work.table
        (entry_with actor event.now choice)).renamed notes.old.transfers notes.new.transfers) }
    ensures err_table { OnErr result (step.new.work.table ≡ step.old.work.table) }
    ensures err_journal { OnErr result (journal.new.entries ≡ journal.old.entries) }
    ensures err_replies { OnErr result (journal.new.replies ≡ journal.old.replies) }
    ensures err_fates { OnErr result (fates.new.fates ≡ fates.old.fates) }
    ensures err_notes { OnErr result (journal.new.notes ≡ journal.old.notes) }
    ensures err_dying { OnErr result (notes.new.dying ≡ notes.old.dying) }
    ensures err_passed { OnErr result (notes.new.transfers ≡ notes.old.transfers) }
{
    make_room(journal, fates, notes, deaths_at_once(step.table()))?;
    let fact = fact_before(step.table(), actor, event, choice);
    let reply = change(step, alloc, actor, event, choice)?;
    fates.enter(step.table().accepted() as usize - fates.len(), step.ended());
    let noticed = notes.notice(fact, step, &reply);
    let entry = Entry::new(actor, *event, choice);
    journal.push(&entry, &reply, &noticed);
    Ok(reply)
}
