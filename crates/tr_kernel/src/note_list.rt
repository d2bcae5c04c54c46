ghost use Rattle.std.specs.Prelude.{◌≡◌, ◌↔◌, ◌++◌, ◌<◌, ◌≤◌, ◌∷◌, ◌^◌, [], IsTrue, OnOk, length, nat_le, slice_get};
ghost use Rattle.tr_kernel.specs.Kept.{AreWithin, IsUpto, blank, kept_fact, left_of, note_upto, noted, take_from, with_fact};
ghost use Rattle.tr_kernel.specs.Private.{note_noticed};
ghost use Rattle.tr_kernel.specs.declared.notes.EntryFact.TheVariants.{Nothing};

use crate::notes::{EntryFact, Note, Noticed, Stopped, TakenFrom};
use crate::replies::signal_of;
use std::alloc::{AllocError, Global};
use std::marker::Model;
use tr_model::{Halves, Reply, Target};

/// Of which case is what an entry is to the laws. A take is told apart by whose queue it took from.
#[derive(Clone, Copy)]
enum Kind {
    Nothing,
    Stop,
    TakeForThread,
    TakeForGroup,
    Exec,
}

/// A note, in 28 bytes: a signal stands as its number.
#[derive(Clone, Copy)]
pub(crate) struct KeptNote {
    /// The number of what a take took.
    number: Halves,
    deaths: u32,
    /// The place of its entry, from 0.
    place: u32,
    /// The thread that stopped, the thread or the group of the queue, or the group of an execve(2).
    id: u32,
    /// The group of the thread that stopped, or how often the id of the queue had passed on.
    second: u32,
    kind: Kind,
    signal: u8,
    killed: bool,
}

/// A note for each entry, or what is left of it beside what its reply tells. Those are kept that say more than the one
/// before: of most entries nothing is left.
#[derive(Drop)]
pub(crate) struct NoteList {
    kept: Vec<KeptNote>,
    len: usize,
    /// How many deaths had begun after the last note that is kept.
    deaths: u32,
}

impl Model for NoteList {
    ghost use Rattle.std.specs.Prelude.{◌≡◌, ◌-◌, vec_capacity, vec_len};
    ghost use Rattle.tr_kernel.specs.Kept.{AreWithin, NotesOfEntries, deaths_of, spread};

    ghost Value = { NotesOfEntries };

    ghost view = { λ l. record {
      notes = spread l.kept.items 0 0 l.len;
      room = vec_capacity l.kept - vec_len l.kept;
    } };

    ghost invariant = { λ l. AreWithin 0 l.len l.kept.items
        × (l.deaths ≡ deaths_of 0 l.kept.items) };
}

impl KeptNote {
    /// A note without what its entry is to the laws.
    fn without_fact(place: u32, note: &Note) -> KeptNote
        ensures place { result.place ≡ place }
        ensures note { noted result ≡ record note.now { fact = Nothing } }
    {
        KeptNote {
            number: Halves::new(0),
            deaths: note.deaths,
            place,
            id: 0,
            second: 0,
            kind: Kind::Nothing,
            signal: 0,
            killed: note.killed,
        }
    }

    fn new(place: u32, note: &Note) -> KeptNote
        ensures place { result.place ≡ place }
        ensures note { noted result ≡ note.now }
    {
        let rest = KeptNote::without_fact(place, note);
        match note.fact {
            EntryFact::Nothing => rest,
            EntryFact::Stop(Stopped { thread, group }) => KeptNote {
                kind: Kind::Stop,
                id: thread,
                second: group,
                ..rest
            },
            EntryFact::Take(taken) => {
                let (kind, id) = match taken.queue {
                    Target::Thread(id) => (Kind::TakeForThread, id),
                    Target::Group(id) => (Kind::TakeForGroup, id),
                };
                KeptNote {
                    kind,
                    number: Halves::new(taken.number),
                    id,
                    second: taken.transfers,
                    signal: taken.signal.number(),
                    ..rest
                }
            }
            EntryFact::Exec(group) => KeptNote {
                kind: Kind::Exec,
                id: group,
                ..rest
            },
        }
    }

    /// What the take that it is of is to the laws, if it took from this queue.
    fn take_from(&self, queue: Target) -> EntryFact
        ensures { result ≡ take_from queue self.now }
    {
        EntryFact::Take(TakenFrom {
            number: self.number.word(),
            signal: signal_of(self.signal),
            queue,
            transfers: self.second,
        })
    }

    fn fact(&self) -> EntryFact
        ensures { result ≡ kept_fact self.now }
    {
        match self.kind {
            Kind::Nothing => EntryFact::Nothing,
            Kind::Stop => EntryFact::Stop(Stopped {
                thread: self.id,
                group: self.second,
            }),
            Kind::TakeForThread => self.take_from(Target::Thread(self.id)),
            Kind::TakeForGroup => self.take_from(Target::Group(self.id)),
            Kind::Exec => EntryFact::Exec(self.id),
        }
    }

    fn note(&self) -> Note
        ensures { result ≡ noted self.now }
    {
        Note {
            fact: self.fact(),
            killed: self.killed,
            deaths: self.deaths,
        }
    }
}

fn blank(deaths: u32) -> Note
    ensures { result ≡ blank deaths }
{
    Note {
        fact: EntryFact::Nothing,
        killed: false,
        deaths,
    }
}

/// How many of these are of entries up to this place.
fn count_upto(kept: &[KeptNote], len: usize, place: usize) -> usize
    requires { AreWithin 0 len kept.now }
    ensures { IsUpto place kept.now result }
{
    kept.partition_point(
        |kept: &KeptNote| -> bool
            ensures { result ≡ nat_le kept.now.place place }
        { kept.place as usize <= place },
    )
}

/// The note of the entry at a place, by those that are kept of the entries up to it.
fn note_upto(kept: &[KeptNote], place: usize) -> Note
    ensures { result ≡ note_upto 0 place kept.now }
{
    match kept.last() {
        Some(last) if last.place as usize == place => last.note(),
        Some(last) => blank(last.deaths),
        None => blank(0),
    }
}

/// The note with what the reply of its entry tells, if it tells what the entry is to the laws.
pub(crate) fn with_fact(note: Note, fact: EntryFact) -> Note
    ensures { result ≡ with_fact fact note }
{
    match fact {
        EntryFact::Nothing => note,
        _ => Note { fact, ..note },
    }
}

/// What is left of a note beside the reply of its entry, if that tells what the entry is to the laws.
fn left_of(note: Note, tells_fact: bool) -> Note
    ensures { result ≡ left_of tells_fact note }
{
    if tells_fact {
        Note {
            fact: EntryFact::Nothing,
            ..note
        }
    } else {
        note
    }
}

impl NoteList {
    pub(crate) fn new(alloc: Global) -> NoteList
        ensures { result.notes ≡ [] }
    {
        NoteList {
            kept: Vec::new(alloc),
            len: 0,
            deaths: 0,
        }
    }

    /// Makes room for one more note.
    pub(crate) fn reserve_one(&mut self) -> Result<(), AllocError>
        ensures notes { self.new.notes ≡ self.old.notes }
        ensures room { OnOk result (0 < self.new.room) }
    {
        self.kept.reserve(1)
    }

    /// Whether there is room for one more note.
    #[inline(always)]
    pub(crate) fn has_room(&self) -> bool
        ensures { IsTrue result ↔ 0 < self.now.room }
    {
        self.kept.len() < self.kept.capacity()
    }

    /// Appends what is left of the note of an entry, and tells for how many more entries there is room for sure, of so many.
    /// Mostly that is nothing, and none is kept.
    #[inline(always)]
    pub(crate) fn enter(
        &mut self,
        noticed: &Noticed,
        reply: &Reply,
        tells_fact: bool,
        room: usize,
    ) -> usize
        requires room { 0 < self.old.room }
        requires few { length self.old.notes < 2 ^ 32 }
        ensures notes { self.new.notes
            ≡ self.old.notes ++ left_of tells_fact (note_noticed noticed.now reply.now) ∷ [] }
        ensures least { result ≤ room }
        ensures room { 0 < result → 0 < self.new.room }
    {
        if tells_fact && !noticed.killed && noticed.deaths == self.deaths {
            self.len += 1;
            return room;
        }
        self.enter_note(*noticed, *reply, tells_fact);
        if self.has_room() { room } else { 0 }
    }

    /// Appends what is left of a note where that says something. Few do.
    #[cold]
    #[inline(never)]
    fn enter_note(&mut self, noticed: Noticed, reply: Reply, tells_fact: bool)
        requires room { 0 < self.old.room }
        requires few { length self.old.notes < 2 ^ 32 }
        ensures { self.new.notes
            ≡ self.old.notes ++ left_of tells_fact (note_noticed noticed reply) ∷ [] }
    {
        self.push(&left_of(noticed.note(&reply), tells_fact));
    }

    /// Appends a note that is kept.
    fn push(&mut self, note: &Note)
        requires room { 0 < self.old.room }
        requires few { length self.old.notes < 2 ^ 32 }
        ensures { self.new.notes ≡ self.old.notes ++ note.now ∷ [] }
    {
        self.kept
            .push_reserved(KeptNote::new(self.len as u32, note));
        self.deaths = note.deaths;
        self.len += 1;
    }

    /// The note of the entry at a place, from 0.
    pub(crate) fn get(&self, place: usize) -> Option<Note>
        ensures { result ≡ slice_get self.now.notes place }
    {
        if place >= self.len {
            return None;
        }
        let upto = count_upto(&self.kept, self.len, place);
        Some(note_upto(&self.kept[..upto], place))
    }
}
