ghost use Rattle.std.specs.Prelude.{◌≡◌, ◌↔◌, ◌++◌, ◌+◌, ◌-◌, ◌<◌, ◌≤◌, ◌∷◌, ◌^◌, [], IsTrue, None, OnOk, length, nat_le, slice_get, slice_index_or};
ghost use Rattle.tr_kernel.specs.Kept.{IsToldBy};
ghost use Rattle.tr_kernel.specs.KeptReplies.{last_sent, mark_of};
ghost use Rattle.tr_kernel.specs.Private.{IsOfStop, note_noticed, shown};

use crate::lists::{append, at_position, grow};
use crate::note_list::{NoteList, with_fact};
use crate::notes::{Note, Noticed};
use crate::replies::{BLOCK, BriefReply, Mark, WholeReply, keep};
use std::alloc::{AllocError, Global};
use std::marker::Model;
use tr_model::{Entry, Reply};

/// The entries of a kernel, and what is kept of their replies: two bytes of each, those whole that say more, and a mark for
/// each block of entries that is full. What an entry is to the laws stands in its note, as far as its reply doesn't tell it.
pub(crate) struct Journal {
    entries: Vec<Entry>,
    briefs: Vec<BriefReply>,
    wholes: Vec<WholeReply>,
    marks: Vec<Mark>,
    notes: NoteList,
    /// The mark of the block that isn't full.
    mark: Mark,
    /// The number of the last signal that was sent.
    sent: u64,
    /// For how many more entries there surely is room.
    room: usize,
}

impl Drop for Journal {
    fn drop(self) {
        let Journal {
            entries: _,
            briefs: _,
            wholes: _,
            marks: _,
            notes: _,
            mark: _,
            sent: _,
            room: _,
        } = self;
    }
}

impl Model for Journal {
    ghost use Rattle.tr_kernel.specs.Kept.{EntryList};
    ghost use Rattle.tr_kernel.specs.KeptReplies.{HasReplies, kept_entries};

    ghost Value = { EntryList };

    ghost view = { kept_entries };

    ghost invariant = { HasReplies };
}

/// The mark of the block of the entry at a place, from 0, by those of the full blocks and that of the one after them.
fn mark_of(marks: &[Mark], last: Mark, place: usize) -> Mark
    ensures { result ≡ mark_of marks.now last place }
{
    marks.get(place / BLOCK).copied().unwrap_or(last)
}

/// The number of the last signal that was sent, after a reply.
#[inline(always)]
fn last_sent(reply: &Reply, before: u64) -> u64
    ensures { result ≡ last_sent reply.now before }
{
    match *reply {
        Reply::Sent { n, .. } => n,
        _ => before,
    }
}

impl Journal {
    pub(crate) fn new(alloc: Global) -> Journal
        ensures entries { result.entries ≡ [] }
        ensures replies { result.replies ≡ [] }
        ensures notes { result.notes ≡ [] }
    {
        Journal {
            entries: Vec::new(alloc),
            briefs: Vec::new(alloc),
            wholes: Vec::new(alloc),
            marks: Vec::new(alloc),
            notes: NoteList::new(alloc),
            mark: Mark { sent: 0, whole: 0 },
            sent: 0,
            room: 0,
        }
    }

    /// Makes room for one more entry, with its reply and its note.
    #[cold]
    #[inline(never)]
    pub(crate) fn reserve_one(&mut self) -> Result<(), AllocError>
        ensures entries { self.new.entries ≡ self.old.entries }
        ensures replies { self.new.replies ≡ self.old.replies }
        ensures notes { self.new.notes ≡ self.old.notes }
        ensures room { OnOk result (0 < self.new.room) }
    {
        self.room = 0;
        self.entries.reserve(1)?;
        self.briefs.reserve(1)?;
        grow(&mut self.wholes)?;
        self.marks.reserve(1)?;
        self.notes.reserve_one()?;
        let len = self.entries.len();
        self.room = (self.entries.capacity() - len)
            .min(self.briefs.capacity() - len)
            .min(self.wholes.capacity() - self.wholes.len())
            .min(BLOCK.saturating_mul(self.marks.capacity() - self.marks.len()));
        Ok(())
    }

    /// Whether there is room for one more entry.
    #[inline(always)]
    pub(crate) fn has_room(&self) -> bool
        ensures { IsTrue result ↔ 0 < self.now.room }
    {
        self.room > 0
    }

    pub(crate) fn entries(&self) -> &[Entry]
        ensures { result.now ≡ self.now.entries }
    {
        self.entries.as_slice()
    }

    /// Whether it has as many entries as this limit.
    pub(crate) fn is_full(&self, limit: u32) -> bool
        ensures { result ≡ nat_le limit (length self.now.entries) }
    {
        self.entries.len() >= limit as usize
    }

    /// The entry at a place, from 0.
    pub(crate) fn entry(&self, place: usize) -> &Entry
        requires { place < length self.now.entries }
        ensures { result.now ≡ slice_index_or self.now.entries place result.now }
    {
        &self.entries[place]
    }

    /// The entry at a position, from 1.
    pub(crate) fn entry_at(&self, position: u64) -> Option<Entry>
        ensures none { position ≡ 0 → result ≡ None }
        ensures at { 1 ≤ position → result ≡ slice_get self.now.entries (position - 1) }
    {
        at_position(&self.entries, position)
    }

    /// The reply of the entry at a position, from 1.
    #[tactic(auto, using(crate::proofs::Told::told_at, crate::proofs::Told::held_at))]
    pub(crate) fn reply_at(&self, position: u64) -> Option<Reply>
        ensures none { position ≡ 0 → result ≡ None }
        ensures at { 1 ≤ position → result ≡ slice_get self.now.replies (position - 1) }
    {
        let entry = at_position(&self.entries, position)?;
        let brief = at_position(&self.briefs, position)?;
        let mark = mark_of(&self.marks, self.mark, position as usize - 1);
        Some(brief.reply(&entry, mark, &self.wholes))
    }

    /// The note of the entry at a place, from 0.
    pub(crate) fn note(&self, place: usize) -> Option<Note>
        ensures { result ≡ slice_get self.now.notes place }
    {
        let note = self.notes.get(place)?;
        let mark = mark_of(&self.marks, self.mark, place);
        let fact = self.briefs[place].fact(&self.entries[place], mark, &self.wholes);
        Some(with_fact(note, fact))
    }

    /// The note of the entry at a position, from 1.
    pub(crate) fn note_at(&self, position: u64) -> Option<Note>
        ensures none { position ≡ 0 → result ≡ None }
        ensures at { 1 ≤ position → result ≡ slice_get self.now.notes (position - 1) }
    {
        let place = position.checked_sub(1)?;
        self.note(place as usize)
    }

    /// Appends an entry with its reply and what is noticed of it.
    #[tactic(auto, using(crate::proofs::Told::pushed_replies, crate::proofs::Told::pushed_held, crate::proofs::Told::full_replies, crate::proofs::Told::full_held))]
    #[inline(always)]
    pub(crate) fn push(&mut self, entry: &Entry, reply: &Reply, noticed: &Noticed)
        requires room { 0 < self.old.room }
        requires few { length self.old.notes < 2 ^ 32 }
        requires told { IsToldBy entry.now reply.now }
        requires stop { IsOfStop (shown noticed.now.before) reply.now }
        ensures entries { self.new.entries ≡ self.old.entries ++ entry.now ∷ [] }
        ensures replies { self.new.replies ≡ self.old.replies ++ reply.now ∷ [] }
        ensures notes { self.new.notes
            ≡ self.old.notes ++ note_noticed noticed.now reply.now ∷ [] }
    {
        append(&mut self.entries, entry);
        let kept = keep(&mut self.wholes, self.mark, reply, noticed);
        append(&mut self.briefs, &kept.brief);
        self.sent = last_sent(reply, self.sent);
        self.room = self
            .notes
            .enter(noticed, reply, kept.tells_fact, self.room - 1);
        if self.entries.len() % BLOCK == 0 {
            append(&mut self.marks, &self.mark);
            self.mark = Mark {
                sent: self.sent,
                whole: self.wholes.len(),
            };
        }
    }
}
