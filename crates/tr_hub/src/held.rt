ghost use Rattle.std.specs.Prelude.{◌≡◌, ◌≢◌, ◌<◌, ◌⊎◌, [], length};
ghost use Rattle.tr_model.specs.declared.replies.Refusal.TheVariants.{NoMemory};
ghost use Rattle.tr_kernel.specs.declared.answers.Answer.TheVariants.{Refused};
ghost use Rattle.tr_kernel.specs.Answers.{IfEntered, IfRead, IfRefused, IsReceipt};
ghost use Rattle.tr_kernel.specs.States.{IsEntered, IsQuiet, IsRefusal};
ghost use Rattle.tr_hub.specs.Answers.{asked_after};
ghost use Rattle.tr_hub.specs.Kept.{IsKept, kept_in};
ghost use Rattle.tr_hub.specs.Seats.{seat_after};

use crate::answers::{Asked, keep};
use crate::seats::Seat;
use crate::shares::{Books, Parts, Shares};
use std::alloc::Global;
use std::marker::Model;
use std::mem;
use tr_kernel::{Answer, Kernel};
use tr_model::{Event, Refusal};

/// What the lock of a hub keeps: a kernel, the books of its entries and of the signals that they accepted, and every
/// answer without an entry.
#[derive(Drop)]
pub struct Held<E: Parts, A: Parts> {
    kernel: Kernel,
    books: Books<E, A>,
    asked: Vec<Asked>,
    /// Somebody waits for an entry, and none came since.
    awaited: bool,
    /// The hub's own part of each ledger, on which nothing stands.
    own: Shares<E, A>,
}

impl<E: Parts, A: Parts> Model for Held<E, A> {
    ghost use Rattle.std.specs.Prelude.{◌≡◌, ◌-◌, length, vec_capacity, vec_len};
    ghost use Rattle.tr_hub.specs.Kept.{IsKept, Locked};

    ghost Value = { Locked };

    ghost view = { λ h. record {
      kernel = h.kernel;
      asked = h.asked.items;
      room = vec_capacity h.asked - vec_len h.asked;
    } };

    ghost invariant = { λ h.
        IsKept (record { kernel = h.kernel; asked = h.asked.items })
        × (h.books.entries.total ≡ length h.kernel.journal)
        × (h.books.accepted.total ≡ h.kernel.table.accepted)
        × (h.own.entries.parts ≡ 1) × (h.own.entries.amount ≡ 0)
        × (h.own.accepted.parts ≡ 1) × (h.own.accepted.amount ≡ 0)
        × (h.kernel.start ≡ E.opening) };
}

/// What is left when the lock is gone.
#[derive(Drop)]
pub(crate) struct Opened<E: Parts, A: Parts> {
    pub(crate) kernel: Kernel,
    pub(crate) books: Books<E, A>,
    pub(crate) asked: Vec<Asked>,
    pub(crate) own: Shares<E, A>,
}

impl<E: Parts, A: Parts> Held<E, A> {
    /// Nothing was entered or asked so far.
    pub(crate) fn new(
        alloc: Global,
        kernel: Kernel,
        books: Books<E, A>,
        own: Shares<E, A>,
    ) -> Held<E, A>
        requires empty { kernel.journal ≡ [] }
        requires start { kernel.start ≡ E.opening }
        requires totals { (books.entries.total ≡ 0) × (books.accepted.total ≡ 0) }
        requires parts { (own.entries.parts ≡ 1) × (own.accepted.parts ≡ 1) }
        requires amounts { (own.entries.amount ≡ 0) × (own.accepted.amount ≡ 0) }
        ensures { (result.kernel ≡ kernel) × (result.asked ≡ []) }
    {
        let _history = kernel.journal();
        Held {
            kernel,
            books,
            asked: Vec::new(alloc),
            awaited: false,
            own,
        }
    }

    /// Its parts, with what they have kept.
    pub(crate) fn open(self) -> Opened<E, A>
        ensures kept { IsKept (record { kernel = result.kernel; asked = result.asked.items }) }
        ensures start { result.kernel.start ≡ E.opening }
        ensures same { (result.kernel ≡ self.kernel) × (result.asked.items ≡ self.asked) }
        ensures entries { result.books.entries.total ≡ length result.kernel.journal }
        ensures accepted { result.books.accepted.total ≡ result.kernel.table.accepted }
        ensures parts { (result.own.entries.parts ≡ 1) × (result.own.accepted.parts ≡ 1) }
        ensures amounts { (result.own.entries.amount ≡ 0) × (result.own.accepted.amount ≡ 0) }
    {
        let Held {
            kernel,
            books,
            asked,
            awaited: _,
            own,
        } = self;
        Opened {
            kernel,
            books,
            asked,
            own,
        }
    }

    /// One event of a seat's actor: what each call of a hub does under the lock.
    ///
    /// `Refused(NoMemory)` comes where there was no room for the answer and more was refused, or as from `Kernel::call`; then
    /// nothing has changed but the seat's number of calls. Every other answer is the kernel's: an entry with its receipt,
    /// which is added to the seat, or a reply or refusal that the model gives on the table held, which is written down at the
    /// journal's length.
    pub fn step(&mut self, seat: &mut Seat<E, A>, event: Event) -> Answer
        ensures seat { seat.new ≡ seat_after seat.old result }
        ensures asked { self.new.asked
            ≡ asked_after self.old.asked seat.old.actor event
            (length self.old.kernel.journal) result }
        ensures entered { IfEntered result
            (λ r. IsEntered self.old.kernel seat.old.actor event r.reply self.new.kernel) }
        ensures room { IfEntered result
            (λ _. length self.old.kernel.journal < self.old.kernel.table.entries) }
        ensures receipt { IfEntered result
            (λ r. IsReceipt r event self.old.kernel self.new.kernel) }
        ensures read { IfRead result
            (λ reply. IsQuiet self.old.kernel seat.old.actor event reply self.new.kernel) }
        ensures refused { IfRefused result
            (λ why. why ≢ Refusal.NoMemory → IsRefusal self.old.kernel seat.old.actor event why) }
        ensures memory { result ≡ Refused NoMemory
            → (self.old.room ≡ 0) ⊎ IsRefusal self.old.kernel seat.old.actor event NoMemory }
        ensures unchanged { IfRefused result (λ _. self.new.kernel ≡ self.old.kernel) }
        ensures kept { IsKept (kept_in self.new) }
    {
        if self.asked.reserve(1).is_err() {
            let answer = Answer::Refused(Refusal::NoMemory);
            seat.add(&mut self.books, &answer);
            return answer;
        }
        let actor = seat.actor();
        let position = self.kernel.position();
        let answer = self.kernel.call(actor, event);
        keep(&mut self.asked, actor, &event, position, &answer);
        seat.add(&mut self.books, &answer);
        answer
    }

    /// Notes that the caller is about to wait for an entry.
    pub(crate) fn await_entry(&mut self)
        ensures { self.new ≡ self.old }
    {
        self.awaited = true;
    }

    /// Whether this answer tells of an entry that somebody waits for. It is no longer waited for then.
    pub(crate) fn take_awaited(&mut self, answer: &Answer) -> bool
        ensures { self.new ≡ self.old }
    {
        answer.is_entered() && mem::take(&mut self.awaited)
    }
}

#[cfg(test)]
impl<E: Parts, A: Parts> Held<E, A> {
    /// How many answers without an entry there were so far.
    pub(crate) fn asked_count(&self) -> usize {
        self.asked.len()
    }
}
