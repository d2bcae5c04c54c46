ghost use Rattle.std.specs.Prelude.{◌≡◌, ℕ, ◌≤◌, ◌<◌, ◌+◌, ◌↔◌, [], length, map, sum_by, vec_len, IfOk, IfErr, IsErr, IsErrOf, IsTrue};
ghost use Rattle.tr_kernel.specs.Answers.{IfEntered, IfRead};
ghost use Rattle.tr_hub.specs.Answers.{is_kept};
ghost use Rattle.tr_hub.specs.Kept.{IsKept, IsPossible};
ghost use Rattle.tr_hub.specs.Seats.{HasRepeat, HasTried, event_of, new_seat, seat_after};

use crate::answers::Asked;
use crate::held::{Held, Opened};
use crate::seats::{Seat, gathered, has_repeat, seated};
use crate::shares::{Books, Parts};
use crate::waits::WaitCall;
use std::alloc::Global;
use std::marker::Model;
use std::sync::ledger::Blank;
use std::sync::{Condvar, Mutex, MutexGuard, Wait};
use tr_kernel::{Answer, Kernel};
use tr_model::{Event, Reply};

/// Why a kernel can't be put under a lock.
#[derive(Clone, Copy, Debug, PartialEq, Eq)]
pub enum HubFault {
    /// Two actors are equal.
    Repeated,
    /// Memory was refused.
    NoMemory,
}

/// A kernel under a lock, called from seats. Contracts see it as the number of its seats: of what lies behind the lock
/// `Held` tells.
#[derive(Drop)]
pub struct Hub<E: Parts, A: Parts> {
    changed: Condvar,
    held: Mutex<Held<E, A>>,
    seats: usize,
}

impl<E: Parts, A: Parts> Model for Hub<E, A> {
    ghost Value = { ℕ };

    ghost view = { λ h. h.seats };

    ghost invariant = { (λ h. (E.all ≡ h.seats + 1) × (A.all ≡ h.seats + 1)) };
}

/// A hub that wasn't closed, and the seats that it was to be closed with.
#[derive(Drop)]
pub struct Unclosed<E: Parts, A: Parts> {
    pub hub: Hub<E, A>,
    pub seats: Vec<Seat<E, A>>,
}

impl<E: Parts, A: Parts> Hub<E, A> {
    /// Puts a kernel with an empty journal under a lock, and gives each actor a seat, in order. Each ledger has one part
    /// for each seat and one for the hub. `Repeated` comes exactly where two actors are equal. A fault drops the kernel.
    pub fn new(
        alloc: Global,
        entries: Blank,
        accepted: Blank,
        kernel: Kernel,
        actors: &[u32],
    ) -> Result<(Hub<E, A>, Vec<Seat<E, A>>), HubFault>
        requires empty { kernel.journal ≡ [] }
        requires start { kernel.start ≡ E.opening }
        requires entries { (entries.name ≡ E.name)
            × (entries.parts ≡ E.parts)
            × (E.all ≡ E.parts)
            × (E.all ≡ length actors.now + 1) }
        requires accepted { (accepted.name ≡ A.name)
            × (accepted.parts ≡ A.parts)
            × (A.all ≡ A.parts)
            × (A.all ≡ length actors.now + 1) }
        ensures seats { IfOk result
            (λ r. (r.0 ≡ length actors.now) × (r.1.items ≡ map new_seat actors.now)) }
        ensures repeated { HasRepeat actors.now ↔ IsErrOf result HubFault.Repeated }
    {
        if has_repeat(actors) {
            return Err(HubFault::Repeated);
        }
        let (books, mut own) = Books::open(entries, accepted);
        let Ok(seats) = seated(alloc, actors, &mut own) else {
            return Err(HubFault::NoMemory);
        };
        let hub = Hub {
            changed: Condvar::new(),
            held: Mutex::new(Held::new(alloc, kernel, books, own)),
            seats: actors.len(),
        };
        Ok((hub, seats))
    }

    /// One event of a seat's actor, by `Held::step` under the lock, which is held for that step alone.
    ///
    /// The seat counts the call. An entry adds one, and the signals that it accepted, to the seat, and wakes all that wait; any
    /// other answer adds nothing else. A reply, or a refusal but for want of memory, is one that some kernel gives. That it is of this
    /// kernel, and that the entry behind a receipt is the receipt's, no clause here can say: tests show it, and of many calls
    /// the sums at `close`.
    pub fn call<R: Wait>(&self, rt: &R, seat: &mut Seat<E, A>, event: Event) -> Answer
        ensures seat { seat.new ≡ seat_after seat.old result }
        ensures receipt { IfEntered result (λ r. (r.event ≡ event) × (r.accepted ≤ 1024)) }
        ensures possible { IsTrue (is_kept result) → IsPossible seat.old.actor event result }
    {
        let mut held = self.held.lock(rt);
        let answer = held.step(seat, event);
        self.release(held, &answer);
        answer
    }

    /// Tries a wait at most `turns` times, and waits for another entry between two tries; the first answer that isn't
    /// `Nothing`, or the last one. With 0 turns that is `Nothing`.
    ///
    /// A try is a `call`, but that the lock is held from the try until it waits; the seat counts each. That the answers before
    /// the last were `Nothing`, and that a waiter waits and wakes, only tests show.
    pub fn wait_for<R: Wait>(
        &self,
        rt: &R,
        seat: &mut Seat<E, A>,
        what: WaitCall,
        turns: u64,
    ) -> Answer
        ensures tried { HasTried turns seat.old seat.new result }
        ensures receipt { IfEntered result (λ r. (r.event ≡ event_of what) × (r.accepted ≤ 1024)) }
        ensures read { IfRead result (λ reply. reply ≡ Reply.Nothing) }
        ensures possible { 0 < turns
            → IsTrue (is_kept result)
            → IsPossible seat.old.actor (event_of what) result }
        ensures none { turns ≡ 0 → result ≡ Answer.Read Reply.Nothing }
    {
        let event = what.event();
        let mut guard = self.held.lock(rt);
        for turn in 0..turns {
            if turn > 0 {
                guard.await_entry();
                guard = self.changed.wait(rt, guard);
            }
            let answer = guard.step(seat, event);
            match &answer {
                Answer::Read(_) => {}
                Answer::Refused(_) => return answer,
                Answer::Entered(_) => {
                    self.release(guard, &answer);
                    return answer;
                }
            }
        }
        Answer::Read(Reply::Nothing)
    }

    /// Gives the lock back, and wakes all that wait where this answer tells of an entry.
    fn release(&self, mut held: MutexGuard<'_, Held<E, A>>, answer: &Answer) {
        let awaited = held.take_awaited(answer);
        drop(held);
        if awaited {
            self.changed.notify_all();
        }
    }

    /// Takes the kernel from behind the lock once all seats are back, with the answers that made no entry.
    ///
    /// The seats' entries are those of the journal, and their accepted signals those of the table. `Unclosed` comes
    /// exactly where the seats are fewer than `new` gave; it hands hub and seats back.
    pub fn close(self, seats: Vec<Seat<E, A>>) -> Result<(Kernel, Vec<Asked>), Unclosed<E, A>>
        requires { (E.all ≡ E.parts) × (A.all ≡ A.parts) }
        ensures kept { IfOk result (λ r. IsKept (record { kernel = r.0; asked = r.1.items })) }
        ensures start { IfOk result (λ r. r.0.start ≡ E.opening) }
        ensures entries { IfOk result
            (λ r. length r.0.journal ≡ sum_by (λ s. s.entries) seats.items) }
        ensures accepted { IfOk result
            (λ r. r.0.table.accepted ≡ sum_by (λ s. s.accepted) seats.items) }
        ensures unclosed { IfErr result (λ u. (u.hub ≡ self) × (u.seats.items ≡ seats.items)) }
        ensures exactly { IsErr result ↔ (vec_len seats < self) }
    {
        if seats.len() < self.seats {
            return Err(Unclosed { hub: self, seats });
        }
        let Hub {
            changed: _,
            held,
            seats: _,
        } = self;
        let Opened {
            kernel,
            mut books,
            asked,
            own,
        } = held.into_inner().open();
        let mut shares = gathered(seats, own);
        books.audit(&mut shares);
        Ok((kernel, asked))
    }
}

#[cfg(test)]
impl<E: Parts, A: Parts> Hub<E, A> {
    /// How many answers without an entry there were so far.
    pub(crate) fn asked<R: Wait>(&self, rt: &R) -> usize {
        self.held.lock(rt).asked_count()
    }
}
