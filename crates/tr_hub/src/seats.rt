ghost use Rattle.std.specs.Prelude.{◌≡◌, ◌+◌, ◌≤◌, IfOk, IsTrue, ◌↔◌, length, map, sum_by, vec_len};
ghost use Rattle.tr_hub.specs.Answers.{accepted_in, entries_in};
ghost use Rattle.tr_hub.specs.Seats.{HasRepeat, new_seat, seat_after};

use crate::shares::{Books, Parts, Shares};
use std::alloc::{AllocError, Global};
use std::marker::Model;
use tr_kernel::Answer;

/// The right of one actor to call a hub, and the account of what was called and entered from it. Contracts see it as its
/// actor, its numbers of calls and of entries, and the number of signals that these accepted.
#[derive(Drop)]
pub struct Seat<E: Parts, A: Parts> {
    actor: u32,
    calls: u64,
    shares: Shares<E, A>,
}

impl<E: Parts, A: Parts> Model for Seat<E, A> {
    ghost use Rattle.std.specs.Prelude.{◌≡◌};
    ghost use Rattle.tr_hub.specs.Seats.{SeatState};

    ghost Value = { SeatState };

    ghost view = { λ s. record {
      actor = s.actor;
      calls = s.calls;
      entries = s.shares.entries.amount;
      accepted = s.shares.accepted.amount;
    } };

    ghost invariant = { λ s. (s.shares.entries.parts ≡ 1) × (s.shares.accepted.parts ≡ 1) };
}

impl<E: Parts, A: Parts> Seat<E, A> {
    /// A seat with one part of each ledger.
    pub(crate) fn new(actor: u32, shares: Shares<E, A>) -> Seat<E, A>
        requires { (shares.entries.parts ≡ 1) × (shares.accepted.parts ≡ 1) }
        ensures { result
            ≡ record {
              actor = actor;
              calls = 0;
              entries = shares.entries.amount;
              accepted = shares.accepted.amount;
            } }
    {
        Seat {
            actor,
            calls: 0,
            shares,
        }
    }

    /// Whose calls are made from it.
    pub fn actor(&self) -> u32
        ensures { result ≡ self.now.actor }
    {
        self.actor
    }

    /// How many calls were made from it, of whatever answer; all numbers from 2^64 - 1 up are told as that one.
    pub fn calls(&self) -> u64
        ensures { result ≡ self.now.calls }
    {
        self.calls
    }

    /// Counts a call, and writes its answer down in the books and in the seat's own shares.
    pub(crate) fn add(&mut self, books: &mut Books<E, A>, answer: &Answer)
        ensures seat { self.new ≡ seat_after self.old answer.now }
        ensures entries { books.new.entries.total
            ≡ books.old.entries.total + entries_in answer.now }
        ensures accepted { books.new.accepted.total
            ≡ books.old.accepted.total + accepted_in answer.now }
    {
        self.calls = self.calls.saturating_add(1);
        books.add(&mut self.shares, answer);
    }

    /// Puts the seat's parts to others.
    pub(crate) fn give_up(self, shares: &mut Shares<E, A>)
        ensures parts { (shares.new.entries.parts ≡ shares.old.entries.parts + 1)
            × (shares.new.accepted.parts ≡ shares.old.accepted.parts + 1) }
        ensures amounts { (shares.new.entries.amount ≡ shares.old.entries.amount + self.entries)
            × (shares.new.accepted.amount ≡ shares.old.accepted.amount + self.accepted) }
        ensures apart { (shares.new.entries.parts ≤ E.parts)
            × (shares.new.accepted.parts ≤ A.parts) }
    {
        let Seat {
            actor: _,
            calls: _,
            shares: mine,
        } = self;
        shares.merge(mine);
    }
}

/// Whether an actor stands twice.
pub(crate) fn has_repeat(actors: &[u32]) -> bool
    ensures { IsTrue result ↔ HasRepeat actors.now }
{
    let mut left = actors;
    while let Some((first, rest)) = left.split_first() {
        if rest.contains(first) {
            return true;
        }
        left = rest;
    }
    false
}

/// A seat for each actor, in order. One part of each ledger is left.
pub(crate) fn seated<E: Parts, A: Parts>(
    alloc: Global,
    actors: &[u32],
    shares: &mut Shares<E, A>,
) -> Result<Vec<Seat<E, A>>, AllocError>
    requires parts { (shares.old.entries.parts ≡ length actors.now + 1)
        × (shares.old.accepted.parts ≡ length actors.now + 1) }
    requires amounts { (shares.old.entries.amount ≡ 0) × (shares.old.accepted.amount ≡ 0) }
    ensures seats { IfOk result (λ seats. seats.items ≡ map new_seat actors.now) }
    ensures parts { IfOk result
        (λ _. (shares.new.entries.parts ≡ 1) × (shares.new.accepted.parts ≡ 1)) }
    ensures amounts { IfOk result
        (λ _. (shares.new.entries.amount ≡ 0) × (shares.new.accepted.amount ≡ 0)) }
{
    let mut seats = Vec::new(alloc);
    for actor in actors {
        seats.push(Seat::new(*actor, shares.split_part()))?;
    }
    Ok(seats)
}

/// The parts of all seats and these.
pub(crate) fn gathered<E: Parts, A: Parts>(
    mut seats: Vec<Seat<E, A>>,
    mut shares: Shares<E, A>,
) -> Shares<E, A>
    requires parts { (shares.entries.parts ≡ 1) × (shares.accepted.parts ≡ 1) }
    requires amounts { (shares.entries.amount ≡ 0) × (shares.accepted.amount ≡ 0) }
    ensures parts { (result.entries.parts ≡ vec_len seats + 1)
        × (result.accepted.parts ≡ vec_len seats + 1) }
    ensures entries { result.entries.amount ≡ sum_by (λ s. s.entries) seats.items }
    ensures accepted { result.accepted.amount ≡ sum_by (λ s. s.accepted) seats.items }
    ensures apart { (result.entries.parts ≤ E.parts) × (result.accepted.parts ≤ A.parts) }
{
    let none = shares.empty();
    shares.merge(none);
    while let Some(seat) = seats.pop() {
        seat.give_up(&mut shares);
    }
    shares
}
