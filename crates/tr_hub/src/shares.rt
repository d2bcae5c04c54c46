ghost use Rattle.std.specs.Prelude.{◌≡◌, ℕ, ◌+◌, ◌≤◌, ◌<◌};
ghost use Rattle.tr_hub.specs.Answers.{accepted_in, entries_in};

use std::marker::Brand;
use std::sync::ledger::{Blank, Book, Ledger, Share};
use tr_kernel::Answer;

/// A ledger whose type tells the number of its parts, and the start of its hub's kernel. A hub has two ledgers: one counts
/// entries, the other accepted signals.
pub trait Parts: Ledger {
    ghost use Rattle.tr_starts.specs.declared.starts.Start.{Start};

    ghost all: { ℕ };

    ghost opening: { Start };
}

impl Parts for Brand {
    ghost use Rattle.std.specs.Prelude.{[]};

    ghost all = { 0 };

    ghost opening = { record { groups = []; limit = 0; entries = 0 } };
}

/// Parts of both ledgers, and the amounts that stand on them.
#[derive(Drop)]
pub(crate) struct Shares<E: Parts, A: Parts> {
    pub(crate) entries: Share<E>,
    pub(crate) accepted: Share<A>,
}

impl<E: Parts, A: Parts> Shares<E, A> {
    /// One part of each ledger, on which nothing stands.
    pub(crate) fn split_part(&mut self) -> Shares<E, A>
        requires { (1 < self.old.entries.parts) × (1 < self.old.accepted.parts) }
        ensures parts { (result.entries.parts ≡ 1) × (result.accepted.parts ≡ 1) }
        ensures amounts { (result.entries.amount ≡ 0) × (result.accepted.amount ≡ 0) }
        ensures parts_left { (self.new.entries.parts + 1 ≡ self.old.entries.parts)
            × (self.new.accepted.parts + 1 ≡ self.old.accepted.parts) }
        ensures amounts_left { (self.new.entries.amount ≡ self.old.entries.amount)
            × (self.new.accepted.amount ≡ self.old.accepted.amount) }
    {
        Shares {
            entries: self.entries.split_off(1, 0),
            accepted: self.accepted.split_off(1, 0),
        }
    }

    /// No part, and no amount.
    pub(crate) fn empty(&mut self) -> Shares<E, A>
        ensures parts { (result.entries.parts ≡ 0) × (result.accepted.parts ≡ 0) }
        ensures amounts { (result.entries.amount ≡ 0) × (result.accepted.amount ≡ 0) }
        ensures same { self.new ≡ self.old }
    {
        Shares {
            entries: self.entries.empty(),
            accepted: self.accepted.empty(),
        }
    }

    /// Puts other parts to these.
    pub(crate) fn merge(&mut self, other: Shares<E, A>)
        ensures parts { (self.new.entries.parts ≡ self.old.entries.parts + other.entries.parts)
            × (self.new.accepted.parts ≡ self.old.accepted.parts + other.accepted.parts) }
        ensures amounts { (self.new.entries.amount ≡ self.old.entries.amount + other.entries.amount)
            × (self.new.accepted.amount ≡ self.old.accepted.amount + other.accepted.amount) }
        ensures apart { (self.new.entries.parts ≤ E.parts) × (self.new.accepted.parts ≤ A.parts) }
    {
        let Shares { entries, accepted } = other;
        self.entries.merge(entries);
        self.accepted.merge(accepted);
    }
}

/// The totals of both ledgers.
#[derive(Drop)]
pub(crate) struct Books<E: Parts, A: Parts> {
    pub(crate) entries: Book<E>,
    pub(crate) accepted: Book<A>,
}

impl<E: Parts, A: Parts> Books<E, A> {
    /// Opens both ledgers; all parts are in the shares.
    pub(crate) fn open(entries: Blank, accepted: Blank) -> (Books<E, A>, Shares<E, A>)
        requires entries { (entries.name ≡ E.name) × (entries.parts ≡ E.parts) }
        requires accepted { (accepted.name ≡ A.name) × (accepted.parts ≡ A.parts) }
        ensures totals { (result.0.entries.total ≡ 0) × (result.0.accepted.total ≡ 0) }
        ensures parts { (result.1.entries.parts ≡ E.parts) × (result.1.accepted.parts ≡ A.parts) }
        ensures amounts { (result.1.entries.amount ≡ 0) × (result.1.accepted.amount ≡ 0) }
    {
        let (entries, entry_parts) = entries.open::<E>();
        let (accepted, accepted_parts) = accepted.open::<A>();
        let shares = Shares {
            entries: entry_parts,
            accepted: accepted_parts,
        };
        (Books { entries, accepted }, shares)
    }

    /// Adds what an answer tells of to the totals and to the shares of the one who was answered.
    pub(crate) fn add(&mut self, shares: &mut Shares<E, A>, answer: &Answer)
        requires { (0 < shares.old.entries.parts) × (0 < shares.old.accepted.parts) }
        ensures totals { (self.new.entries.total ≡ self.old.entries.total + entries_in answer.now)
            × (self.new.accepted.total ≡ self.old.accepted.total + accepted_in answer.now) }
        ensures amounts { (shares.new.entries.amount
            ≡ shares.old.entries.amount + entries_in answer.now)
            × (shares.new.accepted.amount ≡ shares.old.accepted.amount + accepted_in answer.now) }
        ensures parts { (shares.new.entries.parts ≡ shares.old.entries.parts)
            × (shares.new.accepted.parts ≡ shares.old.accepted.parts) }
    {
        if let Answer::Entered(receipt) = answer {
            self.entries.add(&mut shares.entries, 1);
            self.accepted.add(&mut shares.accepted, receipt.accepted);
        }
    }

    /// Shows that the shares have the totals, if they have all parts.
    pub(crate) fn audit(&mut self, shares: &mut Shares<E, A>)
        ensures entries { shares.old.entries.parts ≡ E.parts
            → shares.old.entries.amount ≡ self.old.entries.total }
        ensures accepted { shares.old.accepted.parts ≡ A.parts
            → shares.old.accepted.amount ≡ self.old.accepted.total }
    {
        self.entries.audit(&mut shares.entries);
        self.accepted.audit(&mut shares.accepted);
    }
}
