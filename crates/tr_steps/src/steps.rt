ghost use Rattle.std.specs.Prelude.{◌≡◌, ◌+◌, ◌-◌, ◌^◌, ◌≤◌, IfSome, None, OnOk, Some, false, length, min, true};
ghost use Rattle.std.specs.Option.{SomeIff};
ghost use Rattle.tr_model.specs.Moves.{begin};
ghost use Rattle.tr_model.specs.Tables.{thread_of};
ghost use Rattle.tr_steps.specs.Places.{CanNumber};
ghost use Rattle.tr_steps.specs.UnderWay.{begun, news_of};

use crate::news::News;
use std::alloc::{AllocError, Global};
use std::marker::Model;
use tr_model::{Ending, Target};
use tr_table::Table;
use tr_tracee::Thread;

/// A step under way: the table, and what the step did so far. Between two steps, what the last one did.
pub struct Step {
    pub(crate) table: Table,
    pub(crate) ended: Vec<Ending>,
    pub(crate) news: News,
    /// For how many more moves there is a place in each list. 0 between two steps.
    pub(crate) room: usize,
}

impl Drop for Step {
    fn drop(self) {
        let Step {
            table: _,
            ended: _,
            news: _,
            room: _,
        } = self;
    }
}

impl Model for Step {
    ghost use Rattle.tr_steps.specs.UnderWay.{UnderWay};

    ghost Value = { UnderWay };

    ghost use Rattle.tr_steps.specs.Places.{HasPlaces, seen};

    ghost view = { seen };

    ghost invariant = { HasPlaces };
}

/// How many moves a step of n moves has with one more for each group. None where so many signals or reports can't be
/// numbered any more, which a kernel's entry limit rules out.
fn all_moves(table: &Table, n: usize) -> Option<usize>
    ensures { SomeIff result (CanNumber table.now.table (length table.now.table.groups + n))
        (length table.now.table.groups + n) }
{
    let moves = table.groups().len().checked_add(n)?;
    let _accepted = table.accepted().checked_add(moves as u64)?;
    let _raised = table.raised().checked_add(moves as u64)?;
    Some(moves)
}

impl Step {
    /// No step has begun yet at this table. It takes no memory.
    pub fn new(table: Table, alloc: Global) -> Step
        ensures { result ≡ begun table.table }
    {
        Step {
            table,
            ended: Vec::new(alloc),
            news: News::new(alloc),
            room: 0,
        }
    }

    /// The table as it stands.
    pub fn table(&self) -> &Table
        ensures { result.now.table ≡ self.now.work.table }
    {
        &self.table
    }

    /// The record of a thread, as it stands.
    pub fn thread(&self, id: u32) -> Option<Thread>
        ensures found { result ≡ thread_of self.now.work.table id }
        ensures own_id { IfSome result (λ t. thread_of self.now.work.table t.id ≡ Some t) }
    {
        self.table.find(id).copied()
    }

    /// The instances that the step ended, and how, in order.
    pub fn ended(&self) -> &[Ending]
        ensures { result.now ≡ self.now.work.ended }
    {
        self.ended.as_slice()
    }

    /// What else it did.
    pub fn news(&self) -> &News
        ensures { result.now.news ≡ news_of self.now }
    {
        &self.news
    }

    /// Writes down whose queue this step, a take, takes from.
    pub fn take_from(&mut self, queue: Target)
        ensures { self.new ≡ record self.old { taken_from = Some queue } }
    {
        self.news.take_from(queue);
    }

    /// The number that the next accepted signal gets.
    pub fn next_number(&self) -> u64
        requires { 1 ≤ self.now.room }
        ensures { result ≡ self.now.work.table.accepted + 1 }
    {
        self.table.accepted() + 1
    }

    /// Begins a step, with places for n moves and one more for each group. Where memory is refused, or the numbers are
    /// used up, the table stays as it was.
    pub fn begin(&mut self, n: usize) -> Result<(), AllocError>
        ensures work { self.new.work ≡ begin self.old.work.table }
        ensures taken_from { self.new.taken_from ≡ None }
        ensures room { OnOk result (length self.new.work.table.groups + n ≤ self.new.room) }
    {
        self.clear();
        let moves = all_moves(&self.table, n).ok_or(AllocError)?;
        if self.reuse(moves) {
            return Ok(());
        }
        self.grow(moves)
    }

    fn clear(&mut self)
        ensures { self.new ≡ begun self.old.work.table }
    {
        self.room = 0;
        self.ended.clear();
        self.news.clear();
    }

    /// How much may end in a step of so many moves: all that waits, what each thread may hold, and what the moves accept.
    fn most_ended(&self, moves: usize) -> usize
        ensures { result ≡ min (2 ^ 64 - 1) (length self.now.work.table.waiting
            + length self.now.work.table.threads + moves) }
    {
        self.table
            .queued()
            .saturating_add(self.table.thread_count())
            .saturating_add(moves)
    }

    /// Takes the places that earlier steps have left in an empty log, where they are enough for so many moves.
    #[inline(always)]
    fn reuse(&mut self, moves: usize) -> bool
        requires empty { self.old ≡ begun self.old.work.table }
        requires numbers { CanNumber self.old.work.table moves }
        ensures work { self.new.work ≡ self.old.work }
        ensures taken_from { self.new.taken_from ≡ self.old.taken_from }
        ensures room { result ≡ true → self.new.room ≡ moves }
        ensures unchanged { result ≡ false → self.new ≡ self.old }
    {
        if !self.news.has_places(moves) || self.ended.capacity() < self.most_ended(moves) {
            return false;
        }
        if !self.table.has_room(moves) {
            return false;
        }
        self.room = moves;
        true
    }

    /// Places in an empty log for all that so many moves may log, and in the table for all that they may queue.
    #[cold]
    #[inline(never)]
    fn grow(&mut self, moves: usize) -> Result<(), AllocError>
        requires empty { self.old ≡ begun self.old.work.table }
        requires numbers { CanNumber self.old.work.table moves }
        ensures work { self.new.work ≡ self.old.work }
        ensures taken_from { self.new.taken_from ≡ self.old.taken_from }
        ensures room { OnOk result (self.new.room ≡ moves) }
    {
        let can_end = self.most_ended(moves);
        self.ended.reserve(can_end)?;
        self.news.reserve(moves)?;
        self.table.reserve(moves)?;
        self.room = moves;
        Ok(())
    }
}
