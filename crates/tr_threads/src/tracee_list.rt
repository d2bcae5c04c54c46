ghost use Rattle.std.specs.Prelude.{◌≡◌, ℕ, ◌<◌, ◌≤◌, [], OnOk, Some, filter, if◌then◌else◌, leb, length, nat_lt, option_copied, remove, true, vec_capacity};
ghost use Rattle.std.specs.List.{insert, list_any};
ghost use Rattle.std.specs.List.Sorted.{IsPartitionedBy};
ghost use Rattle.tr_threads.specs.TraceeLists.{MayRelist, Rises, is_before, is_under, is_under_if, rank, relisted, stands_before, with_last};

use std::alloc::{AllocError, Global};
use tr_index::Index;

/// A thread, as it is listed under its tracer.
#[derive(Clone, Copy, Debug)]
pub struct Listed {
    pub tracer: u32,
    pub id: u32,
}

/// Threads, each under its tracer: by the tracers' ids, and those of one tracer in table order.
#[derive(Drop)]
pub(crate) struct TraceeList {
    pub(crate) rows: Vec<Listed>,
}

/// Whether the record of an id stands before a place.
fn is_before(index: &Index, place: usize, id: u32) -> bool
    ensures { result ≡ is_before index.now place id }
{
    match index.place(id) {
        Some(at) => at < place,
        None => false,
    }
}

/// Whether a row stands before those of a tracer's threads from a place on.
fn stands_before(row: &Listed, index: &Index, tracer: u32, place: usize) -> bool
    ensures { result ≡ stands_before index.now tracer place row.now }
{
    if row.tracer == tracer {
        is_before(index, place, row.id)
    } else {
        row.tracer < tracer
    }
}

/// How many rows do.
fn rank(rows: &[Listed], index: &Index, tracer: u32, place: usize) -> usize
    requires { IsPartitionedBy (stands_before index.now tracer place) rows.now }
    ensures { result ≡ rank index.now tracer place rows.now }
{
    rows.partition_point(|row| stands_before(row, index, tracer, place))
}

/// The row of the tracer's thread at a place goes.
fn take_out(rows: &mut Vec<Listed>, index: &Index, tracer: u32, place: usize)
    requires parted { IsPartitionedBy (stands_before index.now tracer place) rows.old.items }
    requires there { rank index.now tracer place rows.old.items < length rows.old.items }
    ensures items { rows.new.items
        ≡ remove rows.old.items (rank index.now tracer place rows.old.items) }
    ensures capacity { vec_capacity rows.new ≡ vec_capacity rows.old }
{
    // Mostly it is the only one.
    let rank = if rows.len() == 1 {
        0
    } else {
        rank(rows, index, tracer, place)
    };
    if rank + 1 == rows.len() {
        let _last = rows.pop();
    } else {
        let _row = rows.remove(rank);
    }
}

/// Whether all rows stand before those of a tracer's threads from a place on.
fn all_stand_before(rows: &[Listed], index: &Index, tracer: u32, place: usize) -> bool
    requires { IsPartitionedBy (stands_before index.now tracer place) rows.now }
    ensures { result ≡ true → rank index.now tracer place rows.now ≡ length rows.now }
{
    match rows.last() {
        Some(last) => stands_before(last, index, tracer, place),
        None => true,
    }
}

/// A row of the thread at a place comes.
fn put_in(rows: &mut Vec<Listed>, index: &Index, row: Listed, place: usize)
    requires parted { IsPartitionedBy (stands_before index.now row.tracer place) rows.old.items }
    requires room { length rows.old.items < vec_capacity rows.old }
    ensures items { rows.new.items
        ≡ insert rows.old.items (rank index.now row.tracer place rows.old.items) row }
    ensures capacity { vec_capacity rows.new ≡ vec_capacity rows.old }
{
    // Mostly it comes last.
    if all_stand_before(rows, index, row.tracer, place) {
        rows.push_reserved(row);
    } else {
        let rank = rank(rows, index, row.tracer, place);
        let _inserted = rows.insert(rank, row);
    }
}

/// Whether there is a row, and it is the actor's.
fn is_under(row: Option<&Listed>, actor: u32) -> bool
    ensures { result ≡ is_under_if actor (option_copied row.entry) }
{
    match row {
        Some(row) => row.tracer == actor,
        None => false,
    }
}

/// How many rows are of tracers below the actor, of rows that rise.
fn count_below(rows: &[Listed], actor: u32) -> usize
    requires { Rises rows.now }
    ensures count { result ≡ length (filter (λ l. nat_lt l.tracer actor) rows.now) }
    ensures bound { result ≤ length rows.now }
{
    rows.partition_point(|row| row.tracer < actor)
}

/// How many are of tracers up to it.
fn count_up_to(rows: &[Listed], actor: u32) -> usize
    requires { Rises rows.now }
    ensures count { result ≡ length (filter (λ l. leb l.tracer actor) rows.now) }
    ensures bound { result ≤ length rows.now }
{
    rows.partition_point(|row| row.tracer <= actor)
}

/// A row comes after all that are of tracers up to its own, of rows that rise.
fn push_row(rows: &mut Vec<Listed>, row: Listed)
    requires rises { Rises rows.old.items }
    requires room { length rows.old.items < vec_capacity rows.old }
    ensures items { rows.new.items
        ≡ insert rows.old.items
        (length (filter (λ l. leb l.tracer row.tracer) rows.old.items)) row }
    ensures capacity { vec_capacity rows.new ≡ vec_capacity rows.old }
{
    let end = count_up_to(rows, row.tracer);
    if end == rows.len() {
        rows.push_reserved(row);
    } else {
        let _inserted = rows.insert(end, row);
    }
}

impl TraceeList {
    pub(crate) fn new(alloc: Global) -> TraceeList
        ensures { result.rows.items ≡ [] }
    {
        TraceeList {
            rows: Vec::new(alloc),
        }
    }

    /// Makes places for so many threads. Those that are listed stay.
    pub(crate) fn reserve(&mut self, count: usize) -> Result<(), AllocError>
        ensures rows { self.new.rows.items ≡ self.old.rows.items }
        ensures places { vec_capacity self.old.rows ≤ vec_capacity self.new.rows }
        ensures ok { OnOk result (count ≤ vec_capacity self.new.rows) }
    {
        self.rows.reserve(count.saturating_sub(self.rows.len()))
    }

    /// Whether the actor has a row.
    pub(crate) fn contains(&self, actor: u32) -> bool
        requires { Rises self.now.rows.items }
        ensures { result ≡ list_any (is_under actor) self.now.rows.items }
    {
        let rows = self.rows.as_slice();
        // Mostly the first one is.
        if is_under(rows.first(), actor) {
            return true;
        }
        let start = count_below(rows, actor);
        start < rows.len() && rows[start].tracer == actor
    }

    /// The actor's rows, in table order.
    pub(crate) fn under(&self, actor: u32) -> &[Listed]
        requires { Rises self.now.rows.items }
        ensures { result.now ≡ filter (is_under actor) self.now.rows.items }
    {
        let rows = self.rows.as_slice();
        // Mostly all are the actor's.
        if is_under(rows.first(), actor) && is_under(rows.last(), actor) {
            return rows;
        }
        let start = count_below(rows, actor);
        let end = count_up_to(rows, actor);
        &rows[start..end]
    }

    /// A thread that comes last is listed, where somebody traces it.
    pub(crate) fn push(&mut self, tracer: Option<u32>, id: u32)
        requires rises { Rises self.old.rows.items }
        requires room { length self.old.rows.items < vec_capacity self.old.rows }
        ensures rows { self.new.rows.items ≡ with_last tracer id self.old.rows.items }
        ensures places { vec_capacity self.new.rows ≡ vec_capacity self.old.rows }
    {
        if let Some(tracer) = tracer {
            push_row(&mut self.rows, Listed { tracer, id });
        }
    }

    /// The thread at a place is listed under the one tracer no more, and under the other from now on.
    #[inline(always)]
    pub(crate) fn relist(
        &mut self,
        index: &Index,
        place: usize,
        id: u32,
        before: Option<u32>,
        after: Option<u32>,
    )
        requires { MayRelist index.now place before after self.old.rows.items
            (vec_capacity self.old.rows) }
        ensures rows { self.new.rows.items
            ≡ relisted index.now place id before after self.old.rows.items }
        ensures places { vec_capacity self.new.rows ≡ vec_capacity self.old.rows }
    {
        if before == after {
            return;
        }
        if let Some(tracer) = before {
            take_out(&mut self.rows, index, tracer, place);
        }
        if let Some(tracer) = after {
            put_in(&mut self.rows, index, Listed { tracer, id }, place);
        }
    }
}
