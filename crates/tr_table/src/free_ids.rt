ghost use Rattle.std.specs.Prelude.{◌≡◌, ◌+◌, ◌-◌, ◌<◌, None, length, true};
ghost use Rattle.tr_model.specs.Preferred.{least_new, new_id, or_from_2};
ghost use Rattle.tr_model.specs.Steps.{is_new};
ghost use Rattle.tr_table.specs.Changes.{ids_table};

use crate::group_list::Groups;
use crate::table::Table;
use tr_model::GREATEST_ID;
use tr_threads::Threads;

// Which id a new thread gets. No call here takes memory.

impl Table {
    /// The least id above this one that is no thread's and no group's, past the greatest id from 2 up; 0 where all are
    /// taken, which can't be with fewer than 1,024 threads.
    pub fn free_id(&self, above: u32) -> u32
        ensures free { result ≡ new_id self.now.table above }
        ensures new { length self.now.table.threads < 1024 → is_new self.now.table result ≡ true }
    {
        free_in(&self.threads, &self.groups, above)
    }
}

pub(crate) fn is_new(threads: &Threads, groups: &Groups, id: u32) -> bool
    ensures { result ≡ is_new (ids_table threads.now groups.now) id }
{
    id >= 2 && id <= GREATEST_ID && threads.find(id).is_none() && groups.find(id).is_none()
}

/// The least new id from this one on.
fn least_new(threads: &Threads, groups: &Groups, from: u32) -> Option<u32>
    ensures { result ≡ least_new (ids_table threads.now groups.now) (4194304 - from) from }
{
    for id in from..GREATEST_ID + 1 {
        if is_new(threads, groups, id) {
            return Some(id);
        }
    }
    None
}

/// The least new id above this one.
fn least_above(threads: &Threads, groups: &Groups, above: u32) -> Option<u32>
    ensures { result ≡ least_new (ids_table threads.now groups.now) (4194303 - above) (above + 1) }
{
    if above < GREATEST_ID {
        least_new(threads, groups, above + 1)
    } else {
        None
    }
}

fn free_in(threads: &Threads, groups: &Groups, above: u32) -> u32
    ensures { result ≡ new_id (ids_table threads.now groups.now) above }
{
    match least_above(threads, groups, above) {
        Some(id) => id,
        None => free_from_2(threads, groups),
    }
}

fn free_from_2(threads: &Threads, groups: &Groups) -> u32
    ensures { result ≡ or_from_2 (ids_table threads.now groups.now) None }
{
    least_new(threads, groups, 2).unwrap_or(0)
}
