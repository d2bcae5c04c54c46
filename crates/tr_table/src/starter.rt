ghost use Rattle.std.specs.Prelude.{◌≡◌, ◌<◌, ◌≤◌, filter, is_some};
ghost use Rattle.std.specs.List.{list_any};
ghost use Rattle.tr_wait.specs.Words.{asks_for};
ghost use Rattle.tr_threads.specs.Waits.{is_untraced_death};
ghost use Rattle.tr_table.specs.Private.{IsNextPlace};
ghost use Rattle.tr_table.specs.Telling.{IsNextTelling};

use crate::table::Table;
use crate::tracees::only_asked;
use tr_index::Multiset;
use tr_model::Group;
use tr_wait::Which;

// What a wait of the starter asks: which groups, and which of the table may have something to tell.

/// The least of these places from this one on, if it is before the end. It is found at once where so many stand before it.
fn next_place(places: &Multiset, likely: usize, from: usize, end: usize) -> Option<usize>
    requires few { end ≤ 1024 }
    requires within { from < end }
    ensures { IsNextPlace from end places.now.numbers result }
{
    let place = places.next_near(likely, from as u32)? as usize;
    if place < end { Some(place) } else { None }
}

impl Table {
    /// The groups that the wait asks for, in table order.
    pub fn asked_groups(&self, which: Which) -> &[Group]
        ensures { result.now ≡ filter (λ x. asks_for which x.tgid) self.now.table.groups }
    {
        match only_asked(which) {
            Some(tgid) => self.groups.with_id(tgid),
            None => self.groups.as_slice(),
        }
    }

    /// Whether some group has a note for the starter.
    pub fn has_notes(&self) -> bool
        ensures { result ≡ list_any (λ x. is_some x.note) self.now.table.groups }
    {
        self.groups.has_notes()
    }

    /// Whether some dead thread that nobody traces has a report.
    pub fn has_untraced_deaths(&self) -> bool
        ensures { result ≡ list_any is_untraced_death self.now.table.threads }
    {
        self.threads.has_untraced_deaths()
    }

    /// Gives the place of the next group, from this place on, that may have something to tell the starter. It is found at
    /// once where so many such groups stand before it.
    #[inline(always)]
    pub fn telling_from(&self, place: usize, likely: usize) -> Option<usize>
        ensures { IsNextTelling self.now.table self.now.table.groups place result }
    {
        let end = self.groups.len();
        if place >= end {
            return None;
        }
        if self.unsettled.is_nowhere() && !self.threads.has_stray_deaths() {
            next_place(&self.telling, likely, place, end)
        } else {
            Some(place)
        }
    }
}
