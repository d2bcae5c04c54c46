ghost use Rattle.std.specs.Prelude.{◌≡◌, ℕ, ◌<◌, ◌≤◌, ◌==◌, ◌&&◌, ◌||◌, false, is_some, length, not, true};
ghost use Rattle.std.specs.List.{list_any};
ghost use Rattle.tr_group.specs.GroupStops.{is_stopping};
ghost use Rattle.tr_model.specs.Journals.{occurs};
ghost use Rattle.tr_model.specs.Tables.{has_traced, ids_of};
ghost use Rattle.tr_table.specs.declared.unsettled.Unsettled.TheVariants.{Nowhere};
ghost use Rattle.tr_table.specs.Settled.{NoStopBut, NoneBut, has_mark, is_listed, is_open, is_open_row, leader_died, tells, touched};

use crate::group_list::Groups;
use crate::table::Table;
use tr_index::Multiset;
use tr_model::Group;
use tr_threads::{Threads, is_untraced_death};

// Which groups have to be looked at, since their stops may be complete ("Group-stop" of ptrace(2)) or the starter may have
// to be told of them (waitpid(2)). No call here takes memory.

/// The groups that something happened to since the table was last settled.
#[derive(Clone, Copy, Debug)]
pub enum Unsettled {
    /// No group.
    Nowhere,
    /// None but the group with this id.
    In(u32),
    /// Any group.
    Anywhere,
}

impl Unsettled {
    /// Something happens to a group.
    pub(crate) fn touch(&mut self, tgid: u32)
        ensures { self.new ≡ touched tgid self.old }
    {
        match *self {
            Unsettled::Nowhere => *self = Unsettled::In(tgid),
            Unsettled::In(other) => {
                if other != tgid {
                    *self = Unsettled::Anywhere;
                }
            }
            Unsettled::Anywhere => {}
        }
    }

    /// Whether nothing has happened to any group.
    pub(crate) fn is_nowhere(&self) -> bool
        ensures { result ≡ true → self.now ≡ Unsettled.Nowhere }
    {
        match self {
            Unsettled::Nowhere => true,
            _ => false,
        }
    }
}

/// Whether the leader of a group died, and its death is the starter's to be told.
fn leader_died(threads: &Threads, tgid: u32) -> bool
    requires { (n : ℕ) → occurs n (ids_of threads.now) ≤ 1 }
    ensures { result ≡ leader_died threads.now tgid }
{
    if !threads.has_untraced_deaths() {
        return false;
    }
    match threads.find(tgid) {
        Some(leader) => leader.group == tgid && is_untraced_death(leader),
        None => false,
    }
}

/// Whether a group has something to tell the starter.
fn tells(threads: &Threads, group: &Group) -> bool
    requires { (n : ℕ) → occurs n (ids_of threads.now) ≤ 1 }
    ensures { result ≡ tells threads.now group.now }
{
    group.note.is_some() && !threads.has_traced(group.tgid) || leader_died(threads, group.tgid)
}

/// Whether a group's stop can be complete: it is under way, and no thread of it has a stop mark.
fn stop_completes(threads: &Threads, group: &Group) -> bool
    ensures { result
        ≡ (is_stopping group.now.group_stop && not (has_mark threads.now group.now.tgid)) }
{
    group.group_stop.is_stopping() && !threads.has_stop_mark(group.tgid)
}

/// Whether a group can be complete, or has something to tell and isn't listed.
fn is_open(threads: &Threads, group: &Group, listed: bool) -> bool
    requires { (n : ℕ) → occurs n (ids_of threads.now) ≤ 1 }
    ensures { result ≡ is_open_row threads.now listed group.now }
{
    stop_completes(threads, group) || tells(threads, group) && !listed
}

/// Whether no group is open, where those at these places are listed.
fn none_open(threads: &Threads, groups: &Groups, places: &Multiset) -> bool
    requires once { (n : ℕ) → occurs n (ids_of threads.now) ≤ 1 }
    requires few { length groups.now ≤ 1024 }
    ensures { result ≡ true
        → NoneBut Nowhere threads.now groups.now (is_listed groups.now places.now.numbers) }
{
    let list = groups.as_slice();
    for place in 0..groups.len() {
        if is_open(threads, &list[place], places.contains(place as u32)) {
            return false;
        }
    }
    true
}

/// Lists the places of the groups that have something to tell, as far as there is room.
fn list_telling(threads: &Threads, groups: &[Group], places: &mut Multiset)
    requires once { (n : ℕ) → occurs n (ids_of threads.now) ≤ 1 }
    requires few { length groups.now ≤ 1024 }
{
    places.clear();
    for place in 0..groups.len() {
        if places.has_room() && tells(threads, &groups[place]) {
            places.insert(place as u32);
        }
    }
}

/// Lists a place, or lists it no more, and says whether it is listed where it should be.
fn relist(places: &mut Multiset, place: u32, tells: bool) -> bool
    ensures others { (m : ℕ)
        → (place == m) ≡ false
        → occurs m places.new.numbers ≡ occurs m places.old.numbers }
    ensures own { result ≡ (not tells || not (occurs place places.new.numbers == 0)) }
{
    let was = places.contains(place);
    if was == tells {
        return true;
    }
    if was {
        places.remove(place);
    } else if places.has_room() {
        places.insert(place);
    }
    !tells || places.contains(place)
}

/// Lists the place of the group with the id, or lists it no more. Says that the group isn't open: its stop can't be
/// complete, and it is listed where it has something to tell.
fn relist_group(places: &mut Multiset, threads: &Threads, groups: &Groups, tgid: u32) -> bool
    requires once { (n : ℕ) → occurs n (ids_of threads.now) ≤ 1 }
    requires few { length groups.now ≤ 1024 }
    ensures others { (n : ℕ)
        → (tgid ≡ n → ⊥)
        → is_listed groups.now places.new.numbers n ≡ is_listed groups.now places.old.numbers n }
    ensures own { result ≡ true
        → is_open threads.now groups.now (is_listed groups.now places.new.numbers) tgid ≡ false }
{
    let Some(place) = groups.place(tgid) else {
        return true;
    };
    let group = &groups.as_slice()[place];
    let completes = stop_completes(threads, group);
    relist(places, place as u32, tells(threads, group)) && !completes
}

impl Table {
    /// The groups whose stops may be complete.
    pub fn unsettled(&self) -> Unsettled
        ensures { NoStopBut result self.now.table.threads self.now.table.groups }
    {
        if self.groups.stopping() == 0 {
            return Unsettled::Nowhere;
        }
        self.unsettled
    }

    /// Whether some group may have a note that no tracer hides from the starter.
    pub fn may_show_notes(&self) -> bool
        ensures { result ≡ false
            → list_any (λ x. is_some x.note && not (has_traced self.now.table x.tgid)) self.now.table.groups
            ≡ false }
    {
        match self.unsettled {
            Unsettled::Nowhere => !self.telling.is_empty(),
            _ => self.groups.has_notes(),
        }
    }

    /// Looks at the groups that something happened to, so that none of them has to be looked at again but those whose
    /// stops may be complete, and gives these.
    #[inline(always)]
    pub fn settle(&mut self) -> Unsettled
        ensures unchanged { self.new ≡ self.old }
        ensures stops { NoStopBut result self.new.table.threads self.new.table.groups }
    {
        if self.groups.stopping() == 0
            && !self.groups.has_notes()
            && !self.threads.has_untraced_deaths()
            && self.telling.is_empty()
        {
            self.unsettled = Unsettled::Nowhere;
            return Unsettled::Nowhere;
        }
        self.settle_touched()
    }

    /// Looks at the groups that something happened to.
    #[inline(never)]
    fn settle_touched(&mut self) -> Unsettled
        ensures unchanged { self.new ≡ self.old }
        ensures stops { NoStopBut result self.new.table.threads self.new.table.groups }
    {
        match self.unsettled {
            Unsettled::Nowhere => {}
            Unsettled::In(tgid) => {
                if relist_group(&mut self.telling, &self.threads, &self.groups, tgid) {
                    self.unsettled = Unsettled::Nowhere;
                }
            }
            Unsettled::Anywhere => {
                list_telling(&self.threads, self.groups.as_slice(), &mut self.telling);
                if none_open(&self.threads, &self.groups, &self.telling) {
                    self.unsettled = Unsettled::Nowhere;
                }
            }
        }
        self.unsettled()
    }
}
