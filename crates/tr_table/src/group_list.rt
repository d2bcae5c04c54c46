ghost use Rattle.std.specs.Prelude.{◌≡◌, ℕ, ◌≤◌, ◌==◌, ◌||◌, IfOk, filter, is_some, length, map, not, option_copied};
ghost use Rattle.std.specs.List.{list_any};
ghost use Rattle.tr_tracee.specs.Threads.{in_group};
ghost use Rattle.tr_model.specs.Journals.{occurs};
ghost use Rattle.tr_model.specs.Moves.{group_changed, only_group, with_note};
ghost use Rattle.tr_model.specs.Tables.{group_in};
ghost use Rattle.tr_table.specs.Changes.{group_changed_by};
ghost use Rattle.tr_table.specs.Private.{IsGone, IsGroupPlace, stopping_in, tgids_of};

use crate::groups::{GroupChange, count_noted, count_stopping};
use std::alloc::{AllocError, Global};
use std::marker::Model;
use std::slice;
use tr_index::{Index, recounted};
use tr_model::Group;
use tr_threads::Threads;
use tr_tracee::Report;
use tr_wait::Status;

/// The groups of a table, in table order, each found by its id. No two have one id.
pub(crate) struct Groups {
    list: Vec<Group>,
    index: Index,
    stopping: usize,
    noted: usize,
}

impl Drop for Groups {
    fn drop(self) {
        let Groups {
            list: _,
            index: _,
            stopping: _,
            noted: _,
        } = self;
    }
}

impl Model for Groups {
    ghost use Rattle.std.specs.Prelude.{List};
    ghost use Rattle.tr_model.specs.declared.rows.Group.{Group};
    ghost use Rattle.tr_table.specs.Private.{IsGroups};

    ghost Value = { List Group };

    ghost view = { λ g. g.list.items };

    ghost invariant = { λ g. IsGroups g.list.items g.index g.stopping g.noted };
}

fn index_of(groups: &[Group], alloc: Global) -> Result<Index, AllocError>
    requires { (n : ℕ) → occurs n (tgids_of groups.now) ≤ 1 }
    ensures { IfOk result (λ ids. ids ≡ tgids_of groups.now) }
{
    let mut index = Index::new(alloc);
    for group in groups {
        index.push(group.tgid)?;
    }
    Ok(index)
}

impl Groups {
    pub(crate) fn from_vec(list: Vec<Group>, alloc: Global) -> Result<Groups, AllocError>
        requires once { (n : ℕ) → occurs n (tgids_of list.items) ≤ 1 }
        requires few { length list.items ≤ 1024 }
        ensures { IfOk result (λ xs. xs ≡ list.items) }
    {
        let index = index_of(&list, alloc)?;
        let stopping = count_stopping(&list);
        let noted = count_noted(&list);
        Ok(Groups {
            list,
            index,
            stopping,
            noted,
        })
    }

    pub(crate) fn as_slice(&self) -> &[Group]
        ensures { result.now ≡ self.now }
    {
        self.list.as_slice()
    }

    /// The groups, in table order. No two have one id.
    pub(crate) fn copy(&self, alloc: Global) -> Result<Vec<Group>, AllocError>
        ensures list { IfOk result (λ list. list.items ≡ self.now) }
        ensures once { (n : ℕ) → occurs n (tgids_of self.now) ≤ 1 }
    {
        let mut list = Vec::with_capacity(alloc, self.index.len())?;
        list.extend_from_slice(&self.list)?;
        Ok(list)
    }

    /// How many group-stops are under way.
    pub(crate) fn stopping(&self) -> usize
        ensures { result ≡ stopping_in self.now }
    {
        self.stopping
    }

    /// Whether some group has a note for the starter.
    pub(crate) fn has_notes(&self) -> bool
        ensures { result ≡ list_any (λ x. is_some x.note) self.now }
    {
        self.noted != 0
    }

    /// How many groups there are. No two have one id.
    pub(crate) fn len(&self) -> usize
        ensures len { result ≡ length self.now }
        ensures once { (n : ℕ) → occurs n (tgids_of self.now) ≤ 1 }
    {
        self.index.len()
    }

    pub(crate) fn place(&self, tgid: u32) -> Option<usize>
        ensures place { IsGroupPlace tgid self.now result }
        ensures once { (n : ℕ) → occurs n (tgids_of self.now) ≤ 1 }
    {
        self.index.place(tgid)
    }

    pub(crate) fn find(&self, tgid: u32) -> Option<&Group>
        ensures { option_copied result ≡ group_in self.now tgid }
    {
        let place = self.place(tgid)?;
        Some(&self.list[place])
    }

    /// The group with the id alone, or none.
    pub(crate) fn with_id(&self, tgid: u32) -> &[Group]
        ensures { result.now ≡ filter (λ x. x.tgid == tgid) self.now }
    {
        match self.place(tgid) {
            Some(place) => slice::from_ref(&self.list[place]),
            None => &[],
        }
    }

    /// Changes the group with the id.
    pub(crate) fn change(&mut self, tgid: u32, change: &GroupChange)
        ensures { self.new ≡ map (only_group tgid (group_changed_by change.now)) self.old }
    {
        if let Some(place) = self.place(tgid) {
            let group = &mut self.list[place];
            let was = group.group_stop.is_stopping();
            let had = group.note.is_some();
            change.make(group);
            let is = group.group_stop.is_stopping();
            let has = group.note.is_some();
            self.stopping = recounted(self.stopping, was, is);
            self.noted = recounted(self.noted, had, has);
        }
    }

    /// Sets the note of the group with the id, with the report of this number.
    pub(crate) fn note(&mut self, tgid: u32, number: u64, status: &Status)
        ensures { self.new ≡ group_changed tgid (with_note number status.now) self.old }
    {
        if let Some(place) = self.place(tgid) {
            let group = &mut self.list[place];
            let had = group.note.is_some();
            group.note = Some(Report {
                number,
                status: *status,
            });
            self.noted = recounted(self.noted, had, true);
        }
    }

    /// Overwrites the record of the group with the same id.
    pub(crate) fn replace(&mut self, group: &Group)
        ensures { self.new ≡ group_changed group.now.tgid (λ _. group.now) self.old }
    {
        if let Some(place) = self.place(group.tgid) {
            let former = &self.list[place];
            let was = former.group_stop.is_stopping();
            let had = former.note.is_some();
            let is = group.group_stop.is_stopping();
            self.list[place] = *group;
            self.stopping = recounted(self.stopping, was, is);
            self.noted = recounted(self.noted, had, group.note.is_some());
        }
    }

    /// The group with the id goes where it has no threads. Gives the place that it had.
    pub(crate) fn drop_empty(&mut self, threads: &Threads, tgid: u32) -> Option<usize>
        ensures kept { self.new
            ≡ filter (λ x. not (x.tgid == tgid) || list_any (in_group tgid) threads.now) self.old }
        ensures gone { IsGone tgid self.old self.new result }
    {
        if threads.has_member(tgid) {
            return None;
        }
        let place = self.place(tgid)?;
        let gone = self.list.remove(place);
        self.index.remove(place);
        self.stopping = recounted(self.stopping, gone.group_stop.is_stopping(), false);
        self.noted = recounted(self.noted, gone.note.is_some(), false);
        Some(place)
    }
}
