ghost use Rattle.std.specs.Prelude.{◌≡◌, ◌<◌, ◌++◌, ◌∷◌, ◌==◌, [], None, OnErr, OnOk, Some, is_some, length};
ghost use Rattle.tr_tracee.specs.declared.thread.Thread.{Thread};
ghost use Rattle.tr_model.specs.Moves.{begin, drop_empty, dropped, group_changed, remove_dead, take_place};
ghost use Rattle.tr_model.specs.Tables.{members, thread_of};
ghost use Rattle.tr_table.specs.Moved.{Renames};

use crate::table::Table;
use std::alloc::AllocError;
use tr_model::{Group, Target};
use tr_threads::owner_of;
use tr_tracee::Thread;

// Records that come, go or are written anew. Only `add` takes memory.

impl Table {
    /// A thread comes last in the table. No thread may have its id yet, and its group at most 63 threads. Where memory is
    /// refused nothing has changed.
    pub fn add(&mut self, thread: &Thread) -> Result<(), AllocError>
        requires new_id { thread_of self.old.table thread.now.id ≡ None }
        requires room { length (members self.old.table thread.now.group) < 64 }
        ensures ok { OnOk result (self.new
            ≡ record self.old {
              table = record self.old.table { threads = self.old.table.threads ++ thread.now ∷ [] };
            }) }
        ensures err { OnErr result (self.new ≡ self.old) }
    {
        self.unsettled.touch(thread.group);
        self.threads.add(thread)
    }

    /// The thread with the id goes, and the threads after it move up. Says whether there was one. What waits for
    /// it stays.
    pub fn remove(&mut self, id: u32) -> bool
        ensures was { result ≡ is_some (thread_of self.old.table id) }
        ensures table { self.new
            ≡ record self.old {
              table = record self.old.table { threads = dropped id self.old.table.threads };
            } }
    {
        let Some(thread) = self.threads.find(id) else {
            return false;
        };
        self.unsettled.touch(thread.group);
        self.threads.remove(id);
        true
    }

    /// The thread with the id goes if it is dead, and the threads after it move up. What waits for it stays.
    pub fn remove_dead(&mut self, id: u32)
        ensures { self.new
            ≡ record self.old {
              table = (remove_dead (λ t. t.id == id) (begin self.old.table)).table;
            } }
    {
        if let Some(thread) = self.threads.find(id) {
            self.unsettled.touch(thread.group);
            self.threads.remove_dead(id);
        }
    }

    /// The group with the id goes if it has no thread, and the groups after it move up.
    pub fn remove_group(&mut self, tgid: u32)
        ensures { self.new
            ≡ record self.old { table = (drop_empty tgid (begin self.old.table)).table } }
    {
        self.unsettled.touch(tgid);
        if let Some(place) = self.groups.drop_empty(&self.threads, tgid) {
            self.telling.close_up(place as u32);
        }
    }

    /// An execing thread takes the place and the id of its dead leader, whose record goes, and what waits for it goes with
    /// it: "execve(2) under ptrace" of ptrace(2). Gives the id that it took. Nothing changes where there is no such thread,
    /// it isn't in execve(2), or it is the leader.
    pub fn take_place(&mut self, id: u32) -> Option<u32>
        ensures { Renames (take_place id) self.old self.new result }
    {
        let place = self.threads.place(id)?;
        let thread = *self.threads.at(place);
        if !thread.life.is_execing() || thread.is_leader() {
            return None;
        }
        self.unsettled.touch(thread.group);
        self.unsettled
            .touch(owner_of(&self.threads, Target::Thread(thread.group)));
        self.threads.take_place(place, &thread);
        self.pending.retarget(thread.id, thread.group);
        Some(thread.group)
    }

    /// Writes the record of a group, over that of the first group with its id.
    pub fn put_group(&mut self, group: &Group)
        ensures { self.new
            ≡ record self.old {
              table = record self.old.table {
                groups = group_changed group.now.tgid (λ _. group.now) self.old.table.groups;
              };
            } }
    {
        self.groups.replace(group);
        self.unsettled.touch(group.tgid);
    }
}
