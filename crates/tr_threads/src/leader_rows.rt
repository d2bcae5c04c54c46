ghost use Rattle.std.specs.Prelude.{◌≡◌, ◌<◌, length, get_or, map, remove};
ghost use Rattle.tr_tracee.specs.Lives.{is_dead};
ghost use Rattle.tr_model.specs.Moves.{in_leaders_row};
ghost use Rattle.tr_model.specs.Tables.{ids_of};
ghost use Rattle.tr_threads.specs.Kept.{IsLeaderPlace, IsThreads};
ghost use Rattle.tr_threads.specs.Tracing.{HasPlaces, IsTracing};

use crate::roster_list::{Roster, Rosters};
use crate::threads::Threads;
use crate::tracing::Tracing;
use tr_index::Index;
use tr_tracee::Thread;

// A thread takes the row of its dead leader: "execve(2) under ptrace" of ptrace(2).

impl Threads {
    /// Gives the thread at a place the place and the id of its dead leader.
    pub fn take_place(&mut self, place: usize, thread: &Thread)
        requires place { place < length self.old }
        requires there { thread.now ≡ get_or self.old place thread.now }
        ensures { self.new ≡ map (in_leaders_row thread.now) (remove self.old place) }
    {
        move_up(
            &mut self.list,
            &mut self.index,
            &mut self.rosters,
            &mut self.tracing,
            place,
            thread,
        );
    }
}

/// Whether the thread at a place is dead.
fn is_dead_at(list: &[Thread], place: usize) -> bool
    requires { place < length list.now }
    ensures { (d : Thread) → result ≡ is_dead (get_or list.now place d).life }
{
    list[place].life.is_dead()
}

/// Where the dead leader of a thread stands, whose row it is to take.
fn leader_place(list: &[Thread], index: &Index, thread: &Thread) -> Option<usize>
    requires { index.now ≡ ids_of list.now }
    ensures { IsLeaderPlace thread.now list.now result }
{
    match index.place(thread.group) {
        Some(place) => {
            if is_dead_at(list, place) {
                Some(place)
            } else {
                None
            }
        }
        None => None,
    }
}

/// The thread at a place goes, and takes the row of its dead leader.
fn move_up(
    list: &mut Vec<Thread>,
    index: &mut Index,
    rosters: &mut Rosters,
    tracing: &mut Tracing,
    place: usize,
    thread: &Thread,
)
    requires kept { IsThreads list.old.items index.old rosters.old }
    requires traced { IsTracing list.old.items tracing.old }
    requires places { HasPlaces (length list.old.items) tracing.old }
    requires place { place < length list.old.items }
    requires there { thread.now ≡ get_or list.old.items place thread.now }
    ensures list { list.new.items ≡ map (in_leaders_row thread.now) (remove list.old.items place) }
    ensures kept { IsThreads list.new.items index.new rosters.new }
    ensures traced { IsTracing list.new.items tracing.new }
    ensures places { HasPlaces (length list.new.items) tracing.new }
{
    tracing.forget(list, index, place);
    let _former = list.remove(place);
    index.remove(place);
    match leader_place(list, index, thread) {
        Some(leader) => {
            let former = list[leader];
            let mut renamed = *thread;
            renamed.id = thread.group;
            renamed.report = None;
            list[leader] = renamed;
            tracing.rewrite(&former, list, index, leader);
            if former.group == thread.group {
                rosters.remove(thread);
                rosters.rewrite(&former, &renamed, leader);
            } else {
                rosters.set(thread.group, Roster::collect(list, thread.group));
                rosters.set(former.group, Roster::collect(list, former.group));
            }
        }
        None => rosters.remove(thread),
    }
}
