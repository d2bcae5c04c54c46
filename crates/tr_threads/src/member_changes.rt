ghost use Rattle.std.specs.Prelude.{◌≡◌, ◌+◌, ◌≤◌, ◌++◌, filter, flat_map, is_some, length, map, option_copied, slice_get, vec_len, vec_capacity};
ghost use Rattle.tr_tracee.specs.Threads.{at_group, in_group};
ghost use Rattle.tr_model.specs.declared.fates.Fate.TheVariants.{Flushed};
ghost use Rattle.tr_model.specs.Moves.{ended_by_change, ended_hold};
ghost use Rattle.tr_threads.specs.Changes.{thread_changed_by};
ghost use Rattle.tr_index.specs.Counts.{bool_to_nat};
ghost use Rattle.tr_threads.specs.Held.{held_count};
ghost use Rattle.tr_threads.specs.Kept.{ends_of, held_by};

use crate::thread_changes::ThreadChange;
use crate::threads::Threads;
use tr_model::{Ending, Fate};
use tr_pending::Instance;
use tr_tracee::Thread;

// What happens to all threads of a group.

impl Threads {
    /// Gives the thread at a place of its group, from 0.
    pub fn member(&self, tgid: u32, place: usize) -> Option<&Thread>
        ensures { option_copied result ≡ slice_get (filter (in_group tgid) self.now) place }
    {
        let id = *self.ids_in(tgid).get(place)?;
        self.find(id)
    }

    /// Makes a change of each thread of a group.
    pub fn change_members(&mut self, tgid: u32, change: &ThreadChange)
        ensures { self.new ≡ map (at_group tgid (thread_changed_by change.now)) self.old }
    {
        let ids = self.member_ids(tgid);
        let mut likely = 0;
        for member in ids.as_slice() {
            likely = self.change_near(likely, *member, change);
        }
    }

    /// Appends what a change of each thread of a group takes out of signal-delivery-stops.
    #[tactic(auto, using(crate::proofs::Helds::held_drop, crate::proofs::Helds::few_ends))]
    pub fn log_flushed(&self, tgid: u32, change: &ThreadChange, ended: &mut Vec<Ending>)
        requires { vec_len ended.old + held_count self.now ≤ vec_capacity ended.old }
        ensures items { ended.new.items
            ≡ ended.old.items
            ++ flat_map
            (ended_by_change Flushed (at_group tgid (thread_changed_by change.now))) self.now }
        ensures len { vec_len ended.new
            ≡ vec_len ended.old
            + length (flat_map
            (ended_by_change Flushed (at_group tgid (thread_changed_by change.now))) self.now) }
        ensures capacity { vec_capacity ended.new ≡ vec_capacity ended.old }
    {
        let ids = self.member_ids(tgid);
        for member in ids.as_slice() {
            log_flushed_by(ended, self.find(*member), change);
        }
    }
}

/// Appends what a change of a thread takes out of its signal-delivery-stop.
#[tactic(auto, using(crate::proofs::Helds::few_ends))]
fn log_flushed_by(ended: &mut Vec<Ending>, thread: Option<&Thread>, change: &ThreadChange)
    requires { vec_len ended.old + bool_to_nat (is_some (held_by (option_copied thread)))
        ≤ vec_capacity ended.old }
    ensures items { ended.new.items
        ≡ ended.old.items ++ ends_of (thread_changed_by change.now) (option_copied thread.entry) }
    ensures len { vec_len ended.new
        ≡ vec_len ended.old
        + length (ends_of (thread_changed_by change.now) (option_copied thread.entry)) }
    ensures capacity { vec_capacity ended.new ≡ vec_capacity ended.old }
{
    if let Some(thread) = thread {
        let mut changed = *thread;
        change.make(&mut changed);
        push_flushed(ended, &thread.life.held(), &changed.life.held());
    }
}

/// Appends what was held and is held no more.
fn push_flushed(ended: &mut Vec<Ending>, before: &Option<Instance>, after: &Option<Instance>)
    requires { vec_len ended.old + bool_to_nat (is_some before.now) ≤ vec_capacity ended.old }
    ensures items { ended.new.items ≡ ended.old.items ++ ended_hold Flushed before.now after.now }
    ensures len { vec_len ended.new
        ≡ vec_len ended.old + length (ended_hold Flushed before.now after.now) }
    ensures capacity { vec_capacity ended.new ≡ vec_capacity ended.old }
{
    match (before, after) {
        (Some(instance), None) => ended.push_reserved(Ending {
            number: instance.n,
            fate: Fate::Flushed,
        }),
        _ => {}
    }
}
