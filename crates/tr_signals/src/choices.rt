//! Which takes the model admits, and what they tell.

ghost use Rattle.std.specs.Prelude.{◌≡◌, ◌&&◌, Some};
ghost use Rattle.tr_model.specs.Causes.{is_in};
ghost use Rattle.tr_model.specs.Moves.{instance_in};
ghost use Rattle.tr_model.specs.Steps.{takes, took_reply};
ghost use Rattle.tr_model.specs.Tables.{thread_of};

use crate::kills::is_in;
use crate::takes::did_at_take;
use tr_model::{Reply, Target};
use tr_table::Table;
use tr_tracee::Thread;

fn may_take(table: &Table, thread: &Thread, n: u64) -> bool
    ensures { result ≡ takes table.now.table (Some thread.now) n }
{
    let own = Target::Thread(thread.id);
    let shared = Target::Group(thread.group);
    thread.is_ready_to_take()
        && (table.may_take(own, thread.mask, n) || table.may_take(shared, thread.mask, n))
}

/// Whether there is a thread with this id that may take the pending instance of a number.
pub fn admits_take(table: &Table, tid: u32, n: u64) -> bool
    ensures { result ≡ takes table.now.table (thread_of table.now.table tid) n }
{
    match table.find(tid) {
        Some(thread) => may_take(table, thread, n),
        None => false,
    }
}

/// Whether it is a thread of the group, too.
pub fn admits_take_any(table: &Table, tgid: u32, tid: u32, n: u64) -> bool
    ensures { result
        ≡ (is_in tgid (thread_of table.now.table tid) && takes table.now.table
        (thread_of table.now.table tid) n) }
{
    is_in(table, tgid, tid) && admits_take(table, tid, n)
}

/// What a take of the pending instance of a number by a thread tells.
#[tactic(auto, using(tr_queues::proofs::Standing::instance_waiting))]
pub fn took_reply(table: &Table, tid: u32, n: u64) -> Reply
    ensures { result
        ≡ took_reply table.now.table (thread_of table.now.table tid)
        (instance_in table.now.table.waiting n) }
{
    let Some(thread) = table.find(tid) else {
        return Reply::Nothing;
    };
    let Some(waiting) = table.waiting(n) else {
        return Reply::Nothing;
    };
    Reply::Took {
        tid: thread.id,
        inst: waiting.instance,
        did: did_at_take(table, thread, &waiting.instance),
    }
}
