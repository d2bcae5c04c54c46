//! The laws of a kernel: what holds of any two entries of its journal, whoever made them and in whatever order. Positions
//! count from 1; a position without an entry is none of what a law asks for. No law takes memory, and none but
//! `restart_between` looks at more than two entries.

ghost use Rattle.std.specs.Prelude.{◌≢◌, ◌↔◌, ◌<◌, IfSome, IsSome, IsTrue};
ghost use Rattle.tr_starts.specs.Starts.{table_of};
ghost use Rattle.tr_kernel.specs.Laws.{KilledBy, OnlyDyingAt, RestartBetween, TakenInOrder, TwoStops, TwoTakes, WaitsAt, consumed_at};
ghost use Rattle.tr_kernel.specs.Private.{SameQueue};

use crate::kernels::Kernel;
use crate::notes::{EntryFact, TakenFrom};

/// One wait for each report: whether these are two different entries that are waits, of tracers or the starter. Then
/// they consumed different reports.
pub fn consumed_differ(kernel: &Kernel, i: u64, j: u64) -> bool
    ensures exactly { IsTrue result
        ↔ ((i ≢ j) × WaitsAt kernel.now.journal i × WaitsAt kernel.now.journal j) }
    ensures differ { IsTrue result
        → consumed_at kernel.now.journal i ≢ consumed_at kernel.now.journal j }
{
    i != j && kernel.consumed_at(i).is_some() && kernel.consumed_at(j).is_some()
}

/// A restart between two stops: Some exactly where the entries at `i` and, later, `j` are waits by which tracers consumed
/// stop reports of one thread id. Then it is the position of an entry between them that restarts that thread
/// (`PTRACE_CONT`, `PTRACE_LISTEN` or `PTRACE_DETACH` of it, or the end of the tracer of the first wait), that is an
/// execve(2) of another thread of its group, or with which the death of its group begins.
///
/// It looks at the entries between the two alone.
pub fn restart_between(kernel: &Kernel, i: u64, j: u64) -> Option<u64>
    ensures exactly { IsSome result ↔ TwoStops (table_of kernel.now.start) kernel.now.journal i j }
    ensures between { IfSome result
        (λ k. RestartBetween (table_of kernel.now.start) kernel.now.journal i j k) }
{
    let EntryFact::Stop(first) = kernel.fact_at(i) else {
        return None;
    };
    let EntryFact::Stop(second) = kernel.fact_at(j) else {
        return None;
    };
    if i < j && first.thread == second.thread {
        kernel.first_restart(&first, i, j)
    } else {
        None
    }
}

/// The killed only die: whether the entry at `i` delivers a KILL and `j` is from `i` up to the journal's length. Then
/// after `j` entries every thread of each group that it was delivered to is told to leave, or dead.
pub fn only_dying(kernel: &Kernel, i: u64, j: u64) -> bool
    ensures exactly { IsTrue result ↔ KilledBy (table_of kernel.now.start) kernel.now.journal i j }
    ensures dying { IsTrue result → OnlyDyingAt (table_of kernel.now.start) kernel.now.journal i j }
{
    i <= j && j <= kernel.journal().len() as u64 && kernel.kills_at(i)
}

/// Whether two takes took one signal from one queue, whose id hadn't passed to another thread between them.
fn is_same_queue(first: &TakenFrom, second: &TakenFrom) -> bool
    ensures { IsTrue result ↔ SameQueue first.now second.now }
{
    first.signal == second.signal
        && first.queue == second.queue
        && first.transfers == second.transfers
}

/// First accepted, first taken: whether the entries at `i` and, later, `j` took instances of one signal from one queue,
/// which isn't that of a thread whose id an execve(2) between them gave to another thread. Then the instance taken first
/// has the lesser number.
pub fn in_order(kernel: &Kernel, i: u64, j: u64) -> bool
    ensures exactly { IsTrue result ↔ TwoTakes (table_of kernel.now.start) kernel.now.journal i j }
    ensures order { IsTrue result
        → TakenInOrder (table_of kernel.now.start) kernel.now.journal i j }
{
    let EntryFact::Take(first) = kernel.fact_at(i) else {
        return false;
    };
    let EntryFact::Take(second) = kernel.fact_at(j) else {
        return false;
    };
    i < j && is_same_queue(&first, &second)
}
