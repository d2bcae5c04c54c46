//! These hold whichever allocation fails, also that of a thread: `rt try --test --fail-alloc N` refuses the Nth.

use super::gates::Open;
use super::memory::ByTurns;
use super::{item, kills, same, start};
use std::alloc::{AllocError, Global};
use std::process::Abort;
use std::slice;
use std::sync::atomic::{AtomicU64, Ordering};
use std::test::Fail;
use tr_model::Event;
use tr_starts::{Items, Start};
use tr_workers::{Ended, Gate, Plan, Receipts, RunFault, Script, Served, run, settle, work};

/// Says yes at every turn, and counts the turns.
#[derive(Drop)]
struct Counting {
    turns: AtomicU64,
}

impl Gate for Counting {
    ghost use Rattle.std.specs.Prelude.{◌≡◌, true};

    ghost may_say = { λ gate worker turn said. said ≡ true };

    fn may(&self, _worker: usize, _turn: u64) -> bool {
        self.turns.fetch_add(1, Ordering::SeqCst);
        true
    }

    fn done(&self, _worker: usize, _turn: u64) {}
}

/// A thread that makes one operation, and then lives on.
fn machine(alloc: Global) -> Result<Script, AllocError> {
    let served = Served {
        tid: 10,
        ops: item(alloc, Event::Pause { tid: 10 })?,
    };
    Ok(Script {
        actor: 10,
        plan: Plan::Machine(item(alloc, served)?),
    })
}

#[test]
fn machine_without_room_makes_no_call(rt: HostRuntime) -> Result<(), Fail> {
    let alloc = rt.alloc();
    let Ok(script) = machine(alloc) else {
        return Ok(());
    };
    let gate = Counting {
        turns: AtomicU64::new(0),
    };
    let mut port = ByTurns::new(alloc);
    let done = work(alloc, 0, &mut port, &gate, &script, 9);
    same(&rt, &gate.turns.load(Ordering::SeqCst), &port.calls);
    if let Ok(tally) = done {
        same(&rt, &(port.calls, tally.outcome), &(9, Ended::OutOfTurns));
    }
    Ok(())
}

fn parts(alloc: Global) -> Result<(Start, Script), AllocError> {
    Ok((start(alloc)?, kills(alloc, 900, 5)?))
}

/// That one worker made its five calls.
fn made(rt: &impl Abort, workers: &[Receipts]) {
    same(rt, &workers.len(), &1);
    for worker in workers {
        same(rt, &(worker.entries, worker.outcome), &(5, Ended::AtEnd));
    }
}

#[test]
fn run_without_memory_says_so(rt: HostRuntime) -> Result<(), Fail> {
    let alloc = rt.alloc();
    let Ok((start, script)) = parts(alloc) else {
        return Ok(());
    };
    match run(&rt, alloc, &Open, start, slice::from_ref(&script), 9) {
        Ok((kernel, asked, workers)) => {
            made(&rt, &workers);
            same(&rt, &settle(&kernel, &asked, &workers), &Ok(()));
        }
        Err(fault) => same(&rt, &fault, &RunFault::NoMemory),
    }
    Ok(())
}
