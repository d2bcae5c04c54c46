ghost use Rattle.std.specs.Prelude.{◌≡◌, ◌≤◌, ◌<◌, IfOk, vec_len, length};

mod calls;
mod ends;
mod gates;
mod hubs;
mod machines;
mod memory;
mod places;
mod refused;
mod seats;
mod turns;

use gates::{Meeting, Open, Second};
use std::alloc::{AllocError, Global};
use std::fmt::Debug;
use std::process::Abort;
use std::slice;
use std::sync::Wait;
use std::test::Fail;
use std::thread::Threads;
use tr_model::Event;
use tr_sigset::SigSet;
use tr_starts::{GroupStart, Items, Start};
use tr_workers::{Ended, Item, Plan, Receipts, Repeat, Script, run, settle};

const KILL: Event = Event::Kill { tgid: 10, sig: 10 };

/// That a value is the one that is wanted.
fn same<T: PartialEq + Debug>(rt: &impl Abort, value: &T, want: &T) {
    assert_eq!(rt; *value, *want);
}

fn item<T: Drop>(alloc: Global, item: T) -> Result<Items<T>, AllocError> {
    let mut items = Items::new(alloc);
    items.push(item)?;
    Ok(items)
}

/// One thread that blocks USR1.
fn start(alloc: Global) -> Result<Start, AllocError> {
    let usr1 = SigSet::from_bits(1 << 9);
    let group = GroupStart {
        tgid: 10,
        name: Items::from_vec(Vec::from_array(alloc, *b"demo")?),
        actions: Items::new(alloc),
        threads: item(alloc, (10, usr1))?,
    };
    Ok(Start {
        groups: item(alloc, group)?,
        limit: 4,
        entries: 1000,
    })
}

fn kills(alloc: Global, actor: u32, times: u32) -> Result<Script, AllocError> {
    let repeat = Repeat::Times(times);
    let items = item(
        alloc,
        Item {
            event: KILL,
            repeat,
        },
    )?;
    Ok(Script {
        actor,
        plan: Plan::Items(items),
    })
}

/// The scripts of two actors, 100 kills each.
fn two(alloc: Global) -> Result<Vec<Script>, Fail>
    ensures { IfOk result (λ v. vec_len v ≡ 2) }
{
    let first = kills(alloc, 900, 100)?;
    let second = kills(alloc, 901, 100)?;
    Ok(vec![in alloc; first, second]?)
}

/// That this many workers made all their 100 kills.
fn all_made(rt: &impl Abort, workers: &[Receipts], number: usize) {
    same(rt, &workers.len(), &number);
    for worker in workers {
        let tally = (
            worker.entries,
            worker.accepted,
            worker.refused,
            worker.outcome,
        );
        same(rt, &tally, &(100, 100, 0, Ended::AtEnd));
    }
}

/// That two workers send a signal 100 times each, of which one instance waits, and that this settles.
fn run_two<T: Abort + Threads + Wait + Sync>(
    rt: &T,
    alloc: Global,
    scripts: &[Script],
) -> Result<(), Fail>
    requires { length scripts.now ≤ 64 }
{
    let (kernel, asked, workers) = run(rt, alloc, &Open, start(alloc)?, scripts, 1000)?;
    all_made(rt, &workers, 2);
    let totals = kernel.totals();
    same(
        rt,
        &(totals.accepted, totals.pending, totals.merged),
        &(200, 1, 199),
    );
    same(rt, &settle(&kernel, &asked, &workers), &Ok(()));
    Ok(())
}

#[test]
fn two_scripts_are_run_and_settle_each_time(rt: HostRuntime) -> Result<(), Fail> {
    let alloc = rt.alloc();
    let scripts = two(alloc)?;
    for _ in 0..20 {
        run_two(&rt, alloc, &scripts)?;
    }
    Ok(())
}

#[test]
fn worker_waits_for_another_at_its_gate(rt: HostRuntime) -> Result<(), Fail> {
    let alloc = rt.alloc();
    let scripts = two(alloc)?;
    let (_, _, workers) = run(
        &rt,
        alloc,
        &Second::new(),
        start(alloc)?,
        &scripts,
        10_000_000,
    )?;
    all_made(&rt, &workers, 2);
    Ok(())
}

#[test]
fn worker_alone_at_that_gate_runs_out_of_turns(rt: HostRuntime) -> Result<(), Fail> {
    let alloc = rt.alloc();
    let script = kills(alloc, 900, 100)?;
    let alone = slice::from_ref(&script);
    let (_, _, workers) = run(&rt, alloc, &Second::new(), start(alloc)?, alone, 10_000_000)?;
    for worker in &workers {
        same(
            &rt,
            &(worker.entries, worker.outcome),
            &(0, Ended::OutOfTurns),
        );
    }
    same(&rt, &workers.len(), &1);
    Ok(())
}

#[test]
fn two_workers_run_at_once(rt: HostRuntime) -> Result<(), Fail> {
    let alloc = rt.alloc();
    let scripts = two(alloc)?;
    let gate = Meeting::new();
    let (_, _, workers) = run(&rt, alloc, &gate, start(alloc)?, &scripts, 1000)?;
    all_made(&rt, &workers, 2);
    same(&rt, &gate.both_met(), &true);
    Ok(())
}
