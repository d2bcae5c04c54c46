ghost use Rattle.std.specs.Prelude.{◌≡◌, ◌+◌, ◌≤◌, [], length, IfOk};

mod waits;

use super::*;
use std::alloc::Global;
use std::fmt::Debug;
use std::marker::Brand;
use std::process::Abort;
use std::sync::Wait;
use std::sync::ledger::{Blank, Ledger};
use std::test::Fail;
use std::thread::Threads;
use tr_kernel::Kernel;
use tr_sigset::SigSet;
use tr_starts::{GroupStart, Items, Start};

/// That a value is the one that is wanted.
fn same<T: PartialEq + Debug>(rt: &impl Abort, value: &T, want: &T) {
    assert_eq!(rt; *value, *want);
}

fn item<T: Drop>(alloc: Global, item: T) -> Result<Items<T>, Fail> {
    let mut items = Items::new(alloc);
    items.push(item)?;
    Ok(items)
}

/// One thread, all of whose actions are the default.
fn start(alloc: Global) -> Result<Start, Fail> {
    let group = GroupStart {
        tgid: 10,
        name: item(alloc, b'd')?,
        actions: Items::new(alloc),
        threads: item(alloc, (10, SigSet::empty()))?,
    };
    Ok(Start {
        groups: item(alloc, group)?,
        limit: 4,
        entries: 1000,
    })
}

fn kernel(alloc: Global) -> Result<Kernel, Fail>
    ensures { IfOk result (λ k. k.journal ≡ []) }
{
    match Kernel::new(alloc, start(alloc)?) {
        Ok(kernel) => Ok(kernel),
        Err(_) => Err(Fail::from("a kernel")),
    }
}

/// What is tried at a hub.
#[derive(Clone, Copy)]
enum Trial {
    /// A wait in one thread, and what it waits for in another.
    Waited,
    /// Two waits at once, and one entry.
    Woken,
    /// A wait that another wait's entry ends.
    Handed,
}

fn at<E: Parts + Send + Sync, A: Parts + Send + Sync, R: Threads + Wait + Abort + Sync>(
    rt: &R,
    alloc: Global,
    entries: Blank,
    accepted: Blank,
    kernel: Kernel,
    actors: &[u32],
    trial: Trial,
) -> Result<(), Fail>
    requires empty { kernel.journal ≡ [] }
    requires start { kernel.start ≡ E.opening }
    requires entries { (entries.name ≡ E.name)
        × (entries.parts ≡ E.parts)
        × (E.all ≡ E.parts)
        × (E.all ≡ length actors.now + 1) }
    requires accepted { (accepted.name ≡ A.name)
        × (accepted.parts ≡ A.parts)
        × (A.all ≡ A.parts)
        × (A.all ≡ length actors.now + 1) }
{
    let Ok((hub, seats)) = Hub::<E, A>::new(alloc, entries, accepted, kernel, actors) else {
        return Err(Fail::from("a hub"));
    };
    match trial {
        Trial::Waited => waits::wait_for_another(rt, &hub, seats),
        Trial::Woken => waits::wait_at_once(rt, &hub, seats),
        Trial::Handed => waits::wait_for_a_wait(rt, &hub, seats),
    }
}

fn at_brand<R: Threads + Wait + Abort + Sync>(
    rt: &R,
    alloc: Global,
    actors: &[u32],
    trial: Trial,
) -> Result<(), Fail>
    requires { length actors.now ≤ 64 }
{
    let kernel = kernel(alloc)?;
    let parts = actors.len() as u64 + 1;
    at::<Brand, Brand, _>(
        rt,
        alloc,
        Blank::new(parts),
        Blank::new(parts),
        kernel,
        actors,
        trial,
    )
}

#[test]
fn waiter_wakes_when_another_thread_stops_the_tracee(rt: HostRuntime) -> Result<(), Fail> {
    at_brand(&rt, rt.alloc(), &[900, 10], Trial::Waited)
}

#[test]
fn one_entry_wakes_all_that_wait(rt: HostRuntime) -> Result<(), Fail> {
    at_brand(&rt, rt.alloc(), &[900, 1, 901], Trial::Woken)
}

#[test]
fn starter_wakes_when_the_tracer_has_waited(rt: HostRuntime) -> Result<(), Fail> {
    at_brand(&rt, rt.alloc(), &[900, 1], Trial::Handed)
}
