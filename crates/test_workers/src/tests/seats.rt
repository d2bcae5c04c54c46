ghost use Rattle.std.specs.Prelude.{◌≡◌, ◌+◌, ◌≤◌, [], length, IfOk};

use super::calls::{ATTACHED, KILLED, Turn, call_all};
use super::ends::close;
use super::{item, same};
use std::alloc::Global;
use std::marker::Brand;
use std::process::Abort;
use std::sync::Wait;
use std::sync::ledger::{Blank, Ledger};
use std::test::Fail;
use tr_hub::{Answer, Hub, HubFault, Parts, Seat, WaitCall};
use tr_kernel::Kernel;
use tr_model::{Refusal, Reply};
use tr_sigset::SigSet;
use tr_starts::{GroupStart, Items, Start};
use tr_wait::Which;

// A hub, called from its seats by one thread.

/// One thread, all of whose actions are the default.
fn start(alloc: Global) -> Result<Start, Fail> {
    let group = GroupStart {
        tgid: 10,
        name: item(alloc, b'd')?,
        actions: Items::new(alloc),
        threads: item(alloc, (10, SigSet::empty()))?,
    };
    Ok(Start {
        groups: item(alloc, group)?,
        limit: 4,
        entries: 1000,
    })
}

fn kernel(alloc: Global) -> Result<Kernel, Fail>
    ensures { IfOk result (λ k. k.journal ≡ []) }
{
    match Kernel::new(alloc, start(alloc)?) {
        Ok(kernel) => Ok(kernel),
        Err(_) => Err(Fail::from("a kernel")),
    }
}

const ANY: WaitCall = WaitCall::Tracer(Which::Any);

const NOTHING: Answer = Answer::Read(Reply::Nothing);

/// Without a tracee: no turn finds nothing and makes no call, the first of three is refused.
fn try_waits<E: Parts, A: Parts>(
    rt: &(impl Wait + Abort),
    hub: &Hub<E, A>,
    mut seats: Vec<Seat<E, A>>,
) -> Result<(), Fail> {
    let Some(mut seat) = seats.pop() else {
        return Err(Fail::from("a seat"));
    };
    same(rt, &hub.wait_for(rt, &mut seat, ANY, 0), &NOTHING);
    same(rt, &seat.calls(), &0);
    same(
        rt,
        &hub.wait_for(rt, &mut seat, ANY, 3),
        &Answer::Refused(Refusal::Child),
    );
    same(rt, &seat.calls(), &1);
    Ok(())
}

/// What is tried at a hub.
#[derive(Clone, Copy)]
enum Trial {
    /// That there is none.
    Refused,
    /// That it closes with all seats and not with fewer, and keeps what it had.
    Closed,
    /// Waits that find nothing.
    Tried,
    /// Calls, one after another.
    Called(&'static [Turn]),
}

fn refused(rt: &impl Abort, fault: HubFault, trial: Trial) -> Result<(), Fail> {
    match trial {
        Trial::Refused => {
            same(rt, &fault, &HubFault::Repeated);
            Ok(())
        }
        _ => Err(Fail::from("a hub")),
    }
}

fn at<E: Parts, A: Parts>(
    rt: &(impl Wait + Abort),
    alloc: Global,
    entries: Blank,
    accepted: Blank,
    kernel: Kernel,
    actors: &[u32],
    trial: Trial,
) -> Result<(), Fail>
    requires empty { kernel.journal ≡ [] }
    requires start { kernel.start ≡ E.opening }
    requires entries { (entries.name ≡ E.name)
        × (entries.parts ≡ E.parts)
        × (E.all ≡ E.parts)
        × (E.all ≡ length actors.now + 1) }
    requires accepted { (accepted.name ≡ A.name)
        × (accepted.parts ≡ A.parts)
        × (A.all ≡ A.parts)
        × (A.all ≡ length actors.now + 1) }
{
    let hub = Hub::<E, A>::new(alloc, entries, accepted, kernel, actors);
    let (hub, seats) = match hub {
        Ok(opened) => opened,
        Err(fault) => return refused(rt, fault, trial),
    };
    match trial {
        Trial::Refused => Err(Fail::from("no hub")),
        Trial::Closed => close(rt, hub, seats),
        Trial::Tried => try_waits(rt, &hub, seats),
        Trial::Called(turns) => call_all(rt, hub, seats, actors, turns),
    }
}

fn at_brand(
    rt: &(impl Wait + Abort),
    alloc: Global,
    actors: &[u32],
    trial: Trial,
) -> Result<(), Fail>
    requires { length actors.now ≤ 64 }
{
    let kernel = kernel(alloc)?;
    let parts = actors.len() as u64 + 1;
    at::<Brand, Brand>(
        rt,
        alloc,
        Blank::new(parts),
        Blank::new(parts),
        kernel,
        actors,
        trial,
    )
}

#[test]
fn two_equal_actors_get_no_hub(rt: HostRuntime) -> Result<(), Fail> {
    at_brand(&rt, rt.alloc(), &[900, 900], Trial::Refused)
}

#[test]
fn hub_closes_with_all_its_seats(rt: HostRuntime) -> Result<(), Fail> {
    at_brand(&rt, rt.alloc(), &[900, 10], Trial::Closed)
}

#[test]
fn wait_ends_after_its_turns(rt: HostRuntime) -> Result<(), Fail> {
    at_brand(&rt, rt.alloc(), &[900, 10], Trial::Tried)
}

#[test]
fn attached_thread_stops_and_goes_on(rt: HostRuntime) -> Result<(), Fail> {
    at_brand(&rt, rt.alloc(), &[900, 10], Trial::Called(&ATTACHED))
}

#[test]
fn killed_tracee_is_waited_for_twice(rt: HostRuntime) -> Result<(), Fail> {
    at_brand(&rt, rt.alloc(), &[900, 1], Trial::Called(&KILLED))
}
