//! A hub and its calls, made again where memory was refused; `rt try --test --fail-alloc N` refuses the Nth allocation.

ghost use Rattle.std.specs.Prelude.{◌≡◌, ◌+◌, ◌≤◌, [], length, IfOk};

use super::{KILL, same, start};
use std::alloc::{AllocError, Global};
use std::marker::Brand;
use std::process::Abort;
use std::sync::Wait;
use std::sync::ledger::{Blank, Ledger};
use std::test::Fail;
use tr_hub::{Answer, Asked, Hub, Parts, Seat};
use tr_kernel::Kernel;
use tr_model::{Event, Refusal, Same};

/// Asks what makes no entry.
const PROBE: Event = Event::Kill { tgid: 10, sig: 0 };

pub(super) fn kernel(alloc: Global) -> Result<Kernel, AllocError>
    ensures { IfOk result (λ k. k.journal ≡ []) }
{
    match Kernel::new(alloc, start(alloc)?) {
        Ok(kernel) => Ok(kernel),
        Err(_) => Err(AllocError),
    }
}

/// Makes a call, and once more where memory was refused to it.
fn call_at_last<E: Parts, A: Parts>(
    rt: &impl Wait,
    hub: &Hub<E, A>,
    seat: &mut Seat<E, A>,
    event: Event,
) -> Answer {
    match hub.call(rt, seat, event) {
        Answer::Refused(Refusal::NoMemory) => hub.call(rt, seat, event),
        answer => answer,
    }
}

/// Makes 20 entries and as many calls without one, and closes the hub.
fn call_forty<E: Parts, A: Parts>(
    rt: &(impl Wait + Abort),
    hub: Hub<E, A>,
    mut seats: Vec<Seat<E, A>>,
) -> Option<(Kernel, Vec<Asked>)>
    requires { (E.all ≡ E.parts) × (A.all ≡ A.parts) }
{
    let mut seat = seats.pop()?;
    for _ in 0..20 {
        let entered = call_at_last(rt, &hub, &mut seat, KILL);
        same(rt, &entered.is_entered(), &true);
        let asked = call_at_last(rt, &hub, &mut seat, PROBE);
        same(rt, &asked.is_entered(), &false);
    }
    seats.push(seat).ok()?;
    match hub.close(seats) {
        Ok(closed) => Some(closed),
        Err(_) => None,
    }
}

fn at<E: Parts, A: Parts>(
    rt: &(impl Wait + Abort),
    alloc: Global,
    entries: Blank,
    accepted: Blank,
    kernel: Kernel,
    actors: &[u32],
) -> Option<(Kernel, Vec<Asked>)>
    requires empty { kernel.journal ≡ [] }
    requires start { kernel.start ≡ E.opening }
    requires entries { (entries.name ≡ E.name)
        × (entries.parts ≡ E.parts)
        × (E.all ≡ E.parts)
        × (E.all ≡ length actors.now + 1) }
    requires accepted { (accepted.name ≡ A.name)
        × (accepted.parts ≡ A.parts)
        × (A.all ≡ A.parts)
        × (A.all ≡ length actors.now + 1) }
{
    match Hub::<E, A>::new(alloc, entries, accepted, kernel, actors) {
        Ok((hub, seats)) => call_forty(rt, hub, seats),
        Err(_) => None,
    }
}

/// What is left of a hub that was opened, called and closed; nothing where memory was refused to its opening.
fn left(rt: &(impl Wait + Abort), alloc: Global, actors: &[u32]) -> Option<(Kernel, Vec<Asked>)>
    requires { length actors.now ≤ 64 }
{
    let Ok(kernel) = kernel(alloc) else {
        return None;
    };
    let parts = actors.len() as u64 + 1;
    at::<Brand, Brand>(
        rt,
        alloc,
        Blank::new(parts),
        Blank::new(parts),
        kernel,
        actors,
    )
}

/// The same, opened again where memory was refused the first time.
fn left_at_last(rt: &(impl Wait + Abort), alloc: Global) -> Result<(Kernel, Vec<Asked>), Fail> {
    match left(rt, alloc, &[900]) {
        Some(left) => Ok(left),
        None => Ok(left(rt, alloc, &[900]).ok_or("a hub")?),
    }
}

#[test]
fn refused_calls_leave_no_trace_in_a_hub(rt: HostRuntime) -> Result<(), Fail> {
    let alloc = rt.alloc();
    let (kernel, asked) = left_at_last(&rt, alloc)?;
    let (other, also_asked) = left_at_last(&rt, alloc)?;
    same(&rt, &(kernel.journal().len(), asked.len()), &(20, 20));
    let mut entries = kernel.journal().iter().zip(other.journal());
    assert_eq!(rt; kernel.journal().len(), other.journal().len());
    assert!(rt; entries.all(|(a, b)| a.same(b)));
    assert!(rt; kernel.totals() == other.totals());
    assert!(rt; asked.as_slice() == also_asked.as_slice());
    Ok(())
}
