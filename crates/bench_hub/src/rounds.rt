ghost use Rattle.std.specs.Prelude.{◌≡◌, []};

use crate::starts::kernel;
use std::alloc::Global;
use std::marker::Brand;
use std::rt::Clock;
use std::sync::Wait;
use std::sync::ledger::{Blank, Ledger};
use std::thread::Threads;
use std::time::Instant;
use std::{io, thread};
use tr_hub::{Hub, Parts, Seat};
use tr_kernel::Kernel;
use tr_model::Event;

/// How many calls one round makes, in all threads together.
pub const CALLS: u64 = 400_000;

/// How many rounds are timed; the quickest counts.
const ROUNDS: usize = 15;

const ACTORS: [u32; 4] = [900, 901, 902, 903];

/// How many threads make the calls of a round.
#[derive(Clone, Copy)]
pub enum Crowd {
    One,
    Two,
    Four,
}

/// The time of a call, how many million calls a second that is, and how many of one round's made an entry.
#[derive(Clone, Copy)]
pub struct Timing {
    pub nanoseconds: f64,
    pub rate: f64,
    pub entered: u64,
}

/// Makes one event again and again; how often it made an entry.
#[inline(never)]
fn repeat<E: Parts, A: Parts>(
    rt: &impl Wait,
    hub: &Hub<E, A>,
    mut seat: Seat<E, A>,
    event: Event,
    calls: u64,
) -> u64 {
    let mut entered: u64 = 0;
    for _ in 0..calls {
        let answer = hub.call(rt, &mut seat, event);
        entered = entered.wrapping_add(u64::from(answer.is_entered()));
    }
    entered
}

/// Makes the calls in two threads.
fn repeat_twice<E: Parts + Send + Sync, A: Parts + Send + Sync, R: Threads + Wait + Sync>(
    rt: &R,
    hub: &Hub<E, A>,
    seats: (Seat<E, A>, Seat<E, A>),
    event: Event,
    calls: u64,
) -> u64 {
    let (one, other) = seats;
    let (a, b) = thread::join(
        rt,
        move || repeat(rt, hub, one, event, calls / 2),
        move || repeat(rt, hub, other, event, calls / 2),
    );
    a.wrapping_add(b)
}

fn repeat_in<E: Parts + Send + Sync, A: Parts + Send + Sync, R: Threads + Wait + Sync>(
    rt: &R,
    hub: &Hub<E, A>,
    mut seats: Vec<Seat<E, A>>,
    event: Event,
    crowd: Crowd,
) -> u64 {
    let (Some(a), Some(b), Some(c), Some(d)) = (seats.pop(), seats.pop(), seats.pop(), seats.pop())
    else {
        return 0;
    };
    match crowd {
        Crowd::One => repeat(rt, hub, a, event, CALLS),
        Crowd::Two => repeat_twice(rt, hub, (a, b), event, CALLS),
        Crowd::Four => {
            let (x, y) = thread::join(
                rt,
                move || repeat_twice(rt, hub, (a, b), event, CALLS / 2),
                move || repeat_twice(rt, hub, (c, d), event, CALLS / 2),
            );
            x.wrapping_add(y)
        }
    }
}

/// One round on a kernel of its own: its seconds, and how many calls made an entry.
fn round<E: Parts + Send + Sync, A: Parts + Send + Sync, R: Threads + Wait + Clock + Sync>(
    rt: &R,
    alloc: Global,
    kernel: Kernel,
    ledgers: (Blank, Blank),
    event: Event,
    crowd: Crowd,
) -> io::Result<(f64, u64)>
    requires empty { kernel.journal ≡ [] }
    requires start { kernel.start ≡ E.opening }
    requires entries { (ledgers.0.name ≡ E.name)
        × (ledgers.0.parts ≡ E.parts)
        × (E.all ≡ E.parts)
        × (E.all ≡ 5) }
    requires accepted { (ledgers.1.name ≡ A.name)
        × (ledgers.1.parts ≡ A.parts)
        × (A.all ≡ A.parts)
        × (A.all ≡ 5) }
{
    let (entries, accepted) = ledgers;
    let Ok((hub, seats)) = Hub::<E, A>::new(alloc, entries, accepted, kernel, &ACTORS) else {
        return Err(io::ErrorKind::Other.into());
    };
    let start = Instant::now(rt)?;
    let entered = repeat_in(rt, &hub, seats, event, crowd);
    Ok((start.elapsed(rt)?.as_secs_f64(), entered))
}

fn round_at_brand<R: Threads + Wait + Clock + Sync>(
    rt: &R,
    alloc: Global,
    event: Event,
    crowd: Crowd,
) -> io::Result<(f64, u64)> {
    let ledgers = (Blank::new(5), Blank::new(5));
    round::<Brand, Brand, _>(rt, alloc, kernel(alloc)?, ledgers, event, crowd)
}

/// Times rounds of `CALLS` calls, each on a new kernel.
pub fn timed<R: Threads + Wait + Clock + Sync>(
    rt: &R,
    alloc: Global,
    event: Event,
    crowd: Crowd,
) -> io::Result<Timing> {
    let mut quickest = f64::MAX;
    let mut entered: u64 = 0;
    for _ in 0..ROUNDS {
        let (seconds, count) = round_at_brand(rt, alloc, event, crowd)?;
        entered = count;
        quickest = quickest.min(seconds);
    }
    let nanoseconds = quickest * 1e9 / CALLS as f64;
    Ok(Timing {
        nanoseconds,
        rate: 1e3 / nanoseconds,
        entered,
    })
}
