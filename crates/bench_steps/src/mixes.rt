//! Calls that are made again and again, as the same kernel in plain Rust measures them.

use crate::starts::FIRST;
use std::io;
use tr_kernel::Kernel;
use tr_model::Event;
use tr_sigset::SigSet;
use tr_tracee::Options;
use tr_wait::Which;

/// A tracer, or another process: no thread of the table.
const SENDER: u32 = 90_000;

const TRACER: u32 = 90_001;

/// USR1 and the least real-time signal, which each group catches.
const USR1: u64 = 1 << 9;

const QUEUED: u64 = 1 << 33;

/// A group, whose threads have the ids from its own on, and the last of them, which acts.
#[derive(Clone, Copy)]
pub struct Acting {
    pub tgid: u32,
    pub members: u32,
    pub tid: u32,
}

fn answer(kernel: &mut Kernel, actor: u32, event: Event) -> u64 {
    u64::from(kernel.step(actor, event).is_ok())
}

/// Makes the calls of a cycle so often; how many were answered.
#[inline(always)]
fn repeated<C: Fn(&mut Kernel) -> u64>(kernel: &mut Kernel, times: u32, cycle: C) -> u64
    requires { C.IsAlwaysCallable cycle }
{
    let mut answered: u64 = 0;
    for _ in 0..times {
        answered = answered.wrapping_add(cycle(kernel));
    }
    answered
}

/// Makes an event that has to be answered.
fn make(kernel: &mut Kernel, actor: u32, event: Event) -> io::Result<()> {
    match kernel.step(actor, event) {
        Ok(_) => Ok(()),
        Err(_) => Err(io::ErrorKind::Other.into()),
    }
}

fn kill(at: Acting, sig: u8) -> Event {
    Event::Kill { tgid: at.tgid, sig }
}

/// A signal that is queued.
fn sigqueue(at: Acting, value: i32) -> Event {
    Event::Sigqueue {
        tgid: at.tgid,
        sig: 34,
        value,
    }
}

/// So many queued signals wait for the group.
pub fn queue(kernel: &mut Kernel, at: Acting, waiting: i32) -> io::Result<()> {
    for value in 0..waiting {
        make(kernel, SENDER, sigqueue(at, value))?;
    }
    Ok(())
}

/// USR1, which the thread that acts blocks, comes once.
pub fn send_blocked(kernel: &mut Kernel, at: Acting) -> io::Result<()> {
    let set = SigSet::from_bits(USR1);
    make(kernel, at.tid, Event::Mask { tid: at.tid, set })?;
    make(kernel, SENDER, kill(at, 10))
}

/// All threads but the last block what the group catches.
pub fn block_all_but_one(kernel: &mut Kernel, at: Acting) -> io::Result<()> {
    let set = SigSet::from_bits(USR1 | QUEUED);
    for tid in at.tgid..at.tid {
        make(kernel, tid, Event::Mask { tid, set })?;
    }
    Ok(())
}

/// A tracer seizes all threads, which are so many.
pub fn seize_all(kernel: &mut Kernel, count: u32) -> io::Result<()> {
    for i in 0..count {
        let event = Event::Seize {
            tid: FIRST.wrapping_add(i),
            options: Options::NONE,
        };
        make(kernel, TRACER, event)?;
    }
    Ok(())
}

/// Kills that merge with the first.
#[inline(never)]
pub fn merged_kills(kernel: &mut Kernel, at: Acting, times: u32) -> u64 {
    repeated(
        kernel,
        times,
        |kernel: &mut Kernel| answer(kernel, SENDER, kill(at, 10)),
    )
}

/// Kills of a group that isn't there.
#[inline(never)]
pub fn refused_kills(kernel: &mut Kernel, times: u32) -> u64 {
    let nobody = Event::Kill { tgid: 1, sig: 10 };
    repeated(
        kernel,
        times,
        |kernel: &mut Kernel| answer(kernel, SENDER, nobody),
    )
}

/// Signal 0, which makes no entry.
#[inline(never)]
pub fn probes(kernel: &mut Kernel, at: Acting, times: u32) -> u64 {
    repeated(
        kernel,
        times,
        |kernel: &mut Kernel| answer(kernel, SENDER, kill(at, 0)),
    )
}

/// Waits while no thread has a report.
#[inline(never)]
pub fn idle_waits(kernel: &mut Kernel, times: u32) -> u64 {
    repeated(kernel, times, |kernel: &mut Kernel| wait(kernel))
}

/// The thread sets its mask again and again.
#[inline(never)]
pub fn masks(kernel: &mut Kernel, at: Acting, times: u32) -> u64 {
    let tid = at.tid;
    let mut answered: u64 = 0;
    for i in 0..times {
        let set = SigSet::from_bits(u64::from(i & 1));
        answered = answered.wrapping_add(answer(kernel, tid, Event::Mask { tid, set }));
    }
    answered
}

/// A signal comes, and the thread takes it.
#[inline(never)]
pub fn kills_and_takes(kernel: &mut Kernel, at: Acting, cycles: u32) -> u64 {
    repeated(kernel, cycles, |kernel: &mut Kernel| {
        let sent = answer(kernel, SENDER, kill(at, 10));
        sent.wrapping_add(take(kernel, at.tid))
    })
}

/// One more queued signal comes, and the first of all that wait is taken.
#[inline(never)]
pub fn queued_takes(kernel: &mut Kernel, at: Acting, cycles: u32) -> u64 {
    repeated(kernel, cycles, |kernel: &mut Kernel| {
        let sent = answer(kernel, SENDER, sigqueue(at, 7));
        sent.wrapping_add(take(kernel, at.tid))
    })
}

/// A signal comes, and the one thread that may takes it.
#[inline(never)]
pub fn any_takes(kernel: &mut Kernel, at: Acting, cycles: u32) -> u64 {
    repeated(kernel, cycles, |kernel: &mut Kernel| {
        let sent = answer(kernel, SENDER, kill(at, 10));
        let taken = answer(kernel, at.tid, Event::TakeAny { tgid: at.tgid });
        sent.wrapping_add(taken)
    })
}

fn take(kernel: &mut Kernel, tid: u32) -> u64 {
    answer(kernel, tid, Event::Take { tid })
}

fn wait(kernel: &mut Kernel) -> u64 {
    answer(kernel, TRACER, Event::Wait { which: Which::Any })
}

/// A tracer waits for a thread in a stop, and restarts it.
fn wait_and_restart(kernel: &mut Kernel, tid: u32) -> u64 {
    let waited = wait(kernel);
    waited.wrapping_add(answer(kernel, TRACER, Event::Cont { tid, sig: 0 }))
}

/// A signal comes, stops the thread, is waited for, and suppressed.
#[inline(never)]
pub fn deliveries(kernel: &mut Kernel, at: Acting, cycles: u32) -> u64 {
    repeated(kernel, cycles, |kernel: &mut Kernel| {
        let sent = answer(kernel, SENDER, kill(at, 10));
        let taken = take(kernel, at.tid);
        sent.wrapping_add(taken)
            .wrapping_add(wait_and_restart(kernel, at.tid))
    })
}

/// The thread stops and is restarted; its tracer waits for each stop.
#[inline(never)]
pub fn stops(kernel: &mut Kernel, at: Acting, cycles: u32) -> u64 {
    let tid = at.tid;
    repeated(kernel, cycles, |kernel: &mut Kernel| {
        let asked = answer(kernel, TRACER, Event::Interrupt { tid });
        let stopped = answer(kernel, tid, Event::Trap { tid });
        asked
            .wrapping_add(stopped)
            .wrapping_add(wait_and_restart(kernel, tid))
    })
}

/// SIGSTOP comes and is taken, each thread halts, and SIGCONT comes.
#[inline(never)]
pub fn group_stops(kernel: &mut Kernel, at: Acting, cycles: u32) -> u64 {
    repeated(kernel, cycles, |kernel: &mut Kernel| {
        let mut answered = answer(kernel, SENDER, kill(at, 19));
        answered = answered.wrapping_add(take(kernel, at.tid));
        for i in 0..at.members {
            let tid = at.tgid.wrapping_add(i);
            answered = answered.wrapping_add(answer(kernel, tid, Event::Halt { tid }));
        }
        answered.wrapping_add(answer(kernel, SENDER, kill(at, 18)))
    })
}
