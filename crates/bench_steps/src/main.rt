//! Measures how many steps a second a kernel makes, where it is called as `bench_steps measure`, and what a step takes in
//! tables of several sizes, as `bench_steps sizes`.
#![tactic(auto)]

mod kinds;
mod mixes;
mod sizes;
mod starts;
mod timing;

use kinds::{Kind, Size};
use sizes::measure_sizes;
use starts::{FIRST, Shape, table};
use std::{env, io};
use timing::{Timing, timed};
use tr_sigset::SigSet;
use tr_table::Table;
use tr_threads::ThreadChange;

/// How many steps one round makes.
const STEPS: u32 = 4_000_000;

/// How many it makes where its journal stays in the processor's cache.
const FEW: u32 = 1 << 12;

/// The id of the last of 1,024 threads.
const LAST: u32 = FIRST + 1023;

/// 1,024 threads in 16 groups.
const WIDE: Shape = Shape {
    groups: 16,
    threads: 64,
};

fn main(rt: HostRuntime) -> io::Result<()> {
    for word in env::args(&rt)?.skip(1) {
        match word.as_str() {
            "measure" => return measure(&rt),
            "sizes" => return measure_sizes(&rt),
            _ => {}
        }
    }
    println!(rt; "usage: bench_steps measure|sizes")
}

fn measure(rt: &HostRuntime) -> io::Result<()> {
    println!(rt; "steps                                 ns    M steps/s  answered")?;
    let one = Size::new(1, 1, 0);
    row(rt, "kill, merged", Kind::Merged, one)?;
    print(rt, "kill, merged, 4,096", Kind::Merged.time(rt, one, FEW)?)?;
    row(rt, "kill and take in turn", Kind::Taken, one)?;
    row(rt, "refused", Kind::Refused, one)?;
    row(rt, "without an entry", Kind::Unentered, one)?;
    measure_many(rt)
}

/// The same among the most threads that a table may have.
fn measure_many(rt: &HostRuntime) -> io::Result<()> {
    let alloc = rt.alloc();
    let record = timed(rt, STEPS, || table(alloc, WIDE), changes)?;
    print(rt, "a record of 1,024", record)?;
    let wide = Size::new(WIDE.groups, WIDE.threads, 0);
    row(rt, "mask, 1,024 threads", Kind::Masked, wide)?;
    let many = Size::new(1024, 1, 0);
    row(rt, "kill, 1,024 groups", Kind::Merged, many)?;
    row(rt, "wait, last of 1,024", Kind::Stopped, wide)?;
    row(rt, "wait for nothing", Kind::Idle, wide)?;
    measure_mixes(rt)
}

/// Calls that go together.
fn measure_mixes(rt: &HostRuntime) -> io::Result<()> {
    let crowd = Size::new(1, 64, 0);
    row(
        rt,
        "sigqueue, 1,000 wait",
        Kind::Queued,
        Size::new(1, 1, 1000),
    )?;
    row(rt, "take_any of 64", Kind::TakenByAny, crowd)?;
    row(
        rt,
        "a delivery, traced",
        Kind::Delivered,
        Size::new(1, 1, 0),
    )?;
    row(rt, "a group-stop of 64", Kind::GroupStopped, crowd)
}

fn row(rt: &HostRuntime, name: &str, kind: Kind, size: Size) -> io::Result<()> {
    print(rt, name, kind.time(rt, size, STEPS)?)
}

/// Changes the record of the last thread again and again.
#[inline(never)]
fn changes(table: &mut Table) -> u64 {
    for i in 0..STEPS {
        let set = SigSet::from_bits(u64::from(i & 1));
        table.change_thread(LAST, &ThreadChange::Mask(set));
    }
    u64::from(STEPS)
}

fn print(rt: &HostRuntime, name: &str, timing: Timing) -> io::Result<()> {
    println!(rt;
        "{name:22}{:14.1}{:13.2}{:10}",
        timing.nanoseconds,
        1e3 / timing.nanoseconds,
        timing.answered
    )
}
