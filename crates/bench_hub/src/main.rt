//! Measures how many calls a second a hub serves, where it is called as `bench_hub measure`.
#![tactic(auto)]

mod rounds;
mod starts;

use rounds::{Crowd, timed};
use std::alloc::Global;
use std::rt::Clock;
use std::sync::Wait;
use std::thread::Threads;
use std::{env, io};
use tr_model::Event;

/// Merged: its signal is blocked, and waits already.
const KILL: Event = Event::Kill { tgid: 10, sig: 10 };

/// Refused: there is no such group.
const NOBODY: Event = Event::Kill { tgid: 11, sig: 10 };

fn main(rt: HostRuntime) -> io::Result<()> {
    for word in env::args(&rt)?.skip(1) {
        if word.as_str() == "measure" {
            return measure(&rt, rt.alloc());
        }
    }
    println!(rt; "usage: bench_hub measure")
}

fn measure<R: Threads + Wait + Clock + Print + Sync>(rt: &R, alloc: Global) -> io::Result<()> {
    println!(rt; "calls             threads         ns    M calls/s   entered")?;
    measure_with(rt, alloc, "1", Crowd::One)?;
    measure_with(rt, alloc, "2", Crowd::Two)?;
    measure_with(rt, alloc, "4", Crowd::Four)
}

fn measure_with<R: Threads + Wait + Clock + Print + Sync>(
    rt: &R,
    alloc: Global,
    threads: &str,
    crowd: Crowd,
) -> io::Result<()> {
    for (name, event) in [("kill, merged", KILL), ("refused", NOBODY)] {
        let timing = timed(rt, alloc, event, crowd)?;
        println!(rt;
            "{name:18}{threads:7}{:11.1}{:13.2}{:10}",
            timing.nanoseconds, timing.rate, timing.entered
        )?;
    }
    Ok(())
}
