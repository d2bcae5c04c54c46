//! Measures each scan of rows beside a plain loop, at 64 and 1,024 rows, where it is called as `bench_lanes measure`.
#![tactic(auto)]

mod lanes;
mod plain;
mod rows;
mod timing;

use rows::{Data, Rows, WINDOWS};
use std::{env, io};
use timing::{Timing, timed};
use tr_sigset::Signal;

fn main(rt: HostRuntime) -> io::Result<()> {
    for word in env::args(&rt)?.skip(1) {
        if word.as_str() == "measure" {
            return measure(&rt);
        }
    }
    println!(rt; "usage: bench_lanes measure")
}

fn measure(rt: &HostRuntime) -> io::Result<()> {
    println!(rt; "scan            rows  plain ns  lanes ns  plain M rows/s  lanes M rows/s  sums")?;
    for (number, text) in [(9, "64"), (45, "1024")] {
        if let (Some(signal), Ok(count)) = (Signal::new(number), text.parse::<usize>()) {
            measure_rows(rt, &signal, count)?;
        }
    }
    Ok(())
}

fn measure_rows(rt: &HostRuntime, signal: &Signal, count: usize) -> io::Result<()> {
    let data = Data::new(rt.alloc(), count, 1 << (signal.number() - 1))?;
    let mut out = Vec::new(rt.alloc());
    out.resize(count, 0)?;
    match (
        data.window(0, count),
        data.window(1, count),
        data.window(2, count),
        data.window(3, count),
    ) {
        (Some(a), Some(b), Some(c), Some(d)) => measure_scans(rt, &[a, b, c, d], signal, &mut out),
        _ => Ok(()),
    }
}

fn measure_scans(
    rt: &HostRuntime,
    windows: &[Rows; WINDOWS],
    signal: &Signal,
    out: &mut [u64],
) -> io::Result<()> {
    measure_searches(rt, windows, signal, out)?;
    let plain = timed(rt, windows, signal, out, plain::ready_rows)?;
    let lanes = timed(rt, windows, signal, out, lanes::ready_rows)?;
    print(rt, "ready_rows", out.len(), plain, lanes)?;
    measure_folds(rt, windows, signal, out)
}

fn measure_searches(
    rt: &HostRuntime,
    windows: &[Rows; WINDOWS],
    signal: &Signal,
    out: &mut [u64],
) -> io::Result<()> {
    let plain = timed(rt, windows, signal, out, plain::first_clear)?;
    let lanes = timed(rt, windows, signal, out, lanes::first_clear)?;
    print(rt, "first_clear", out.len(), plain, lanes)?;
    let plain = timed(rt, windows, signal, out, plain::first_ready)?;
    let lanes = timed(rt, windows, signal, out, lanes::first_ready)?;
    print(rt, "first_ready", out.len(), plain, lanes)
}

fn measure_folds(
    rt: &HostRuntime,
    windows: &[Rows; WINDOWS],
    signal: &Signal,
    out: &mut [u64],
) -> io::Result<()> {
    let plain = timed(rt, windows, signal, out, plain::union_all)?;
    let lanes = timed(rt, windows, signal, out, lanes::union_all)?;
    print(rt, "union_all", out.len(), plain, lanes)?;
    let plain = timed(rt, windows, signal, out, plain::count_holding)?;
    let lanes = timed(rt, windows, signal, out, lanes::count_holding)?;
    print(rt, "count_holding", out.len(), plain, lanes)
}

/// Prints the times of a scan, and whether both ways gave the same sum of answers.
fn print(
    rt: &HostRuntime,
    name: &str,
    count: usize,
    plain: Timing,
    lanes: Timing,
) -> io::Result<()> {
    let same = if plain.sum == lanes.sum {
        "same"
    } else {
        "differ"
    };
    println!(rt;
        "{name:14}{count:6}{:10.2}{:10.2}{:16.0}{:16.0}  {same} {:x}",
        plain.nanoseconds, lanes.nanoseconds, plain.rate, lanes.rate, lanes.sum
    )
}
