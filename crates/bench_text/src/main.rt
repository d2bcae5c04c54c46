//! Measures how fast scenarios are read and runs printed, where it is called as `bench_text measure`.
#![tactic(auto)]

mod counts;
mod texts;
mod timing;

use std::{env, io};
use texts::{crowd_text, long_text, short_text};
use timing::{Timing, calls_of, quickest, time_parse, time_read, time_serial, time_statuses};

fn main(rt: HostRuntime) -> io::Result<()> {
    for word in env::args(&rt)?.skip(1) {
        if word.as_str() == "measure" {
            return measure(&rt);
        }
    }
    println!(rt; "usage: bench_text measure")
}

fn measure(rt: &HostRuntime) -> io::Result<()> {
    let long = long_text(rt.alloc())?;
    let short = short_text(rt.alloc())?;
    println!(rt;
        "work                     bytes in  bytes out     calls        ms    MB in/s  M calls/s"
    )?;
    print(
        rt,
        "parse and drop alone",
        &long,
        quickest(|| time_parse(rt, &long))?,
    )?;
    print(rt, "read", &long, quickest(|| time_read(rt, &long))?)?;
    print(
        rt,
        "serial, steps once",
        &long,
        quickest(|| time_serial(rt, &long))?,
    )?;
    print(
        rt,
        "serial, steps with times",
        &short,
        quickest(|| time_serial(rt, &short))?,
    )?;
    let crowd = crowd_text(rt.alloc())?;
    print(
        rt,
        "1,024 statuses",
        &crowd,
        quickest(|| time_statuses(rt, &crowd))?,
    )
}

fn print(rt: &HostRuntime, name: &str, text: &str, timing: Timing) -> io::Result<()> {
    let Ok(bytes) = u32::try_from(text.len()) else {
        return Err(io::ErrorKind::InvalidData.into());
    };
    let calls = calls_of(rt, text)?;
    println!(rt;
        "{name:24}{bytes:9}{:11}{calls:10}{:10.2}{:11.1}{:11.2}",
        timing.written,
        timing.seconds * 1e3,
        f64::from(bytes) / timing.seconds / 1e6,
        f64::from(calls) / timing.seconds / 1e6
    )
}
