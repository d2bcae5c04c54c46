use crate::counts::Count;
use std::io;
use std::rt::Clock;
use std::time::Instant;
use tr_kernel::Kernel;
use tr_reading::{Job, ScenarioFault, json, read};
use tr_scenario::{FromReader, ToWriter, serial};
use tr_status::write_thread;

/// How many rounds are timed; the quickest counts.
const ROUNDS: usize = 50;

/// The time of a round, and how many bytes it wrote.
#[derive(Clone, Copy)]
pub struct Timing {
    pub seconds: f64,
    pub written: usize,
}

fn no_fault<T>(outcome: Result<T, ScenarioFault>) -> io::Result<T> {
    match outcome {
        Ok(value) => Ok(value),
        Err(_) => Err(io::ErrorKind::InvalidData.into()),
    }
}

/// How many calls the steps of a scenario are.
pub fn calls_of(rt: &HostRuntime, text: &str) -> io::Result<u32> {
    let scenario = no_fault(read(rt.alloc(), text.as_bytes()))?;
    let Job::Steps(steps) = &scenario.job else {
        return Err(io::ErrorKind::InvalidData.into());
    };
    let mut calls: u32 = 0;
    for step in steps.as_slice() {
        calls = calls.wrapping_add(step.times);
    }
    Ok(calls)
}

/// Parses a scenario in memory, and drops its value.
pub fn time_parse(rt: &HostRuntime, text: &str) -> io::Result<Timing> {
    let start = Instant::now(rt)?;
    let value = no_fault(json(rt.alloc(), text.as_bytes()))?;
    drop(value);
    let seconds = start.elapsed(rt)?.as_secs_f64();
    Ok(Timing {
        seconds,
        written: 0,
    })
}

/// Reads a scenario from memory.
pub fn time_read(rt: &HostRuntime, text: &str) -> io::Result<Timing> {
    let start = Instant::now(rt)?;
    let scenario = read(rt.alloc(), text.as_bytes());
    let seconds = start.elapsed(rt)?.as_secs_f64();
    no_fault(scenario)?;
    Ok(Timing {
        seconds,
        written: 0,
    })
}

/// Reads a scenario from memory, runs it, and prints its text into memory.
pub fn time_serial(rt: &HostRuntime, text: &str) -> io::Result<Timing> {
    let mut count = Count { bytes: 0 };
    let mut reader = FromReader::new(text.as_bytes());
    let mut writer = ToWriter::new(&mut count);
    let start = Instant::now(rt)?;
    let outcome = serial(rt.alloc(), &mut reader, &mut writer);
    let seconds = start.elapsed(rt)?.as_secs_f64();
    no_fault(outcome)?;
    Ok(Timing {
        seconds,
        written: count.bytes,
    })
}

/// Writes the status of each thread of a scenario's start into memory.
pub fn time_statuses(rt: &HostRuntime, text: &str) -> io::Result<Timing> {
    let scenario = no_fault(read(rt.alloc(), text.as_bytes()))?;
    let Ok(kernel) = Kernel::new(rt.alloc(), scenario.start) else {
        return Err(io::ErrorKind::InvalidData.into());
    };
    let mut count = Count { bytes: 0 };
    let start = Instant::now(rt)?;
    for thread in kernel.table().threads() {
        let mut writer = ToWriter::new(&mut count);
        if write_thread(kernel.table(), thread, &mut writer).is_err() {
            return Err(io::ErrorKind::Other.into());
        }
    }
    let seconds = start.elapsed(rt)?.as_secs_f64();
    Ok(Timing {
        seconds,
        written: count.bytes,
    })
}

/// The quickest of the rounds.
pub fn quickest<R: Fn() -> io::Result<Timing>>(round: R) -> io::Result<Timing>
    requires { R.IsAlwaysCallable round }
{
    let mut quickest = round()?;
    for _ in 1..ROUNDS {
        let timing = round()?;
        if timing.seconds < quickest.seconds {
            quickest = timing;
        }
    }
    Ok(quickest)
}
