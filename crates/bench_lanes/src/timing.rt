use crate::rows::{Rows, WINDOWS};
use std::io;
use std::rt::Clock;
use std::time::Instant;
use tr_sigset::Signal;

/// How many rows one round scans, about.
const ROUND: usize = 1 << 20;

/// How many rounds are timed; the quickest counts.
const ROUNDS: usize = 25;

/// The time of a call, how many million rows a second that is, and the sum of all answers.
#[derive(Clone, Copy)]
pub struct Timing {
    pub nanoseconds: f64,
    pub rate: f64,
    pub sum: u64,
}

/// Goes over the windows in turn, `turns` times.
#[inline(never)]
fn round<F: Fn(&Rows, &Signal, &mut [u64]) -> u64>(
    windows: &[Rows; WINDOWS],
    signal: &Signal,
    out: &mut [u64],
    turns: usize,
    scan: &F,
) -> u64
    requires { F.IsAlwaysCallable scan.now }
{
    let mut sum: u64 = 0;
    for turn in 0..turns {
        sum = sum.wrapping_add(scan(&windows[turn % WINDOWS], signal, out));
    }
    sum
}

/// Times a scan of windows that have as many rows as `out`, at most `ROUND`.
pub fn timed<F: Fn(&Rows, &Signal, &mut [u64]) -> u64>(
    rt: &impl Clock,
    windows: &[Rows; WINDOWS],
    signal: &Signal,
    out: &mut [u64],
    scan: F,
) -> io::Result<Timing>
    requires { F.IsAlwaysCallable scan }
{
    let rows = out.len().clamp(1, ROUND);
    let turns = ROUND / rows;
    let mut quickest = f64::MAX;
    let mut sum: u64 = 0;
    for _ in 0..ROUNDS {
        let start = Instant::now(rt)?;
        sum = sum.wrapping_add(round(windows, signal, out, turns, &scan));
        let seconds = start.elapsed(rt)?.as_secs_f64();
        quickest = quickest.min(seconds);
    }
    let nanoseconds = quickest * 1e9 / turns as f64;
    Ok(Timing {
        nanoseconds,
        rate: rows as f64 * 1e3 / nanoseconds,
        sum,
    })
}
