ghost use Rattle.std.specs.Prelude.{◌<◌};

use std::io;
use std::rt::Clock;
use std::time::Instant;

/// How many steps are timed in all; of their rounds the quickest counts.
const TIMED: u32 = 12_000_000;

/// How many rounds there are at the most.
const ROUNDS: u32 = 300;

/// The time of a step, and how many of one round's were answered.
#[derive(Clone, Copy)]
pub struct Timing {
    pub nanoseconds: f64,
    pub answered: u64,
}

/// Times rounds of this many steps, each on what `new` makes for it.
pub fn timed<S: Drop, N: Fn() -> io::Result<S>, R: Fn(&mut S) -> u64>(
    rt: &HostRuntime,
    count: u32,
    new: N,
    steps: R,
) -> io::Result<Timing>
    requires count { 0 < count }
    requires new { N.IsAlwaysCallable new }
    requires steps { R.IsAlwaysCallable steps }
{
    let mut quickest = f64::MAX;
    let mut answered: u64 = 0;
    for _ in 0..(TIMED / count).min(ROUNDS) {
        let mut made = new()?;
        let start = Instant::now(rt)?;
        answered = steps(&mut made);
        let seconds = start.elapsed(rt)?.as_secs_f64();
        quickest = quickest.min(seconds);
    }
    Ok(Timing {
        nanoseconds: quickest * 1e9 / f64::from(count),
        answered,
    })
}
