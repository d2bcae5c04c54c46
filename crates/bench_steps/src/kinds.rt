use crate::mixes::{
    Acting, any_takes, block_all_but_one, deliveries, group_stops, idle_waits, kills_and_takes,
    masks, merged_kills, probes, queue, queued_takes, refused_kills, seize_all, send_blocked,
    stops,
};
use crate::starts::{Shape, kernel};
use crate::timing::{Timing, timed};
use std::alloc::Global;
use std::io;
use tr_kernel::Kernel;

/// Calls that go together.
#[derive(Clone, Copy)]
pub enum Kind {
    /// Kills that merge with a pending signal.
    Merged,
    /// A kill, and the thread takes the signal.
    Taken,
    /// A queued signal, and the thread takes the first that waits.
    Queued,
    /// A kill, and the one thread that may takes the signal.
    TakenByAny,
    /// A kill, and the tracer suppresses the signal at its stop.
    Delivered,
    /// A group-stop of all threads, and SIGCONT.
    GroupStopped,
    /// A stop that the tracer asks for, waits for and ends.
    Stopped,
    /// Waits while no thread has a report.
    Idle,
    /// Kills of a group that isn't there.
    Refused,
    /// Signal 0, which makes no entry.
    Unentered,
    /// The thread sets its mask.
    Masked,
}

/// A table, and how many queued signals wait for its last group.
#[derive(Clone, Copy)]
pub struct Size {
    shape: Shape,
    waiting: i32,
}

impl Size {
    pub fn new(groups: u32, threads: u32, waiting: i32) -> Size {
        Size {
            shape: Shape { groups, threads },
            waiting,
        }
    }
}

impl Kind {
    /// How many calls go together.
    fn calls(self, at: Acting) -> u32 {
        match self {
            Kind::Taken | Kind::Queued | Kind::TakenByAny => 2,
            Kind::Delivered | Kind::Stopped => 4,
            Kind::GroupStopped => at.members.wrapping_add(3),
            _ => 1,
        }
    }

    /// Brings a kernel into the state in which these calls are made.
    fn prepare(self, kernel: &mut Kernel, size: Size) -> io::Result<()> {
        let at = size.shape.last();
        match self {
            Kind::Merged => send_blocked(kernel, at)?,
            Kind::TakenByAny => block_all_but_one(kernel, at)?,
            Kind::Delivered | Kind::Stopped | Kind::Idle => seize_all(kernel, size.shape.count())?,
            _ => {}
        }
        queue(kernel, at, size.waiting)
    }

    /// Makes them so often.
    fn make(self, kernel: &mut Kernel, at: Acting, cycles: u32) -> u64 {
        match self {
            Kind::Merged => merged_kills(kernel, at, cycles),
            Kind::Taken => kills_and_takes(kernel, at, cycles),
            Kind::Queued => queued_takes(kernel, at, cycles),
            Kind::TakenByAny => any_takes(kernel, at, cycles),
            Kind::Delivered => deliveries(kernel, at, cycles),
            Kind::GroupStopped => group_stops(kernel, at, cycles),
            Kind::Stopped => stops(kernel, at, cycles),
            Kind::Idle => idle_waits(kernel, cycles),
            Kind::Refused => refused_kills(kernel, cycles),
            Kind::Unentered => probes(kernel, at, cycles),
            Kind::Masked => masks(kernel, at, cycles),
        }
    }

    /// Times rounds of about this many steps, each on a new kernel. An error where a call wasn't answered, or a call that is
    /// to be refused was.
    pub fn time(self, rt: &HostRuntime, size: Size, steps: u32) -> io::Result<Timing> {
        let at = size.shape.last();
        let cycles = steps.checked_div(self.calls(at)).unwrap_or(0);
        let count = cycles.wrapping_mul(self.calls(at)).max(1);
        let alloc = rt.alloc();
        let timing = timed(
            rt,
            count,
            || prepared(alloc, self, size),
            |made: &mut Kernel| self.make(made, at, cycles),
        )?;
        let answered = match self {
            Kind::Refused => 0,
            _ => count,
        };
        if timing.answered != u64::from(answered) {
            return Err(io::ErrorKind::Other.into());
        }
        Ok(timing)
    }
}

fn prepared(alloc: Global, kind: Kind, size: Size) -> io::Result<Kernel> {
    let mut kernel = kernel(alloc, size.shape)?;
    kind.prepare(&mut kernel, size)?;
    Ok(kernel)
}
