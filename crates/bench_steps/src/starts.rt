use crate::mixes::Acting;
use std::alloc::{AllocError, Global};
use std::io;
use tr_group::Action;
use tr_kernel::Kernel;
use tr_sigset::{SigSet, Signal};
use tr_starts::{GroupStart, Items, Start};
use tr_table::Table;

/// The id of the first thread. All threads have the ids from it on.
pub const FIRST: u32 = 10;

/// How many groups there are, and how many threads each has.
#[derive(Clone, Copy)]
pub struct Shape {
    pub groups: u32,
    pub threads: u32,
}

impl Shape {
    /// How many threads there are in all.
    pub fn count(self) -> u32 {
        self.groups.wrapping_mul(self.threads)
    }

    /// The last group.
    pub fn last(self) -> Acting {
        let end = FIRST.wrapping_add(self.count());
        Acting {
            tgid: end.wrapping_sub(self.threads),
            members: self.threads,
            tid: end.wrapping_sub(1),
        }
    }
}

/// A group that catches these signals, of threads with the ids from its own on.
fn group(
    alloc: Global,
    caught: [Signal; 2],
    tgid: u32,
    count: u32,
) -> Result<GroupStart, AllocError> {
    let mut threads = Items::new(alloc);
    for i in 0..count {
        threads.push((tgid.wrapping_add(i), SigSet::empty()))?;
    }
    let mut actions = Items::new(alloc);
    for signal in caught {
        actions.push((signal, Action::Catch))?;
    }
    let mut name = Items::new(alloc);
    name.push(b'd')?;
    Ok(GroupStart {
        tgid,
        name,
        actions,
        threads,
    })
}

fn start(alloc: Global, caught: [Signal; 2], shape: Shape) -> Result<Start, AllocError> {
    let mut groups = Items::new(alloc);
    let mut tgid = FIRST;
    for _ in 0..shape.groups {
        groups.push(group(alloc, caught, tgid, shape.threads)?)?;
        tgid = tgid.wrapping_add(shape.threads);
    }
    Ok(Start {
        groups,
        limit: 20_000,
        entries: u32::MAX,
    })
}

/// USR1, and the least real-time signal.
fn caught() -> io::Result<[Signal; 2]> {
    match (Signal::new(10), Signal::new(34)) {
        (Some(usr1), Some(queued)) => Ok([usr1, queued]),
        _ => Err(io::ErrorKind::Other.into()),
    }
}

/// A kernel of this shape; each group catches USR1 and signal 34.
pub fn kernel(alloc: Global, shape: Shape) -> io::Result<Kernel> {
    match Kernel::new(alloc, start(alloc, caught()?, shape)?) {
        Ok(kernel) => Ok(kernel),
        Err(_) => Err(io::ErrorKind::Other.into()),
    }
}

/// A table of this shape.
pub fn table(alloc: Global, shape: Shape) -> io::Result<Table> {
    let start = start(alloc, caught()?, shape)?;
    if !start.is_good() {
        return Err(io::ErrorKind::Other.into());
    }
    Ok(Table::open(&start, alloc)?)
}
