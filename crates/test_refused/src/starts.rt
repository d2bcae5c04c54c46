use std::alloc::{AllocError, Global};
use tr_kernel::{Kernel, StartFault};
use tr_sigset::SigSet;
use tr_starts::{GroupStart, Items, Start};

fn group(alloc: Global, tgid: u32, threads: &[(u32, SigSet)]) -> Result<GroupStart, AllocError> {
    let mut group = GroupStart {
        tgid,
        name: Items::new(alloc),
        actions: Items::new(alloc),
        threads: Items::new(alloc),
    };
    group.name.push(b'd')?;
    for thread in threads {
        group.threads.push(*thread)?;
    }
    Ok(group)
}

/// Group 10 has two threads, groups 20 and 30 have one; that of group 30 blocks USR1.
fn start(alloc: Global) -> Result<Start, AllocError> {
    let none = SigSet::empty();
    let usr1 = SigSet::from_bits(1 << 9);
    let mut groups = Items::new(alloc);
    groups.push(group(alloc, 10, &[(10, none), (11, none)])?)?;
    groups.push(group(alloc, 20, &[(20, none)])?)?;
    groups.push(group(alloc, 30, &[(30, usr1)])?)?;
    Ok(Start {
        groups,
        limit: 100,
        entries: 1000,
    })
}

/// Makes a kernel of that start.
pub fn kernel(alloc: Global) -> Result<Kernel, StartFault> {
    match start(alloc) {
        Ok(start) => Kernel::new(alloc, start),
        Err(AllocError) => Err(StartFault::NoMemory),
    }
}
