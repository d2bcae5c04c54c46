ghost use Rattle.std.specs.Prelude.{◌≡◌, IfOk};

use crate::items::Items;
use std::alloc::{AllocError, Global};
use tr_group::Action;
use tr_sigset::{SigSet, Signal};

/// A group as a kernel starts with it.
#[derive(Drop)]
pub struct GroupStart {
    /// Its id, that of its leader.
    pub tgid: u32,
    /// Its name: 1 to 15 bytes, 0x20 to 0x7e, no backslash.
    pub name: Items<u8>,
    /// The actions that aren't `Default`, or are said to be: not of KILL and STOP, and no signal twice.
    pub actions: Items<(Signal, Action)>,
    /// The ids and masks of its threads, 1 to 64, the leader first.
    pub threads: Items<(u32, SigSet)>,
}

/// What a kernel starts from.
#[derive(Drop)]
pub struct Start {
    /// At most 1,024 threads in all, their ids 2 to 4,194,303 and distinct.
    pub groups: Items<GroupStart>,
    /// The queue limit: RLIMIT_SIGPENDING of getrlimit(2).
    pub limit: u32,
    /// The entry limit: how many entries the journal may have.
    pub entries: u32,
}

impl Start {
    /// An equal start.
    pub fn copy(&self, alloc: Global) -> Result<Start, AllocError>
        ensures { IfOk result (λ s. s ≡ self.now) }
    {
        let mut groups = Items::new(alloc);
        for group in self.groups.as_slice() {
            groups.push(group.copy(alloc)?)?;
        }
        Ok(Start {
            groups,
            limit: self.limit,
            entries: self.entries,
        })
    }
}

impl GroupStart {
    /// An equal group.
    pub fn copy(&self, alloc: Global) -> Result<GroupStart, AllocError>
        ensures { IfOk result (λ g. g ≡ self.now) }
    {
        let name = copied(alloc, &self.name)?;
        let actions = copied(alloc, &self.actions)?;
        let threads = copied(alloc, &self.threads)?;
        Ok(GroupStart {
            tgid: self.tgid,
            name,
            actions,
            threads,
        })
    }
}

fn copied<T: Copy>(alloc: Global, items: &Items<T>) -> Result<Items<T>, AllocError>
    ensures { IfOk result (λ c. c ≡ items.now) }
{
    let mut copies = Items::new(alloc);
    for item in items.as_slice() {
        copies.push(*item)?;
    }
    Ok(copies)
}
