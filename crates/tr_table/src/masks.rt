ghost use Rattle.std.specs.Prelude.{◌≡◌};
ghost use Rattle.tr_model.specs.Tables.{queue};
ghost use Rattle.tr_pending.specs.Waiting.{IsMask};

use crate::table::Table;
use tr_model::{Group, Target};
use tr_sigset::SigSet;
use tr_tracee::Thread;

// What a status shows of a table. No call here takes memory.

impl Table {
    /// The set of the signals that wait for the target.
    pub fn mask(&self, target: Target) -> SigSet
        ensures { IsMask result (queue self.now.table target) }
    {
        self.pending.mask(target)
    }

    /// The records of the threads, in table order.
    pub fn threads(&self) -> &[Thread]
        ensures { result.now ≡ self.now.table.threads }
    {
        self.threads.as_slice()
    }

    /// The records of the groups, in table order.
    pub fn groups(&self) -> &[Group]
        ensures { result.now ≡ self.now.table.groups }
    {
        self.groups.as_slice()
    }
}
