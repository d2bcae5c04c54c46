use crate::alike::are_alike;
use crate::calls::{Call, Case, FILLER};
use crate::starts::kernel;
use std::alloc::Global;
use tr_kernel::{Kernel, StartFault};
use tr_model::{Refusal, Reply};

/// What a case came to.
#[derive(Clone, Copy)]
pub struct Tried {
    pub entries: usize,
    pub accepted: u64,
    /// Memory was refused to the call that the case is about.
    pub was_refused: bool,
}

/// What was wrong.
#[derive(Clone, Copy, Debug)]
pub enum Fault {
    /// Memory was refused twice in a row, or to the start of both kernels.
    NoMemory,
    /// A refused call changed the kernel.
    Changed,
    /// The two kernels replied differently.
    Differs,
    /// The model refused a call.
    Refused(Refusal),
    /// The start is bad.
    BadStart,
}

/// Two kernels, of which the second hasn't made the call that the first makes.
#[derive(Drop)]
struct Pair {
    first: Kernel,
    second: Kernel,
}

fn opened(alloc: Global) -> Result<Kernel, Fault> {
    match kernel(alloc) {
        Ok(kernel) => Ok(kernel),
        Err(StartFault::NoMemory) => kernel(alloc).map_err(|_| Fault::NoMemory),
        Err(StartFault::BadStart) => Err(Fault::BadStart),
    }
}

/// Makes a call to which memory may be given now.
fn reply(kernel: &mut Kernel, call: &Call) -> Result<Reply, Fault> {
    match kernel.step(call.actor, call.event) {
        Ok(reply) => Ok(reply),
        Err(Refusal::NoMemory) => Err(Fault::NoMemory),
        Err(why) => Err(Fault::Refused(why)),
    }
}

/// Makes a call, once more where memory was refused to it.
fn reply_at_last(kernel: &mut Kernel, call: &Call) -> Result<Reply, Fault> {
    match reply(kernel, call) {
        Err(Fault::NoMemory) => reply(kernel, call),
        replied => replied,
    }
}

impl Pair {
    /// Makes a call on both, and tells whether memory was refused to the first at first.
    fn call(&mut self, call: &Call) -> Result<bool, Fault> {
        match reply(&mut self.first, call) {
            Ok(first) => {
                self.follow(call, first)?;
                Ok(false)
            }
            Err(Fault::NoMemory) => {
                self.call_again(call)?;
                Ok(true)
            }
            Err(fault) => Err(fault),
        }
    }

    /// Makes a call again that memory was refused to, after a look that it changed nothing.
    fn call_again(&mut self, call: &Call) -> Result<(), Fault> {
        if !are_alike(&self.first, &self.second) {
            return Err(Fault::Changed);
        }
        let first = reply(&mut self.first, call)?;
        self.follow(call, first)
    }

    /// Makes a call on the second to which the first replied so.
    fn follow(&mut self, call: &Call, first: Reply) -> Result<(), Fault> {
        if reply_at_last(&mut self.second, call)? == first {
            Ok(())
        } else {
            Err(Fault::Differs)
        }
    }

    fn make(&mut self, case: &Case) -> Result<Tried, Fault> {
        for call in case.before {
            self.call(call)?;
        }
        self.fill()?;
        let was_refused = self.call(&case.call)?;
        if !are_alike(&self.first, &self.second) {
            return Err(Fault::Differs);
        }
        Ok(Tried {
            entries: self.first.journal().len(),
            accepted: self.first.table().accepted(),
            was_refused,
        })
    }

    /// Makes entries until the next one makes the journal grow.
    fn fill(&mut self) -> Result<(), Fault> {
        for _ in 0..16u32 {
            let entries = self.first.journal().len();
            if entries == 4 || entries == 8 || entries == 16 {
                return Ok(());
            }
            self.call(&FILLER)?;
        }
        Ok(())
    }
}

/// Makes the calls of a case, the last of them where its entry makes the journal grow.
pub fn make_case(alloc: Global, case: &Case) -> Result<Tried, Fault> {
    let first = opened(alloc)?;
    let second = opened(alloc)?;
    Pair { first, second }.make(case)
}
