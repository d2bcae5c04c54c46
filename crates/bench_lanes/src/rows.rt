use std::alloc::{AllocError, Global};
use tr_sigset::Signal;

/// How many windows of the same rows the calls go over in turn.
pub const WINDOWS: usize = 4;

/// Rows of threads, none of which can take a signal, with room for each window.
#[derive(Drop)]
pub struct Data {
    own: Vec<u64>,
    blocked: Vec<u64>,
    runnable: Vec<u64>,
    shared: u64,
}

/// What one call scans.
#[derive(Clone, Copy)]
pub struct Rows<'a> {
    /// The signals that wait in each thread's own queue, a row a thread: bit n - 1 is signal n.
    pub own: &'a [u64],
    /// The signals that each thread blocks.
    pub blocked: &'a [u64],
    /// For each thread all bits where it is runnable, and else none.
    pub runnable: &'a [u64],
    /// The signals that wait in the shared queue.
    pub shared: u64,
}

impl Data {
    /// Makes the rows of `count` threads and of the windows. Each own row holds `bit`.
    pub fn new(alloc: Global, count: usize, bit: u64) -> Result<Data, AllocError> {
        let mut data = Data {
            own: Vec::new(alloc),
            blocked: Vec::new(alloc),
            runnable: Vec::new(alloc),
            shared: bit,
        };
        let mut word: u64 = bit;
        for _ in 0..count.saturating_add(2 * WINDOWS) {
            word = word
                .wrapping_mul(6364136223846793005)
                .wrapping_add(1442695040888963407);
            data.own.push(word | bit)?;
            data.blocked.push(word | bit)?;
            data.runnable.push(u64::MAX)?;
        }
        Ok(data)
    }

    /// The rows of `count` threads, from twice the number of the window on: so each starts at 16 bytes.
    pub fn window(&self, number: usize, count: usize) -> Option<Rows<'_>> {
        let start = number.saturating_mul(2);
        Some(Rows {
            own: self.own.get(start..)?.get(..count)?,
            blocked: self.blocked.get(start..)?.get(..count)?,
            runnable: self.runnable.get(start..)?.get(..count)?,
            shared: self.shared,
        })
    }
}
