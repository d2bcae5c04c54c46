ghost use Rattle.std.specs.Prelude.{◌<◌, IsTrue};

use std::alloc::Global;
use tr_pending::{Info, Instance, Queue};
use tr_sigset::Signal;

const SENT: Info = Info {
    code: 0,
    pid: 900,
    value: 0,
};

/// Makes room once more where memory was refused, and tells whether what waits is as it was.
fn reserve(queue: &mut Queue) -> bool
    ensures { IsTrue result → 0 < queue.new.room }
{
    let before = queue.len();
    if queue.reserve_one().is_ok() {
        return true;
    }
    queue.len() == before && queue.reserve_one().is_ok()
}

/// Puts instances of real-time signals into a queue, and gives how many wait; none where a refused growth changed it.
pub fn grown(alloc: Global) -> Option<usize> {
    let mut queue = Queue::new(alloc);
    for n in 1..20u8 {
        if !reserve(&mut queue) {
            return None;
        }
        let _put = queue.put(Instance {
            n: u64::from(n),
            sig: Signal::new(40 + n)?,
            info: SENT,
        });
    }
    Some(queue.len())
}
