ghost use Rattle.std.specs.Prelude.{◌≡◌, [], IfOk};

use std::alloc::{AllocError, Global};
use std::io;
use tr_kernel::Kernel;
use tr_sigset::SigSet;
use tr_starts::{GroupStart, Items, Start};

fn item<T: Drop>(alloc: Global, item: T) -> Result<Items<T>, AllocError> {
    let mut items = Items::new(alloc);
    items.push(item)?;
    Ok(items)
}

/// One thread, which blocks USR1.
fn start(alloc: Global) -> Result<Start, AllocError> {
    let group = GroupStart {
        tgid: 10,
        name: item(alloc, b'd')?,
        actions: Items::new(alloc),
        threads: item(alloc, (10, SigSet::from_bits(1 << 9)))?,
    };
    Ok(Start {
        groups: item(alloc, group)?,
        limit: 4,
        entries: u32::MAX,
    })
}

/// A kernel of one thread, which blocks USR1.
pub fn kernel(alloc: Global) -> io::Result<Kernel>
    ensures { IfOk result (λ k. k.journal ≡ []) }
{
    match Kernel::new(alloc, start(alloc)?) {
        Ok(kernel) => Ok(kernel),
        Err(_) => Err(io::ErrorKind::Other.into()),
    }
}
