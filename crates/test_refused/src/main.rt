//! Makes each event on a kernel where its entry makes the journal grow. Where memory is refused to a call, looks that it changed
//! nothing, by a second kernel that hasn't made it, and makes it again. `tests/refuse_memory.py` refuses the memory.
#![tactic(auto)]

mod alike;
mod calls;
mod queues;
mod starts;
mod trying;

use calls::{CASES, Case, mask};
use queues::grown;
use std::io;
use trying::{Fault, Tried, make_case};

fn main(rt: HostRuntime) -> io::Result<()> {
    for case in CASES {
        print(&rt, case, make_case(rt.alloc(), case))?;
    }
    let mask = mask();
    print(&rt, &mask, make_case(rt.alloc(), &mask))?;
    match grown(rt.alloc()) {
        Some(count) => println!(rt; "queue: {count} wait"),
        None => println!(rt; "queue: changed"),
    }
}

fn print(rt: &HostRuntime, case: &Case, tried: Result<Tried, Fault>) -> io::Result<()> {
    match tried {
        Ok(
            Tried {
                entries,
                accepted,
                was_refused,
            },
        ) => {
            if was_refused {
                eprintln!(rt; "refused to {}", case.name)?;
            }
            println!(rt; "{}: {entries} entries, {accepted} signals", case.name)
        }
        Err(fault) => println!(rt; "{}: {fault:?}", case.name),
    }
}
