//! What a step takes in tables of several sizes, and in rounds of several lengths.

use crate::kinds::{Kind, Size};
use std::io;

const KINDS: [(&str, Kind); 10] = [
    ("kill, merged", Kind::Merged),
    ("kill and take", Kind::Taken),
    ("sigqueue and take", Kind::Queued),
    ("kill and take_any", Kind::TakenByAny),
    ("a delivery, traced", Kind::Delivered),
    ("a group-stop", Kind::GroupStopped),
    ("a stop, waited for", Kind::Stopped),
    ("wait for nothing", Kind::Idle),
    ("refused", Kind::Refused),
    ("without an entry", Kind::Unentered),
];

/// How many steps a round makes whose journal stays in the processor's cache.
const FEW: u32 = 10_000;

/// How many steps a round makes, in a table of so many groups of so many threads, while so many queued signals wait.
type Column = (u32, u32, u32, i32);

const TABLES: [Column; 7] = [
    (FEW, 1, 1, 0),
    (FEW, 16, 4, 0),
    (FEW, 16, 64, 0),
    (FEW, 64, 1, 0),
    (FEW, 1024, 1, 0),
    (FEW, 1, 1, 100),
    (FEW, 1, 1, 10_000),
];

const LENGTHS: [Column; 4] = [
    (1_000, 1, 1, 0),
    (10_000, 1, 1, 0),
    (100_000, 1, 1, 0),
    (1_000_000, 1, 1, 0),
];

/// Measures what a step takes in tables of several sizes, and in rounds of several lengths.
pub fn measure_sizes(rt: &HostRuntime) -> io::Result<()> {
    println!(rt;
        "nanoseconds in tables of: 1 thread; 64 and 1,024 in 16 groups; 64 and 1,024 groups; 100 and 10,000 that wait"
    )?;
    print_rows(rt, &TABLES)?;
    println!(rt; "nanoseconds in rounds of: 1,000, 10,000, 100,000 and 1,000,000 steps")?;
    print_rows(rt, &LENGTHS)
}

/// Prints for each kind of calls the nanoseconds of a step in each column, and the greatest by the least.
fn print_rows(rt: &HostRuntime, columns: &[Column]) -> io::Result<()> {
    for (name, kind) in KINDS {
        print!(rt; "{name:22}")?;
        let mut least = f64::MAX;
        let mut greatest: f64 = 0.0;
        for &(steps, groups, threads, waiting) in columns {
            let size = Size::new(groups, threads, waiting);
            let figure = kind.time(rt, size, steps)?.nanoseconds;
            least = least.min(figure);
            greatest = greatest.max(figure);
            print!(rt; "{figure:9.1}")?;
        }
        println!(rt; "{:9.2}", greatest / least)?;
    }
    Ok(())
}
