ghost use Rattle.std.specs.Prelude.{◌≡◌};

use super::{expect_answer, same, sent};
use std::alloc::{AllocError, Global};
use std::process::Abort;
use std::test::Fail;
use tr_group::Action;
use tr_kernel::Kernel;
use tr_model::{Event, Fate, Target};
use tr_pending::Info;
use tr_sigset::{SigSet, Signal};
use tr_starts::{GroupStart, Items, Start};
use tr_status::{Sink, StatusFault, write_status, write_status_of};
use tr_table::Table;
use tr_threads::ThreadChange;

/// Takes at most `most` bytes a put, and fails at each put but the first `puts`.
#[derive(Drop)]
struct Page {
    bytes: Vec<u8>,
    most: usize,
    puts: usize,
    failures: u64,
}

impl Sink for Page {
    ghost taken = { λ p. p.bytes.items };

    ghost failures = { λ p. p.failures };

    fn put(&mut self, bytes: &[u8]) -> Option<usize> {
        let count = bytes.len().min(self.most);
        if self.puts > 0 && count > 0 && self.bytes.extend_from_slice(&bytes[..count]).is_ok() {
            self.puts -= 1;
            return Some(count);
        }
        self.failures += 1;
        None
    }
}

fn empty_page(alloc: Global, most: usize, puts: usize) -> Page
    ensures { result.failures ≡ 0 }
{
    Page {
        bytes: Vec::new(alloc),
        most,
        puts,
        failures: 0,
    }
}

/// Group 10 of threads 10 and 11, which ignores HUP and catches signal 34. Thread 10 blocks USR1.
fn demo(alloc: Global, hup: Signal, caught: Signal) -> Result<Start, AllocError> {
    let actions = [(hup, Action::Ignore), (caught, Action::Catch)];
    let threads = [(10, SigSet::from_bits(0x200)), (11, SigSet::empty())];
    let mut groups = Items::new(alloc);
    groups.push(GroupStart {
        tgid: 10,
        name: Items::from_vec(Vec::from_slice(alloc, b"demo")?),
        actions: Items::from_vec(Vec::from_slice(alloc, &actions)?),
        threads: Items::from_vec(Vec::from_slice(alloc, &threads)?),
    })?;
    Ok(Start {
        groups,
        limit: 4,
        entries: 9,
    })
}

fn signal(number: u8) -> Result<Signal, Fail> {
    Ok(Signal::new(number).ok_or("not the number of a signal")?)
}

fn send(table: &mut Table, number: u8, target: Target) -> Result<(), Fail> {
    let signal = signal(number)?;
    if table.accepted() > 100 {
        Err("more signals than the tests send")?;
    }
    let info = Info {
        code: 0,
        pid: 900,
        value: 0,
    };
    table.reserve(1)?;
    table.enqueue(signal, &info, target);
    Ok(())
}

/// The table of `demo`, which is a good start.
fn opened(alloc: Global) -> Result<Table, Fail> {
    let start = demo(alloc, signal(1)?, signal(34)?)?;
    if !start.is_good() {
        Err("no good start")?;
    }
    Ok(Table::open(&start, alloc)?)
}

/// The table of `demo`, with USR1 in the shared queue and signal 34 in thread 10's own.
fn table(alloc: Global) -> Result<Table, Fail> {
    let mut table = opened(alloc)?;
    send(&mut table, 10, Target::Group(10))?;
    send(&mut table, 34, Target::Thread(10))?;
    Ok(table)
}

const TEXT: &[u8] =
    b"Name:\tdemo\nState:\tR (running)\nTgid:\t10\nPid:\t10\nPPid:\t1\nTracerPid:\t0\nThreads:\t2\nSigQ:\t2/4\nSigPnd:\t0000000200000000\nShdPnd:\t0000000000000200\nSigBlk:\t0000000000000200\nSigIgn:\t0000000000000001\nSigCgt:\t0000000200000000\n";

#[test]
fn a_status_has_thirteen_lines(rt: HostRuntime) -> Result<(), Fail> {
    let table = table(rt.alloc())?;
    let mut page = empty_page(rt.alloc(), 7, 1000);
    assert!(rt; write_status_of(&table, 10, &mut page).is_ok());
    same(&rt, &page.bytes.as_slice(), &TEXT);
    same(&rt, &page.failures, &0);
    Ok(())
}

/// Sends what waits in `table`.
fn send_both(rt: &impl Abort, kernel: &mut Kernel) {
    let kill = Event::Kill { tgid: 10, sig: 10 };
    expect_answer(rt, kernel, 900, &kill, &sent(1, Fate::Pending));
    let tgkill = Event::Tgkill {
        tgid: 10,
        tid: 10,
        sig: 34,
    };
    expect_answer(rt, kernel, 900, &tgkill, &sent(2, Fate::Pending));
}

#[test]
fn a_thread_of_a_kernel_has_its_status(rt: HostRuntime) -> Result<(), Fail> {
    let start = demo(rt.alloc(), signal(1)?, signal(34)?)?;
    let mut kernel = super::opened(&rt, start)?;
    send_both(&rt, &mut kernel);
    let mut page = empty_page(rt.alloc(), 1000, 1);
    same(&rt, &write_status(&kernel, 10, &mut page), &Ok(()));
    same(&rt, &page.bytes.as_slice(), &TEXT);
    let absent = write_status(&kernel, 12, &mut page);
    same(&rt, &absent, &Err(StatusFault::Srch));
    same(&rt, &page.bytes.as_slice(), &TEXT);
    Ok(())
}

#[test]
fn a_status_is_one_put(rt: HostRuntime) -> Result<(), Fail> {
    let table = table(rt.alloc())?;
    let mut page = empty_page(rt.alloc(), 1000, 1);
    assert!(rt; write_status_of(&table, 10, &mut page).is_ok());
    same(&rt, &page.bytes.as_slice(), &TEXT);
    Ok(())
}

#[test]
fn a_failure_leaves_a_front(rt: HostRuntime) -> Result<(), Fail> {
    let table = table(rt.alloc())?;
    let mut page = empty_page(rt.alloc(), 5, 2);
    let result = write_status_of(&table, 10, &mut page);
    same(&rt, &result, &Err(StatusFault::Write));
    same(&rt, &page.bytes.as_slice(), &b"Name:\tdemo".as_slice());
    same(&rt, &page.failures, &1);
    Ok(())
}

#[test]
fn an_absent_thread_has_no_status(rt: HostRuntime) -> Result<(), Fail> {
    let table = table(rt.alloc())?;
    let mut page = empty_page(rt.alloc(), 100, 100);
    let result = write_status_of(&table, 12, &mut page);
    same(&rt, &result, &Err(StatusFault::Srch));
    assert!(rt; page.bytes.is_empty());
    same(&rt, &page.failures, &0);
    Ok(())
}

#[test]
fn a_pausing_thread_sleeps(rt: HostRuntime) -> Result<(), Fail> {
    let mut table = table(rt.alloc())?;
    table.change_thread(11, &ThreadChange::Pausing(true));
    let mut page = empty_page(rt.alloc(), 10, 3);
    assert!(rt; write_status_of(&table, 11, &mut page).is_err());
    let text = b"Name:\tdemo\nState:\tS (sleeping)";
    same(&rt, &page.bytes.as_slice(), &text.as_slice());
    Ok(())
}
