mod full;
mod lanes;
mod many_threads;
mod many_waiting;
mod members;
mod memory;
mod one_queue;
mod opening;
mod pending;
mod roster;
mod settling;
mod starter;
mod telling;

use std::alloc::{AllocError, Global};
use std::fmt::Debug;
use std::process::Abort;
use std::test::Fail;
use tr_group::Action;
use tr_model::{Ending, Fate, Target};
use tr_pending::{Info, Instance};
use tr_queues::Flush;
use tr_sigset::{SigSet, Signal};
use tr_starts::{GroupStart, Items, Start};
use tr_table::Table;
use tr_threads::ThreadChange;
use tr_tracee::{End, Life, Thread};

const INFO: Info = Info {
    code: 0,
    pid: 1,
    value: 0,
};

const SHARED: Target = Target::Group(100);

const OWN: Target = Target::Thread(101);

fn signal(number: u8) -> Result<Signal, Fail> {
    Ok(Signal::new(number).ok_or("not the number of a signal")?)
}

/// Group 100, of threads 100 and 101. USR1 (10) is caught; thread 101 asks to block all signals.
fn first_group(alloc: Global, caught: Signal) -> Result<GroupStart, AllocError> {
    let none = SigSet::empty();
    let all = SigSet::from_bits(u64::MAX);
    Ok(GroupStart {
        tgid: 100,
        name: Items::from_vec(Vec::from_slice(alloc, b"fifteen letters")?),
        actions: Items::from_vec(Vec::from_slice(alloc, &[(caught, Action::Catch)])?),
        threads: Items::from_vec(Vec::from_slice(alloc, &[(100, none), (101, all)])?),
    })
}

fn second_group(alloc: Global) -> Result<GroupStart, AllocError> {
    Ok(GroupStart {
        tgid: 200,
        name: Items::from_vec(Vec::from_slice(alloc, b"sh")?),
        actions: Items::new(alloc),
        threads: Items::from_vec(Vec::from_slice(alloc, &[(200, SigSet::empty())])?),
    })
}

fn two_groups(alloc: Global, caught: Signal) -> Result<Start, AllocError> {
    let mut groups = Items::new(alloc);
    groups.push(first_group(alloc, caught)?)?;
    groups.push(second_group(alloc)?)?;
    Ok(Start {
        groups,
        limit: 8,
        entries: 9,
    })
}

/// The table of the two groups, which are a good start.
fn open(alloc: Global, caught: Signal) -> Result<Table, AllocError> {
    let start = two_groups(alloc, caught)?;
    if !start.is_good() {
        return Err(AllocError);
    }
    Table::open(&start, alloc)
}

fn opened(alloc: Global) -> Result<Table, Fail> {
    Ok(open(alloc, signal(10)?)?)
}

/// That a value is the one that is wanted.
fn same<T: PartialEq + Debug>(rt: &impl Abort, value: &T, want: &T) {
    assert_eq!(rt; *value, *want);
}

/// That a thread blocks all signals but KILL (bit 8) and STOP (bit 18).
fn blocks_all(rt: &impl Abort, table: &Table, id: u32) -> Result<(), Fail> {
    let thread = table.find(id).ok_or("no such thread")?;
    assert_eq!(rt; thread.mask.bits(), 0xffff_ffff_fffb_feff);
    Ok(())
}

fn send(table: &mut Table, number: u8, target: Target) -> Result<(), Fail> {
    let signal = signal(number)?;
    if table.accepted() > 20_000 {
        Err("more signals than the tests send")?;
    }
    table.reserve(1)?;
    table.enqueue(signal, &INFO, target);
    Ok(())
}

/// The first and second instance, of 34, and the third, of 10, wait for the group; the fourth, of 34, for thread 101.
fn with_four(alloc: Global) -> Result<Table, Fail> {
    let mut table = opened(alloc)?;
    send(&mut table, 34, SHARED)?;
    send(&mut table, 34, SHARED)?;
    send(&mut table, 10, SHARED)?;
    send(&mut table, 34, OWN)?;
    Ok(table)
}

/// The number, the signal and the sender of an instance, 0 where there is none.
fn told(instance: Option<Instance>) -> (u64, u8, u32) {
    match instance {
        Some(instance) => (instance.n, instance.sig.number(), instance.info.pid),
        None => (0, 0, 0),
    }
}

fn best(table: &Table, target: Target, blocked: SigSet) -> (u64, u8, u32) {
    told(table.best(target, blocked))
}

/// Whether these are the flushed numbers, in order.
fn are_flushed(ended: &[Ending], numbers: &[u64]) -> bool {
    let same = ended.iter().map(|e| e.number).eq(numbers.iter().copied());
    same && ended.iter().all(|e| e.fate == Fate::Flushed)
}

fn thread(table: &Table, id: u32) -> Result<&Thread, Fail> {
    Ok(table.find(id).ok_or("no such thread")?)
}

/// Adds a thread with a new id to a group that has a place for it.
fn add_new(table: &mut Table, thread: &Thread) -> Result<(), AllocError> {
    if table.find(thread.id).is_some() || table.member_count(thread.group) >= 64 {
        return Err(AllocError);
    }
    table.add(thread)
}

fn kill_thread(table: &mut Table, id: u32) {
    table.change_thread(id, &ThreadChange::BeginToLeave(true, End::Exited(0)));
    table.change_thread(id, &ThreadChange::Die);
}
