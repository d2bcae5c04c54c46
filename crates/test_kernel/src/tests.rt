mod foreseen;
mod heard;
mod kills;
mod laws;
mod offers;
mod starter;
mod statuses;
mod stops;
mod tracer_ends;
mod verdicts;

use std::fmt::Debug;
use std::process::Abort;
use std::test::Fail;
use tr_group::Action;
use tr_kernel::{Kernel, StartFault};
use tr_model::{Event, Fate, Refusal, Reply, Target, Totals};
use tr_sigset::{SigSet, Signal};
use tr_starts::{GroupStart, Items, Start};

fn item<T: Drop>(rt: &HostRuntime, item: T) -> Result<Items<T>, Fail> {
    let mut items = Items::new(rt.alloc());
    items.push(item)?;
    Ok(items)
}

/// One thread, which catches this signal; the journal may have this many entries.
fn start_catching(rt: &HostRuntime, sig: u8, entries: u32) -> Result<Start, Fail> {
    let Some(signal) = Signal::new(sig) else {
        return Err(Fail::from("a signal"));
    };
    let group = GroupStart {
        tgid: 10,
        name: item(rt, b'd')?,
        actions: item(rt, (signal, Action::Catch))?,
        threads: item(rt, (10, SigSet::empty()))?,
    };
    Ok(Start {
        groups: item(rt, group)?,
        limit: 4,
        entries,
    })
}

/// One thread, which catches USR1.
fn start(rt: &HostRuntime, entries: u32) -> Result<Start, Fail> {
    start_catching(rt, 10, entries)
}

fn opened(rt: &HostRuntime, start: Start) -> Result<Kernel, Fail> {
    match Kernel::new(rt.alloc(), start) {
        Ok(kernel) => Ok(kernel),
        Err(_) => Err(Fail::from("a kernel")),
    }
}

fn kernel(rt: &HostRuntime, entries: u32) -> Result<Kernel, Fail> {
    opened(rt, start(rt, entries)?)
}

/// A kernel of one thread, which catches this signal.
fn catching(rt: &HostRuntime, sig: u8) -> Result<Kernel, Fail> {
    opened(rt, start_catching(rt, sig, 100)?)
}

const KILL: Event = Event::Kill { tgid: 10, sig: 10 };

/// Blocks USR1 for the one thread.
fn block(kernel: &mut Kernel) -> Result<Reply, Refusal> {
    let set = SigSet::from_bits(0x200);
    kernel.step(10, Event::Mask { tid: 10, set })
}

/// That a value is the one that is wanted.
fn same<T: PartialEq + Debug>(rt: &impl Abort, value: &T, want: &T) {
    assert_eq!(rt; *value, *want);
}

/// That the one thread blocks USR1 from now on.
fn blocks(rt: &impl Abort, kernel: &mut Kernel) {
    same(rt, &block(kernel), &Ok(Reply::Done));
}

/// That a call is answered so.
fn expect_answer(
    rt: &impl Abort,
    kernel: &mut Kernel,
    actor: u32,
    event: &Event,
    want: &Result<Reply, Refusal>,
) {
    same(rt, &kernel.step(actor, *event), want);
}

fn sent(n: u64, fate: Fate) -> Result<Reply, Refusal> {
    Ok(Reply::Sent { n, fate })
}

fn has_fate(rt: &impl Abort, kernel: &Kernel, number: u64, want: Option<Fate>) {
    same(rt, &kernel.fate(number), &want);
}

#[test]
fn second_pending_signal_merges(rt: HostRuntime) -> Result<(), Fail> {
    let mut kernel = kernel(&rt, 100)?;
    blocks(&rt, &mut kernel);
    expect_answer(&rt, &mut kernel, 900, &KILL, &sent(1, Fate::Pending));
    expect_answer(&rt, &mut kernel, 900, &KILL, &sent(2, Fate::Merged));
    has_fate(&rt, &kernel, 1, Some(Fate::Pending));
    has_fate(&rt, &kernel, 2, Some(Fate::Merged));
    has_fate(&rt, &kernel, 3, None);
    Ok(())
}

fn has_totals(rt: &impl Abort, totals: &Totals) {
    same(rt, &totals.accepted, &2);
    same(rt, &totals.pending, &1);
    same(rt, &totals.merged, &1);
    same(rt, &totals.delivered, &0);
}

#[test]
fn totals_of_two_sends(rt: HostRuntime) -> Result<(), Fail> {
    let mut kernel = kernel(&rt, 100)?;
    let _blocked = block(&mut kernel);
    let _first = kernel.step(900, KILL);
    let _second = kernel.step(900, KILL);
    has_totals(&rt, &kernel.totals());
    Ok(())
}

const TAKE: Event = Event::Take { tid: 10 };

#[test]
fn taken_signal_is_delivered(rt: HostRuntime) -> Result<(), Fail> {
    let mut kernel = kernel(&rt, 100)?;
    let _sent = kernel.step(900, KILL);
    assert!(rt; kernel.step(10, TAKE).is_ok());
    has_fate(&rt, &kernel, 1, Some(Fate::Delivered));
    expect_answer(&rt, &mut kernel, 10, &TAKE, &Ok(Reply::Nothing));
    same(&rt, &kernel.journal().len(), &2);
    Ok(())
}

fn has_queue(rt: &impl Abort, kernel: &Kernel, target: Target, want: usize) {
    same(rt, &kernel.table().queue_len(target), &want);
}

#[test]
fn signal_to_a_thread_waits_in_its_own_queue(rt: HostRuntime) -> Result<(), Fail> {
    let mut kernel = kernel(&rt, 100)?;
    let _blocked = block(&mut kernel);
    let to_thread = Event::Tgkill {
        tgid: 10,
        tid: 10,
        sig: 10,
    };
    expect_answer(&rt, &mut kernel, 900, &to_thread, &sent(1, Fate::Pending));
    expect_answer(&rt, &mut kernel, 900, &KILL, &sent(2, Fate::Pending));
    has_queue(&rt, &kernel, Target::Thread(10), 1);
    has_queue(&rt, &kernel, Target::Group(10), 1);
    Ok(())
}

/// The value that a take brings.
fn value_of(reply: &Result<Reply, Refusal>) -> Option<i32> {
    match reply {
        Ok(Reply::Took { inst, .. }) => Some(inst.info.value),
        _ => None,
    }
}

#[test]
fn queued_signal_brings_its_value(rt: HostRuntime) -> Result<(), Fail> {
    let mut kernel = kernel(&rt, 100)?;
    let queued = Event::Sigqueue {
        tgid: 10,
        sig: 10,
        value: -7,
    };
    let _sent = kernel.step(900, queued);
    same(&rt, &value_of(&kernel.step(10, TAKE)), &Some(-7));
    Ok(())
}

#[test]
fn pausing_thread_does_nothing_else(rt: HostRuntime) -> Result<(), Fail> {
    let mut kernel = kernel(&rt, 100)?;
    let pause = Event::Pause { tid: 10 };
    expect_answer(&rt, &mut kernel, 10, &pause, &Ok(Reply::Done));
    same(&rt, &block(&mut kernel), &Err(Refusal::NotRunning));
    let _sent = kernel.step(900, KILL);
    let _taken = kernel.step(10, TAKE);
    blocks(&rt, &mut kernel);
    Ok(())
}

#[test]
fn full_journal_takes_no_entry(rt: HostRuntime) -> Result<(), Fail> {
    let mut kernel = kernel(&rt, 1)?;
    let probe = Event::Kill { tgid: 10, sig: 0 };
    let nobody = Event::Kill { tgid: 11, sig: 10 };
    let _first = kernel.step(900, KILL);
    expect_answer(&rt, &mut kernel, 900, &KILL, &Err(Refusal::JournalFull));
    expect_answer(&rt, &mut kernel, 900, &probe, &Ok(Reply::Exists));
    expect_answer(&rt, &mut kernel, 900, &nobody, &Err(Refusal::Srch));
    same(&rt, &kernel.journal().len(), &1);
    Ok(())
}

#[test]
fn event_message_of_a_signal_delivery_stop_is_outside_the_model(
    rt: HostRuntime,
) -> Result<(), Fail> {
    let mut kernel = kernel(&rt, 100)?;
    let message = Event::EventMessage { tid: 10 };
    let _attached = kernel.step(900, Event::Attach { tid: 10 });
    let _taken = kernel.step(10, TAKE);
    expect_answer(&rt, &mut kernel, 900, &message, &Err(Refusal::Unmodelled));
    Ok(())
}

/// A start whose one thread has the id 1; the least is 2.
fn bad_start(rt: &HostRuntime) -> Result<Start, Fail> {
    let group = GroupStart {
        tgid: 1,
        name: item(rt, b'd')?,
        actions: Items::new(rt.alloc()),
        threads: item(rt, (1, SigSet::empty()))?,
    };
    Ok(Start {
        groups: item(rt, group)?,
        limit: 4,
        entries: 100,
    })
}

#[test]
fn start_with_an_id_below_2_is_bad(rt: HostRuntime) -> Result<(), Fail> {
    let fault = Kernel::new(rt.alloc(), bad_start(&rt)?).err();
    same(&rt, &fault, &Some(StartFault::BadStart));
    Ok(())
}

/// What can be read of a kernel.
#[derive(Clone, Copy, Debug, PartialEq)]
struct Sums {
    entries: usize,
    totals: Totals,
    threads: usize,
    queued: usize,
}

fn sums_of(kernel: &Kernel) -> Sums {
    Sums {
        entries: kernel.journal().len(),
        totals: kernel.totals(),
        threads: kernel.table().thread_count(),
        queued: kernel.table().queued(),
    }
}

/// A call that is refused memory changes nothing that can be read, and made again it answers as if it had been the
/// first. Without a refusal it makes its entry. `rt try --test --fail-alloc N` refuses the allocation of number N.
fn make(rt: &impl Abort, kernel: &mut Kernel, actor: u32, event: &Event) -> Result<Reply, Fail> {
    let sums = sums_of(kernel);
    let mut answer = kernel.step(actor, *event);
    if let Err(Refusal::NoMemory) = answer {
        same(rt, &sums_of(kernel), &sums);
        answer = kernel.step(actor, *event);
    }
    match answer {
        Ok(reply) => Ok(reply),
        Err(_) => Err(Fail::from("an entry")),
    }
}

/// That a USR1 is made an entry, and sent so.
fn sends(rt: &impl Abort, kernel: &mut Kernel, n: u64, fate: Fate) -> Result<(), Fail> {
    same(rt, &make(rt, kernel, 900, &KILL)?, &Reply::Sent { n, fate });
    Ok(())
}

fn sends_and_takes(rt: &impl Abort, kernel: &mut Kernel) -> Result<(), Fail> {
    sends(rt, kernel, 1, Fate::Pending)?;
    sends(rt, kernel, 2, Fate::Merged)?;
    let _taken = make(rt, kernel, 10, &TAKE)?;
    sends(rt, kernel, 3, Fate::Pending)?;
    same(rt, &kernel.journal().len(), &4);
    Ok(())
}

#[test]
fn refused_memory_changes_nothing(rt: HostRuntime) -> Result<(), Fail> {
    let mut kernel = kernel(&rt, 100)?;
    sends_and_takes(&rt, &mut kernel)
}
