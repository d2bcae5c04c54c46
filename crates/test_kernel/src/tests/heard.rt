use super::{KILL, TAKE, block, kernel, same, sent};
use std::process::Abort;
use std::test::Fail;
use tr_kernel::Kernel;
use tr_model::{Did, Event, Fate, Refusal, Reply};
use tr_pending::{Info, Instance};
use tr_sigset::{SigSet, Signal};
use tr_tracee::Options;
use tr_wait::Which;

// What another system answered: the model lets it be, or the kernel stays as it is.

/// That an answer is let be, and made the entry of this number.
fn is_entered(
    rt: &impl Abort,
    kernel: &mut Kernel,
    actor: u32,
    event: &Event,
    told: &Result<Reply, Refusal>,
) {
    let entries = kernel.journal().len();
    same(rt, &kernel.hear(actor, *event, told), &Ok(true));
    same(rt, &(kernel.journal().len() - entries), &1);
}

/// That what is said of an answer is this, and nothing has changed.
fn is_said(
    rt: &impl Abort,
    kernel: &mut Kernel,
    actor: u32,
    event: &Event,
    told: &Result<Reply, Refusal>,
    want: &Result<bool, Refusal>,
) {
    let sums = super::sums_of(kernel);
    same(rt, &kernel.hear(actor, *event, told), want);
    same(rt, &super::sums_of(kernel), &sums);
}

fn is_let(
    rt: &impl Abort,
    kernel: &mut Kernel,
    actor: u32,
    event: &Event,
    told: &Result<Reply, Refusal>,
) {
    is_said(rt, kernel, actor, event, told, &Ok(true));
}

fn is_not_let(
    rt: &impl Abort,
    kernel: &mut Kernel,
    actor: u32,
    event: &Event,
    told: &Result<Reply, Refusal>,
) {
    is_said(rt, kernel, actor, event, told, &Ok(false));
}

#[test]
fn a_send_is_heard_with_its_number_and_its_fate(rt: HostRuntime) -> Result<(), Fail> {
    let mut kernel = kernel(&rt, 100)?;
    let _blocked = block(&mut kernel);
    is_not_let(&rt, &mut kernel, 900, &KILL, &sent(2, Fate::Pending));
    is_not_let(&rt, &mut kernel, 900, &KILL, &sent(0, Fate::Pending));
    is_not_let(&rt, &mut kernel, 900, &KILL, &sent(1, Fate::Merged));
    is_not_let(&rt, &mut kernel, 900, &KILL, &Err(Refusal::Srch));
    is_entered(&rt, &mut kernel, 900, &KILL, &sent(1, Fate::Pending));
    is_not_let(&rt, &mut kernel, 900, &KILL, &sent(2, Fate::Pending));
    is_entered(&rt, &mut kernel, 900, &KILL, &sent(2, Fate::Merged));
    Ok(())
}

#[test]
fn a_refusal_is_heard_by_its_name(rt: HostRuntime) -> Result<(), Fail> {
    let mut kernel = kernel(&rt, 100)?;
    let nobody = Event::Kill { tgid: 11, sig: 10 };
    is_let(&rt, &mut kernel, 900, &nobody, &Err(Refusal::Srch));
    is_not_let(&rt, &mut kernel, 900, &nobody, &Err(Refusal::Perm));
    is_not_let(&rt, &mut kernel, 900, &nobody, &Ok(Reply::Done));
    is_not_let(&rt, &mut kernel, 900, &nobody, &sent(1, Fate::Pending));
    Ok(())
}

#[test]
fn an_answer_without_an_entry_is_heard(rt: HostRuntime) -> Result<(), Fail> {
    let mut kernel = kernel(&rt, 100)?;
    let probe = Event::Kill { tgid: 10, sig: 0 };
    is_let(&rt, &mut kernel, 900, &probe, &Ok(Reply::Exists));
    is_not_let(&rt, &mut kernel, 900, &probe, &Ok(Reply::Done));
    is_let(&rt, &mut kernel, 10, &TAKE, &Ok(Reply::Nothing));
    is_not_let(&rt, &mut kernel, 10, &TAKE, &Err(Refusal::Srch));
    Ok(())
}

/// What thread 10 takes: the instance of a number, which 901 sent.
fn took(n: u64, number: u8, did: Did) -> Result<Result<Reply, Refusal>, Fail> {
    let sig = Signal::new(number).ok_or("not the number of a signal")?;
    let info = Info {
        code: 0,
        pid: 901,
        value: 0,
    };
    let inst = Instance { n, sig, info };
    Ok(Ok(Reply::Took { tid: 10, inst, did }))
}

/// USR1, which is caught, and USR2, which isn't, wait for thread 10, in this order, and it blocks neither any more.
fn with_two(rt: &impl Abort, kernel: &mut Kernel) {
    let all = SigSet::from_bits(u64::MAX);
    let none = SigSet::empty();
    let usr2 = Event::Kill { tgid: 10, sig: 12 };
    let calls = [
        (10, Event::Mask { tid: 10, set: all }),
        (901, KILL),
        (901, usr2),
        (10, Event::Mask { tid: 10, set: none }),
    ];
    for call in calls {
        assert!(rt; kernel.step(call.0, call.1).is_ok());
    }
}

#[test]
fn either_of_two_standard_signals_may_be_taken(rt: HostRuntime) -> Result<(), Fail> {
    let mut kernel = kernel(&rt, 100)?;
    with_two(&rt, &mut kernel);
    is_not_let(&rt, &mut kernel, 10, &TAKE, &Ok(Reply::Nothing));
    is_not_let(&rt, &mut kernel, 10, &TAKE, &took(3, 12, Did::Dying)?);
    is_not_let(&rt, &mut kernel, 10, &TAKE, &took(2, 12, Did::Caught)?);
    is_not_let(&rt, &mut kernel, 10, &TAKE, &took(2, 10, Did::Dying)?);
    is_entered(&rt, &mut kernel, 10, &TAKE, &took(2, 12, Did::Dying)?);
    super::has_fate(&rt, &kernel, 2, Some(Fate::Delivered));
    super::has_fate(&rt, &kernel, 1, Some(Fate::Pending));
    Ok(())
}

#[test]
fn the_first_of_two_standard_signals_may_be_taken(rt: HostRuntime) -> Result<(), Fail> {
    let mut kernel = kernel(&rt, 100)?;
    with_two(&rt, &mut kernel);
    is_entered(&rt, &mut kernel, 10, &TAKE, &took(1, 10, Did::Caught)?);
    is_entered(&rt, &mut kernel, 10, &TAKE, &took(2, 12, Did::Dying)?);
    Ok(())
}

#[test]
fn a_clone_may_have_any_new_id(rt: HostRuntime) -> Result<(), Fail> {
    let mut kernel = kernel(&rt, 100)?;
    let clone = Event::CloneThread { tid: 10 };
    is_not_let(&rt, &mut kernel, 10, &clone, &Ok(Reply::Cloned { tid: 10 }));
    is_not_let(&rt, &mut kernel, 10, &clone, &Ok(Reply::Cloned { tid: 1 }));
    is_entered(&rt, &mut kernel, 10, &clone, &Ok(Reply::Cloned { tid: 77 }));
    assert!(rt; kernel.table().find(77).is_some());
    is_not_let(&rt, &mut kernel, 10, &clone, &Ok(Reply::Cloned { tid: 77 }));
    Ok(())
}

#[test]
fn a_full_journal_hears_no_step(rt: HostRuntime) -> Result<(), Fail> {
    let mut kernel = kernel(&rt, 1)?;
    let nobody = Event::Kill { tgid: 11, sig: 10 };
    is_entered(&rt, &mut kernel, 900, &KILL, &sent(1, Fate::Pending));
    let full = Err(Refusal::JournalFull);
    is_said(&rt, &mut kernel, 900, &KILL, &sent(2, Fate::Merged), &full);
    is_not_let(&rt, &mut kernel, 900, &KILL, &sent(2, Fate::Pending));
    is_let(&rt, &mut kernel, 900, &nobody, &Err(Refusal::Srch));
    Ok(())
}

const fn seize(tid: u32) -> Event {
    let options = Options::NONE;
    Event::Seize { tid, options }
}

/// Threads 10 and 11 are tracees of 900, each in a stop that raised a report: 1 of thread 10, 2 of thread 11.
fn stop_both(rt: &impl Abort, kernel: &mut Kernel) {
    let calls = [
        (10, Event::CloneThread { tid: 10 }),
        (900, seize(10)),
        (900, seize(11)),
        (900, Event::Interrupt { tid: 10 }),
        (900, Event::Interrupt { tid: 11 }),
        (10, Event::Trap { tid: 10 }),
        (11, Event::Trap { tid: 11 }),
    ];
    for call in calls {
        assert!(rt; kernel.step(call.0, call.1).is_ok());
    }
}

fn waited(id: u32, report: u64) -> Result<Reply, Refusal> {
    let word = 0x80057f;
    Ok(Reply::Waited { id, word, report })
}

#[test]
fn a_wait_may_give_any_report(rt: HostRuntime) -> Result<(), Fail> {
    let mut kernel = kernel(&rt, 100)?;
    stop_both(&rt, &mut kernel);
    let wait = Event::Wait { which: Which::Any };
    is_not_let(&rt, &mut kernel, 900, &wait, &waited(11, 1));
    is_not_let(&rt, &mut kernel, 901, &wait, &waited(11, 2));
    is_not_let(&rt, &mut kernel, 900, &wait, &Ok(Reply::Nothing));
    is_entered(&rt, &mut kernel, 900, &wait, &waited(11, 2));
    is_not_let(&rt, &mut kernel, 900, &wait, &waited(11, 2));
    is_entered(&rt, &mut kernel, 900, &wait, &waited(10, 1));
    is_let(&rt, &mut kernel, 900, &wait, &Ok(Reply::Nothing));
    Ok(())
}
