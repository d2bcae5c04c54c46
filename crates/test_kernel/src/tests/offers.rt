use super::verdicts::{masked, sent, took};
use super::{kernel, same};
use std::test::Fail;
use tr_kernel::Kernel;
use tr_model::{Did, Event, Reply};
use tr_oracle::{Told, Verdict, compare, offered};
use tr_sigset::SigSet;
use tr_starts::Items;
use tr_tracee::Options;
use tr_wait::{WaitFlags, Which};

// What is offered, and in which order.

/// A kernel in which these signals wait for thread 10, which masks none, numbered in this order.
fn with_waiting(rt: &HostRuntime, signals: &[u8]) -> Result<Kernel, Fail> {
    let mut kernel = kernel(rt, 9)?;
    let mut answers: Vec<Told> = Vec::new(rt.alloc());
    answers.push(masked(SigSet::from_bits(u64::MAX)))?;
    for (place, sig) in signals.iter().enumerate() {
        answers.push(sent(*sig, place as u64 + 1))?;
    }
    answers.push(masked(SigSet::empty()))?;
    match compare(&mut kernel, &answers) {
        Ok(Verdict::Agrees) => Ok(kernel),
        _ => Err(Fail::from("the model answers otherwise")),
    }
}

fn taken(n: u64, sig: u8, did: Did) -> Result<Reply, Fail> {
    Ok(took(n, sig, did)?.answer.ok().ok_or("a refusal")?)
}

/// What is offered to a call.
fn offers(
    rt: &HostRuntime,
    kernel: &Kernel,
    actor: u32,
    event: &Event,
) -> Result<Items<Reply>, Fail> {
    Ok(offered(rt.alloc(), kernel.table(), actor, event)?)
}

const TAKE: Event = Event::Take { tid: 10 };

/// USR1 is caught, and USR2 ends the process; a real-time signal waits behind them.
#[test]
fn standard_signals_are_offered_by_number(rt: HostRuntime) -> Result<(), Fail> {
    let kernel = with_waiting(&rt, &[12, 34, 10])?;
    let want = [taken(3, 10, Did::Caught)?, taken(1, 12, Did::Dying)?];
    same(
        &rt,
        &offers(&rt, &kernel, 10, &TAKE)?.as_slice(),
        &want.as_slice(),
    );
    same(
        &rt,
        &offers(&rt, &kernel, 10, &Event::TakeAny { tgid: 10 })?.as_slice(),
        &want.as_slice(),
    );
    assert!(rt;
        offers(&rt, &kernel, 10, &Event::Take { tid: 11 })?
            .as_slice()
            .is_empty()
    );
    assert!(rt;
        offers(&rt, &kernel, 10, &Event::CloneThread { tid: 10 })?
            .as_slice()
            .is_empty()
    );
    Ok(())
}

#[test]
fn one_real_time_signal_is_offered(rt: HostRuntime) -> Result<(), Fail> {
    let kernel = with_waiting(&rt, &[40, 34, 34])?;
    let want = [taken(2, 34, Did::Dying)?];
    same(
        &rt,
        &offers(&rt, &kernel, 10, &TAKE)?.as_slice(),
        &want.as_slice(),
    );
    Ok(())
}

#[test]
fn a_tracer_is_offered_its_own_reports(rt: HostRuntime) -> Result<(), Fail> {
    let mut kernel = kernel(&rt, 9)?;
    let options = Options {
        clone: false,
        exec: false,
        exit: false,
        exitkill: false,
    };
    let calls = [
        (900, Event::Seize { tid: 10, options }),
        (900, Event::Interrupt { tid: 10 }),
        (10, Event::Trap { tid: 10 }),
    ];
    for (actor, event) in calls {
        assert!(rt; kernel.step(actor, event).is_ok());
    }
    let wait = Event::Wait { which: Which::Any };
    let want = [Reply::Waited {
        id: 10,
        word: 0x80057f,
        report: 1,
    }];
    same(
        &rt,
        &offers(&rt, &kernel, 900, &wait)?.as_slice(),
        &want.as_slice(),
    );
    assert!(rt; offers(&rt, &kernel, 901, &wait)?.as_slice().is_empty());
    Ok(())
}

#[test]
fn the_starter_is_offered_a_leaders_death(rt: HostRuntime) -> Result<(), Fail> {
    let mut kernel = kernel(&rt, 9)?;
    for event in [Event::Exit { tid: 10, code: 3 }, Event::Die { tid: 10 }] {
        assert!(rt; kernel.step(10, event).is_ok());
    }
    let which = Which::One(10);
    let flags = WaitFlags {
        untraced: false,
        continued: false,
    };
    let want = [Reply::Waited {
        id: 10,
        word: 0x300,
        report: 1,
    }];
    same(
        &rt,
        &offers(&rt, &kernel, 1, &Event::StarterWait { which, flags })?.as_slice(),
        &want.as_slice(),
    );
    Ok(())
}
