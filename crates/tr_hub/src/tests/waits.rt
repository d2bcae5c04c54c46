use super::same;
use crate::{Answer, Hub, Parts, Receipt, Seat, WaitCall};
use std::process::Abort;
use std::sync::Wait;
use std::test::Fail;
use std::thread;
use std::thread::Threads;
use tr_model::{Event, Reply};
use tr_tracee::Options;
use tr_wait::{WaitFlags, Which};

const ANY: WaitCall = WaitCall::Tracer(Which::Any);

const ANY_GROUP: WaitCall = WaitCall::Starter(
    Which::Any,
    WaitFlags {
        untraced: false,
        continued: false,
    },
);

const SEIZE: Event = Event::Seize {
    tid: 10,
    options: Options::NONE,
};

const NOTHING: Answer = Answer::Read(Reply::Nothing);

/// Whether so many answers without an entry come, looked for up to 100,000,000 times.
fn is_asked<E: Parts, A: Parts>(rt: &impl Wait, hub: &Hub<E, A>, count: usize) -> bool {
    for _ in 0..100_000_000u64 {
        if hub.asked(rt) >= count {
            return true;
        }
    }
    false
}

/// Whether no more of them come while 10,000 looks are taken.
fn is_quiet<E: Parts, A: Parts>(rt: &impl Wait, hub: &Hub<E, A>, count: usize) -> bool {
    for _ in 0..10_000 {
        if hub.asked(rt) > count {
            return false;
        }
    }
    true
}

/// A wait, and how many calls were made from the seat then.
fn waited<E: Parts, A: Parts>(
    rt: &impl Wait,
    hub: &Hub<E, A>,
    mut seat: Seat<E, A>,
    what: WaitCall,
    turns: u64,
) -> (Answer, u64) {
    let answer = hub.wait_for(rt, &mut seat, what, turns);
    (answer, seat.calls())
}

/// Takes the tracee's SIGSTOP once the tracer waits; whether it waited, and didn't try again by itself.
fn take_late<E: Parts, A: Parts>(rt: &impl Wait, hub: &Hub<E, A>, mut seat: Seat<E, A>) -> bool {
    let waits = is_asked(rt, hub, 1) && is_quiet(rt, hub, 1);
    let _took = hub.call(rt, &mut seat, Event::Take { tid: 10 });
    waits
}

/// The tracer waits in one thread; in another its tracee stops then. It tries twice.
pub(super) fn wait_for_another<
    E: Parts + Send + Sync,
    A: Parts + Send + Sync,
    R: Threads + Wait + Abort + Sync,
>(rt: &R, hub: &Hub<E, A>, mut seats: Vec<Seat<E, A>>) -> Result<(), Fail> {
    let (Some(other), Some(mut tracer)) = (seats.pop(), seats.pop()) else {
        return Err(Fail::from("two seats"));
    };
    let attached = hub.call(rt, &mut tracer, Event::Attach { tid: 10 });
    same(rt, &attached.is_entered(), &true);
    let (waited, was_waiting) = thread::join(
        rt,
        move || waited(rt, hub, tracer, ANY, 1000),
        move || take_late(rt, hub, other),
    );
    let want = Receipt {
        position: 3,
        event: Event::Wait { which: Which::Any },
        reply: Reply::Waited {
            id: 10,
            word: 0x137f,
            report: 1,
        },
        accepted: 0,
    };
    same(rt, &was_waiting, &true);
    same(rt, &waited, &(Answer::Entered(want), 3));
    Ok(())
}

/// Two waits of two turns each, in threads of their own.
fn waited_twice<E: Parts + Send + Sync, A: Parts + Send + Sync, R: Threads + Wait + Sync>(
    rt: &R,
    hub: &Hub<E, A>,
    tracer: Seat<E, A>,
    starter: Seat<E, A>,
) -> ((Answer, u64), (Answer, u64)) {
    thread::join(
        rt,
        move || waited(rt, hub, tracer, ANY, 2),
        move || waited(rt, hub, starter, ANY_GROUP, 2),
    )
}

/// Sends a signal once two seats wait; whether they did.
fn send_late<E: Parts, A: Parts>(rt: &impl Wait, hub: &Hub<E, A>, mut seat: Seat<E, A>) -> bool {
    let wait = is_asked(rt, hub, 2);
    let _sent = hub.call(rt, &mut seat, Event::Kill { tgid: 10, sig: 10 });
    wait
}

/// Tracer and starter wait for what doesn't come: by one entry of a third seat both come to their second turn.
pub(super) fn wait_at_once<
    E: Parts + Send + Sync,
    A: Parts + Send + Sync,
    R: Threads + Wait + Abort + Sync,
>(rt: &R, hub: &Hub<E, A>, mut seats: Vec<Seat<E, A>>) -> Result<(), Fail> {
    let (Some(other), Some(starter), Some(mut tracer)) = (seats.pop(), seats.pop(), seats.pop())
    else {
        return Err(Fail::from("three seats"));
    };
    let seized = hub.call(rt, &mut tracer, SEIZE);
    same(rt, &seized.is_entered(), &true);
    let (waited, were_waiting) = thread::join(
        rt,
        move || waited_twice(rt, hub, tracer, starter),
        move || send_late(rt, hub, other),
    );
    same(rt, &were_waiting, &true);
    same(rt, &waited, &((NOTHING, 3), (NOTHING, 2)));
    Ok(())
}

/// The tracer waits once the starter does; whether the starter waited, and the tracer found a report.
fn wait_late<E: Parts, A: Parts>(rt: &impl Wait, hub: &Hub<E, A>, mut seat: Seat<E, A>) -> bool {
    let waits = is_asked(rt, hub, 1);
    hub.wait_for(rt, &mut seat, ANY, 1).is_entered() && waits
}

/// A dead tracee: the starter waits until the tracer has waited for it.
pub(super) fn wait_for_a_wait<
    E: Parts + Send + Sync,
    A: Parts + Send + Sync,
    R: Threads + Wait + Abort + Sync,
>(rt: &R, hub: &Hub<E, A>, mut seats: Vec<Seat<E, A>>) -> Result<(), Fail> {
    let (Some(mut starter), Some(mut tracer)) = (seats.pop(), seats.pop()) else {
        return Err(Fail::from("two seats"));
    };
    let seized = hub.call(rt, &mut tracer, SEIZE);
    let killed = hub.call(rt, &mut starter, Event::Kill { tgid: 10, sig: 9 });
    let died = hub.call(rt, &mut tracer, Event::Die { tid: 10 });
    for answer in [seized, killed, died] {
        same(rt, &answer.is_entered(), &true);
    }
    let ((answer, calls), was_waiting) = thread::join(
        rt,
        move || waited(rt, hub, starter, ANY_GROUP, 1000),
        move || wait_late(rt, hub, tracer),
    );
    same(rt, &was_waiting, &true);
    same(rt, &answer.is_entered(), &true);
    same(rt, &calls, &3);
    Ok(())
}
