use super::gates::Open;
use super::{item, same, start};
use std::alloc::Global;
use std::process::Abort;
use std::test::Fail;
use tr_hub::{Answer, Receipt};
use tr_model::{Event, Refusal, Reply};
use tr_starts::Items;
use tr_wait::{WaitFlags, Which};
use tr_workers::{Calls, Ended, Item, Plan, Repeat, Script, Served, run, settle};

const EXIT: Event = Event::Exit { tid: 10, code: 3 };

const PAUSE: Event = Event::Pause { tid: 11 };

const ENTRY: Answer = Answer::Entered(Receipt {
    position: 1,
    event: EXIT,
    reply: Reply::Done,
    accepted: 0,
});

const NOTHING: Answer = Answer::Read(Reply::Nothing);

const NOT_DUE: Answer = Answer::Refused(Refusal::NotDue);

const BUSY: Answer = Answer::Refused(Refusal::Busy);

const AGAIN: Answer = Answer::Refused(Refusal::Again);

const GONE: Answer = Answer::Refused(Refusal::Srch);

/// That a script makes these calls, each after the answers before it, and then none.
fn makes(
    rt: &impl Abort,
    alloc: Global,
    plan: Plan,
    calls: &[(Event, Answer)],
) -> Result<(), Fail> {
    let script = Script { actor: 900, plan };
    let mut left = Calls::new(alloc, &script)?;
    for (event, answer) in calls {
        same(rt, &left.next(), &Some(*event));
        left.tell(answer);
    }
    same(rt, &left.next(), &None);
    Ok(())
}

#[test]
fn item_is_called_until_something_comes_of_it(rt: HostRuntime) -> Result<(), Fail> {
    let mut items = item(
        rt.alloc(),
        Item {
            event: EXIT,
            repeat: Repeat::Until,
        },
    )?;
    items.push(Item {
        event: EXIT,
        repeat: Repeat::Times(0),
    })?;
    items.push(Item {
        event: PAUSE,
        repeat: Repeat::Times(2),
    })?;
    let calls = [
        (EXIT, NOTHING),
        (EXIT, BUSY),
        (EXIT, NOT_DUE),
        (EXIT, AGAIN),
        (PAUSE, NOTHING),
        (PAUSE, ENTRY),
    ];
    makes(&rt, rt.alloc(), Plan::Items(items), &calls)
}

#[test]
fn machine_serves_its_threads_in_rounds(rt: HostRuntime) -> Result<(), Fail> {
    let alloc = rt.alloc();
    let mut threads = item(
        alloc,
        Served {
            tid: 10,
            ops: Items::new(alloc),
        },
    )?;
    threads.push(Served {
        tid: 11,
        ops: item(alloc, PAUSE)?,
    })?;
    let (die, halt, trap, finish, take) = (
        Event::Die { tid: 10 },
        Event::Halt { tid: 10 },
        Event::Trap { tid: 10 },
        Event::Finish { tid: 10 },
        Event::Take { tid: 10 },
    );
    let (die_11, halt_11, trap_11, finish_11, take_11) = (
        Event::Die { tid: 11 },
        Event::Halt { tid: 11 },
        Event::Trap { tid: 11 },
        Event::Finish { tid: 11 },
        Event::Take { tid: 11 },
    );
    let calls = [
        // No op is left: the next thread comes after the take.
        (die, NOT_DUE),
        (halt, NOT_DUE),
        (trap, NOT_DUE),
        (finish, NOT_DUE),
        (take, NOTHING),
        // An op that comes too early is left.
        (die_11, NOT_DUE),
        (halt_11, NOT_DUE),
        (trap_11, NOT_DUE),
        (finish_11, NOT_DUE),
        (take_11, BUSY),
        (PAUSE, BUSY),
        // An entry ends the visit.
        (die, NOT_DUE),
        (halt, ENTRY),
        (die_11, NOT_DUE),
        (halt_11, NOT_DUE),
        (trap_11, NOT_DUE),
        (finish_11, NOT_DUE),
        (take_11, NOTHING),
        (PAUSE, AGAIN),
        // One thread is gone, the other isn't.
        (die, GONE),
        (die_11, NOT_DUE),
        (halt_11, GONE),
        // The first isn't gone any more, and all are gone in the next round.
        (die, NOT_DUE),
        (halt, GONE),
        (die_11, GONE),
        (die, GONE),
        (die_11, GONE),
    ];
    makes(&rt, alloc, Plan::Machine(threads), &calls)
}

#[test]
fn machine_without_threads_has_ended(rt: HostRuntime) -> Result<(), Fail> {
    makes(&rt, rt.alloc(), Plan::Machine(Items::new(rt.alloc())), &[])
}

#[test]
fn thread_exits_and_is_waited_for(rt: HostRuntime) -> Result<(), Fail> {
    let alloc = rt.alloc();
    let served = Served {
        tid: 10,
        ops: item(alloc, EXIT)?,
    };
    let machine = Script {
        actor: 10,
        plan: Plan::Machine(item(alloc, served)?),
    };
    let flags = WaitFlags {
        untraced: false,
        continued: false,
    };
    let which = Which::One(0);
    let wait = Item {
        event: Event::StarterWait { which, flags },
        repeat: Repeat::Until,
    };
    let waiter = Script {
        actor: 1,
        plan: Plan::Items(item(alloc, wait)?),
    };
    let scripts = vec![in alloc; machine, waiter]?;
    let (kernel, asked, workers) = run(&rt, alloc, &Open, start(alloc)?, &scripts, 10_000_000)?;
    let mut left = workers.as_slice();
    for entries in [2, 1] {
        let Some((worker, rest)) = left.split_first() else {
            return Err(Fail::from("a worker is missing"));
        };
        same(
            &rt,
            &(worker.entries, worker.accepted, worker.outcome),
            &(entries, 0, Ended::AtEnd),
        );
        left = rest;
    }
    same(&rt, &settle(&kernel, &asked, &workers), &Ok(()));
    Ok(())
}
