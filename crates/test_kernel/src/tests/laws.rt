use super::stops::{Call, DIE, SEIZE, TAKE};
use super::{catching, has_fate, kernel, same};
use std::process::Abort;
use std::test::Fail;
use tr_kernel::Kernel;
use tr_kernel::laws::{consumed_differ, in_order, only_dying, restart_between};
use tr_model::{Event, Fate, Refusal, Reply};
use tr_sigset::SigSet;
use tr_tracee::Options;
use tr_wait::{WaitFlags, Which};

// The laws on kernels whose journals are known. 900 is the tracer, 901 sends, 1 is the starter.

const WAIT: Call = (900, Event::Wait { which: Which::Any });

const STARTER_WAIT: Call = (
    1,
    Event::StarterWait {
        which: Which::Any,
        flags: WaitFlags {
            untraced: false,
            continued: false,
        },
    },
);

const LISTEN: Call = (900, Event::Listen { tid: 10 });

const HALT: Call = (10, Event::Halt { tid: 10 });

const TRAP: Call = (10, Event::Trap { tid: 10 });

/// A group-stop of a seized thread: waits are the entries 4, 7 and 11.
const STOPS: [Call; 11] = [
    SEIZE,
    (901, Event::Kill { tgid: 10, sig: 19 }),
    TAKE,
    WAIT,
    (900, Event::Cont { tid: 10, sig: 19 }),
    HALT,
    WAIT,
    LISTEN,
    (901, Event::Kill { tgid: 10, sig: 18 }),
    TRAP,
    WAIT,
];

/// A KILL, entry 5, at a signal-delivery-stop.
const KILLED: [Call; 8] = [
    SEIZE,
    (901, Event::Kill { tgid: 10, sig: 10 }),
    TAKE,
    WAIT,
    (901, Event::Kill { tgid: 10, sig: 9 }),
    DIE,
    WAIT,
    STARTER_WAIT,
];

/// The end of a tracer, entry 2, kills what it seized with exitkill.
const LEFT_TO_DIE: [Call; 4] = [
    (
        900,
        Event::Seize {
            tid: 10,
            options: Options {
                exitkill: true,
                ..Options::NONE
            },
        },
    ),
    (900, Event::TracerExit),
    DIE,
    STARTER_WAIT,
];

/// A restart with KILL, entry 5, from a signal-delivery-stop.
const RESTARTED_TO_DIE: [Call; 7] = [
    SEIZE,
    (901, Event::Kill { tgid: 10, sig: 10 }),
    TAKE,
    WAIT,
    (900, Event::Cont { tid: 10, sig: 9 }),
    DIE,
    WAIT,
];

const SEND: Call = (901, Event::Kill { tgid: 10, sig: 34 });

/// Makes calls, each of which makes an entry.
fn enter(rt: &impl Abort, kernel: &mut Kernel, calls: &[Call]) {
    for call in calls {
        let answer = kernel.step(call.0, call.1);
        assert!(rt; answer.is_ok());
    }
}

/// The thread blocks these signals.
fn mask(kernel: &mut Kernel, bits: u64) -> Result<Reply, Refusal> {
    let set = SigSet::from_bits(bits);
    kernel.step(10, Event::Mask { tid: 10, set })
}

/// Four instances of one real-time signal are accepted by the entries 2 to 5 and taken by the entries 7 to 10.
fn queue_and_take(rt: &impl Abort, kernel: &mut Kernel) {
    let _blocked = mask(kernel, 1 << 33);
    enter(rt, kernel, &[SEND; 4]);
    let _unblocked = mask(kernel, 0);
    enter(rt, kernel, &[TAKE; 4]);
    same(rt, &kernel.journal().len(), &10);
}

fn consumed(rt: &impl Abort, kernel: &Kernel, position: u64, want: Option<u64>) {
    same(rt, &kernel.consumed_at(position), &want);
}

fn differ(rt: &impl Abort, kernel: &Kernel, i: u64, j: u64, want: bool) {
    same(rt, &consumed_differ(kernel, i, j), &want);
}

fn restart(rt: &impl Abort, kernel: &Kernel, i: u64, j: u64, want: Option<u64>) {
    same(rt, &restart_between(kernel, i, j), &want);
}

fn dying(rt: &impl Abort, kernel: &Kernel, i: u64, j: u64, want: bool) {
    same(rt, &only_dying(kernel, i, j), &want);
}

fn ordered(rt: &impl Abort, kernel: &Kernel, i: u64, j: u64, want: bool) {
    same(rt, &in_order(kernel, i, j), &want);
}

#[test]
fn each_wait_consumes_its_own_report(rt: HostRuntime) -> Result<(), Fail> {
    let mut kernel = kernel(&rt, 100)?;
    enter(&rt, &mut kernel, &STOPS);
    consumed(&rt, &kernel, 4, Some(1));
    consumed(&rt, &kernel, 7, Some(2));
    consumed(&rt, &kernel, 11, Some(3));
    consumed(&rt, &kernel, 5, None);
    consumed(&rt, &kernel, 0, None);
    consumed(&rt, &kernel, 12, None);
    differ(&rt, &kernel, 4, 7, true);
    differ(&rt, &kernel, 4, 4, false);
    differ(&rt, &kernel, 4, 5, false);
    Ok(())
}

#[test]
fn a_restart_stands_between_two_stops(rt: HostRuntime) -> Result<(), Fail> {
    let mut kernel = kernel(&rt, 100)?;
    enter(&rt, &mut kernel, &STOPS);
    restart(&rt, &kernel, 4, 7, Some(5));
    restart(&rt, &kernel, 7, 11, Some(8));
    restart(&rt, &kernel, 7, 4, None);
    restart(&rt, &kernel, 4, 5, None);
    restart(&rt, &kernel, 0, 7, None);
    Ok(())
}

#[test]
fn the_killed_only_die(rt: HostRuntime) -> Result<(), Fail> {
    let mut kernel = kernel(&rt, 100)?;
    enter(&rt, &mut kernel, &KILLED);
    has_fate(&rt, &kernel, 1, Some(Fate::Flushed));
    has_fate(&rt, &kernel, 2, Some(Fate::Delivered));
    has_fate(&rt, &kernel, 0, None);
    has_fate(&rt, &kernel, 3, None);
    dying(&rt, &kernel, 5, 8, true);
    dying(&rt, &kernel, 5, 5, true);
    dying(&rt, &kernel, 2, 8, false);
    dying(&rt, &kernel, 5, 9, false);
    dying(&rt, &kernel, 5, 4, false);
    Ok(())
}

#[test]
fn those_left_with_exitkill_only_die(rt: HostRuntime) -> Result<(), Fail> {
    let mut kernel = kernel(&rt, 100)?;
    enter(&rt, &mut kernel, &LEFT_TO_DIE);
    has_fate(&rt, &kernel, 1, Some(Fate::Delivered));
    dying(&rt, &kernel, 2, 4, true);
    dying(&rt, &kernel, 1, 4, false);
    dying(&rt, &kernel, 3, 4, false);
    Ok(())
}

#[test]
fn those_restarted_with_kill_only_die(rt: HostRuntime) -> Result<(), Fail> {
    let mut kernel = kernel(&rt, 100)?;
    enter(&rt, &mut kernel, &RESTARTED_TO_DIE);
    has_fate(&rt, &kernel, 1, Some(Fate::Suppressed));
    has_fate(&rt, &kernel, 2, Some(Fate::Delivered));
    dying(&rt, &kernel, 5, 7, true);
    dying(&rt, &kernel, 3, 7, false);
    Ok(())
}

#[test]
fn first_accepted_is_first_taken(rt: HostRuntime) -> Result<(), Fail> {
    let mut kernel = catching(&rt, 34)?;
    queue_and_take(&rt, &mut kernel);
    ordered(&rt, &kernel, 7, 10, true);
    ordered(&rt, &kernel, 10, 7, false);
    ordered(&rt, &kernel, 2, 7, false);
    ordered(&rt, &kernel, 7, 11, false);
    Ok(())
}
