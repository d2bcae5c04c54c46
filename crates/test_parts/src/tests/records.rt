use super::{same, same_of, set_of, signal};
use std::process::Abort;
use std::test::Fail;
use tr_pending::{Info, Instance};
use tr_sigset::SigSet;
use tr_tracee::{End, Life, Options, Report, Stop, Thread, Trace};
use tr_wait::{Status, StopSig};

/// The third signal that was accepted: USR1, by kill(2).
fn third() -> Result<Instance, Fail> {
    let info = Info {
        code: 0,
        pid: 1,
        value: 0,
    };
    Ok(Instance {
        n: 3,
        sig: signal(10)?,
        info,
    })
}

/// The signal-delivery-stop that holds it.
fn caught(cont_came: bool) -> Result<Stop, Fail> {
    Ok(Stop::Signal {
        held: third()?,
        cont_came,
    })
}

/// A seized tracee with no mark, which takes part in no group-stop.
fn seized(life: &Life, options: Options) -> Thread {
    Thread {
        id: 11,
        group: 10,
        mask: SigSet::empty(),
        pausing: false,
        life: *life,
        trace: Some(Trace {
            tracer: 1,
            seized: true,
            options,
        }),
        stop_mark: false,
        trap_mark: false,
        note_mark: false,
        joined: false,
        report: None,
    }
}

/// What ptrace(2) says of one kind of stop.
#[derive(Drop)]
struct Case {
    stop: Stop,
    /// What a wait tells of it.
    status: Status,
    /// What its restart gives.
    held: Option<Instance>,
    /// What the tracee does after its restart.
    restarted: Life,
    /// Whether it then still takes part in a group-stop.
    takes_part: bool,
    /// What it does after `PTRACE_LISTEN`.
    listening: Life,
}

/// A stop that holds nothing, has no part in a group-stop and from which the tracee runs.
fn plain(stop: &Stop, status: &Status) -> Case {
    Case {
        stop: *stop,
        status: *status,
        held: None,
        restarted: Life::Free,
        takes_part: true,
        listening: Life::InStop(*stop),
    }
}

fn signal_delivery_stop() -> Result<Case, Fail> {
    let mut case = plain(&caught(false)?, &Status::Stopped(signal(10)?));
    case.held = Some(third()?);
    Ok(case)
}

fn group_stop() -> Result<Case, Fail> {
    let mut case = plain(&Stop::Group(signal(19)?), &Status::Stopped(signal(19)?));
    case.takes_part = false;
    Ok(case)
}

fn event_stop() -> Case {
    let mut case = plain(
        &Stop::Event(StopSig::Tstp),
        &Status::EventStop(StopSig::Tstp),
    );
    case.takes_part = false;
    case.listening = Life::Listening;
    case
}

fn exit_stop(word: u32, end: &End) -> Case {
    let mut case = plain(&Stop::Exit(word), &Status::Exit);
    case.restarted = Life::Leaving {
        end: *end,
        told: true,
    };
    case
}

/// A thread that takes part in a group-stop, and has a trap mark and a note mark, enters the stop.
fn entered(rt: &impl Abort, case: &Case) -> Thread {
    let mut entered = seized(&Life::Free, Options::NONE);
    entered.interrupt();
    assert!(rt; entered.trap_mark);
    entered.note_mark = true;
    entered.joined = true;
    entered.enter(&case.stop, 5);
    entered
}

fn is_reported(rt: &impl Abort, case: &Case, entered: &Thread) {
    let report = Report {
        number: 5,
        status: case.status,
    };
    same_of(rt, &entered.report, &Some(report), &case.stop);
    same_of(rt, &entered.life.held(), &case.held, &case.stop);
    same_of(rt, &entered.note_mark, &!case.stop.is_event(), &case.stop);
    assert!(rt; !entered.trap_mark && entered.life.is_in_stop());
}

fn stays_when_detached(rt: &impl Abort, case: &Case, entered: &Thread) {
    let mut detached = *entered;
    detached.detach(true);
    same_of(rt, &detached, entered, &case.stop);
}

fn is_listened_to(rt: &impl Abort, case: &Case, entered: &Thread) {
    let mut listening = *entered;
    listening.listen();
    same_of(rt, &listening.life, &case.listening, &case.stop);
    assert!(rt; listening.joined && listening.report.is_none());
}

fn is_restarted(rt: &impl Abort, case: &Case, entered: &Thread) {
    let mut restarted = *entered;
    same_of(rt, &restarted.restart(), &case.held, &case.stop);
    same_of(rt, &restarted.life, &case.restarted, &case.stop);
    same_of(rt, &restarted.joined, &case.takes_part, &case.stop);
    assert!(rt; restarted.report.is_none());
}

fn is_so(rt: &impl Abort, case: &Case) {
    let entered = entered(rt, case);
    is_reported(rt, case, &entered);
    stays_when_detached(rt, case, &entered);
    is_listened_to(rt, case, &entered);
    is_restarted(rt, case, &entered);
}

#[test]
fn stops_and_restarts(rt: HostRuntime) -> Result<(), Fail> {
    let cases = [
        signal_delivery_stop()?,
        group_stop()?,
        event_stop(),
        plain(&Stop::Clone(12), &Status::Clone),
        plain(&Stop::Exec(12), &Status::Exec),
        exit_stop(0x300, &End::Exited(3)),
        exit_stop(0xf, &End::Killed(signal(15)?)),
    ];
    for case in &cases {
        is_so(&rt, case);
    }
    Ok(())
}

/// A detached thread runs, or is stopped where a group-stop is in effect; its exit is no longer told.
#[test]
fn detaching(rt: HostRuntime) {
    let end = End::Exited(3);
    let lives = [
        (Life::Free, false, Life::Free, false),
        (Life::Free, true, Life::Stopped, true),
        (Life::Listening, false, Life::Free, false),
        (Life::Listening, true, Life::Stopped, true),
        (Life::Stopped, true, Life::Stopped, false),
        (
            Life::Leaving { end, told: false },
            true,
            Life::Leaving { end, told: true },
            false,
        ),
        (Life::Dead(end), true, Life::Dead(end), false),
    ];
    for (life, in_effect, want, joined) in &lives {
        let mut thread = seized(life, Options::NONE);
        thread.trap_mark = true;
        thread.note_mark = true;
        thread.detach(*in_effect);
        same_of(&rt, &thread.life, want, &life);
        same_of(&rt, &thread.joined, joined, &life);
        assert!(rt; !thread.is_traced() && !thread.is_seized() && !thread.has_mark());
    }
}

/// KILL leaves no exit stop before the end, and what was told or is dead is told no more: ptrace(2), "Death under
/// ptrace".
#[test]
fn beginning_to_leave(rt: HostRuntime) -> Result<(), Fail> {
    let end = End::Killed(signal(9)?);
    let mut exit = Options::NONE;
    exit.exit = true;
    let stopped = Life::InStop(Stop::Group(signal(19)?));
    let told = Life::Leaving { end, told: true };
    let untold = Life::Leaving { end, told: false };
    let cases = [
        (Life::Free, Options::NONE, false, told),
        (Life::Free, exit, false, untold),
        (Life::Free, exit, true, told),
        (stopped, exit, false, untold),
        (stopped, exit, true, told),
        (Life::InStop(Stop::Exit(0)), exit, false, told),
        (
            Life::Leaving {
                end: End::Exited(0),
                told: true,
            },
            exit,
            false,
            told,
        ),
        (
            Life::Dead(End::Exited(0)),
            exit,
            true,
            Life::Dead(End::Exited(0)),
        ),
    ];
    for (life, options, kill, want) in &cases {
        let mut thread = seized(life, *options);
        thread.begin_to_leave(*kill, &end);
        same_of(&rt, &thread.life, want, &(life, kill));
    }
    Ok(())
}

/// A group-stop begins, or a SIGCONT comes: "Group-stop" of ptrace(2).
#[test]
fn marks(rt: HostRuntime) -> Result<(), Fail> {
    for (life, live) in [
        (Life::Free, true),
        (Life::Listening, true),
        (Life::Stopped, true),
        (Life::Execing, true),
        (Life::InStop(Stop::Event(StopSig::Stop)), true),
        (Life::InStop(Stop::Exit(0)), false),
        (
            Life::Leaving {
                end: End::Exited(0),
                told: false,
            },
            false,
        ),
        (Life::Dead(End::Exited(0)), false),
    ] {
        let mut thread = seized(&life, Options::NONE);
        thread.mark();
        thread.note();
        same_of(&rt, &thread.stop_mark, &live, &life);
        same_of(&rt, &thread.note_mark, &live, &life);
    }
    let mut stopped = seized(&Life::Stopped, Options::NONE);
    stopped.trace = None;
    stopped.joined = true;
    stopped.mark();
    stopped.note();
    assert!(rt;
        !stopped.has_mark(),
        "it is stopped already, and nobody seized it"
    );
    stopped.continue_one();
    assert!(rt; stopped.is_ready_to_take() && !stopped.joined);
    let mut tracee = seized(&Life::InStop(caught(false)?), Options::NONE);
    tracee.note_cont();
    same(&rt, &tracee.life, &Life::InStop(caught(true)?));
    Ok(())
}

/// "It is not possible to block SIGKILL or SIGSTOP": sigprocmask(2).
#[test]
fn masks_and_pauses(rt: HostRuntime) -> Result<(), Fail> {
    let mut thread = seized(&Life::Free, Options::NONE);
    thread.set_mask(set_of(&[9, 10, 19, 34])?);
    same(&rt, &thread.mask, &set_of(&[10, 34])?);
    thread.set_pausing(true);
    assert!(rt; thread.pausing && thread.is_ready_to_take() && !thread.is_leader());
    same(&rt, &thread.options(), &Options::NONE);
    thread.interrupt();
    assert!(rt; thread.has_mark() && !thread.is_ready_to_take());
    same(&rt, &End::Exited(3).status(), &Status::Exited(3));
    same(
        &rt,
        &End::Killed(signal(9)?).status(),
        &Status::Killed(signal(9)?),
    );
    Ok(())
}
