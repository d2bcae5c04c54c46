use super::stops::{
    CLONE_THREAD, DIE, DYING, EXIT, EXIT_GROUP, OTHER_DIE, SEIZE_EXIT, SEIZE_OTHER, TRACED,
    UNTRACED, after, all_die, held, is_in, some_in_stop, some_stopped, starter_word, tracer_word,
};
use super::{expect_answer, has_fate, same, sent};
use std::process::Abort;
use std::test::Fail;
use tr_kernel::Kernel;
use tr_model::{Event, Fate, Reply};
use tr_wait::{WaitFlags, Which};

// KILL: kill(2), and "Death under ptrace" of ptrace(2).

const KILL: Event = Event::Kill { tgid: 10, sig: 9 };

/// KILL is delivered: what thread 10 held is flushed, and no thread is in a stop.
fn is_killed(rt: &impl Abort, kernel: &mut Kernel) {
    let held = held(kernel);
    let reply = kernel.step(901, KILL);
    same(rt, &reply, &sent(kernel.totals().accepted, Fate::Delivered));
    same(rt, &some_in_stop(kernel), &false);
    same(rt, &some_stopped(kernel), &false);
    if held != 0 {
        has_fate(rt, kernel, held, Some(Fate::Flushed));
    }
}

/// KILL ends the group, with word 9 for its tracer, if it has one, and then for the starter.
fn kill_ends(rt: &impl Abort, kernel: &mut Kernel, told: Option<u32>) {
    is_killed(rt, kernel);
    all_die(kernel);
    same(rt, &tracer_word(kernel, 10), &told);
    same(rt, &starter_word(kernel), &Some(9));
}

#[test]
fn kill_ends_an_untraced_group(rt: HostRuntime) -> Result<(), Fail> {
    for case in &UNTRACED {
        let mut kernel = after(&rt, case.1, false)?;
        is_in(&rt, &kernel, case.0);
        kill_ends(&rt, &mut kernel, None);
    }
    Ok(())
}

#[test]
fn kill_ends_a_tracee_in_each_state(rt: HostRuntime) -> Result<(), Fail> {
    for case in &TRACED {
        let mut kernel = after(&rt, case.1, false)?;
        is_in(&rt, &kernel, case.0);
        kill_ends(&rt, &mut kernel, Some(9));
    }
    Ok(())
}

#[test]
fn kill_of_a_dead_group_is_flushed(rt: HostRuntime) -> Result<(), Fail> {
    let mut kernel = after(&rt, &[EXIT, DIE], false)?;
    expect_answer(&rt, &mut kernel, 901, &KILL, &sent(1, Fate::Flushed));
    same(&rt, &starter_word(&mut kernel), &Some(0x300));
    Ok(())
}

#[test]
fn killed_group_keeps_the_end_that_it_had(rt: HostRuntime) -> Result<(), Fail> {
    for case in &DYING {
        let mut kernel = after(&rt, case.1, false)?;
        is_in(&rt, &kernel, case.0);
        is_killed(&rt, &mut kernel);
        all_die(&mut kernel);
        same(&rt, &tracer_word(&mut kernel, 10), &Some(case.2));
        same(&rt, &starter_word(&mut kernel), &Some(case.2));
    }
    Ok(())
}

/// Another thread than the leader tells the end of its group, and not that of the KILL at its exit stop.
#[test]
fn killed_thread_keeps_the_end_of_its_group(rt: HostRuntime) -> Result<(), Fail> {
    let calls = [CLONE_THREAD, SEIZE_OTHER, EXIT_GROUP, OTHER_DIE];
    let mut kernel = after(&rt, &calls, false)?;
    same(&rt, &some_in_stop(&kernel), &true);
    is_killed(&rt, &mut kernel);
    all_die(&mut kernel);
    same(&rt, &tracer_word(&mut kernel, 11), &Some(0x300));
    same(&rt, &starter_word(&mut kernel), &Some(0x300));
    Ok(())
}

fn waited(report: u64) -> Reply {
    Reply::Waited {
        id: 10,
        word: 9,
        report,
    }
}

const WAIT: Event = Event::Wait { which: Which::Any };

const STARTER_WAIT: Event = Event::StarterWait {
    which: Which::Any,
    flags: WaitFlags {
        untraced: false,
        continued: false,
    },
};

#[test]
fn killed_tracee_reports_no_exit_stop(rt: HostRuntime) -> Result<(), Fail> {
    let mut kernel = after(&rt, &[SEIZE_EXIT], false)?;
    expect_answer(&rt, &mut kernel, 901, &KILL, &sent(1, Fate::Delivered));
    expect_answer(&rt, &mut kernel, DIE.0, &DIE.1, &Ok(Reply::Done));
    expect_answer(&rt, &mut kernel, 900, &WAIT, &Ok(waited(1)));
    expect_answer(&rt, &mut kernel, 1, &STARTER_WAIT, &Ok(waited(2)));
    Ok(())
}
