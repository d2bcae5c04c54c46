use super::stops::{
    DIE, DYING, EXIT, SEIZE, State, TRACED, after, all_die, held, is_in, some_in_stop, some_traced,
    starter_word,
};
use super::{has_fate, same};
use std::process::Abort;
use std::test::Fail;
use tr_kernel::Kernel;
use tr_model::{Event, Fate};

// The end of a tracer: PTRACE_O_EXITKILL and "Detaching of the tracee" of ptrace(2).

/// Nobody traces a thread once the tracer has ended, and no thread is in a ptrace-stop. What thread 10 held has this
/// fate.
fn is_left(rt: &impl Abort, kernel: &mut Kernel, fate: Fate) {
    let held = held(kernel);
    same(rt, &kernel.step(900, Event::TracerExit).is_ok(), &true);
    same(rt, &some_traced(kernel), &false);
    same(rt, &some_in_stop(kernel), &false);
    if held != 0 {
        has_fate(rt, kernel, held, Some(fate));
    }
}

/// The killed thread leaves, and dies with word 9.
fn is_killed(rt: &impl Abort, kernel: &mut Kernel) {
    is_left(rt, kernel, Fate::Flushed);
    is_in(rt, kernel, State::Leaving);
    all_die(kernel);
    same(rt, &starter_word(kernel), &Some(9));
}

#[test]
fn end_of_a_tracer_detaches_its_tracees(rt: HostRuntime) -> Result<(), Fail> {
    for case in &TRACED {
        let mut kernel = after(&rt, case.1, false)?;
        is_in(&rt, &kernel, case.0);
        is_left(&rt, &mut kernel, Fate::Delivered);
        is_in(&rt, &kernel, case.2);
    }
    Ok(())
}

/// A dying group keeps the end that it had, whether or not its tracer kills it.
#[test]
fn end_of_a_tracer_leaves_a_dying_group(rt: HostRuntime) -> Result<(), Fail> {
    for exitkill in [false, true] {
        for case in &DYING {
            let mut kernel = after(&rt, case.1, exitkill)?;
            is_in(&rt, &kernel, case.0);
            is_left(&rt, &mut kernel, Fate::Delivered);
            is_in(&rt, &kernel, State::Leaving);
            all_die(&mut kernel);
            same(&rt, &starter_word(&mut kernel), &Some(case.2));
        }
    }
    Ok(())
}

#[test]
fn end_of_a_tracer_with_exitkill_kills_its_tracees(rt: HostRuntime) -> Result<(), Fail> {
    for case in &TRACED {
        let mut kernel = after(&rt, case.1, true)?;
        is_in(&rt, &kernel, case.0);
        is_killed(&rt, &mut kernel);
    }
    Ok(())
}

#[test]
fn end_of_a_tracer_leaves_a_death_to_the_starter(rt: HostRuntime) -> Result<(), Fail> {
    let mut kernel = after(&rt, &[SEIZE, EXIT, DIE], false)?;
    is_left(&rt, &mut kernel, Fate::Delivered);
    same(&rt, &starter_word(&mut kernel), &Some(0x300));
    Ok(())
}
