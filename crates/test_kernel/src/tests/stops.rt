use super::{kernel, same};
use std::process::Abort;
use std::test::Fail;
use tr_kernel::Kernel;
use tr_model::{Event, Refusal, Reply};
use tr_tracee::{Life, Options, Stop, Thread};
use tr_wait::{WaitFlags, Which};

// The lives that a thread can be in, and calls that bring thread 10 into each. 900 is its tracer.

/// What a thread is doing.
#[derive(Clone, Copy, Debug, PartialEq)]
pub(super) enum State {
    Free,
    Pausing,
    Stopped,
    SignalStop,
    GroupStop,
    CloneStop,
    ExecStop,
    ExitStop,
    EventStop,
    Listening,
    Leaving,
    Dead,
    Execing,
}

/// An actor and what it asks for.
pub(super) type Call = (u32, Event);

/// A state, and the calls that bring thread 10 into it.
pub(super) type Case = (State, &'static [Call]);

/// A state of a tracee, the calls that bring thread 10 into it, and the state that the end of its tracer leaves it in.
pub(super) type Traced = (State, &'static [Call], State);

/// A state of a tracee, the calls that bring thread 10 into it, and the word of its group's end.
pub(super) type Dying = (State, &'static [Call], u32);

const ATTACH: Call = (900, Event::Attach { tid: 10 });

pub(super) const SEIZE: Call = (
    900,
    Event::Seize {
        tid: 10,
        options: Options::NONE,
    },
);

const SEIZE_CLONE: Call = (
    900,
    Event::Seize {
        tid: 10,
        options: Options {
            clone: true,
            ..Options::NONE
        },
    },
);

const SEIZE_EXEC: Call = (
    900,
    Event::Seize {
        tid: 10,
        options: Options {
            exec: true,
            ..Options::NONE
        },
    },
);

pub(super) const SEIZE_EXIT: Call = (
    900,
    Event::Seize {
        tid: 10,
        options: Options {
            exit: true,
            ..Options::NONE
        },
    },
);

pub(super) const SEIZE_OTHER: Call = (
    900,
    Event::Seize {
        tid: 11,
        options: Options {
            exit: true,
            ..Options::NONE
        },
    },
);

const SET_OPTIONS: Call = (
    900,
    Event::SetOptions {
        tid: 10,
        options: Options::NONE,
    },
);

const INTERRUPT: Call = (900, Event::Interrupt { tid: 10 });

const CONT: Call = (900, Event::Cont { tid: 10, sig: 0 });

const CONT_STOP: Call = (900, Event::Cont { tid: 10, sig: 19 });

const CONT_TERM: Call = (900, Event::Cont { tid: 10, sig: 15 });

const LISTEN: Call = (900, Event::Listen { tid: 10 });

const KILL_USR1: Call = (901, Event::Kill { tgid: 10, sig: 10 });

const KILL_STOP: Call = (901, Event::Kill { tgid: 10, sig: 19 });

const KILL_CONT: Call = (901, Event::Kill { tgid: 10, sig: 18 });

const KILL_TERM: Call = (901, Event::Kill { tgid: 10, sig: 15 });

pub(super) const TAKE: Call = (10, Event::Take { tid: 10 });

const HALT: Call = (10, Event::Halt { tid: 10 });

const TRAP: Call = (10, Event::Trap { tid: 10 });

const OTHER_TRAP: Call = (11, Event::Trap { tid: 11 });

const PAUSE: Call = (10, Event::Pause { tid: 10 });

pub(super) const CLONE_THREAD: Call = (10, Event::CloneThread { tid: 10 });

const EXEC: Call = (10, Event::Exec { tid: 10 });

const OTHER_EXEC: Call = (11, Event::Exec { tid: 11 });

pub(super) const OTHER_DIE: Call = (11, Event::Die { tid: 11 });

const FINISH: Call = (10, Event::Finish { tid: 10 });

pub(super) const EXIT: Call = (10, Event::Exit { tid: 10, code: 3 });

pub(super) const EXIT_GROUP: Call = (10, Event::ExitGroup { tid: 10, code: 3 });

pub(super) const DIE: Call = (10, Event::Die { tid: 10 });

/// Nobody traces the group, and some thread of it isn't dead.
pub(super) const UNTRACED: [Case; 7] = [
    (State::Free, &[]),
    (State::Pausing, &[PAUSE]),
    (State::Stopped, &[KILL_STOP, TAKE, HALT]),
    (State::Leaving, &[EXIT]),
    (State::Leaving, &[CLONE_THREAD, OTHER_EXEC]),
    (State::Dead, &[CLONE_THREAD, EXIT, DIE]),
    (State::Execing, &[CLONE_THREAD, EXEC]),
];

/// 900 traces thread 10, whose group isn't dying. Each way into a ptrace-stop is there.
pub(super) const TRACED: [Traced; 20] = [
    (State::Free, &[SEIZE], State::Free),
    (State::Pausing, &[SEIZE, PAUSE], State::Pausing),
    (State::SignalStop, &[SEIZE, KILL_USR1, TAKE], State::Free),
    // The SIGTRAP of execve(2).
    (
        State::SignalStop,
        &[ATTACH, TAKE, SET_OPTIONS, CONT, EXEC, TAKE],
        State::Leaving,
    ),
    (
        State::GroupStop,
        &[ATTACH, TAKE, SET_OPTIONS, CONT_STOP, HALT],
        State::Stopped,
    ),
    (
        State::GroupStop,
        &[KILL_STOP, TAKE, HALT, ATTACH, SET_OPTIONS],
        State::Stopped,
    ),
    (
        State::CloneStop,
        &[SEIZE_CLONE, CLONE_THREAD, OTHER_TRAP],
        State::Free,
    ),
    (State::ExecStop, &[SEIZE_EXEC, EXEC], State::Free),
    (
        State::ExecStop,
        &[CLONE_THREAD, SEIZE_EXEC, EXEC, OTHER_DIE, FINISH],
        State::Free,
    ),
    (State::ExitStop, &[SEIZE_EXIT, EXIT], State::Leaving),
    // Another thread's execve(2) ends this one.
    (
        State::ExitStop,
        &[CLONE_THREAD, SEIZE_EXIT, OTHER_EXEC, DIE],
        State::Leaving,
    ),
    (State::EventStop, &[SEIZE, INTERRUPT, TRAP], State::Free),
    (State::EventStop, &[SEIZE, KILL_CONT, TRAP], State::Free),
    (
        State::EventStop,
        &[SEIZE, KILL_STOP, TAKE, CONT_STOP, HALT],
        State::Stopped,
    ),
    (
        State::EventStop,
        &[KILL_STOP, TAKE, HALT, SEIZE],
        State::Stopped,
    ),
    (
        State::Listening,
        &[SEIZE, INTERRUPT, TRAP, LISTEN],
        State::Free,
    ),
    (
        State::Listening,
        &[SEIZE, KILL_STOP, TAKE, CONT_STOP, HALT, LISTEN],
        State::Stopped,
    ),
    (State::Leaving, &[SEIZE, EXIT], State::Leaving),
    (State::Leaving, &[SEIZE_EXIT, EXIT, CONT], State::Leaving),
    (State::Execing, &[SEIZE, CLONE_THREAD, EXEC], State::Execing),
];

/// 900 traces thread 10, whose group is dying.
pub(super) const DYING: [Dying; 4] = [
    (State::Leaving, &[SEIZE_EXIT, EXIT_GROUP], 0x300),
    (State::ExitStop, &[SEIZE_EXIT, EXIT_GROUP, DIE], 0x300),
    (
        State::Leaving,
        &[SEIZE_EXIT, KILL_TERM, TAKE, CONT_TERM],
        15,
    ),
    (
        State::ExitStop,
        &[SEIZE_EXIT, KILL_TERM, TAKE, CONT_TERM, DIE],
        15,
    ),
];

fn state_in_stop(stop: &Stop) -> State {
    match stop {
        Stop::Signal { .. } => State::SignalStop,
        Stop::Group(_) => State::GroupStop,
        Stop::Clone(_) => State::CloneStop,
        Stop::Exec(_) => State::ExecStop,
        Stop::Exit(_) => State::ExitStop,
        Stop::Event(_) => State::EventStop,
    }
}

fn state_of(thread: &Thread) -> State {
    match &thread.life {
        Life::Free if thread.pausing => State::Pausing,
        Life::Free => State::Free,
        Life::Stopped => State::Stopped,
        Life::InStop(stop) => state_in_stop(stop),
        Life::Listening => State::Listening,
        Life::Leaving { .. } => State::Leaving,
        Life::Dead(_) => State::Dead,
        Life::Execing => State::Execing,
    }
}

fn leader_state(kernel: &Kernel) -> Option<State> {
    Some(state_of(kernel.table().find(10)?))
}

/// That thread 10 is in this state.
pub(super) fn is_in(rt: &impl Abort, kernel: &Kernel, want: State) {
    same(rt, &leader_state(kernel), &Some(want));
}

/// Whether some thread is traced.
pub(super) fn some_traced(kernel: &Kernel) -> bool {
    kernel.table().threads().iter().any(|t| t.is_traced())
}

/// Whether some thread is in a ptrace-stop, or was restarted from one by `PTRACE_LISTEN`.
pub(super) fn some_in_stop(kernel: &Kernel) -> bool {
    let threads = kernel.table().threads();
    threads.iter().any(|t| t.life.is_in_stop() || matches!(t.life, Life::Listening))
}

/// Whether some thread is stopped by a group-stop, untraced.
pub(super) fn some_stopped(kernel: &Kernel) -> bool {
    kernel.table().threads().iter().any(|t| t.life.is_stopped())
}

/// The number of the instance that thread 10 holds, 0 where it holds none.
pub(super) fn held(kernel: &Kernel) -> u64 {
    match kernel.table().find(10) {
        Some(thread) => thread.life.held().map_or(0, |i| i.n),
        None => 0,
    }
}

/// The event, with or without `PTRACE_O_EXITKILL` where it sets options.
fn with_exitkill(event: &Event, exitkill: bool) -> Event {
    match *event {
        Event::Seize { tid, options } => Event::Seize {
            tid,
            options: Options {
                exitkill,
                ..options
            },
        },
        Event::SetOptions { tid, options } => Event::SetOptions {
            tid,
            options: Options {
                exitkill,
                ..options
            },
        },
        other => other,
    }
}

/// Makes the calls. An error where one is refused.
fn play(kernel: &mut Kernel, calls: &[Call], exitkill: bool) -> Result<(), Fail> {
    for call in calls {
        if kernel
            .step(call.0, with_exitkill(&call.1, exitkill))
            .is_err()
        {
            return Err(Fail::from("a call of a case"));
        }
    }
    Ok(())
}

/// A kernel after the calls.
pub(super) fn after(rt: &HostRuntime, calls: &[Call], exitkill: bool) -> Result<Kernel, Fail> {
    let mut kernel = kernel(rt, 100)?;
    play(&mut kernel, calls, exitkill)?;
    Ok(kernel)
}

/// Threads 10 and 11 die if they leave.
pub(super) fn all_die(kernel: &mut Kernel) {
    let _leader = kernel.step(10, Event::Die { tid: 10 });
    let _other = kernel.step(11, Event::Die { tid: 11 });
}

fn word_of(reply: &Result<Reply, Refusal>) -> Option<u32> {
    match reply {
        Ok(Reply::Waited { word, .. }) => Some(*word),
        _ => None,
    }
}

/// The word that a wait of the tracer gives for a thread.
pub(super) fn tracer_word(kernel: &mut Kernel, id: u32) -> Option<u32> {
    let which = Which::One(id);
    word_of(&kernel.step(900, Event::Wait { which }))
}

/// The word that a wait of the starter gives.
pub(super) fn starter_word(kernel: &mut Kernel) -> Option<u32> {
    let which = Which::Any;
    let flags = WaitFlags {
        untraced: false,
        continued: false,
    };
    word_of(&kernel.step(1, Event::StarterWait { which, flags }))
}
