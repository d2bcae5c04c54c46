use super::*;
use tr_tracee::{Options, Stop, Trace};

// What happens to all threads of a group, and to no other.

/// A thread of the group with this life, that nobody traces.
fn with_life(id: u32, group: u32, life: Life) -> Thread {
    Thread {
        id,
        group,
        mask: SigSet::empty(),
        pausing: false,
        life,
        trace: None,
        stop_mark: false,
        trap_mark: false,
        note_mark: false,
        joined: false,
        report: None,
    }
}

/// One that 1 seized.
fn seized(id: u32, group: u32, life: Life, exit: bool) -> Thread {
    let trace = Trace {
        tracer: 1,
        seized: true,
        options: Options {
            exit,
            ..Options::NONE
        },
    };
    Thread {
        trace: Some(trace),
        ..with_life(id, group, life)
    }
}

/// A signal-delivery-stop that holds the instance of this number.
fn delivery_stop(n: u64, number: u8) -> Result<Life, Fail> {
    let held = Instance {
        n,
        sig: signal(number)?,
        info: INFO,
    };
    Ok(Life::InStop(Stop::Signal {
        held,
        cont_came: false,
    }))
}

/// The two groups, with these threads more.
fn with_threads(alloc: Global, threads: &[Thread]) -> Result<Table, Fail> {
    let mut table = opened(alloc)?;
    for thread in threads {
        add_new(&mut table, thread)?;
    }
    Ok(table)
}

#[test]
fn a_group_stop_marks_the_live_of_one_group(rt: HostRuntime) -> Result<(), Fail> {
    let leaving = Life::Leaving {
        end: End::Exited(0),
        told: false,
    };
    let mut part = with_life(103, 100, Life::Stopped);
    part.joined = true;
    let threads = [
        seized(102, 100, Life::Listening, false),
        part,
        with_life(104, 100, leaving),
        with_life(105, 100, Life::Dead(End::Exited(0))),
    ];
    let mut table = with_threads(rt.alloc(), &threads)?;
    table.change_members(100, &ThreadChange::Mark);
    for thread in table.threads() {
        let want = matches!(thread.id, 100 | 101 | 102);
        assert!(rt; thread.stop_mark == want, "of {}", thread.id);
    }
    Ok(())
}

/// That the thread has this record.
fn is_now(rt: &impl Abort, table: &Table, want: &Thread) -> Result<(), Fail> {
    same(rt, thread(table, want.id)?, want);
    Ok(())
}

/// A thread that listens, one that is stopped and one that is to stop in group 100, and a stopped one in group 200: before a
/// SIGCONT to group 100, or noted after it, and where it continues the group, continued.
fn threads_at_cont(noted: bool, continued: bool) -> [Thread; 4] {
    let mut listening = seized(102, 100, Life::Listening, false);
    listening.joined = !continued;
    listening.note_mark = noted;
    let life = if continued { Life::Free } else { Life::Stopped };
    let mut stopped = with_life(103, 100, life);
    stopped.joined = !continued;
    let mut marked = with_life(104, 100, Life::Free);
    marked.stop_mark = !continued;
    let mut other = seized(201, 200, Life::Stopped, false);
    other.joined = true;
    [listening, other, stopped, marked]
}

/// SIGCONT continues a stopped group, and each live seized thread is to stop since it came, one that listens too.
#[test]
fn a_cont_notes_and_continues(rt: HostRuntime) -> Result<(), Fail> {
    for in_effect in [true, false] {
        let threads = threads_at_cont(false, false);
        let mut table = with_threads(rt.alloc(), &threads)?;
        table.change_members(100, &ThreadChange::Continue(in_effect));
        for want in threads_at_cont(true, in_effect) {
            is_now(&rt, &table, &want)?;
        }
    }
    Ok(())
}

#[test]
fn a_cont_is_noted_at_a_signal_delivery_stop(rt: HostRuntime) -> Result<(), Fail> {
    let threads = [
        seized(102, 100, delivery_stop(7, 10)?, false),
        seized(201, 200, delivery_stop(8, 10)?, false),
    ];
    let mut table = with_threads(rt.alloc(), &threads)?;
    table.change_members(100, &ThreadChange::Continue(false));
    same(&rt, &thread(&table, 102)?.life.cont_came(), &true);
    same(&rt, &thread(&table, 201)?.life.cont_came(), &false);
    Ok(())
}

/// What each thread of group 100 held is given, as it leaves.
#[tactic(auto, using(tr_table::proofs::Helds::few_of_all))]
fn leave(table: &mut Table, change: &ThreadChange, alloc: Global) -> Result<Vec<Ending>, Fail> {
    let mut ended = Vec::with_capacity(alloc, table.thread_count())?;
    table.change_and_flush(100, change, &mut ended);
    Ok(ended)
}

fn lives(rt: &impl Abort, table: &Table, want: &[(u32, Life)]) -> Result<(), Fail> {
    for (id, life) in want {
        same(rt, &thread(table, *id)?.life, life);
    }
    Ok(())
}

/// Each begins to leave, with an exit stop before it where its tracer asks for that and KILL didn't do it; what the
/// stops of the group held is flushed, in table order.
#[test]
fn a_group_dies(rt: HostRuntime) -> Result<(), Fail> {
    for kill in [true, false] {
        let dead = Life::Dead(End::Exited(1));
        let threads = [
            seized(102, 100, delivery_stop(7, 10)?, true),
            seized(201, 200, delivery_stop(8, 10)?, true),
            seized(103, 100, Life::Free, true),
            seized(104, 100, delivery_stop(5, 12)?, false),
            with_life(105, 100, dead),
        ];
        let mut table = with_threads(rt.alloc(), &threads)?;
        let end = End::Exited(3);
        let change = ThreadChange::BeginToLeave(kill, end);
        let ended = leave(&mut table, &change, rt.alloc())?;
        assert!(rt; are_flushed(&ended, &[7, 5]));
        let stops = Life::Leaving { end, told: kill };
        let ends = Life::Leaving { end, told: true };
        let stays = delivery_stop(8, 10)?;
        let want = [
            (102, stops),
            (201, stays),
            (103, stops),
            (104, ends),
            (105, dead),
        ];
        lives(&rt, &table, &want)?;
    }
    Ok(())
}

/// After an execve(2) of thread 101 each other thread of its group begins to leave, one that leaves already with its own
/// end; what their stops held is flushed, in table order.
#[test]
fn an_exec_ends_the_others(rt: HostRuntime) -> Result<(), Fail> {
    let dead = Life::Dead(End::Exited(1));
    let own = End::Exited(2);
    let threads = [
        seized(102, 100, delivery_stop(7, 10)?, true),
        seized(201, 200, delivery_stop(8, 10)?, true),
        seized(
            103,
            100,
            Life::Leaving {
                end: own,
                told: false,
            },
            false,
        ),
        seized(104, 100, delivery_stop(5, 12)?, false),
        with_life(105, 100, dead),
    ];
    let mut table = with_threads(rt.alloc(), &threads)?;
    let end = End::Exited(0);
    let change = ThreadChange::LeaveForExec(101, end);
    let ended = leave(&mut table, &change, rt.alloc())?;
    assert!(rt; are_flushed(&ended, &[7, 5]));
    let want = [
        (100, Life::Leaving { end, told: true }),
        (101, Life::Free),
        (102, Life::Leaving { end, told: false }),
        (201, delivery_stop(8, 10)?),
        (
            103,
            Life::Leaving {
                end: own,
                told: true,
            },
        ),
        (104, Life::Leaving { end, told: true }),
        (105, dead),
    ];
    lives(&rt, &table, &want)
}
