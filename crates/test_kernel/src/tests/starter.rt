use super::{expect_answer, item, opened};
use std::process::Abort;
use std::test::Fail;
use tr_kernel::Kernel;
use tr_model::{Event, Refusal, Reply};
use tr_sigset::SigSet;
use tr_starts::{GroupStart, Items, Start};
use tr_wait::{WaitFlags, Which};

// Waits of the starter for one group of many, and for any.

fn group(rt: &HostRuntime, tgid: u32) -> Result<GroupStart, Fail> {
    Ok(GroupStart {
        tgid,
        name: item(rt, b'd')?,
        actions: Items::new(rt.alloc()),
        threads: item(rt, (tgid, SigSet::empty()))?,
    })
}

/// Groups 10, 20 and so on to 160, each of its leader alone.
fn sixteen(rt: &HostRuntime) -> Result<Kernel, Fail> {
    let mut groups = Items::new(rt.alloc());
    for n in 1..17 {
        groups.push(group(rt, n * 10)?)?;
    }
    let start = Start {
        groups,
        limit: 4,
        entries: 100,
    };
    opened(rt, start)
}

/// That a wait of the starter for stopped groups, continued ones and deaths is answered so.
fn waits(rt: &impl Abort, kernel: &mut Kernel, which: Which, want: &Result<Reply, Refusal>) {
    let flags = WaitFlags {
        untraced: true,
        continued: true,
    };
    expect_answer(rt, kernel, 1, &Event::StarterWait { which, flags }, want);
}

const NOTHING: Result<Reply, Refusal> = Ok(Reply::Nothing);

fn waited(id: u32, word: u32, report: u64) -> Result<Reply, Refusal> {
    Ok(Reply::Waited { id, word, report })
}

/// The group stops.
fn stop(kernel: &mut Kernel, tgid: u32) {
    let _sent = kernel.step(900, Event::Kill { tgid, sig: 19 });
    let _taken = kernel.step(tgid, Event::Take { tid: tgid });
    let _halted = kernel.step(tgid, Event::Halt { tid: tgid });
}

/// The group ends with the code 3.
fn end(kernel: &mut Kernel, tgid: u32) {
    let _left = kernel.step(tgid, Event::Exit { tid: tgid, code: 3 });
    let _died = kernel.step(tgid, Event::Die { tid: tgid });
}

/// A stop is told once, and so is a continue, of the group that is asked for alone.
#[test]
fn notes_of_one_group_are_told(rt: HostRuntime) -> Result<(), Fail> {
    let mut kernel = sixteen(&rt)?;
    let seventh = Which::One(70);
    waits(&rt, &mut kernel, seventh, &NOTHING);
    stop(&mut kernel, 70);
    waits(&rt, &mut kernel, Which::One(60), &NOTHING);
    waits(&rt, &mut kernel, seventh, &waited(70, 0x137f, 1));
    waits(&rt, &mut kernel, seventh, &NOTHING);
    let _continued = kernel.step(900, Event::Kill { tgid: 70, sig: 18 });
    waits(&rt, &mut kernel, Which::One(60), &NOTHING);
    waits(&rt, &mut kernel, Which::Any, &waited(70, 0xffff, 2));
    waits(&rt, &mut kernel, Which::Any, &NOTHING);
    Ok(())
}

/// A wait for any takes the groups in table order; a group whose death is told is gone.
#[test]
fn deaths_and_notes_are_told_in_table_order(rt: HostRuntime) -> Result<(), Fail> {
    let mut kernel = sixteen(&rt)?;
    end(&mut kernel, 90);
    stop(&mut kernel, 30);
    end(&mut kernel, 50);
    waits(&rt, &mut kernel, Which::One(90), &waited(90, 0x300, 1));
    waits(&rt, &mut kernel, Which::One(90), &Err(Refusal::Child));
    waits(&rt, &mut kernel, Which::Any, &waited(30, 0x137f, 2));
    waits(&rt, &mut kernel, Which::Any, &waited(50, 0x300, 3));
    waits(&rt, &mut kernel, Which::Any, &NOTHING);
    waits(&rt, &mut kernel, Which::One(50), &Err(Refusal::Child));
    Ok(())
}
