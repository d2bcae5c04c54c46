use super::{KILL, TAKE, kernel, same, sums_of};
use std::process::Abort;
use std::test::Fail;
use tr_kernel::Kernel;
use tr_model::{Event, Refusal};
use tr_sigset::SigSet;
use tr_wait::Which;

// What a call would be answered, and what it is answered then.

/// That a call is foreseen as it is answered then, and that nothing has changed before.
fn is_foreseen(rt: &impl Abort, kernel: &mut Kernel, actor: u32, event: Event) {
    let sums = sums_of(kernel);
    let foreseen = kernel.foresee(actor, &event);
    same(rt, &sums_of(kernel), &sums);
    same(rt, &kernel.step(actor, event), &foreseen);
}

/// Sends that wait, merge and take effect at once, a take, an attach, its stop, its waits, and refusals between them.
#[test]
fn answers_are_as_foreseen(rt: HostRuntime) -> Result<(), Fail> {
    let mut kernel = kernel(&rt, 100)?;
    let all = SigSet::from_bits(u64::MAX);
    let none = SigSet::empty();
    let queue = Event::Sigqueue {
        tgid: 10,
        sig: 40,
        value: -1,
    };
    let kill = Event::Kill { tgid: 10, sig: 9 };
    is_foreseen(&rt, &mut kernel, 10, Event::Mask { tid: 10, set: all });
    is_foreseen(&rt, &mut kernel, 900, KILL);
    is_foreseen(&rt, &mut kernel, 900, KILL);
    is_foreseen(&rt, &mut kernel, 900, queue);
    is_foreseen(&rt, &mut kernel, 10, TAKE);
    is_foreseen(&rt, &mut kernel, 10, Event::Mask { tid: 10, set: none });
    is_foreseen(&rt, &mut kernel, 10, TAKE);
    is_foreseen(&rt, &mut kernel, 900, Event::Attach { tid: 10 });
    is_foreseen(&rt, &mut kernel, 10, TAKE);
    is_foreseen(&rt, &mut kernel, 900, Event::Wait { which: Which::Any });
    is_foreseen(&rt, &mut kernel, 900, Event::Wait { which: Which::Any });
    is_foreseen(&rt, &mut kernel, 900, Event::SignalInfo { tid: 10 });
    is_foreseen(&rt, &mut kernel, 900, Event::Cont { tid: 10, sig: 0 });
    is_foreseen(&rt, &mut kernel, 10, Event::CloneThread { tid: 10 });
    is_foreseen(&rt, &mut kernel, 901, kill);
    is_foreseen(&rt, &mut kernel, 10, Event::Die { tid: 10 });
    Ok(())
}

#[test]
fn a_full_journal_is_foreseen(rt: HostRuntime) -> Result<(), Fail> {
    let mut kernel = kernel(&rt, 1)?;
    is_foreseen(&rt, &mut kernel, 900, KILL);
    same(&rt, &kernel.foresee(900, &KILL), &Err(Refusal::JournalFull));
    is_foreseen(&rt, &mut kernel, 900, KILL);
    is_foreseen(&rt, &mut kernel, 900, Event::Kill { tgid: 11, sig: 10 });
    is_foreseen(&rt, &mut kernel, 900, Event::Kill { tgid: 10, sig: 0 });
    Ok(())
}
