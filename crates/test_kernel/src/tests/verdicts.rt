use super::{kernel, same};
use std::process::Abort;
use std::test::Fail;
use tr_kernel::Kernel;
use tr_model::{Did, Event, Fate, Refusal, Reply};
use tr_oracle::{Told, Unheard, Verdict, compare};
use tr_pending::{Info, Instance};
use tr_sigset::{SigSet, Signal};

// What another system answered, against the model.

fn told(actor: u32, event: Event, answer: Result<Reply, Refusal>) -> Told {
    Told {
        actor,
        event,
        answer,
    }
}

/// That thread 10 masks these signals from now on.
pub(super) fn masked(set: SigSet) -> Told {
    told(10, Event::Mask { tid: 10, set }, Ok(Reply::Done))
}

/// That 901 sent a signal to the group, which waits.
pub(super) fn sent(sig: u8, n: u64) -> Told {
    let fate = Fate::Pending;
    told(
        901,
        Event::Kill { tgid: 10, sig },
        Ok(Reply::Sent { n, fate }),
    )
}

/// That thread 10 took the instance of this number, which 901 sent.
pub(super) fn took(n: u64, number: u8, did: Did) -> Result<Told, Fail> {
    let sig = Signal::new(number).ok_or("not the number of a signal")?;
    let info = Info {
        code: 0,
        pid: 901,
        value: 0,
    };
    let inst = Instance { n, sig, info };
    let reply = Reply::Took { tid: 10, inst, did };
    Ok(told(10, Event::Take { tid: 10 }, Ok(reply)))
}

/// That a comparison finds this, and leaves the kernel with so many entries.
fn is_found(
    rt: &impl Abort,
    kernel: &mut Kernel,
    answers: &[Told],
    want: &Result<Verdict, Unheard>,
    entries: usize,
) {
    same(rt, &compare(kernel, answers), want);
    same(rt, &kernel.journal().len(), &entries);
}

#[test]
fn no_answers_agree(rt: HostRuntime) -> Result<(), Fail> {
    let mut kernel = kernel(&rt, 9)?;
    is_found(&rt, &mut kernel, &[], &Ok(Verdict::Agrees), 0);
    Ok(())
}

/// USR1 and USR2 wait; the model takes the lesser number first, another system may take either.
#[test]
fn either_order_of_takes_agrees(rt: HostRuntime) -> Result<(), Fail> {
    let all = masked(SigSet::from_bits(u64::MAX));
    let none = masked(SigSet::empty());
    let usr1 = took(1, 10, Did::Caught)?;
    let usr2 = took(2, 12, Did::Dying)?;
    let agrees = Ok(Verdict::Agrees);
    let one_by_one = [all, sent(10, 1), sent(12, 2), none, usr1, usr2];
    is_found(&rt, &mut kernel(&rt, 9)?, &one_by_one, &agrees, 6);
    let the_other = [all, sent(10, 1), sent(12, 2), none, usr2];
    is_found(&rt, &mut kernel(&rt, 9)?, &the_other, &agrees, 5);
    Ok(())
}

#[test]
fn the_first_place_that_differs_is_told(rt: HostRuntime) -> Result<(), Fail> {
    let nobody = Event::Kill { tgid: 11, sig: 10 };
    let refused = told(901, nobody, Err(Refusal::Srch));
    let wrong = told(901, nobody, Err(Refusal::Perm));
    let answers = [refused, sent(10, 1), wrong, sent(10, 7)];
    let differs = Ok(Verdict::Differs(2));
    is_found(&rt, &mut kernel(&rt, 9)?, &answers, &differs, 1);
    Ok(())
}

/// The fate of a second send is wrong, and what would come after it is right.
#[test]
fn nothing_after_a_difference_is_heard(rt: HostRuntime) -> Result<(), Fail> {
    let mut kernel = kernel(&rt, 9)?;
    let answers = [sent(10, 1), sent(10, 2), sent(12, 2)];
    is_found(&rt, &mut kernel, &answers, &Ok(Verdict::Differs(1)), 1);
    is_found(&rt, &mut kernel, &[sent(12, 2)], &Ok(Verdict::Agrees), 2);
    Ok(())
}

#[test]
fn a_full_journal_has_no_verdict(rt: HostRuntime) -> Result<(), Fail> {
    let answers = [sent(10, 1), sent(12, 2)];
    let full = Err(Unheard {
        place: 1,
        why: Refusal::JournalFull,
    });
    is_found(&rt, &mut kernel(&rt, 1)?, &answers, &full, 1);
    let wrong = [sent(10, 1), sent(12, 3)];
    let differs = Ok(Verdict::Differs(1));
    is_found(&rt, &mut kernel(&rt, 1)?, &wrong, &differs, 1);
    Ok(())
}
