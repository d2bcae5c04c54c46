use super::{same, same_of, signal};
use std::process::Abort;
use std::test::Fail;
use tr_pending::{Info, Instance, Put, Queue};
use tr_sigset::SigSet;

fn set_of(number: u8) -> Result<SigSet, Fail> {
    Ok(SigSet::empty().with(signal(number)?))
}

fn instance(n: u64, number: u8) -> Result<Instance, Fail> {
    let info = Info {
        code: 0,
        pid: 100,
        value: 0,
    };
    Ok(Instance {
        n,
        sig: signal(number)?,
        info,
    })
}

fn reserve_and_put(queue: &mut Queue, instance: Instance) -> Result<Put, Fail> {
    queue.reserve_one()?;
    Ok(queue.put(instance))
}

/// A USR1, which another merges with, and two of signal 34.
fn with_three(rt: &(impl AllocGlobal + Abort)) -> Result<Queue, Fail> {
    let mut queue = Queue::new(rt.alloc());
    assert!(rt; queue.is_empty());
    let puts = [
        (1, 10, Put::Queued),
        (2, 10, Put::Merged),
        (3, 34, Put::Queued),
        (4, 34, Put::Queued),
    ];
    for (n, number, want) in puts {
        let put = reserve_and_put(&mut queue, instance(n, number)?)?;
        same_of(rt, &put, &want, &n);
    }
    Ok(queue)
}

#[test]
fn standard_signals_merge_and_real_time_signals_queue(rt: HostRuntime) -> Result<(), Fail> {
    let queue = with_three(&rt)?;
    same(&rt, &queue.len(), &3);
    same(&rt, &queue.best(SigSet::empty()), &Some(instance(1, 10)?));
    same(&rt, &queue.best(set_of(10)?), &Some(instance(3, 34)?));
    Ok(())
}

#[test]
fn the_first_of_a_signal_is_taken_and_a_set_flushed(rt: HostRuntime) -> Result<(), Fail> {
    let mut queue = with_three(&rt)?;
    same(&rt, &queue.take_sig(signal(34)?), &Some(instance(3, 34)?));
    let mut gone = Vec::with_capacity(rt.alloc(), queue.len())?;
    same(&rt, &queue.flush(set_of(10)?, &mut gone), &1);
    same(&rt, &gone.as_slice(), &[1].as_slice());
    same(&rt, &queue.mask(), &set_of(34)?);
    same(&rt, &queue.best(set_of(34)?), &None);
    Ok(())
}

/// The same whichever allocation fails: `rt try --test --fail-alloc 1..`.
#[test]
fn a_refused_place_leaves_the_queue_as_it_was(rt: HostRuntime) -> Result<(), Fail> {
    let mut queue = Queue::new(rt.alloc());
    for n in 0..40 {
        let first = queue.best(SigSet::empty());
        let mask = queue.mask();
        if queue.reserve_one().is_err() {
            same(&rt, &(queue.len() as u64), &n);
            same(&rt, &queue.best(SigSet::empty()), &first);
            same(&rt, &queue.mask(), &mask);
            queue.reserve_one()?;
        }
        same(&rt, &queue.put(instance(n, 34)?), &Put::Queued);
    }
    same(&rt, &queue.len(), &40);
    same(&rt, &queue.take_sig(signal(34)?), &Some(instance(0, 34)?));
    Ok(())
}
