use super::*;

#[test]
fn signals_wait(rt: HostRuntime) -> Result<(), Fail> {
    let table = with_four(rt.alloc())?;
    same(&rt, &(table.accepted(), table.queued()), &(4, 4));
    same(
        &rt,
        &(table.queue_len(SHARED), table.queue_len(OWN)),
        &(3, 1),
    );
    Ok(())
}

#[test]
fn the_best_is_the_least_that_is_open(rt: HostRuntime) -> Result<(), Fail> {
    let table = with_four(rt.alloc())?;
    let none = SigSet::empty();
    let usr1 = none.with(signal(10)?);
    same(&rt, &best(&table, SHARED, none), &(3, 10, 1));
    same(&rt, &best(&table, SHARED, usr1), &(1, 34, 1));
    same(&rt, &best(&table, OWN, none), &(4, 34, 1));
    same(&rt, &best(&table, Target::Thread(100), none), &(0, 0, 0));
    Ok(())
}

/// The number of the one instance that ended, and whether it was delivered.
fn one_end(ended: &[Ending]) -> Result<(u64, bool), Fail> {
    let [end] = ended else {
        return Err("not one instance ended")?;
    };
    Ok((end.number, end.fate == Fate::Delivered))
}

#[test]
fn a_delivered_instance_waits_no_more(rt: HostRuntime) -> Result<(), Fail> {
    let mut table = with_four(rt.alloc())?;
    let mut ended = Vec::with_capacity(rt.alloc(), table.queued())?;
    table.deliver(1, &mut ended);
    same(&rt, &one_end(ended.as_slice())?, &(1, true));
    let usr1 = SigSet::empty().with(signal(10)?);
    same(&rt, &best(&table, SHARED, usr1), &(2, 34, 1));
    Ok(())
}

#[test]
fn a_flush_is_of_all_queues_of_the_group(rt: HostRuntime) -> Result<(), Fail> {
    let mut table = with_four(rt.alloc())?;
    let mut ended = Vec::with_capacity(rt.alloc(), table.queued())?;
    let real_time = Flush::One(signal(34)?);
    table.flush(100, &real_time, &mut ended);
    assert!(rt; are_flushed(ended.as_slice(), &[1, 2, 4]));
    table.pull(3);
    same(&rt, &(table.accepted(), table.queued()), &(4, 0));
    Ok(())
}
