use super::*;

/// 5,000 of signal 35 for thread 101 and as many of 34 for its group, in turn.
fn with_ten_thousand(alloc: Global) -> Result<Table, Fail> {
    let mut table = opened(alloc)?;
    for _ in 0..5_000 {
        send(&mut table, 35, OWN)?;
        send(&mut table, 34, SHARED)?;
    }
    Ok(table)
}

#[test]
fn ten_thousand_are_taken_in_order_of_acceptance(rt: HostRuntime) -> Result<(), Fail> {
    let mut table = with_ten_thousand(rt.alloc())?;
    for i in 0..5_000 {
        let own = told(table.take_sig(OWN, signal(35)?));
        same(&rt, &own, &(2 * i + 1, 35, 1));
        let shared = told(table.take_sig(SHARED, signal(34)?));
        same(&rt, &shared, &(2 * i + 2, 34, 1));
    }
    same(&rt, &table.queued(), &0);
    Ok(())
}

#[test]
fn of_ten_thousand_the_least_signal_comes_first(rt: HostRuntime) -> Result<(), Fail> {
    let mut table = with_ten_thousand(rt.alloc())?;
    send(&mut table, 10, SHARED)?;
    let none = SigSet::empty();
    same(&rt, &best(&table, SHARED, none), &(10_001, 10, 1));
    table.pull(10_001);
    same(&rt, &best(&table, SHARED, none), &(2, 34, 1));
    same(&rt, &best(&table, OWN, none), &(1, 35, 1));
    table.pull(3);
    same(&rt, &best(&table, OWN, none), &(1, 35, 1));
    table.pull(1);
    same(&rt, &best(&table, OWN, none), &(5, 35, 1));
    same(
        &rt,
        &(table.queue_len(OWN), table.queue_len(SHARED)),
        &(4_998, 5_000),
    );
    Ok(())
}

#[test]
fn a_flush_is_of_one_signal_among_ten_thousand(rt: HostRuntime) -> Result<(), Fail> {
    let mut table = with_ten_thousand(rt.alloc())?;
    send(&mut table, 20, SHARED)?;
    let mut ended = Vec::with_capacity(rt.alloc(), table.queued())?;
    table.flush(100, &Flush::Stops, &mut ended);
    assert!(rt; are_flushed(ended.as_slice(), &[10_001]));
    same(&rt, &table.is_waiting(SHARED, signal(20)?), &false);
    same(&rt, &table.queued(), &10_000);
    Ok(())
}

#[test]
fn places_are_used_again(rt: HostRuntime) -> Result<(), Fail> {
    let mut table = with_four(rt.alloc())?;
    table.pull(1);
    table.pull(3);
    table.pull(2);
    for i in 0..90 {
        send(&mut table, 10, SHARED)?;
        same(&rt, &best(&table, SHARED, SigSet::empty()), &(i + 5, 10, 1));
        table.pull(i + 5);
    }
    same(&rt, &best(&table, OWN, SigSet::empty()), &(4, 34, 1));
    same(&rt, &table.queued(), &1);
    Ok(())
}
