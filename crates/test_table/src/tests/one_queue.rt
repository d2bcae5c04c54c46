use super::*;
use tr_pending::Put;

fn put(table: &mut Table, target: Target, number: u8) -> Result<Put, Fail> {
    let signal = signal(number)?;
    if table.accepted() > 100 {
        Err("more signals than the tests send")?;
    }
    table.reserve(1)?;
    let instance = Instance {
        n: table.accept(),
        sig: signal,
        info: INFO,
    };
    Ok(table.put_instance(target, &instance))
}

fn is_put(
    rt: &impl Abort,
    table: &mut Table,
    target: Target,
    number: u8,
    want: Put,
) -> Result<(), Fail> {
    same(rt, &put(table, target, number)?, &want);
    Ok(())
}

fn are_put(rt: &impl Abort, table: &mut Table) -> Result<(), Fail> {
    is_put(rt, table, OWN, 10, Put::Queued)?;
    is_put(rt, table, OWN, 10, Put::Merged)?;
    is_put(rt, table, SHARED, 10, Put::Queued)?;
    is_put(rt, table, OWN, 34, Put::Queued)?;
    is_put(rt, table, OWN, 34, Put::Queued)?;
    same(rt, &table.queue_len(OWN), &3);
    Ok(())
}

#[test]
fn standard_signals_merge(rt: HostRuntime) -> Result<(), Fail> {
    are_put(&rt, &mut opened(rt.alloc())?)
}

#[test]
fn the_first_of_a_signal_is_taken(rt: HostRuntime) -> Result<(), Fail> {
    let mut table = with_four(rt.alloc())?;
    let real_time = signal(34)?;
    same(&rt, &told(table.take_sig(SHARED, real_time)), &(1, 34, 1));
    same(&rt, &told(table.take_sig(OWN, real_time)), &(4, 34, 1));
    same(&rt, &told(table.take_sig(OWN, real_time)), &(0, 0, 0));
    same(&rt, &table.queued(), &2);
    Ok(())
}

#[test]
fn a_set_is_flushed_from_one_queue(rt: HostRuntime) -> Result<(), Fail> {
    let mut table = with_four(rt.alloc())?;
    let mut gone = Vec::with_capacity(rt.alloc(), table.queued())?;
    let real_time = SigSet::empty().with(signal(34)?);
    same(&rt, &table.flush_set(SHARED, real_time, &mut gone), &2);
    same(&rt, &gone.as_slice(), &[1, 2].as_slice());
    same(
        &rt,
        &(table.queue_len(SHARED), table.queue_len(OWN)),
        &(1, 1),
    );
    Ok(())
}

#[test]
fn a_queue_is_flushed_whole(rt: HostRuntime) -> Result<(), Fail> {
    let mut table = with_four(rt.alloc())?;
    let mut ended = Vec::with_capacity(rt.alloc(), table.queued())?;
    table.flush_queue(SHARED, &mut ended);
    assert!(rt; are_flushed(ended.as_slice(), &[1, 2, 3]));
    same(
        &rt,
        &(table.queue_len(SHARED), table.queue_len(OWN)),
        &(0, 1),
    );
    Ok(())
}
