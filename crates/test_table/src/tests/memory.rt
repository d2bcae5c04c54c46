use super::*;

/// The table of `open`, made again where memory was refused the first time.
fn opened_at_last(alloc: Global) -> Result<Table, Fail> {
    let usr1 = signal(10)?;
    match open(alloc, usr1) {
        Ok(table) => Ok(table),
        Err(_) => opened(alloc),
    }
}

fn send_twenty(rt: &impl Abort, table: &mut Table) -> Result<(), Fail> {
    for n in 0..20 {
        if table.reserve(1).is_err() {
            same(rt, &(table.accepted(), table.queued()), &(n, n as usize));
        }
        send(table, 34, OWN)?;
    }
    same(rt, &table.queue_len(OWN), &20);
    Ok(())
}

/// The same whichever allocation fails: `rt try --test --fail-alloc 1..`.
#[test]
fn a_refused_place_leaves_what_waits(rt: HostRuntime) -> Result<(), Fail> {
    send_twenty(&rt, &mut opened_at_last(rt.alloc())?)
}

/// Adds a thread, again where memory was refused the first time.
fn add(rt: &impl Abort, table: &mut Table, child: &Thread) -> Result<(), Fail> {
    if add_new(table, child).is_err() {
        assert!(rt; table.find(child.id).is_none());
        add_new(table, child)?;
    }
    Ok(())
}

fn add_twenty(rt: &impl Abort, table: &mut Table) -> Result<(), Fail> {
    let mut child = *thread(table, 101)?;
    for id in 102..122 {
        child.id = id;
        add(rt, table, &child)?;
    }
    same(
        rt,
        &(table.member_count(100), table.thread_count()),
        &(22, 23),
    );
    Ok(())
}

/// The same whichever allocation fails.
#[test]
fn a_refused_thread_leaves_the_others(rt: HostRuntime) -> Result<(), Fail> {
    add_twenty(&rt, &mut opened_at_last(rt.alloc())?)
}
