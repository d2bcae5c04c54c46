use super::many_threads::{sixteen, thousand};
use super::*;
use tr_model::GREATEST_ID;
use tr_tracee::{Options, Trace};
use tr_wait::Which;

// Tables that hold as much as a table can: threads, reports and queues.

/// A tracer traces a thread, which dies, and the report of its death is raised.
fn raise(table: &mut Table, id: u32, tracer: u32) -> Result<(), Fail> {
    let trace = Trace {
        tracer,
        seized: true,
        options: Options::NONE,
    };
    table.change_thread(id, &ThreadChange::TraceBy(trace));
    kill_thread(table, id);
    if table.raised() > 20_000 {
        Err("more reports than the tests raise")?;
    }
    let _raised = table.report_death(id, &End::Exited(0));
    Ok(())
}

/// A report is raised on each of a thousand threads, the last one first: 8 traces group 1000, and 9 the others.
fn raise_all(table: &mut Table) -> Result<(), Fail> {
    for at in 1..table.threads().len() + 1 {
        let left = table.threads().len().checked_sub(at);
        let place = left.ok_or("no such place")?;
        let thread = *table.threads().get(place).ok_or("no such thread")?;
        let tracer = if thread.group == 1000 { 8 } else { 9 };
        raise(table, thread.id, tracer)?;
    }
    Ok(())
}

fn next_report(table: &Table, tracer: u32) -> u32 {
    match table.reported(tracer, Which::Any, None) {
        Some(thread) => thread.id,
        None => 0,
    }
}

/// That the reports of a tracer's threads are found in table order, each once.
fn come_in_order(rt: &impl Abort, table: &mut Table, tracer: u32) -> Result<(), Fail> {
    for at in 0..table.threads().len() {
        let thread = *table.threads().get(at).ok_or("no such thread")?;
        if (thread.group == 1000) == (tracer == 8) {
            same(rt, &next_report(table, tracer), &thread.id);
            table.change_thread(thread.id, &ThreadChange::WithdrawReport);
        }
    }
    same(rt, &next_report(table, tracer), &0);
    assert!(rt; table.has_asked(tracer, Which::Any));
    Ok(())
}

/// That a tracer's tracees are lent in table order.
fn are_lent_in_order(rt: &impl Abort, table: &Table, tracer: u32) {
    let ids = table
        .threads()
        .iter()
        .filter(|t| t.is_tracee_of(tracer))
        .map(|t| t.id);
    assert!(rt; table.tracees(tracer).iter().map(|row| row.id).eq(ids));
}

fn reports_come(rt: &impl Abort, table: &mut Table) -> Result<(), Fail> {
    raise_all(table)?;
    are_lent_in_order(rt, table, 8);
    are_lent_in_order(rt, table, 9);
    come_in_order(rt, table, 9)?;
    come_in_order(rt, table, 8)?;
    assert!(rt; !table.has_asked(10, Which::Any));
    Ok(())
}

#[test]
fn reports_of_a_thousand_threads_come_in_table_order(rt: HostRuntime) -> Result<(), Fail> {
    reports_come(&rt, &mut thousand(rt.alloc())?)
}

/// The report of a number is found wherever it stands, and that of a thread that was detached isn't.
fn reports_are_found(rt: &impl Abort, table: &mut Table) -> Result<(), Fail> {
    raise_all(table)?;
    for (number, id) in [(1, 8062), (1000, 1000), (500, 5031)] {
        let found = table.reported(if id < 2000 { 8 } else { 9 }, Which::Any, Some(number));
        same(rt, &found.map(|t| t.id), &Some(id));
    }
    table.change_thread(2000, &ThreadChange::Detach(false));
    same(rt, &next_report(table, 9), &3000);
    Ok(())
}

#[test]
fn reports_are_found_by_number(rt: HostRuntime) -> Result<(), Fail> {
    reports_are_found(&rt, &mut thousand(rt.alloc())?)
}

/// Adds threads with the least free ids to the 16 groups, until each has 64.
fn fill(rt: &impl Abort, table: &mut Table) -> Result<(), Fail> {
    let mut last = 999;
    for i in 0..1008 {
        let leader = *thread(table, (i % 16 + 1) * 1000)?;
        let id = table.free_id(last);
        assert!(rt; id > last && table.find(id).is_none());
        add_new(table, &Thread { id, ..leader })?;
        last = id;
    }
    same(rt, &last, &2009);
    Ok(())
}

fn is_full(rt: &impl Abort, table: &Table) {
    same(rt, &table.thread_count(), &1024);
    for n in 1..17 {
        same(rt, &table.member_count(n * 1000), &64);
    }
}

#[test]
fn clones_fill_the_table(rt: HostRuntime) -> Result<(), Fail> {
    let mut table = sixteen(rt.alloc())?;
    fill(&rt, &mut table)?;
    is_full(&rt, &table);
    Ok(())
}

fn has_next(rt: &impl Abort, table: &Table, above: u32, want: u32) {
    same(rt, &table.free_id(above), &want);
}

#[test]
fn after_the_greatest_id_comes_the_least(rt: HostRuntime) -> Result<(), Fail> {
    let mut table = opened(rt.alloc())?;
    has_next(&rt, &table, GREATEST_ID - 1, GREATEST_ID);
    has_next(&rt, &table, GREATEST_ID, 2);
    let leader = *thread(&table, 100)?;
    let id = GREATEST_ID;
    add_new(&mut table, &Thread { id, ..leader })?;
    has_next(&rt, &table, GREATEST_ID - 1, 2);
    add_new(&mut table, &Thread { id: 2, ..leader })?;
    has_next(&rt, &table, GREATEST_ID - 1, 3);
    Ok(())
}

fn send_fifty(table: &mut Table, target: Target) -> Result<(), Fail> {
    for _ in 0..50 {
        send(table, 34, target)?;
    }
    Ok(())
}

/// What waits for thread 101 waits for the leader's id once it has the leader's place, and what waited for the leader is
/// still there before it.
fn goes_to_the_leader(rt: &impl Abort, table: &mut Table) -> Result<(), Fail> {
    send_fifty(table, OWN)?;
    kill_thread(table, 100);
    table.change_thread(101, &ThreadChange::BeginExec);
    same(rt, &table.take_place(101), &Some(100));
    assert!(rt; table.find(101).is_none());
    same(rt, &table.queue_len(OWN), &0);
    same(rt, &table.queue_len(Target::Thread(100)), &50);
    for n in 0..50 {
        let taken = told(table.take_sig(Target::Thread(100), signal(34)?));
        same(rt, &taken, &(n + 1, 34, 1));
    }
    Ok(())
}

#[test]
fn a_full_queue_goes_to_the_leaders_id(rt: HostRuntime) -> Result<(), Fail> {
    goes_to_the_leader(&rt, &mut opened(rt.alloc())?)
}

/// TSTP and USR1 wait for each of 64 threads, and TSTP for their group.
fn fill_queues(table: &mut Table) -> Result<(), Fail> {
    let child = *thread(table, 101)?;
    for id in 102..164 {
        add_new(table, &Thread { id, ..child })?;
    }
    for id in 100..164 {
        send(table, 20, Target::Thread(id))?;
        send(table, 10, Target::Thread(id))?;
    }
    send(table, 20, SHARED)
}

/// That the flushed numbers are 1, 3, 5 and so on.
fn are_odd(rt: &impl Abort, ended: &[Ending]) -> Result<(), Fail> {
    same(rt, &ended.len(), &65);
    for i in 0..65 {
        let ending = ended.get(i).ok_or("too few")?;
        same(rt, &ending.number, &(2 * i as u64 + 1));
    }
    Ok(())
}

fn is_left_usr1(rt: &impl Abort, table: &Table) {
    for id in 100..164 {
        let own = Target::Thread(id);
        same(rt, &table.queue_len(own), &1);
        same(rt, &best(table, own, SigSet::empty()).1, &10);
    }
    same(rt, &table.queue_len(SHARED), &0);
}

#[test]
fn a_flush_is_of_sixty_four_queues_and_the_shared_one(rt: HostRuntime) -> Result<(), Fail> {
    let mut table = opened(rt.alloc())?;
    fill_queues(&mut table)?;
    let mut ended = Vec::with_capacity(rt.alloc(), table.queued())?;
    table.flush(100, &Flush::Stops, &mut ended);
    are_odd(&rt, ended.as_slice())?;
    is_left_usr1(&rt, &table);
    Ok(())
}
