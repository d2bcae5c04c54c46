use super::*;
use tr_tracee::{Options, Trace};

/// A group of one thread.
pub(super) fn alone(alloc: Global, tgid: u32) -> Result<GroupStart, AllocError> {
    Ok(GroupStart {
        tgid,
        name: Items::from_vec(Vec::from_slice(alloc, b"many")?),
        actions: Items::new(alloc),
        threads: Items::from_vec(Vec::from_slice(alloc, &[(tgid, SigSet::empty())])?),
    })
}

/// The groups 1000, 2000 and so on to 16000, each of its leader alone.
pub(super) fn sixteen(alloc: Global) -> Result<Table, AllocError> {
    let mut groups = Items::new(alloc);
    for n in 1..17 {
        groups.push(alone(alloc, n * 1000)?)?;
    }
    let start = Start {
        groups,
        limit: 8,
        entries: 9,
    };
    if !start.is_good() {
        return Err(AllocError);
    }
    Table::open(&start, alloc)
}

/// A thousand threads in those groups, which stand by turns in the table.
pub(super) fn thousand(alloc: Global) -> Result<Table, Fail> {
    let mut table = sixteen(alloc)?;
    for i in 1..63 {
        for n in 1..17 {
            if table.thread_count() < 1000 {
                let mut child = *thread(&table, n * 1000)?;
                child.id = n * 1000 + i;
                add_new(&mut table, &child)?;
            }
        }
    }
    Ok(table)
}

/// That the threads stand in order, but for the one that is gone.
fn stand_in_order(rt: &impl Abort, table: &Table, gone: u32) -> Result<(), Fail> {
    let mut threads = table.threads().iter();
    for i in 0..63 {
        for n in 1..17 {
            let id = n * 1000 + i;
            if id != gone && (i < 62 || n < 9) {
                same(rt, &thread(table, id)?.id, &id);
                let next = threads.next().ok_or("too few threads")?;
                same(rt, &next.id, &id);
            }
        }
    }
    assert!(rt; threads.next().is_none());
    Ok(())
}

#[test]
fn a_thousand_threads_in_sixteen_groups(rt: HostRuntime) -> Result<(), Fail> {
    let mut table = thousand(rt.alloc())?;
    same(&rt, &table.thread_count(), &1000);
    assert!(rt; table.remove(7030));
    assert!(rt; table.find(7030).is_none());
    stand_in_order(&rt, &table, 7030)?;
    for n in 1..17 {
        let all = if n < 9 { 63 } else { 62 };
        let left = if n == 7 { all - 1 } else { all };
        same(&rt, &table.member_count(n * 1000), &left);
    }
    Ok(())
}

/// Each question is answered for its group alone.
#[test]
fn sixteen_groups_answer_apart(rt: HostRuntime) -> Result<(), Fail> {
    let mut table = thousand(rt.alloc())?;
    let trace = Trace {
        tracer: 9,
        seized: true,
        options: Options::NONE,
    };
    table.change_members(3000, &ThreadChange::Mark);
    table.change_thread(5061, &ThreadChange::TraceBy(trace));
    for i in 0..62 {
        kill_thread(&mut table, 12000 + i);
    }
    for n in 1..17 {
        let tgid = n * 1000;
        same(&rt, &table.has_stop_mark(tgid), &(n == 3));
        same(&rt, &table.has_traced(tgid), &(n == 5));
        same(&rt, &table.all_dead(tgid), &(n == 12));
        same(&rt, &table.has_live(tgid), &(n != 12));
    }
    table.change_thread(5061, &ThreadChange::Detach(false));
    assert!(rt; !table.has_traced(5000));
    Ok(())
}

#[test]
fn sixty_four_clones_die_one_by_one(rt: HostRuntime) -> Result<(), Fail> {
    let mut table = opened(rt.alloc())?;
    let mut child = *thread(&table, 101)?;
    for id in 102..164 {
        child.id = id;
        add_new(&mut table, &child)?;
    }
    same(&rt, &table.member_count(100), &64);
    for id in 100..164 {
        assert!(rt; !table.all_dead(100) && table.has_live(100));
        let dying = *thread(&table, id)?;
        same(&rt, &table.others_dead(&dying), &(id == 163));
        kill_thread(&mut table, id);
    }
    assert!(rt; table.all_dead(100) && !table.has_live(100));
    for id in 100..164 {
        same(&rt, &table.member_count(100), &(164 - id as usize));
        table.remove_dead(id);
    }
    same(&rt, &table.member_count(100), &0);
    Ok(())
}
