use super::settling::settled_note;
use super::starter::raise_report;
use super::*;
use tr_table::GroupChange;
use tr_tracee::{Options, Trace};

// That a wait of the starter goes from one group that has something to tell to the next: a clause says only that it passes
// none of them.

/// Sixteen groups, each of its leader alone: 7000, 14000, 4000, 11000, 1000, 8000, 15000, 5000, 12000, 2000, 9000, 16000,
/// 6000, 13000, 3000, 10000.
fn unordered(alloc: Global) -> Result<Table, Fail> {
    let mut groups = Items::new(alloc);
    for n in 1..17 {
        groups.push(many_threads::alone(alloc, n * 7 % 17 * 1000)?)?;
    }
    let start = Start {
        groups,
        limit: 8,
        entries: 9,
    };
    if !start.is_good() {
        Err("no good start")?;
    }
    let mut table = Table::open(&start, alloc)?;
    table.settle();
    Ok(table)
}

/// That these are the places of the groups that may tell something, once the table is settled.
fn tell(rt: &impl Abort, table: &mut Table, want: &[usize]) {
    table.settle();
    let mut place = 0;
    for (met, next) in want.iter().enumerate() {
        same(rt, &table.telling_from(place, met), &Some(*next));
        same(rt, &table.telling_from(place, 0), &Some(*next));
        place = next.saturating_add(1);
    }
    assert!(rt; table.telling_from(place, want.len()).is_none());
}

fn report_death(table: &mut Table, id: u32) -> Result<(), Fail> {
    kill_thread(table, id);
    raise_report(table, id)
}

fn remove_leader(table: &mut Table, tgid: u32) {
    let _removed = table.remove(tgid);
    table.remove_group(tgid);
}

/// Groups 4000, 8000 and 3000 have something to tell.
fn three_tell(rt: &impl Abort, table: &mut Table) -> Result<(), Fail> {
    tell(rt, table, &[]);
    settled_note(table, 3000)?;
    tell(rt, table, &[14]);
    report_death(table, 8000)?;
    tell(rt, table, &[5, 14]);
    settled_note(table, 4000)?;
    tell(rt, table, &[2, 5, 14]);
    Ok(())
}

#[test]
fn the_next_group_that_tells_is_found(rt: HostRuntime) -> Result<(), Fail> {
    let mut table = unordered(rt.alloc())?;
    three_tell(&rt, &mut table)?;
    table.change_group(4000, &GroupChange::DropNote);
    tell(&rt, &mut table, &[5, 14]);
    for likely in [0, 1, 2, 3, usize::MAX] {
        same(&rt, &table.telling_from(5, likely), &Some(5));
        same(&rt, &table.telling_from(6, likely), &Some(14));
        assert!(rt; table.telling_from(16, likely).is_none());
        assert!(rt; table.telling_from(usize::MAX, likely).is_none());
    }
    Ok(())
}

/// Groups go before, between and behind those that have something to tell, and one of those.
#[test]
fn the_places_close_up_behind_a_group(rt: HostRuntime) -> Result<(), Fail> {
    let mut table = unordered(rt.alloc())?;
    three_tell(&rt, &mut table)?;
    remove_leader(&mut table, 15000);
    tell(&rt, &mut table, &[2, 5, 13]);
    table.remove_dead(8000);
    tell(&rt, &mut table, &[2, 13]);
    table.remove_group(8000);
    tell(&rt, &mut table, &[2, 12]);
    remove_leader(&mut table, 7000);
    tell(&rt, &mut table, &[1, 11]);
    remove_leader(&mut table, 10000);
    tell(&rt, &mut table, &[1, 11]);
    remove_leader(&mut table, 3000);
    tell(&rt, &mut table, &[1]);
    Ok(())
}

/// What a tracer hides isn't told, and is when it leaves.
#[test]
fn hidden_groups_are_passed(rt: HostRuntime) -> Result<(), Fail> {
    let mut table = unordered(rt.alloc())?;
    three_tell(&rt, &mut table)?;
    let trace = Trace {
        tracer: 9,
        seized: true,
        options: Options::NONE,
    };
    table.change_thread(4000, &ThreadChange::TraceBy(trace));
    tell(&rt, &mut table, &[5, 14]);
    table.change_thread(4000, &ThreadChange::Detach(false));
    tell(&rt, &mut table, &[2, 5, 14]);
    table.change_thread(8000, &ThreadChange::WithdrawReport);
    tell(&rt, &mut table, &[2, 14]);
    Ok(())
}

/// Several groups are touched between two looks.
#[test]
fn all_that_tell_are_listed_at_once(rt: HostRuntime) -> Result<(), Fail> {
    let mut table = unordered(rt.alloc())?;
    for tgid in [16000, 14000, 10000] {
        report_death(&mut table, tgid)?;
    }
    same(&rt, &table.telling_from(0, 0), &Some(0));
    tell(&rt, &mut table, &[1, 11, 15]);
    Ok(())
}

/// A dead thread of another group has the id of a group, whose leader is gone.
#[test]
fn a_dead_thread_in_a_leaders_name_is_not_passed(rt: HostRuntime) -> Result<(), Fail> {
    let mut table = unordered(rt.alloc())?;
    let _removed = table.remove(5000);
    let mut stray = *thread(&table, 3000)?;
    stray.id = 5000;
    add_new(&mut table, &stray)?;
    table.settle();
    assert!(rt; table.telling_from(0, 0).is_none());
    report_death(&mut table, 5000)?;
    table.settle();
    same(&rt, &table.telling_from(7, 0), &Some(7));
    Ok(())
}

#[test]
fn a_restored_table_lists_the_same_groups(rt: HostRuntime) -> Result<(), Fail> {
    let mut table = unordered(rt.alloc())?;
    three_tell(&rt, &mut table)?;
    let mut restored = table.snapshot(rt.alloc())?.table(rt.alloc())?;
    tell(&rt, &mut restored, &[2, 5, 14]);
    Ok(())
}
