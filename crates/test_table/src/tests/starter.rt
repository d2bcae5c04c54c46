use super::many_threads::sixteen;
use super::*;
use tr_table::GroupChange;
use tr_tracee::{Options, Stop, Trace};
use tr_wait::{Status, Which};

// What a table keeps for waits of the starter: whether some group has a note, and whether some death is untraced.

fn raise_note(table: &mut Table, tgid: u32) -> Result<(), Fail> {
    if table.raised() > 100 {
        Err("more reports than the tests raise")?;
    }
    table.note(tgid, &Status::Continued);
    Ok(())
}

fn has_notes(rt: &impl Abort, table: &Table, want: bool) {
    same(rt, &table.has_notes(), &want);
}

/// A group that has a note twice over is counted once, and one without a note loses none.
fn notes_are_counted_once(rt: &impl Abort, table: &mut Table) -> Result<(), Fail> {
    has_notes(rt, table, false);
    raise_note(table, 3000)?;
    raise_note(table, 3000)?;
    raise_note(table, 7000)?;
    table.change_group(3000, &GroupChange::DropNote);
    table.change_group(3000, &GroupChange::DropNote);
    has_notes(rt, table, true);
    table.change_group(7000, &GroupChange::EndStop);
    has_notes(rt, table, false);
    Ok(())
}

fn without_note(table: &mut Table, tgid: u32) -> Result<(), Fail> {
    let mut group = *table.group(tgid).ok_or("no such group")?;
    group.note = None;
    table.put_group(&group);
    Ok(())
}

/// A note goes with the group's death, with a new record, and with the group.
fn notes_go(rt: &impl Abort, table: &mut Table) -> Result<(), Fail> {
    raise_note(table, 4000)?;
    table.change_group(4000, &GroupChange::Begin(signal(19)?));
    has_notes(rt, table, true);
    table.change_group(4000, &GroupChange::Die(End::Exited(0)));
    has_notes(rt, table, false);
    raise_note(table, 5000)?;
    without_note(table, 5000)?;
    has_notes(rt, table, false);
    raise_note(table, 6000)?;
    let _removed = table.remove(6000);
    has_notes(rt, table, true);
    table.remove_group(6000);
    has_notes(rt, table, false);
    Ok(())
}

#[test]
fn notes_are_known_of(rt: HostRuntime) -> Result<(), Fail> {
    let mut table = sixteen(rt.alloc())?;
    notes_are_counted_once(&rt, &mut table)?;
    notes_go(&rt, &mut table)
}

pub(super) fn raise_report(table: &mut Table, id: u32) -> Result<(), Fail> {
    if table.raised() > 100 {
        Err("more reports than the tests raise")?;
    }
    if thread(table, id)?.life.is_dead() {
        let _raised = table.report_death(id, &End::Exited(0));
    } else {
        let _raised = table.enter(id, &Stop::Exit(0));
    }
    Ok(())
}

fn has_deaths(rt: &impl Abort, table: &Table, want: bool) {
    same(rt, &table.has_untraced_deaths(), &want);
}

/// A death without a report isn't one, nor a report of a living thread.
fn deaths_have_reports(rt: &impl Abort, table: &mut Table) -> Result<(), Fail> {
    raise_report(table, 2000)?;
    kill_thread(table, 3000);
    has_deaths(rt, table, false);
    raise_report(table, 3000)?;
    raise_report(table, 3000)?;
    has_deaths(rt, table, true);
    table.change_thread(3000, &ThreadChange::WithdrawReport);
    has_deaths(rt, table, false);
    Ok(())
}

/// The death of a tracee is its tracer's first, and the starter's when it is released.
fn deaths_are_untraced(rt: &impl Abort, table: &mut Table) -> Result<(), Fail> {
    let trace = Trace {
        tracer: 9,
        seized: true,
        options: Options::NONE,
    };
    table.change_thread(4000, &ThreadChange::TraceBy(trace));
    kill_thread(table, 4000);
    raise_report(table, 4000)?;
    has_deaths(rt, table, false);
    table.change_thread(4000, &ThreadChange::Release);
    raise_report(table, 4000)?;
    has_deaths(rt, table, true);
    table.remove_dead(4000);
    has_deaths(rt, table, false);
    Ok(())
}

#[test]
fn untraced_deaths_are_known_of(rt: HostRuntime) -> Result<(), Fail> {
    let mut table = sixteen(rt.alloc())?;
    deaths_have_reports(&rt, &mut table)?;
    deaths_are_untraced(&rt, &mut table)
}

/// The ids of the groups that a wait asks for.
fn asks(rt: &impl Abort, table: &Table, which: Which, want: &[u32]) {
    let groups = table.asked_groups(which);
    same(rt, &groups.len(), &want.len());
    assert!(rt; groups.iter().map(|g| g.tgid).eq(want.iter().copied()));
}

#[test]
fn one_group_is_asked_for_among_sixteen(rt: HostRuntime) -> Result<(), Fail> {
    let mut table = sixteen(rt.alloc())?;
    asks(&rt, &table, Which::One(7000), &[7000]);
    asks(&rt, &table, Which::One(7001), &[]);
    same(&rt, &table.asked_groups(Which::Any).len(), &16);
    same(&rt, &table.asked_groups(Which::One(0)).len(), &16);
    let _removed = table.remove(7000);
    table.remove_group(7000);
    asks(&rt, &table, Which::One(7000), &[]);
    asks(&rt, &table, Which::One(8000), &[8000]);
    Ok(())
}
