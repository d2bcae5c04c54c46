use super::many_threads::sixteen;
use super::*;
use tr_table::{GroupChange, Unsettled};
use tr_tracee::{Options, Trace};
use tr_wait::Status;

// That a table tells no more groups than it has to: a clause says only that it tells no fewer.

/// The group that is meant, 0 where none is, and 1 where any may be.
fn named(groups: Unsettled) -> u32 {
    match groups {
        Unsettled::Nowhere => 0,
        Unsettled::In(tgid) => tgid,
        Unsettled::Anywhere => 1,
    }
}

fn tells(rt: &impl Abort, table: &Table, want: u32) {
    same(rt, &named(table.unsettled()), &want);
}

/// Settles the table, which gives the group whose stop may be complete, and no other is told from then on.
fn settles(rt: &impl Abort, table: &mut Table, want: u32) {
    let given = named(table.settle());
    same(rt, &given, &want);
    tells(rt, table, want);
}

fn begin_stop(table: &mut Table, tgid: u32) -> Result<(), Fail> {
    table.change_group(tgid, &GroupChange::Begin(signal(19)?));
    table.change_members(tgid, &ThreadChange::Mark);
    Ok(())
}

/// Two groups are stopping, and none can be complete.
fn two_stopping(rt: &impl Abort, table: &mut Table) -> Result<(), Fail> {
    begin_stop(table, 3000)?;
    settles(rt, table, 0);
    begin_stop(table, 7000)?;
    tells(rt, table, 7000);
    settles(rt, table, 0);
    Ok(())
}

#[test]
fn the_group_of_a_change_is_told_alone(rt: HostRuntime) -> Result<(), Fail> {
    let mut table = sixteen(rt.alloc())?;
    tells(&rt, &table, 0);
    two_stopping(&rt, &mut table)?;
    table.change_thread(7000, &ThreadChange::Join);
    settles(&rt, &mut table, 7000);
    table.change_group(7000, &GroupChange::Complete);
    settles(&rt, &mut table, 0);
    Ok(())
}

#[test]
fn any_group_is_told_until_all_are_looked_at(rt: HostRuntime) -> Result<(), Fail> {
    let mut table = sixteen(rt.alloc())?;
    begin_stop(&mut table, 3000)?;
    begin_stop(&mut table, 7000)?;
    tells(&rt, &table, 1);
    settles(&rt, &mut table, 0);
    Ok(())
}

/// A note of a group, and the table settled.
pub(super) fn settled_note(table: &mut Table, tgid: u32) -> Result<(), Fail> {
    if table.raised() > 100 {
        Err("more reports than the tests raise")?;
    }
    table.note(tgid, &Status::Continued);
    table.settle();
    Ok(())
}

fn shows(rt: &impl Abort, table: &mut Table, want: bool) {
    settles(rt, table, 0);
    same(rt, &table.may_show_notes(), &want);
}

/// What a tracer hides isn't shown, and is when it leaves.
fn tracer_hides(rt: &impl Abort, table: &mut Table) {
    let trace = Trace {
        tracer: 9,
        seized: true,
        options: Options::NONE,
    };
    table.change_thread(4000, &ThreadChange::TraceBy(trace));
    shows(rt, table, false);
    table.change_thread(4000, &ThreadChange::Detach(false));
    shows(rt, table, true);
    table.change_thread(4000, &ThreadChange::TraceBy(trace));
    shows(rt, table, false);
}

#[test]
fn hidden_notes_are_not_told(rt: HostRuntime) -> Result<(), Fail> {
    let mut table = sixteen(rt.alloc())?;
    shows(&rt, &mut table, false);
    settled_note(&mut table, 4000)?;
    shows(&rt, &mut table, true);
    tracer_hides(&rt, &mut table);
    same(&rt, &table.has_notes(), &true);
    settled_note(&mut table, 5000)?;
    shows(&rt, &mut table, true);
    table.change_group(5000, &GroupChange::DropNote);
    shows(&rt, &mut table, false);
    Ok(())
}
