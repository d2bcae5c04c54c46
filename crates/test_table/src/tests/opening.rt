use super::*;

#[test]
fn a_table_opens_with_the_numbers_of_its_start(rt: HostRuntime) -> Result<(), Fail> {
    let table = opened(rt.alloc())?;
    same(&rt, &(table.limit(), table.entries()), &(8, 9));
    same(&rt, &(table.accepted(), table.raised()), &(0, 0));
    same(&rt, &(table.group_count(), table.thread_count()), &(2, 3));
    same(&rt, &table.owner(OWN), &100);
    Ok(())
}

/// The name of a group, padded, and its length.
fn name_of(table: &Table, tgid: u32) -> Result<([u8; 15], u8), Fail> {
    let group = table.group(tgid).ok_or("no such group")?;
    Ok((group.name.bytes, group.name.len))
}

#[test]
fn a_name_of_fifteen_bytes_stands_whole(rt: HostRuntime) -> Result<(), Fail> {
    let table = opened(rt.alloc())?;
    let (bytes, len) = name_of(&table, 100)?;
    same(&rt, &bytes.as_slice(), &b"fifteen letters".as_slice());
    same(&rt, &len, &15);
    Ok(())
}

#[test]
fn a_short_name_is_padded(rt: HostRuntime) -> Result<(), Fail> {
    let table = opened(rt.alloc())?;
    let (bytes, len) = name_of(&table, 200)?;
    same(
        &rt,
        &bytes.as_slice(),
        &b"sh\0\0\0\0\0\0\0\0\0\0\0\0\0".as_slice(),
    );
    same(&rt, &len, &2);
    Ok(())
}

fn has_action(
    rt: &impl Abort,
    table: &Table,
    tgid: u32,
    number: u8,
    want: Action,
) -> Result<(), Fail> {
    same(
        rt,
        &(tgid, number, table.action_of(tgid, signal(number)?)),
        &(tgid, number, want),
    );
    Ok(())
}

fn has_actions(rt: &impl Abort, table: &Table) -> Result<(), Fail> {
    has_action(rt, table, 100, 10, Action::Catch)?;
    has_action(rt, table, 100, 9, Action::Default)?;
    has_action(rt, table, 100, 11, Action::Default)?;
    has_action(rt, table, 200, 10, Action::Default)
}

#[test]
fn actions_are_those_of_the_start(rt: HostRuntime) -> Result<(), Fail> {
    has_actions(&rt, &opened(rt.alloc())?)
}

#[test]
fn kill_and_stop_stay_unblocked(rt: HostRuntime) -> Result<(), Fail> {
    let table = opened(rt.alloc())?;
    blocks_all(&rt, &table, 101)
}
