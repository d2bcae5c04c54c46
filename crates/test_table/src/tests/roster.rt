use super::*;

#[test]
fn an_added_thread_comes_last(rt: HostRuntime) -> Result<(), Fail> {
    let mut table = opened(rt.alloc())?;
    let mut child = *thread(&table, 101)?;
    child.id = 102;
    add_new(&mut table, &child)?;
    same(
        &rt,
        &(table.member_count(100), table.thread_count()),
        &(3, 4),
    );
    same(&rt, &table.member(100, 2).map(|t| t.id), &Some(102));
    assert!(rt; table.member(100, 3).is_none());
    Ok(())
}

#[test]
fn a_removed_thread_is_gone(rt: HostRuntime) -> Result<(), Fail> {
    let mut table = opened(rt.alloc())?;
    assert!(rt; table.remove(101));
    assert!(rt; !table.remove(101));
    same(&rt, &table.thread_count(), &2);
    assert!(rt; table.find(101).is_none());
    same(&rt, &table.owner(OWN), &0);
    Ok(())
}

#[test]
fn the_dead_alone_are_removed(rt: HostRuntime) -> Result<(), Fail> {
    let mut table = opened(rt.alloc())?;
    table.remove_dead(101);
    same(&rt, &table.thread_count(), &3);
    kill_thread(&mut table, 101);
    table.remove_dead(101);
    same(&rt, &table.thread_count(), &2);
    assert!(rt; table.find(101).is_none());
    Ok(())
}

#[test]
fn a_group_goes_with_its_last_thread(rt: HostRuntime) -> Result<(), Fail> {
    let mut table = opened(rt.alloc())?;
    table.remove_group(200);
    same(&rt, &table.group_count(), &2);
    assert!(rt; table.remove(200));
    table.remove_group(200);
    same(&rt, &table.group_count(), &1);
    assert!(rt; table.group(200).is_none());
    Ok(())
}

#[test]
fn a_renamed_thread_brings_its_queue(rt: HostRuntime) -> Result<(), Fail> {
    let mut table = with_four(rt.alloc())?;
    kill_thread(&mut table, 100);
    table.change_thread(101, &ThreadChange::BeginExec);
    same(&rt, &table.take_place(101), &Some(100));
    assert!(rt; table.find(101).is_none());
    same(&rt, &table.member_count(100), &1);
    blocks_all(&rt, &table, 100)?;
    same(
        &rt,
        &best(&table, Target::Thread(100), SigSet::empty()),
        &(4, 34, 1),
    );
    Ok(())
}

#[test]
fn a_written_group_ends(rt: HostRuntime) -> Result<(), Fail> {
    let mut table = opened(rt.alloc())?;
    let mut group = *table.group(200).ok_or("no group 200")?;
    group.end = Some(End::Exited(3));
    table.put_group(&group);
    assert!(rt; table.end_of(100).is_none());
    assert!(rt; table.end_of(200).is_some());
    Ok(())
}
