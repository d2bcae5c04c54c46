use super::many_threads::sixteen;
use super::*;

/// Thread 100 blocks nothing; thread 101 all signals but KILL (bit 8) and STOP (bit 18).
const BLOCKED: u64 = 0xffff_ffff_fffb_feff;

#[test]
fn rows_are_in_table_order(rt: HostRuntime) -> Result<(), Fail> {
    let table = with_four(rt.alloc())?;
    let rows = table.rows(100).ok_or("no group 100")?;
    same(&rt, &rows.own(), &[0, 1 << 33].as_slice());
    same(&rt, &rows.blocked(), &[0, BLOCKED].as_slice());
    same(&rt, &rows.runnable(), &[u64::MAX, u64::MAX].as_slice());
    same(&rt, &rows.shared(), &(1 << 33 | 1 << 9));
    assert!(rt; table.rows(101).is_none());
    Ok(())
}

/// They are lent where nothing waits for a thread alone.
#[test]
fn rows_of_shared_signals_are_lent(rt: HostRuntime) -> Result<(), Fail> {
    let mut table = opened(rt.alloc())?;
    send(&mut table, 10, SHARED)?;
    let rows = table.shared_rows(100).ok_or("nothing is lent")?;
    same(&rt, &rows.own(), &[0, 0].as_slice());
    same(&rt, &rows.blocked(), &[0, BLOCKED].as_slice());
    same(&rt, &rows.runnable(), &[u64::MAX, u64::MAX].as_slice());
    same(&rt, &rows.shared(), &(1 << 9));
    assert!(rt; table.shared_rows(101).is_none());
    assert!(rt; with_four(rt.alloc())?.shared_rows(100).is_none());
    Ok(())
}

#[test]
fn the_dead_block_nothing_and_the_marked_wait(rt: HostRuntime) -> Result<(), Fail> {
    let mut table = with_four(rt.alloc())?;
    kill_thread(&mut table, 101);
    table.change_members(100, &ThreadChange::Mark);
    let rows = table.rows(100).ok_or("no group 100")?;
    same(&rt, &rows.blocked(), &[0, 0].as_slice());
    same(&rt, &rows.runnable(), &[0, 0].as_slice());
    Ok(())
}

/// Adds a thread that blocks the signal of each of these bits.
fn add_blocking(table: &mut Table, id: u32, group: u32, bits: u64) -> Result<(), Fail> {
    let mut child = *thread(table, group)?;
    child.id = id;
    child.mask = SigSet::from_bits(bits);
    add_new(table, &child)?;
    Ok(())
}

/// That the group's threads block these words, and may take where it isn't 0.
fn rows_are(
    rt: &impl Abort,
    table: &Table,
    tgid: u32,
    blocked: &[u64],
    runnable: &[u64],
) -> Result<(), Fail> {
    let rows = table.rows(tgid).ok_or("no such group")?;
    same(rt, &rows.blocked(), &blocked);
    same(rt, &rows.runnable(), &runnable);
    same(rt, &rows.own().len(), &blocked.len());
    Ok(())
}

/// Group 100 of threads 100 to 103, which block nothing, all, signal 2 and signal 3.
fn with_masks(alloc: Global) -> Result<Table, Fail> {
    let mut table = opened(alloc)?;
    add_blocking(&mut table, 102, 100, 1 << 1)?;
    add_blocking(&mut table, 103, 100, 1 << 2)?;
    Ok(table)
}

#[test]
fn a_mask_is_shown_at_once(rt: HostRuntime) -> Result<(), Fail> {
    let mut table = with_masks(rt.alloc())?;
    let all = [u64::MAX; 4];
    rows_are(&rt, &table, 100, &[0, BLOCKED, 2, 4], &all)?;
    for id in [102, 100, 103] {
        table.change_thread(id, &ThreadChange::Mask(SigSet::from_bits(1 << 15)));
    }
    rows_are(
        &rt,
        &table,
        100,
        &[1 << 15, BLOCKED, 1 << 15, 1 << 15],
        &all,
    )?;
    rows_are(&rt, &table, 200, &[0], &[u64::MAX])
}

#[test]
fn a_thread_in_the_middle_dies_and_goes(rt: HostRuntime) -> Result<(), Fail> {
    let mut table = with_masks(rt.alloc())?;
    kill_thread(&mut table, 101);
    let runnable = [u64::MAX, 0, u64::MAX, u64::MAX];
    rows_are(&rt, &table, 100, &[0, 0, 2, 4], &runnable)?;
    assert!(rt; table.remove(101));
    rows_are(&rt, &table, 100, &[0, 2, 4], &[u64::MAX; 3])?;
    table.change_thread(103, &ThreadChange::Mask(SigSet::from_bits(1 << 4)));
    rows_are(&rt, &table, 100, &[0, 2, 1 << 4], &[u64::MAX; 3])
}

#[test]
fn rows_close_up_over_one_that_blocks(rt: HostRuntime) -> Result<(), Fail> {
    let mut table = with_masks(rt.alloc())?;
    assert!(rt; table.remove(102));
    rows_are(&rt, &table, 100, &[0, BLOCKED, 4], &[u64::MAX; 3])?;
    assert!(rt; table.remove(200));
    rows_are(&rt, &table, 200, &[], &[])?;
    add_blocking(&mut table, 104, 100, 1 << 5)?;
    rows_are(&rt, &table, 100, &[0, BLOCKED, 4, 1 << 5], &[u64::MAX; 4])
}

#[test]
fn the_leaders_row_becomes_the_threads(rt: HostRuntime) -> Result<(), Fail> {
    let mut table = with_masks(rt.alloc())?;
    for id in [100, 101, 102] {
        kill_thread(&mut table, id);
    }
    table.change_thread(103, &ThreadChange::BeginExec);
    rows_are(&rt, &table, 100, &[0, 0, 0, 4], &[0; 4])?;
    same(&rt, &table.take_place(103), &Some(100));
    rows_are(&rt, &table, 100, &[4, 0, 0], &[0; 3])?;
    table.change_thread(100, &ThreadChange::EndExec);
    rows_are(&rt, &table, 100, &[4, 0, 0], &[u64::MAX, 0, 0])
}

#[test]
fn one_that_stops_and_runs_on_may_take_again(rt: HostRuntime) -> Result<(), Fail> {
    let mut table = with_masks(rt.alloc())?;
    table.change_thread(102, &ThreadChange::Mark);
    table.change_thread(102, &ThreadChange::Halt);
    let stopped = [u64::MAX, u64::MAX, 0, u64::MAX];
    rows_are(&rt, &table, 100, &[0, BLOCKED, 2, 4], &stopped)?;
    table.change_members(100, &ThreadChange::Continue(true));
    rows_are(&rt, &table, 100, &[0, BLOCKED, 2, 4], &[u64::MAX; 4])
}

/// Sixteen groups, of which two have two threads more that stand by turns in the table.
fn by_turns(alloc: Global) -> Result<Table, Fail> {
    let mut table = sixteen(alloc)?;
    for i in 1..3 {
        add_blocking(&mut table, 2000 + i, 2000, 1 << i)?;
        add_blocking(&mut table, 5000 + i, 5000, 16 << i)?;
    }
    Ok(table)
}

#[test]
fn groups_that_stand_by_turns_keep_their_own_rows(rt: HostRuntime) -> Result<(), Fail> {
    let mut table = by_turns(rt.alloc())?;
    let all = [u64::MAX; 3];
    rows_are(&rt, &table, 2000, &[0, 2, 4], &all)?;
    rows_are(&rt, &table, 5000, &[0, 32, 64], &all)?;
    for (id, bits) in [(2002, 1), (5001, 2), (2000, 3), (5002, 4), (2001, 5)] {
        table.change_thread(id, &ThreadChange::Mask(SigSet::from_bits(bits)));
    }
    rows_are(&rt, &table, 2000, &[3, 5, 1], &all)?;
    rows_are(&rt, &table, 5000, &[0, 2, 4], &all)?;
    assert!(rt; table.remove(2001));
    table.change_thread(2002, &ThreadChange::Mask(SigSet::from_bits(7)));
    table.change_thread(5002, &ThreadChange::Mask(SigSet::from_bits(6)));
    rows_are(&rt, &table, 2000, &[3, 7], &[u64::MAX; 2])?;
    rows_are(&rt, &table, 5000, &[0, 2, 6], &all)
}

/// The rows of a thousand threads in sixteen groups, each after its mask.
#[test]
fn each_of_a_thousand_has_its_row(rt: HostRuntime) -> Result<(), Fail> {
    let mut table = super::many_threads::thousand(rt.alloc())?;
    for i in 0..62 {
        for n in 1..17 {
            let id = n * 1000 + i;
            table.change_thread(id, &ThreadChange::Mask(SigSet::from_bits(1 << (n + 19))));
        }
    }
    for n in 1..17 {
        let rows = table.rows(n * 1000).ok_or("no such group")?;
        let mut blocked = rows.blocked().iter().take(62);
        assert!(rt; blocked.all(|word| *word == 1 << (n + 19)));
    }
    Ok(())
}
