ghost use Rattle.std.specs.Prelude.{◌≡◌, ◌++◌, [], IfOk, None, OnOk, Some};
ghost use Rattle.std.specs.List.{list_all};
ghost use Rattle.tr_starts.specs.Starts.{is_good_group};
ghost use Rattle.tr_mistakes.specs.Wholes.{actions_mistake, acts_once, again, bad_group, bad_id, bad_ids, bad_tid, first_bad, groups_mistake, has_good_ids, is_good_thread, large_mistake, start_mistake, started_twice, twice_mistake, whole_mistake};

use crate::parts::{push_index, push_whole_number};
use std::alloc::{AllocError, Global};
use std::collections::BTreeSet;
use tr_model::GREATEST_ID;
use tr_reading::reading::{
    acts_twice, has_few_members, ids_of, is_small, repeats_actor, repeats_in_start,
};
use tr_reading::{Job, Scenario};
use tr_scenario::Page;
use tr_sigset::SigSet;
use tr_starts::{GroupStart, are_few, are_good_ids, is_good_group, is_good_name, leads};
use tr_text::TextBuffer;

/// Appends what is wrong with a scenario as a whole, which is refused.
pub(crate) fn push_whole_mistake(
    alloc: Global,
    page: &mut Page,
    scenario: &Scenario,
) -> Result<(), AllocError>
    ensures { OnOk result (page.new ≡ page.old ++ whole_mistake scenario.now) }
{
    if !is_small(&scenario.job) {
        return push_large(page, &scenario.job);
    }
    let groups = scenario.start.groups.as_slice();
    if repeats_in_start(alloc, &scenario.start)? {
        return push_twice(alloc, page, groups);
    }
    if repeats_actor(&scenario.job) {
        return page.push(b".workers: two are of one actor");
    }
    push_bad_start(page, groups)
}

/// Appends by which of the two limits a job is too large.
fn push_large(page: &mut Page, job: &Job) -> Result<(), AllocError>
    ensures { OnOk result (page.new ≡ page.old ++ large_mistake job.now) }
{
    match job {
        Job::Workers(scripts) if !has_few_members(scripts.as_slice()) => {
            page.push(b": more than 10000 items and ops")
        }
        _ => page.push(b": more than 100000 calls"),
    }
}

/// Appends which thread stands twice among these groups, or else in which of them a signal does.
pub fn push_twice(alloc: Global, page: &mut Page, groups: &[GroupStart]) -> Result<(), AllocError>
    ensures { OnOk result (page.new ≡ page.old ++ twice_mistake groups.now) }
{
    let ids = ids_of(alloc, groups)?;
    let id = repeated(alloc, &ids)?;
    push_started_twice(alloc, page, id, groups)
}

/// Appends that a thread stands twice, or else in which group a signal does.
fn push_started_twice(
    alloc: Global,
    page: &mut Page,
    id: Option<u32>,
    groups: &[GroupStart],
) -> Result<(), AllocError>
    ensures { OnOk result (page.new ≡ page.old ++ started_twice id groups.now) }
{
    match id {
        Some(id) => push_thread_twice(page, id),
        None => {
            page.push(b".groups")?;
            push_signal_twice(alloc, page, groups)
        }
    }
}

/// The first number that stands among those before it.
fn repeated(alloc: Global, numbers: &[u32]) -> Result<Option<u32>, AllocError>
    ensures { IfOk result (λ n. n ≡ again [] numbers.now) }
{
    let mut seen = BTreeSet::new(alloc);
    for number in numbers {
        if !seen.insert(*number)? {
            return Ok(Some(*number));
        }
    }
    Ok(None)
}

fn push_thread_twice(page: &mut Page, id: u32) -> Result<(), AllocError>
    ensures { (gs : _) → OnOk result (page.new ≡ page.old ++ started_twice (Some id) gs) }
{
    let mut text = TextBuffer::<64>::new();
    text.prepend(b" stands twice");
    text.prepend_number(u64::from(id));
    text.prepend(b": thread ");
    page.push(text.as_bytes())
}

fn push_signal_twice(
    alloc: Global,
    page: &mut Page,
    groups: &[GroupStart],
) -> Result<(), AllocError>
    ensures { OnOk result
        (page.new ≡ page.old ++ first_bad acts_once actions_mistake 0 groups.now) }
{
    for (index, group) in groups.iter().enumerate() {
        if acts_twice(alloc, group.actions.as_slice())? {
            push_index(page, index)?;
            return page.push(b".actions: a signal stands twice");
        }
    }
    Ok(())
}

fn are_good(groups: &[GroupStart]) -> bool
    ensures { result ≡ list_all is_good_group groups.now }
{
    groups.iter().all(|group| is_good_group(group))
}

/// Appends why no kernel can start with these groups: of the first that may not be, or of all.
pub fn push_bad_start(page: &mut Page, groups: &[GroupStart]) -> Result<(), AllocError>
    ensures { OnOk result (page.new ≡ page.old ++ start_mistake groups.now) }
{
    page.push(b".groups")?;
    push_groups_mistake(page, groups)
}

fn push_groups_mistake(page: &mut Page, groups: &[GroupStart]) -> Result<(), AllocError>
    ensures { OnOk result (page.new ≡ page.old ++ groups_mistake groups.now) }
{
    if !are_good(groups) {
        push_bad_groups(page, groups)
    } else if !are_few(groups) {
        page.push(b": more than 1024 threads")
    } else {
        push_bad_ids(page, groups)
    }
}

/// Appends the place of the first group that no start has, and why.
fn push_bad_groups(page: &mut Page, groups: &[GroupStart]) -> Result<(), AllocError>
    ensures { OnOk result
        (page.new ≡ page.old ++ first_bad is_good_group bad_group 0 groups.now) }
{
    for (index, group) in groups.iter().enumerate() {
        if !is_good_group(group) {
            push_index(page, index)?;
            return push_bad_group(page, group);
        }
    }
    Ok(())
}

/// Appends why no start has such a group, its ids left aside.
fn push_bad_group(page: &mut Page, group: &GroupStart) -> Result<(), AllocError>
    ensures { OnOk result (page.new ≡ page.old ++ bad_group group.now) }
{
    let threads = group.threads.as_slice();
    if !leads(group.tgid, threads) {
        return page.push(b".threads: the first is to be the leader, whose tid is the tgid");
    }
    if threads.len() > 64 {
        return page.push(b".threads: more than 64");
    }
    if !is_good_name(group.name.as_slice()) {
        return page.push(
            b".name: 1 to 15 characters of printable ASCII without the backslash are wanted",
        );
    }
    page.push(b".actions: 9 and 19 can't be set")
}

/// Appends the place of the first group with an id that no start has, and of the thread with it.
fn push_bad_ids(page: &mut Page, groups: &[GroupStart]) -> Result<(), AllocError>
    ensures { OnOk result (page.new ≡ page.old ++ first_bad has_good_ids bad_ids 0 groups.now) }
{
    for (index, group) in groups.iter().enumerate() {
        let threads = group.threads.as_slice();
        if !are_good_ids(threads) {
            push_index(page, index)?;
            page.push(b".threads")?;
            return push_bad_id(page, threads);
        }
    }
    Ok(())
}

/// Appends the place of the first thread with an id that no start has.
fn push_bad_id(page: &mut Page, threads: &[(u32, SigSet)]) -> Result<(), AllocError>
    ensures { OnOk result (page.new ≡ page.old ++ first_bad is_good_thread bad_id 0 threads.now) }
{
    for (index, thread) in threads.iter().enumerate() {
        if !is_good_thread(thread) {
            push_index(page, index)?;
            return push_bad_tid(page);
        }
    }
    Ok(())
}

/// Appends which ids a start may have.
fn push_bad_tid(page: &mut Page) -> Result<(), AllocError>
    ensures { OnOk result (page.new ≡ page.old ++ bad_tid) }
{
    page.push(b".tid")?;
    push_whole_number(page, 2, GREATEST_ID)
}

fn is_good_thread(thread: &(u32, SigSet)) -> bool
    ensures { result ≡ is_good_thread thread.now }
{
    2 <= thread.0 && thread.0 <= GREATEST_ID
}
