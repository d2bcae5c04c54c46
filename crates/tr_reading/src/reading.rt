ghost use Rattle.std.specs.Prelude.{◌≡◌, ◌<◌, ◌≤◌, ◌+◌, ◌++◌, length, map, nat_le, not, sum_by, IfErr, IfOk, MatchOption, OnOk};
ghost use Rattle.std.specs.List.{list_any};
ghost use Rattle.serde_json.specs.View.{view};
ghost use Rattle.tr_starts.specs.Starts.{ids_started, no_repeat};
ghost use Rattle.tr_reading.specs.declared.faults.ScenarioFault.TheVariants.{NoMemory};
ghost use Rattle.tr_reading.specs.Fields.{Gives};
ghost use Rattle.tr_reading.specs.Scenarios.{IsExact, calls_of_steps, has_repeats, is_small, json_of, repeats_actor, repeats_in_start, scenario_of, whole};
ghost use Rattle.tr_reading.specs.Workers.{calls_of, calls_of_plan, members_of, members_of_plan, times_of_repeat};

use crate::faults::ScenarioFault;
use crate::scenarios::{Job, Scenario, walk};
use crate::steps::Step;
use serde_json::Value;
use std::alloc::{AllocError, Global};
use std::collections::BTreeSet;
use tr_group::Action;
use tr_sigset::{SigSet, Signal};
use tr_starts::{GroupStart, Start};
use tr_workers::{Item, Plan, Repeat, Script, Served, are_distinct};

/// Reads the scenario that these bytes are, a JSON object of at most 1,048,576 bytes. An `Err` is the first fault:
/// of the bytes, then of the object from its first field to its last, then of the whole; or `NoMemory`, where memory
/// was refused before that was met. `NotJson` comes exactly where the size is allowed and `serde_json` has no value for
/// the bytes, but for want of memory.
pub fn read(alloc: Global, bytes: &[u8]) -> Result<Scenario, ScenarioFault>
    ensures gives { Gives (λ s. s) result (scenario_of bytes.now) }
    ensures not_json { IsExact bytes.now result }
    ensures memory { IfErr result
        (λ e. e ≡ NoMemory → (0 < length bytes.now) × (length bytes.now ≤ 1048576)) }
{
    scenario(alloc, bytes)
}

#[tactic(auto, unfolding(crate::specs::Scenarios::scenario_of))]
fn scenario(alloc: Global, bytes: &[u8]) -> Result<Scenario, ScenarioFault>
    ensures gives { Gives (λ s. s) result (scenario_of bytes.now) }
    ensures memory { IfErr result
        (λ e. e ≡ NoMemory → (0 < length bytes.now) × (length bytes.now ≤ 1048576)) }
{
    if bytes.len() > 1048576 {
        return Err(ScenarioFault::TooLarge);
    }
    let value = json(alloc, bytes)?;
    let scenario = walk(alloc, &value)?;
    whole(alloc, scenario)
}

/// Reads the JSON value that these bytes are.
#[tactic(auto, using(crate::proofs::Texts::utf8_tests), unfolding(crate::specs::Scenarios::json_of))]
pub fn json(alloc: Global, bytes: &[u8]) -> Result<Value, ScenarioFault>
    ensures gives { Gives view result (json_of bytes.now) }
    ensures memory { IfErr result (λ e. e ≡ NoMemory → 0 < length bytes.now) }
{
    match Value::from_slice(alloc, bytes) {
        Ok(value) => Ok(value),
        Err(error) if error.is_memory() => Err(ScenarioFault::NoMemory),
        Err(_) => Err(ScenarioFault::NotJson),
    }
}

/// The scenario, where it holds as a whole what each is to hold.
#[tactic(auto, unfolding(crate::specs::Scenarios::whole))]
fn whole(alloc: Global, scenario: Scenario) -> Result<Scenario, ScenarioFault>
    ensures { Gives (λ s. s) result (whole scenario) }
{
    if !is_small(&scenario.job) {
        return Err(ScenarioFault::TooLarge);
    }
    if has_repeats(alloc, &scenario)? {
        return Err(ScenarioFault::Repeated);
    }
    if !scenario.start.is_good() {
        return Err(ScenarioFault::BadStart);
    }
    Ok(scenario)
}

/// Tells whether there are at most 10,000 items and ops, and at most 100,000 calls.
pub fn is_small(job: &Job) -> bool
    ensures { result ≡ is_small job.now }
{
    match job {
        Job::Steps(steps) => are_few(steps.as_slice()),
        Job::Workers(scripts) => {
            has_few_members(scripts.as_slice()) && has_few_calls(scripts.as_slice())
        }
    }
}

/// Tells whether the steps are at most 100,000 calls.
fn are_few(steps: &[Step]) -> bool
    ensures { result ≡ nat_le (calls_of_steps steps.now) 100000 }
{
    let mut calls: u64 = 0;
    for step in steps {
        calls += step.times as u64;
        if calls > 100000 {
            return false;
        }
    }
    true
}

/// Tells whether the scripts have at most 10,000 items and ops.
pub fn has_few_members(scripts: &[Script]) -> bool
    ensures { result ≡ nat_le (members_of scripts.now) 10000 }
{
    let mut left = 10000;
    for script in scripts {
        let Some(rest) = without_members(left, &script.plan) else {
            return false;
        };
        left = rest;
    }
    true
}

/// Takes the items and ops of a plan off this number, where they aren't more.
fn without_members(number: usize, plan: &Plan) -> Option<usize>
    ensures { MatchOption result (number < members_of_plan plan.now)
        (λ rest. rest + members_of_plan plan.now ≡ number) }
{
    match plan {
        Plan::Items(items) => number.checked_sub(items.as_slice().len()),
        Plan::Machine(threads) => without_ops(number, threads.as_slice()),
    }
}

fn without_ops(number: usize, threads: &[Served]) -> Option<usize>
    ensures { MatchOption result (number < sum_by (λ s. length s.ops) threads.now)
        (λ rest. rest + sum_by (λ s. length s.ops) threads.now ≡ number) }
{
    let mut left = number;
    for thread in threads {
        left = left.checked_sub(thread.ops.as_slice().len())?;
    }
    Some(left)
}

/// Tells whether the times of the scripts' items are at most 100,000.
fn has_few_calls(scripts: &[Script]) -> bool
    ensures { result ≡ nat_le (calls_of scripts.now) 100000 }
{
    let mut left = 100000;
    for script in scripts {
        let Some(rest) = without_calls(left, &script.plan) else {
            return false;
        };
        left = rest;
    }
    true
}

/// Takes the times of a plan's items off this number, where they aren't more.
fn without_calls(number: u32, plan: &Plan) -> Option<u32>
    ensures { MatchOption result (number < calls_of_plan plan.now)
        (λ rest. rest + calls_of_plan plan.now ≡ number) }
{
    match plan {
        Plan::Items(items) => without_times(number, items.as_slice()),
        Plan::Machine(_) => Some(number),
    }
}

fn without_times(number: u32, items: &[Item]) -> Option<u32>
    ensures { MatchOption result (number < sum_by (λ i. times_of_repeat i.repeat) items.now)
        (λ rest. rest + sum_by (λ i. times_of_repeat i.repeat) items.now ≡ number) }
{
    let mut left = number;
    for item in items {
        left = left.checked_sub(times_of(item.repeat))?;
    }
    Some(left)
}

/// Gives how much an item with this repeat counts.
fn times_of(repeat: Repeat) -> u32
    ensures { result ≡ times_of_repeat repeat }
{
    match repeat {
        Repeat::Times(times) => times,
        Repeat::Until => 1,
    }
}

/// Tells whether two threads have one id, a group has two actions of one signal, or two workers are of one actor.
fn has_repeats(alloc: Global, scenario: &Scenario) -> Result<bool, AllocError>
    ensures { IfOk result (λ b. b ≡ has_repeats scenario.now) }
{
    if repeats_in_start(alloc, &scenario.start)? {
        return Ok(true);
    }
    Ok(repeats_actor(&scenario.job))
}

/// Tells whether two workers are of one actor.
pub fn repeats_actor(job: &Job) -> bool
    ensures { result ≡ repeats_actor job.now }
{
    match job {
        Job::Steps(_) => false,
        Job::Workers(scripts) => !are_distinct(scripts.as_slice()),
    }
}

/// Tells whether two threads have one id, or a group has two actions of one signal.
pub fn repeats_in_start(alloc: Global, start: &Start) -> Result<bool, AllocError>
    ensures { IfOk result (λ b. b ≡ repeats_in_start start.now) }
{
    let groups = start.groups.as_slice();
    let ids = ids_of(alloc, groups)?;
    if repeats(alloc, &ids)? {
        return Ok(true);
    }
    some_acts_twice(alloc, groups)
}

/// Gives the ids of all threads of these groups, in their order.
pub fn ids_of(alloc: Global, groups: &[GroupStart]) -> Result<Vec<u32>, AllocError>
    ensures { IfOk result (λ v. v.items ≡ ids_started groups.now) }
{
    let mut ids = Vec::new(alloc);
    for group in groups {
        add_ids(&mut ids, group.threads.as_slice())?;
    }
    Ok(ids)
}

fn add_ids(ids: &mut Vec<u32>, threads: &[(u32, SigSet)]) -> Result<(), AllocError>
    ensures { OnOk result (ids.new.items ≡ ids.old.items ++ map (λ t. t.0) threads.now) }
{
    for thread in threads {
        ids.push(thread.0)?;
    }
    Ok(())
}

fn some_acts_twice(alloc: Global, groups: &[GroupStart]) -> Result<bool, AllocError>
    ensures { IfOk result
        (λ b. b ≡ list_any (λ g. not (no_repeat (map (λ a. a.0) g.actions))) groups.now) }
{
    for group in groups {
        if acts_twice(alloc, group.actions.as_slice())? {
            return Ok(true);
        }
    }
    Ok(false)
}

/// Tells whether two actions are of one signal.
pub fn acts_twice(alloc: Global, actions: &[(Signal, Action)]) -> Result<bool, AllocError>
    ensures { IfOk result (λ b. b ≡ not (no_repeat (map (λ a. a.0) actions.now))) }
{
    let numbers: Vec<u32> = actions
        .iter()
        .map(|action| u32::from(action.0.number()))
        .collect(alloc)?;
    repeats(alloc, &numbers)
}

/// Whether some number stands twice.
fn repeats(alloc: Global, numbers: &[u32]) -> Result<bool, AllocError>
    ensures { IfOk result (λ b. b ≡ not (no_repeat numbers.now)) }
{
    let mut seen = BTreeSet::new(alloc);
    for number in numbers {
        if !seen.insert(*number)? {
            return Ok(true);
        }
    }
    Ok(false)
}
