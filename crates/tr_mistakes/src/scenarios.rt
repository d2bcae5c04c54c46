ghost use Rattle.std.specs.Prelude.{◌≡◌, ◌++◌, ◌&&◌, OnOk, Ok, Some, nat_le, option_map};
ghost use Rattle.serde_json.specs.View.{items_view, view};
ghost use Rattle.tr_reading.specs.Steps.{count_of};
ghost use Rattle.tr_mistakes.specs.Scenarios.{fields_of_scenario_mistake, job_mistake, scenario_mistake, steps_listed, steps_mistake, version_mistake, workers_listed, workers_mistake};

use crate::groups::push_start_mistake;
use crate::lists::{Mistaken, push_refused_member, refused};
use crate::parts::{is_object, push_key, push_keys_mistake, push_number_at, push_object_wanted};
use crate::wholes::push_whole_mistake;
use serde_json::Value;
use std::alloc::{AllocError, Global};
use tr_reading::fields::number;
use tr_reading::scenarios::{job_key, job_of, start, walk};
use tr_reading::{Scenario, ScenarioFault, Step};
use tr_scenario::Page;
use tr_workers::Script;

impl Mistaken for Scenario {
    ghost mistake = { scenario_mistake };

    fn push_mistake(alloc: Global, page: &mut Page, value: &Value) -> Result<(), AllocError> {
        match walk(alloc, value) {
            Ok(scenario) => push_whole_mistake(alloc, page, &scenario),
            Err(ScenarioFault::NoMemory) => Err(AllocError),
            Err(_) if !is_object(value) => push_object_wanted(page),
            Err(_) => push_walked_mistake(alloc, page, value),
        }
    }
}

fn push_walked_mistake(alloc: Global, page: &mut Page, object: &Value) -> Result<(), AllocError>
    ensures { OnOk result (page.new ≡ page.old ++ fields_of_scenario_mistake (view object.now)) }
{
    match number(object, "version", 1, 2) {
        Ok(version) => push_version_mistake(alloc, page, version, object),
        Err(ScenarioFault::NoMemory) => Err(AllocError),
        Err(_) => push_number_at(page, object, "version", 1, 2),
    }
}

/// Appends the first mistake of a scenario behind its version.
fn push_version_mistake(
    alloc: Global,
    page: &mut Page,
    version: u32,
    object: &Value,
) -> Result<(), AllocError>
    ensures { OnOk result
        (page.new ≡ page.old ++ version_mistake (Ok version) (view object.now)) }
{
    if refused(start(alloc, object))? {
        return push_start_mistake(alloc, page, object);
    }
    if refused(job_of(alloc, version, object))? {
        return push_job_mistake(alloc, page, version, object);
    }
    let keys = ["version", "limit", "entries", "groups", job_key(version)];
    push_keys_mistake(page, object, &keys, &[])
}

fn push_job_mistake(
    alloc: Global,
    page: &mut Page,
    version: u32,
    object: &Value,
) -> Result<(), AllocError>
    ensures { OnOk result (page.new ≡ page.old ++ job_mistake version (view object.now)) }
{
    if version == 1 {
        push_key(page, "steps")?;
        push_steps_mistake(alloc, page, object.get("steps"))
    } else {
        push_key(page, "workers")?;
        push_workers_mistake(alloc, page, object.get("workers"))
    }
}

fn push_steps_mistake(
    alloc: Global,
    page: &mut Page,
    steps: Option<&Value>,
) -> Result<(), AllocError>
    ensures { OnOk result
        (page.new ≡ page.old ++ steps_mistake (option_map (λ v. view v.now) steps.entry)) }
{
    let Some(steps) = steps else {
        return page.push(b": is missing");
    };
    match steps.as_array() {
        Some(values) => push_few_steps(alloc, page, values),
        None => page.push(b": a list is wanted"),
    }
}

#[tactic(auto, using(tr_reading::proofs::Each::count_of_view))]
fn are_few_steps(steps: &[Value]) -> bool
    ensures { result ≡ nat_le (count_of (items_view steps.now)) 10000 }
{
    steps.len() <= 10000
}

/// Appends the first mistake of steps, or that they are too many.
fn push_few_steps(alloc: Global, page: &mut Page, steps: &[Value]) -> Result<(), AllocError>
    ensures { OnOk result (page.new ≡ page.old ++ steps_listed (Some (items_view steps.now))) }
{
    if are_few_steps(steps) {
        push_refused_member::<Step>(alloc, page, steps)
    } else {
        page.push(b": more than 10000 steps")
    }
}

fn push_workers_mistake(
    alloc: Global,
    page: &mut Page,
    workers: Option<&Value>,
) -> Result<(), AllocError>
    ensures { OnOk result
        (page.new ≡ page.old ++ workers_mistake (option_map (λ v. view v.now) workers.entry)) }
{
    let Some(workers) = workers else {
        return page.push(b": is missing");
    };
    match workers.as_array() {
        Some(values) => push_few_workers(alloc, page, values),
        None => page.push(b": a list is wanted"),
    }
}

#[tactic(auto, using(tr_reading::proofs::Each::count_of_view))]
fn are_few_workers(workers: &[Value]) -> bool
    ensures { result
        ≡ (nat_le 1 (count_of (items_view workers.now)) && nat_le
        (count_of (items_view workers.now)) 64) }
{
    1 <= workers.len() && workers.len() <= 64
}

/// Appends the first mistake of workers, or that they are too few or too many.
fn push_few_workers(alloc: Global, page: &mut Page, workers: &[Value]) -> Result<(), AllocError>
    ensures { OnOk result
        (page.new ≡ page.old ++ workers_listed (Some (items_view workers.now))) }
{
    if are_few_workers(workers) {
        push_refused_member::<Script>(alloc, page, workers)
    } else {
        page.push(b": 1 to 64 workers are wanted")
    }
}
