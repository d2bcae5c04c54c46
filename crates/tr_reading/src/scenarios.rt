ghost use Rattle.std.specs.Prelude.{◌≡◌};
ghost use Rattle.serde_json.specs.View.{view};
ghost use Rattle.tr_reading.specs.Fields.{Gives};
ghost use Rattle.tr_reading.specs.Scenarios.{job_key, job_of, start_of, walk};

use crate::faults::ScenarioFault;
use crate::fields::{field, id, list, no_key_but, number};
use crate::steps::{Step, steps};
use crate::workers::workers;
use serde_json::Value;
use std::alloc::Global;
use tr_starts::{Items, Start};
use tr_workers::Script;

/// What is done to a kernel.
#[derive(Drop)]
pub enum Job {
    /// These steps, in order: at most 10,000, and at most 100,000 calls.
    Steps(Items<Step>),
    /// Scripts by worker, 1 to 64, each of another actor. Their items and ops are at most 10,000, and the sum of the
    /// items' times is at most 100,000, where an item that is made until something comes of it counts once.
    Workers(Items<Script>),
}

/// Where a kernel starts from, and what is done to it.
#[derive(Drop)]
pub struct Scenario {
    pub start: Start,
    pub job: Job,
}

/// Reads a scenario, field by field.
#[tactic(auto, unfolding(crate::specs::Scenarios::walk))]
pub fn walk(alloc: Global, value: &Value) -> Result<Scenario, ScenarioFault>
    ensures { Gives (λ s. s) result (walk (view value.now)) }
{
    let version = number(value, "version", 1, 2)?;
    let start = start(alloc, value)?;
    let job = job_of(alloc, version, value)?;
    let keys = ["version", "limit", "entries", "groups", job_key(version)];
    no_key_but(value, &keys, &[])?;
    Ok(Scenario { start, job })
}

/// Reads where a kernel starts from: `limit`, `entries` and `groups`.
#[tactic(auto, unfolding(crate::specs::Scenarios::start_of))]
pub fn start(alloc: Global, value: &Value) -> Result<Start, ScenarioFault>
    ensures { Gives (λ s. s) result (start_of (view value.now)) }
{
    let limit = id(value, "limit")?;
    let entries = id(value, "entries")?;
    let groups = list(alloc, field(value, "groups")?)?;
    Ok(Start {
        groups,
        limit,
        entries,
    })
}

/// Reads the job of a scenario of this version: `steps` or `workers`.
#[tactic(auto, unfolding(crate::specs::Scenarios::job_of))]
pub fn job_of(alloc: Global, version: u32, object: &Value) -> Result<Job, ScenarioFault>
    ensures { Gives (λ j. j) result (job_of version (view object.now)) }
{
    if version == 1 {
        Ok(Job::Steps(steps(alloc, object, "steps")?))
    } else {
        Ok(Job::Workers(workers(alloc, object, "workers")?))
    }
}

/// Gives the key at which the job stands.
pub fn job_key(version: u32) -> &'static str
    ensures { result.now ≡ job_key version }
{
    if version == 1 { "steps" } else { "workers" }
}
