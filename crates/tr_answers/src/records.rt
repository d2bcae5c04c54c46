ghost use Rattle.std.specs.Prelude.{◌≡◌, ◌<◌, ◌≤◌, length, map, nat_le, IfErr};
ghost use Rattle.serde_json.specs.View.{view};
ghost use Rattle.tr_reading.specs.declared.faults.ScenarioFault.TheVariants.{NoMemory};
ghost use Rattle.tr_reading.specs.Fields.{Gives};
ghost use Rattle.tr_reading.specs.Scenarios.{IsExact, calls_of_steps};
ghost use Rattle.tr_answers.specs.Records.{answer_of, record_in, record_of, walk, whole_record};

use crate::expected::Expected;
use serde_json::Value;
use std::alloc::Global;
use tr_reading::fields::{FromJson, no_key_but, number};
use tr_reading::steps::{step_among, steps};
use tr_reading::{ScenarioFault, Step, json, repeats_in_start, start};
use tr_starts::{Items, Start};

/// A step, and what another system answered to each of its calls, where that is known.
#[derive(Drop)]
pub struct Answered {
    pub step: Step,
    pub answer: Option<Expected>,
}

/// Where a kernel starts from, and what was answered to its calls.
#[derive(Drop)]
pub struct Record {
    pub start: Start,
    pub steps: Items<Answered>,
}

impl FromJson for Answered {
    ghost use Rattle.tr_answers.specs.Records.{answered_of};

    ghost reads = { answered_of };

    #[tactic(auto, unfolding(crate::specs::Records::answered_of))]
    fn from_json(alloc: Global, value: &Value) -> Result<Answered, ScenarioFault> {
        let step = step_among(alloc, value, &["actor", "do", "times", "answer"])?;
        let answer = answer(alloc, value)?;
        Ok(Answered { step, answer })
    }
}

/// Reads what was answered, where there is such a key.
#[tactic(auto, unfolding(crate::specs::Records::answer_of))]
fn answer(alloc: Global, value: &Value) -> Result<Option<Expected>, ScenarioFault>
    ensures { Gives (λ a. a) result (answer_of (view value.now)) }
{
    let Some(answer) = value.get("answer") else {
        return Ok(None);
    };
    match answer.as_str() {
        Some(text) => Ok(Some(Expected::new(alloc, text)?)),
        None => Err(ScenarioFault::BadField),
    }
}

/// Reads the record that these bytes are: a scenario of version 1, in which a step may have a text at `answer`. An `Err`
/// is the first fault in the order of `tr_reading::read`, or `NoMemory`, where memory was refused before that was met.
pub fn read(alloc: Global, bytes: &[u8]) -> Result<Record, ScenarioFault>
    ensures gives { Gives (λ r. r) result (record_of bytes.now) }
    ensures not_json { IsExact bytes.now result }
    ensures memory { IfErr result
        (λ e. e ≡ NoMemory → (0 < length bytes.now) × (length bytes.now ≤ 1048576)) }
{
    let (_value, record) = read_with_value(alloc, bytes)?;
    Ok(record)
}

/// Reads a record as `read` does, and gives the JSON value that it was read from beside it.
#[tactic(auto, unfolding(crate::specs::Records::record_of))]
pub(crate) fn read_with_value(alloc: Global, bytes: &[u8]) -> Result<(Value, Record), ScenarioFault>
    ensures gives { Gives (λ p. p.1) result (record_of bytes.now) }
    ensures memory { IfErr result
        (λ e. e ≡ NoMemory → (0 < length bytes.now) × (length bytes.now ≤ 1048576)) }
{
    if bytes.len() > 1048576 {
        return Err(ScenarioFault::TooLarge);
    }
    let value = json(alloc, bytes)?;
    let record = read_from(alloc, &value)?;
    Ok((value, record))
}

/// Reads the record that a JSON value is.
fn read_from(alloc: Global, value: &Value) -> Result<Record, ScenarioFault>
    ensures { Gives (λ r. r) result (record_in (view value.now)) }
{
    let record = walk(alloc, value)?;
    whole(alloc, record)
}

/// Reads a record, field by field.
#[tactic(auto, unfolding(crate::specs::Records::walk))]
fn walk(alloc: Global, value: &Value) -> Result<Record, ScenarioFault>
    ensures { Gives (λ r. r) result (walk (view value.now)) }
{
    number(value, "version", 1, 1)?;
    let start = start(alloc, value)?;
    let steps = steps(alloc, value, "steps")?;
    let keys = ["version", "limit", "entries", "groups", "steps"];
    no_key_but(value, &keys, &[])?;
    Ok(Record { start, steps })
}

/// The record, where its calls and its start are as a scenario's have to be.
#[tactic(auto, unfolding(crate::specs::Records::whole_record, tr_reading::specs::Scenarios::whole))]
fn whole(alloc: Global, record: Record) -> Result<Record, ScenarioFault>
    ensures { Gives (λ r. r) result (whole_record «record») }
{
    if !are_few(record.steps.as_slice()) {
        return Err(ScenarioFault::TooLarge);
    }
    if repeats_in_start(alloc, &record.start)? {
        return Err(ScenarioFault::Repeated);
    }
    if !record.start.is_good() {
        return Err(ScenarioFault::BadStart);
    }
    Ok(record)
}

/// Tells whether the steps are at most 100,000 calls.
fn are_few(steps: &[Answered]) -> bool
    ensures { result ≡ nat_le (calls_of_steps (map (λ a. a.step) steps.now)) 100000 }
{
    let mut calls: u64 = 0;
    for answered in steps {
        calls += answered.step.times as u64;
        if calls > 100000 {
            return false;
        }
    }
    true
}
