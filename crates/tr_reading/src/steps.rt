ghost use Rattle.std.specs.Prelude.{map};
ghost use Rattle.serde_json.specs.View.{view};
ghost use Rattle.tr_reading.specs.Fields.{Gives};
ghost use Rattle.tr_reading.specs.Steps.{step_among, steps_at, times_of};

use crate::events::event;
use crate::faults::ScenarioFault;
use crate::fields::{FromJson, field, list, no_key_but, number, number_in};
use crate::kinds::{fields_of, kind_at};
use serde_json::Value;
use std::alloc::Global;
use tr_model::Event;
use tr_starts::Items;

/// An event that an actor asks for some times, one after the other.
#[derive(Clone, Copy, Debug, PartialEq, Eq)]
pub struct Step {
    /// Who asks, 1 or more.
    pub actor: u32,
    pub event: Event,
    /// How often, 1 to 100,000.
    pub times: u32,
}

impl FromJson for Step {
    ghost use Rattle.tr_reading.specs.Steps.{step_of};

    ghost reads = { step_of };

    #[tactic(auto, unfolding(crate::specs::Steps::step_of))]
    fn from_json(alloc: Global, value: &Value) -> Result<Step, ScenarioFault> {
        step_among(alloc, value, &["actor", "do", "times"])
    }
}

/// Reads a step that may have these keys beside its event's fields.
#[tactic(auto, unfolding(crate::specs::Steps::step_among))]
pub fn step_among(alloc: Global, value: &Value, keys: &[&str]) -> Result<Step, ScenarioFault>
    ensures { Gives (λ s. s) result (step_among (map (λ k. k.now) keys.now) (view value.now)) }
{
    let actor = number(value, "actor", 1, u32::MAX)?;
    let kind = kind_at(value, "do")?;
    let event = event(alloc, kind, value)?;
    let times = times(value)?;
    no_key_but(value, keys, fields_of(kind))?;
    Ok(Step {
        actor,
        event,
        times,
    })
}

/// Reads how often a call is made: once, where there is no such key.
#[tactic(auto, unfolding(crate::specs::Steps::times_of))]
pub fn times(value: &Value) -> Result<u32, ScenarioFault>
    ensures { Gives (λ n. n) result (times_of (view value.now)) }
{
    match value.get("times") {
        None => Ok(1),
        Some(times) => number_in(times, 1, 100000),
    }
}

/// Reads the list of steps at a key. Too many are met before the first of them.
#[tactic(auto, using(crate::proofs::Each::count_of_view), unfolding(crate::specs::Steps::steps_at, crate::specs::Fields::list_of))]
pub fn steps<T: FromJson>(
    alloc: Global,
    object: &Value,
    key: &str,
) -> Result<Items<T>, ScenarioFault>
    ensures { Gives (λ s. s) result (steps_at key.now T.reads (view object.now)) }
{
    let value = field(object, key)?;
    let Some(values) = value.as_array() else {
        return Err(ScenarioFault::BadField);
    };
    if values.len() > 10000 {
        return Err(ScenarioFault::TooLarge);
    }
    list(alloc, value)
}
