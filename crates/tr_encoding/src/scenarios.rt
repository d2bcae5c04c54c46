ghost use Rattle.std.specs.Prelude.{◌≡◌, ◌⊎◌, All, map, Err, IfErr, IfOk, OnOk};
ghost use Rattle.serde_json.specs.View.{members_view, view};
ghost use Rattle.tr_reading.specs.declared.faults.ScenarioFault.TheVariants.{NoMemory};
ghost use Rattle.tr_reading.specs.Scenarios.{json_of};
ghost use Rattle.tr_encoding.specs.Calls.{IsReadBack, call_data};
ghost use Rattle.tr_encoding.specs.Scenarios.{HasText, ReadsBack, keep, scenario_data};

use crate::calls::{Call, call_value};
use crate::objects::{put_array, put_number};
use serde_json::{Map, Value, put};
use std::alloc::{AllocError, Global};
use tr_reading::{ScenarioFault, json};

/// Writes the scenario that these bytes are with calls in place of what is done there, each a step that makes it once:
/// compact JSON, no newline behind it. The faults are those of bytes that are no JSON, and `NoMemory`.
///
/// It is read as the scenario of these steps where the bytes are a scenario, each call can be read, there are at most
/// 10,000 of them, and the text has at most 1,048,576 bytes.
pub fn scenario_text(alloc: Global, bytes: &[u8], calls: &[Call]) -> Result<Vec<u8>, ScenarioFault>
    ensures text { IfOk result (λ t. HasText bytes.now calls.now t.items) }
    ensures fault { IfErr result (λ e. (e ≡ NoMemory) ⊎ (json_of bytes.now ≡ Err e)) }
    ensures reads_back { IfOk result (λ t. ReadsBack bytes.now calls.now t.items) }
{
    let value = json(alloc, bytes)?;
    let scenario = with_calls(alloc, &value, calls)?;
    Ok(scenario.to_vec(alloc)?)
}

/// Makes the scenario with these calls, each a step, in place of what is done there.
fn with_calls(alloc: Global, scenario: &Value, calls: &[Call]) -> Result<Value, AllocError>
    ensures value { IfOk result (λ v. view v ≡ scenario_data (view scenario.now) calls.now) }
    ensures reads_back { IfOk result (λ _. All IsReadBack calls.now) }
{
    let mut object = Map::new(alloc);
    put_number(&mut object, alloc, "version", 1)?;
    keep(&mut object, alloc, scenario, "limit")?;
    keep(&mut object, alloc, scenario, "entries")?;
    keep(&mut object, alloc, scenario, "groups")?;
    put_array(&mut object, alloc, "steps", call_values(alloc, calls)?)?;
    Ok(Value::Object(object))
}

/// Puts what stands at a key of another object, if it is there.
fn keep(
    object: &mut Map<String, Value>,
    alloc: Global,
    other: &Value,
    key: &str,
) -> Result<(), AllocError>
    ensures { OnOk result (members_view object.new.entries
        ≡ keep key.now (view other.now) (members_view object.old.entries)) }
{
    match other.get(key) {
        Some(value) => put(object, alloc, key, value.clone()?),
        None => Ok(()),
    }
}

/// Makes the object of each call.
fn call_values(alloc: Global, calls: &[Call]) -> Result<Vec<Value>, AllocError>
    ensures values { IfOk result (λ v. map view v.items ≡ map call_data calls.now) }
    ensures reads_back { IfOk result (λ _. All IsReadBack calls.now) }
{
    let mut values = Vec::with_capacity(alloc, calls.len())?;
    for call in calls {
        values.push(call_value(alloc, call)?)?;
    }
    Ok(values)
}
