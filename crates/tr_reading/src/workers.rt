ghost use Rattle.std.specs.Prelude.{◌≡◌};
ghost use Rattle.serde_json.specs.View.{view};
ghost use Rattle.tr_reading.specs.Fields.{Gives};
ghost use Rattle.tr_reading.specs.Workers.{is_op, op_kind_at, plan_of, repeat_of, workers_at};

use crate::events::event;
use crate::faults::ScenarioFault;
use crate::fields::{FromJson, field, id, list, no_key_but, number};
use crate::kinds::{Kind, fields_of, kind_at};
use crate::steps::times;
use serde_json::Value;
use std::alloc::Global;
use tr_model::Event;
use tr_starts::Items;
use tr_workers::{Item, Plan, Repeat, Script, Served};

impl FromJson for Item {
    ghost use Rattle.tr_reading.specs.Workers.{item_of};

    ghost reads = { item_of };

    #[tactic(auto, unfolding(crate::specs::Workers::item_of))]
    fn from_json(alloc: Global, value: &Value) -> Result<Item, ScenarioFault> {
        let kind = kind_at(value, "do")?;
        let event = event(alloc, kind, value)?;
        let repeat = repeat(value)?;
        no_key_but(value, &["do", "times", "until"], fields_of(kind))?;
        Ok(Item { event, repeat })
    }
}

/// Reads how a call is repeated: by `times` or by `until`, not both.
#[tactic(auto, unfolding(crate::specs::Workers::repeat_of, crate::specs::Steps::times_of))]
pub fn repeat(value: &Value) -> Result<Repeat, ScenarioFault>
    ensures { Gives (λ r. r) result (repeat_of (view value.now)) }
{
    let Some(until) = value.get("until") else {
        return Ok(Repeat::Times(times(value)?));
    };
    if value.get("times").is_none() && until.as_bool() == Some(true) {
        Ok(Repeat::Until)
    } else {
        Err(ScenarioFault::BadField)
    }
}

impl FromJson for Event {
    ghost use Rattle.tr_reading.specs.Workers.{op_of};

    ghost reads = { op_of };

    /// Reads an op of a machine.
    #[tactic(auto, unfolding(crate::specs::Workers::op_of))]
    fn from_json(alloc: Global, value: &Value) -> Result<Event, ScenarioFault> {
        let kind = op_kind_at(value, "do")?;
        let event = event(alloc, kind, value)?;
        no_key_but(value, &["do"], fields_of(kind))?;
        Ok(event)
    }
}

/// Reads the kind at a key, where it is an op's.
#[tactic(auto, unfolding(crate::specs::Workers::op_kind_at))]
pub fn op_kind_at(object: &Value, key: &str) -> Result<Kind, ScenarioFault>
    ensures { Gives (λ k. k) result (op_kind_at key.now (view object.now)) }
{
    let kind = kind_at(object, key)?;
    if is_op(kind) {
        Ok(kind)
    } else {
        Err(ScenarioFault::BadField)
    }
}

/// Tells whether a thread that a machine serves may do so by itself.
fn is_op(kind: Kind) -> bool
    ensures { result ≡ is_op kind }
{
    matches!(
        kind,
        Kind::Mask
            | Kind::SetAction
            | Kind::Pause
            | Kind::CloneThread
            | Kind::Exec
            | Kind::Exit
            | Kind::ExitGroup
    )
}

impl FromJson for Served {
    ghost use Rattle.tr_reading.specs.Workers.{served_of};

    ghost reads = { served_of };

    #[tactic(auto, unfolding(crate::specs::Workers::served_of))]
    fn from_json(alloc: Global, value: &Value) -> Result<Served, ScenarioFault> {
        let tid = id(value, "tid")?;
        let ops = list(alloc, field(value, "ops")?)?;
        no_key_but(value, &["tid", "ops"], &[])?;
        Ok(Served { tid, ops })
    }
}

impl FromJson for Script {
    ghost use Rattle.tr_reading.specs.Workers.{worker_of};

    ghost reads = { worker_of };

    #[tactic(auto, unfolding(crate::specs::Workers::worker_of))]
    fn from_json(alloc: Global, value: &Value) -> Result<Script, ScenarioFault> {
        let actor = number(value, "actor", 1, u32::MAX)?;
        let plan = plan(alloc, value)?;
        no_key_but(value, &["actor", "items", "machine"], &[])?;
        Ok(Script { actor, plan })
    }
}

/// Reads where a worker takes its calls from: `items` or `machine`, not both.
#[tactic(auto, unfolding(crate::specs::Workers::plan_of))]
pub fn plan(alloc: Global, value: &Value) -> Result<Plan, ScenarioFault>
    ensures { Gives (λ p. p) result (plan_of (view value.now)) }
{
    match (value.get("items"), value.get("machine")) {
        (Some(items), None) => Ok(Plan::Items(list(alloc, items)?)),
        (None, Some(threads)) => Ok(Plan::Machine(list(alloc, threads)?)),
        _ => Err(ScenarioFault::BadField),
    }
}

/// Reads the list of workers at a key. Too few or too many are met before the first of them.
#[tactic(auto, using(crate::proofs::Each::count_of_view), unfolding(crate::specs::Workers::workers_at, crate::specs::Fields::list_of))]
pub fn workers(alloc: Global, object: &Value, key: &str) -> Result<Items<Script>, ScenarioFault>
    ensures { Gives (λ s. s) result (workers_at key.now (view object.now)) }
{
    let value = field(object, key)?;
    let Some(values) = value.as_array() else {
        return Err(ScenarioFault::BadField);
    };
    if values.is_empty() || values.len() > 64 {
        return Err(ScenarioFault::BadField);
    }
    list(alloc, value)
}
