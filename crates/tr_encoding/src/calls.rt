ghost use Rattle.std.specs.Prelude.{◌≡◌, IfOk};
ghost use Rattle.serde_json.specs.View.{view};
ghost use Rattle.tr_encoding.specs.Calls.{IsReadBack, call_data};

use crate::events::put_fields;
use crate::objects::{put_number, put_text};
use serde_json::{Map, Value};
use std::alloc::{AllocError, Global};
use std::marker::Model;
use tr_model::Event;
use tr_reading::event_name;

/// An event that an actor asks for. Contracts see the model's call.
#[derive(Clone, Copy, Debug, PartialEq, Eq)]
pub struct Call {
    /// Who asks.
    pub actor: u32,
    pub event: Event,
}

impl Model for Call {
    ghost use Rattle.tr_model.specs.Runs as runs;

    ghost Value = { runs.Call };

    ghost view = { λ c. record { actor = c.actor; event = c.event } };

    ghost inverse = { λ c. record { actor = c.actor; event = c.event } };
}

/// Makes the object of the step that makes a call once: `actor`, `do`, and the event's fields.
///
/// It is read as that step, unless the actor is 0, or a wait asks for the id 0 itself: there 0 asks for any.
#[tactic(auto, using(crate::proofs::ReadBack::reads_back))]
pub fn call_value(alloc: Global, call: &Call) -> Result<Value, AllocError>
    ensures value { IfOk result (λ v. view v ≡ call_data call.now) }
    ensures reads_back { IfOk result (λ _. IsReadBack call.now) }
{
    let mut object = Map::new(alloc);
    put_number(&mut object, alloc, "actor", call.actor)?;
    put_text(&mut object, alloc, "do", event_name(&call.event))?;
    put_fields(&mut object, alloc, &call.event)?;
    Ok(Value::Object(object))
}
