ghost use Rattle.std.specs.Prelude.{◌≡◌, OnOk};
ghost use Rattle.serde_json.specs.View.{members_view};
ghost use Rattle.tr_encoding.specs.Calls.{action_name, fields, id_of, with_fields};
ghost use Rattle.tr_encoding.specs.Private.{IsInRange};

use crate::objects::{put_array, put_number, put_text};
use crate::sets::{options, signals};
use serde_json::{Map, Value, put};
use std::alloc::{AllocError, Global};
use tr_group::Action;
use tr_model::Event;
use tr_wait::Which;

/// Puts what an event's step has beside its actor and its name.
pub(crate) fn put_fields(
    object: &mut Map<String, Value>,
    alloc: Global,
    event: &Event,
) -> Result<(), AllocError>
    ensures fields { OnOk result (members_view object.new.entries
        ≡ with_fields (fields event.now) (members_view object.old.entries)) }
    ensures range { OnOk result (IsInRange event.now) }
{
    match *event {
        Event::Kill { tgid, sig } => {
            put_number(object, alloc, "tgid", tgid)?;
            put_number(object, alloc, "sig", u32::from(sig))
        }
        Event::Tgkill { tgid, tid, sig } => {
            put_number(object, alloc, "tgid", tgid)?;
            put_number(object, alloc, "tid", tid)?;
            put_number(object, alloc, "sig", u32::from(sig))
        }
        Event::Sigqueue { tgid, sig, value } => {
            put_number(object, alloc, "tgid", tgid)?;
            put_number(object, alloc, "sig", u32::from(sig))?;
            put(object, alloc, "value", Value::from(value))
        }
        Event::Mask { tid, set } => {
            put_number(object, alloc, "tid", tid)?;
            put_array(object, alloc, "set", signals(alloc, set)?)
        }
        Event::SetAction { tid, sig, how } => {
            put_number(object, alloc, "tid", tid)?;
            put_number(object, alloc, "sig", u32::from(sig))?;
            put_text(object, alloc, "how", action_name(how))
        }
        Event::Cont { tid, sig } | Event::Detach { tid, sig } => {
            put_number(object, alloc, "tid", tid)?;
            put_number(object, alloc, "sig", u32::from(sig))
        }
        Event::Exit { tid, code } | Event::ExitGroup { tid, code } => {
            put_number(object, alloc, "tid", tid)?;
            put_number(object, alloc, "code", code)
        }
        Event::Seize { tid, options: set } | Event::SetOptions { tid, options: set } => {
            put_number(object, alloc, "tid", tid)?;
            put_array(object, alloc, "options", options(alloc, &set)?)
        }
        Event::Wait { which } => put_number(object, alloc, "tid", id_of(which)),
        Event::StarterWait { which, flags } => {
            put_number(object, alloc, "tgid", id_of(which))?;
            put(object, alloc, "untraced", Value::from(flags.untraced))?;
            put(object, alloc, "continued", Value::from(flags.continued))
        }
        Event::TakeAny { tgid } => put_number(object, alloc, "tgid", tgid),
        Event::TracerExit => Ok(()),
        Event::Pause { tid }
        | Event::Take { tid }
        | Event::Halt { tid }
        | Event::Trap { tid }
        | Event::Die { tid }
        | Event::CloneThread { tid }
        | Event::Exec { tid }
        | Event::Finish { tid }
        | Event::Attach { tid }
        | Event::Interrupt { tid }
        | Event::Listen { tid }
        | Event::EventMessage { tid }
        | Event::SignalInfo { tid } => put_number(object, alloc, "tid", tid),
    }
}

/// Gives the id that a wait asks for: 0 asks for any.
fn id_of(which: Which) -> u32
    ensures { result ≡ id_of which }
{
    match which {
        Which::Any => 0,
        Which::One(id) => id,
    }
}

/// Names an action.
fn action_name(how: Action) -> &'static str
    ensures { result.now ≡ action_name how }
{
    match how {
        Action::Default => "default",
        Action::Ignore => "ignore",
        Action::Catch => "catch",
    }
}
