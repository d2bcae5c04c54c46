ghost use Rattle.std.specs.Prelude.{◌≡◌};
ghost use Rattle.serde_json.specs.View.{view};
ghost use Rattle.tr_tracee.specs.Threads.{no_options};
ghost use Rattle.tr_reading.specs.Events.{event_of, joined, options_at, which_of};
ghost use Rattle.tr_reading.specs.Fields.{Gives};

use crate::faults::ScenarioFault;
use crate::fields::{FromJson, byte, field, flag, id, list, set, signed};
use crate::groups::how;
use crate::kinds::Kind;
use serde_json::Value;
use std::alloc::Global;
use tr_model::Event;
use tr_starts::Items;
use tr_tracee::Options;
use tr_wait::{WaitFlags, Which};

/// The event of a kind, its fields in the order in which they stand there.
#[tactic(auto, unfolding(crate::specs::Events::event_of))]
pub fn event(alloc: Global, kind: Kind, value: &Value) -> Result<Event, ScenarioFault>
    ensures { Gives (λ e. e) result (event_of kind (view value.now)) }
{
    match kind {
        Kind::Kill => {
            let tgid = id(value, "tgid")?;
            let sig = byte(value, "sig")?;
            Ok(Event::Kill { tgid, sig })
        }
        Kind::Tgkill => {
            let tgid = id(value, "tgid")?;
            let tid = id(value, "tid")?;
            let sig = byte(value, "sig")?;
            Ok(Event::Tgkill { tgid, tid, sig })
        }
        Kind::Sigqueue => {
            let tgid = id(value, "tgid")?;
            let sig = byte(value, "sig")?;
            let value = signed(value, "value")?;
            Ok(Event::Sigqueue { tgid, sig, value })
        }
        Kind::Mask => {
            let tid = id(value, "tid")?;
            let set = set(alloc, value, "set")?;
            Ok(Event::Mask { tid, set })
        }
        Kind::SetAction => {
            let tid = id(value, "tid")?;
            let sig = byte(value, "sig")?;
            let how = how(value, "how")?;
            Ok(Event::SetAction { tid, sig, how })
        }
        Kind::Pause => {
            let tid = id(value, "tid")?;
            Ok(Event::Pause { tid })
        }
        Kind::Take => {
            let tid = id(value, "tid")?;
            Ok(Event::Take { tid })
        }
        Kind::TakeAny => {
            let tgid = id(value, "tgid")?;
            Ok(Event::TakeAny { tgid })
        }
        Kind::Halt => {
            let tid = id(value, "tid")?;
            Ok(Event::Halt { tid })
        }
        Kind::Trap => {
            let tid = id(value, "tid")?;
            Ok(Event::Trap { tid })
        }
        Kind::Die => {
            let tid = id(value, "tid")?;
            Ok(Event::Die { tid })
        }
        Kind::CloneThread => {
            let tid = id(value, "tid")?;
            Ok(Event::CloneThread { tid })
        }
        Kind::Exec => {
            let tid = id(value, "tid")?;
            Ok(Event::Exec { tid })
        }
        Kind::Finish => {
            let tid = id(value, "tid")?;
            Ok(Event::Finish { tid })
        }
        Kind::Exit => {
            let tid = id(value, "tid")?;
            let code = id(value, "code")?;
            Ok(Event::Exit { tid, code })
        }
        Kind::ExitGroup => {
            let tid = id(value, "tid")?;
            let code = id(value, "code")?;
            Ok(Event::ExitGroup { tid, code })
        }
        Kind::Attach => {
            let tid = id(value, "tid")?;
            Ok(Event::Attach { tid })
        }
        Kind::Seize => {
            let tid = id(value, "tid")?;
            let options = options(alloc, value, "options")?;
            Ok(Event::Seize { tid, options })
        }
        Kind::Interrupt => {
            let tid = id(value, "tid")?;
            Ok(Event::Interrupt { tid })
        }
        Kind::Cont => {
            let tid = id(value, "tid")?;
            let sig = byte(value, "sig")?;
            Ok(Event::Cont { tid, sig })
        }
        Kind::Listen => {
            let tid = id(value, "tid")?;
            Ok(Event::Listen { tid })
        }
        Kind::Detach => {
            let tid = id(value, "tid")?;
            let sig = byte(value, "sig")?;
            Ok(Event::Detach { tid, sig })
        }
        Kind::SetOptions => {
            let tid = id(value, "tid")?;
            let options = options(alloc, value, "options")?;
            Ok(Event::SetOptions { tid, options })
        }
        Kind::EventMessage => {
            let tid = id(value, "tid")?;
            Ok(Event::EventMessage { tid })
        }
        Kind::SignalInfo => {
            let tid = id(value, "tid")?;
            Ok(Event::SignalInfo { tid })
        }
        Kind::TracerExit => Ok(Event::TracerExit),
        Kind::Wait => {
            let tid = id(value, "tid")?;
            Ok(Event::Wait { which: which(tid) })
        }
        Kind::StarterWait => {
            let tgid = id(value, "tgid")?;
            let untraced = flag(value, "untraced")?;
            let continued = flag(value, "continued")?;
            let flags = WaitFlags {
                untraced,
                continued,
            };
            Ok(Event::StarterWait {
                which: which(tgid),
                flags,
            })
        }
    }
}

/// What a wait by this id asks for: 0 is any.
fn which(id: u32) -> Which
    ensures { result ≡ which_of id }
{
    if id == 0 { Which::Any } else { Which::One(id) }
}

/// The list of options at a key, all together.
#[tactic(auto, unfolding(crate::specs::Events::options_at))]
pub fn options(alloc: Global, object: &Value, key: &str) -> Result<Options, ScenarioFault>
    ensures { Gives (λ o. o) result (options_at key.now (view object.now)) }
{
    let all: Items<Options> = list(alloc, field(object, key)?)?;
    Ok(joined(all.as_slice()))
}

fn joined(all: &[Options]) -> Options
    ensures { result ≡ joined no_options all.now }
{
    let mut joined = Options::NONE;
    for options in all {
        joined.clone |= options.clone;
        joined.exec |= options.exec;
        joined.exit |= options.exit;
        joined.exitkill |= options.exitkill;
    }
    joined
}

impl FromJson for Options {
    ghost use Rattle.tr_reading.specs.Events.{option_of};

    ghost reads = { option_of };

    /// One option alone.
    #[tactic(auto, unfolding(crate::specs::Events::option_of))]
    fn from_json(_alloc: Global, value: &Value) -> Result<Options, ScenarioFault> {
        let Some(text) = value.as_str() else {
            return Err(ScenarioFault::BadField);
        };
        let mut options = Options::NONE;
        if text == "clone" {
            options.clone = true;
        } else if text == "exec" {
            options.exec = true;
        } else if text == "exit" {
            options.exit = true;
        } else if text == "exitkill" {
            options.exitkill = true;
        } else {
            return Err(ScenarioFault::BadField);
        }
        Ok(options)
    }
}
