ghost use Rattle.serde_json.specs.View.{view};
ghost use Rattle.tr_reading.specs.Fields.{Gives, text_at};
ghost use Rattle.tr_reading.specs.Groups.{how_at};

use crate::faults::ScenarioFault;
use crate::fields::{FromJson, field, id, list, no_key_but, set, signal, text};
use serde_json::Value;
use std::alloc::Global;
use tr_group::Action;
use tr_sigset::{SigSet, Signal};
use tr_starts::{GroupStart, Items};

impl FromJson for GroupStart {
    ghost use Rattle.tr_reading.specs.Groups.{group_of};

    ghost reads = { group_of };

    #[tactic(auto, unfolding(crate::specs::Groups::group_of))]
    fn from_json(alloc: Global, value: &Value) -> Result<GroupStart, ScenarioFault> {
        let tgid = id(value, "tgid")?;
        let name = name(alloc, value, "name")?;
        let threads = list(alloc, field(value, "threads")?)?;
        let actions = list(alloc, field(value, "actions")?)?;
        no_key_but(value, &["tgid", "name", "threads", "actions"], &[])?;
        Ok(GroupStart {
            tgid,
            name,
            actions,
            threads,
        })
    }
}

impl FromJson for (u32, SigSet) {
    ghost use Rattle.tr_reading.specs.Groups.{thread_of};

    ghost reads = { thread_of };

    #[tactic(auto, unfolding(crate::specs::Groups::thread_of))]
    fn from_json(alloc: Global, value: &Value) -> Result<(u32, SigSet), ScenarioFault> {
        let tid = id(value, "tid")?;
        let blocked = set(alloc, value, "blocked")?;
        no_key_but(value, &["tid", "blocked"], &[])?;
        Ok((tid, blocked))
    }
}

impl FromJson for (Signal, Action) {
    ghost use Rattle.tr_reading.specs.Groups.{action_of};

    ghost reads = { action_of };

    #[tactic(auto, unfolding(crate::specs::Groups::action_of))]
    fn from_json(_alloc: Global, value: &Value) -> Result<(Signal, Action), ScenarioFault> {
        let sig = signal(value, "sig")?;
        let how = how(value, "how")?;
        no_key_but(value, &["sig", "how"], &[])?;
        Ok((sig, how))
    }
}

/// The bytes of the text at a key.
fn name(alloc: Global, object: &Value, key: &str) -> Result<Items<u8>, ScenarioFault>
    ensures { Gives (λ n. n) result (text_at key.now (view object.now)) }
{
    let text = text(object, key)?;
    Ok(Items::from_vec(Vec::from_slice(alloc, text.as_bytes())?))
}

/// The action at a key.
#[tactic(auto, unfolding(crate::specs::Groups::how_at))]
pub fn how(object: &Value, key: &str) -> Result<Action, ScenarioFault>
    ensures { Gives (λ a. a) result (how_at key.now (view object.now)) }
{
    let text = text(object, key)?;
    if text == "default" {
        Ok(Action::Default)
    } else if text == "ignore" {
        Ok(Action::Ignore)
    } else if text == "catch" {
        Ok(Action::Catch)
    } else {
        Err(ScenarioFault::BadField)
    }
}
