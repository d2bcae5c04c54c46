ghost use Rattle.std.specs.Prelude.{◌≡◌, ◌++◌, OnOk, Ok, Some, option_map};
ghost use Rattle.serde_json.specs.View.{view};
ghost use Rattle.tr_live.specs.Mistakes.{command_mistake, opening_fields_mistake, opening_mistake, opening_mistake_of, shown_mistake, status_mistake};

use crate::commands::Command;
use serde_json::Value;
use std::alloc::{AllocError, Global};
use tr_mistakes::{
    Mistaken, Wanted, is_object, push_bad_start, push_keys_mistake, push_object_wanted,
    push_start_mistake, push_twice, push_wanted_at, refused,
};
use tr_reading::fields::{id, no_key_but, number};
use tr_reading::{ScenarioFault, Step, repeats_in_start, start};
use tr_scenario::Page;
use tr_starts::Start;

/// What opens a dialogue: a scenario without steps.
pub(crate) struct Opening;

const SHOWN: &[u8] = b".show: `status`, `totals` or `table` is wanted";

const OPENING_KEYS: [&str; 4] = ["version", "limit", "entries", "groups"];

impl Mistaken for Opening {
    ghost mistake = { opening_mistake };

    fn push_mistake(alloc: Global, page: &mut Page, value: &Value) -> Result<(), AllocError> {
        if !is_object(value) {
            return push_object_wanted(page);
        }
        push_opening_mistake(alloc, page, value)
    }
}

fn push_opening_mistake(alloc: Global, page: &mut Page, object: &Value) -> Result<(), AllocError>
    ensures { OnOk result (page.new ≡ page.old ++ opening_fields_mistake (view object.now)) }
{
    if refused(number(object, "version", 1, 1))? {
        return push_wanted_at(page, object, "version", b": 1 is wanted");
    }
    match start(alloc, object) {
        Ok(start) => push_started_mistake(alloc, page, object, &start),
        Err(ScenarioFault::NoMemory) => Err(AllocError),
        Err(_) => push_start_mistake(alloc, page, object),
    }
}

/// Appends what is wrong once the start's fields are read.
fn push_started_mistake(
    alloc: Global,
    page: &mut Page,
    object: &Value,
    start: &Start,
) -> Result<(), AllocError>
    ensures { OnOk result
        (page.new ≡ page.old ++ opening_mistake_of (Ok start.now) (view object.now)) }
{
    if refused(no_key_but(object, &OPENING_KEYS, &[]))? {
        return push_keys_mistake(page, object, &OPENING_KEYS, &[]);
    }
    let groups = start.groups.as_slice();
    if repeats_in_start(alloc, start)? {
        return push_twice(alloc, page, groups);
    }
    push_bad_start(page, groups)
}

impl Mistaken for Command {
    ghost mistake = { command_mistake };

    fn push_mistake(alloc: Global, page: &mut Page, value: &Value) -> Result<(), AllocError> {
        match value.get("show") {
            None => Step::push_mistake(alloc, page, value),
            Some(shown) => push_shown_mistake(alloc, page, value, shown.as_str()),
        }
    }
}

fn push_shown_mistake(
    alloc: Global,
    page: &mut Page,
    object: &Value,
    name: Option<&str>,
) -> Result<(), AllocError>
    ensures { OnOk result
        (page.new
        ≡ page.old ++ shown_mistake (option_map (λ n. n.now) name.entry) (view object.now)) }
{
    match name {
        Some(name) => push_named_mistake(alloc, page, object, name),
        None => page.push(SHOWN),
    }
}

/// Appends what is wrong with a command that asks for what has this name.
fn push_named_mistake(
    alloc: Global,
    page: &mut Page,
    object: &Value,
    name: &str,
) -> Result<(), AllocError>
    ensures { OnOk result
        (page.new ≡ page.old ++ shown_mistake (Some name.now) (view object.now)) }
{
    if name == "status" {
        push_status_mistake(alloc, page, object)
    } else if name == "totals" || name == "table" {
        push_keys_mistake(page, object, &["show"], &[])
    } else {
        page.push(SHOWN)
    }
}

fn push_status_mistake(alloc: Global, page: &mut Page, object: &Value) -> Result<(), AllocError>
    ensures { OnOk result (page.new ≡ page.old ++ status_mistake (view object.now)) }
{
    if refused(id(object, "tid"))? {
        return Wanted::Id.push_mistake(alloc, page, object, "tid");
    }
    push_keys_mistake(page, object, &["show", "tid"], &[])
}
