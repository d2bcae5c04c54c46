ghost use Rattle.std.specs.Prelude.{◌≡◌, ◌++◌, IfOk, OnOk, codes, is_err, map};
ghost use Rattle.serde_json.specs.Find.{get};
ghost use Rattle.serde_json.specs.View.{view};
ghost use Rattle.tr_reading.specs.Events.{event_of};
ghost use Rattle.tr_mistakes.specs.Events.{fields_mistake, item_mistake, made_mistake, op_mistake, option_mistake, planned_mistake, repeat_mistake, op_fields_mistake, signal_mistake, step_fields_mistake, step_mistake};

use crate::lists::{Mistaken, refused};
use crate::parts::{
    is_object, push_keys_mistake, push_number_at, push_object_wanted, push_wanted_at,
};
use crate::wanted::Wanted;
use serde_json::Value;
use std::alloc::{AllocError, Global};
use tr_model::Event;
use tr_reading::events::event;
use tr_reading::fields::number;
use tr_reading::kinds::{Kind, fields_of, kind_at};
use tr_reading::steps::times;
use tr_reading::workers::{op_kind_at, repeat};
use tr_reading::{ScenarioFault, Step};
use tr_scenario::Page;
use tr_sigset::Signal;
use tr_tracee::Options;
use tr_workers::Item;

const EVENT: &[u8] = b": the name of an event is wanted";

const OP: &[u8] = b": `mask`, `action`, `pause`, `clone`, `exec`, `exit` or `exit_group` is wanted";

impl Mistaken for Signal {
    ghost mistake = { signal_mistake };

    fn push_mistake(_alloc: Global, page: &mut Page, _value: &Value) -> Result<(), AllocError> {
        page.push(b": a signal, 1 to 64, is wanted")
    }
}

impl Mistaken for Options {
    ghost mistake = { option_mistake };

    fn push_mistake(_alloc: Global, page: &mut Page, _value: &Value) -> Result<(), AllocError> {
        page.push(b": `clone`, `exec`, `exit` or `exitkill` is wanted")
    }
}

/// Appends the mistake of the first of these fields that is refused.
fn push_fields_mistake(
    alloc: Global,
    page: &mut Page,
    object: &Value,
    keys: &[&str],
) -> Result<(), AllocError>
    ensures { OnOk result
        (page.new ≡ page.old ++ fields_mistake (map (λ k. k.now) keys.now) (view object.now)) }
{
    for key in keys {
        let wanted = Wanted::of(key);
        if wanted.is_refused(alloc, object, key)? {
            return wanted.push_mistake(alloc, page, object, key);
        }
    }
    Ok(())
}

fn is_event_refused(alloc: Global, kind: Kind, object: &Value) -> Result<bool, AllocError>
    ensures { IfOk result (λ b. b ≡ is_err (event_of kind (view object.now))) }
{
    refused(event(alloc, kind, object))
}

impl Mistaken for Step {
    ghost mistake = { step_mistake };

    fn push_mistake(alloc: Global, page: &mut Page, value: &Value) -> Result<(), AllocError> {
        if !is_object(value) {
            return push_object_wanted(page);
        }
        push_step_mistake(alloc, page, value, &["actor", "do", "times"])
    }
}

/// Appends the first mistake of a step that may have these keys beside its event's fields.
fn push_step_mistake(
    alloc: Global,
    page: &mut Page,
    object: &Value,
    keys: &[&str],
) -> Result<(), AllocError>
    ensures { OnOk result
        (page.new
        ≡ page.old ++ step_fields_mistake (map (λ k. k.now) keys.now) (view object.now)) }
{
    if refused(number(object, "actor", 1, u32::MAX))? {
        return push_number_at(page, object, "actor", 1, u32::MAX);
    }
    match kind_at(object, "do") {
        Ok(kind) => push_made_mistake(alloc, page, object, kind, keys),
        Err(ScenarioFault::NoMemory) => Err(AllocError),
        Err(_) => push_wanted_at(page, object, "do", EVENT),
    }
}

/// Appends the first mistake of a step behind its event's name.
fn push_made_mistake(
    alloc: Global,
    page: &mut Page,
    object: &Value,
    kind: Kind,
    keys: &[&str],
) -> Result<(), AllocError>
    ensures { OnOk result
        (page.new
        ≡ page.old ++ made_mistake (map (λ k. k.now) keys.now) kind (view object.now)) }
{
    if is_event_refused(alloc, kind, object)? {
        return push_fields_mistake(alloc, page, object, fields_of(kind));
    }
    if refused(times(object))? {
        return push_number_at(page, object, "times", 1, 100000);
    }
    push_keys_mistake(page, object, keys, fields_of(kind))
}

impl Mistaken for Item {
    ghost mistake = { item_mistake };

    fn push_mistake(alloc: Global, page: &mut Page, value: &Value) -> Result<(), AllocError> {
        if !is_object(value) {
            return push_object_wanted(page);
        }
        match kind_at(value, "do") {
            Ok(kind) => push_planned_mistake(alloc, page, value, kind),
            Err(ScenarioFault::NoMemory) => Err(AllocError),
            Err(_) => push_wanted_at(page, value, "do", EVENT),
        }
    }
}

/// Appends the first mistake of an item behind its event's name.
fn push_planned_mistake(
    alloc: Global,
    page: &mut Page,
    object: &Value,
    kind: Kind,
) -> Result<(), AllocError>
    ensures { OnOk result (page.new ≡ page.old ++ planned_mistake kind (view object.now)) }
{
    if is_event_refused(alloc, kind, object)? {
        return push_fields_mistake(alloc, page, object, fields_of(kind));
    }
    if refused(repeat(object))? {
        return push_repeat_mistake(page, object);
    }
    push_keys_mistake(page, object, &["do", "times", "until"], fields_of(kind))
}

fn push_repeat_mistake(page: &mut Page, object: &Value) -> Result<(), AllocError>
    ensures { OnOk result
        (page.new
        ≡ page.old ++ repeat_mistake (get (codes "until") (view object.now)) (view object.now)) }
{
    match object.get("until") {
        None => push_number_at(page, object, "times", 1, 100000),
        Some(_) => page.push(b".until: true is wanted, and no `times` beside it"),
    }
}

impl Mistaken for Event {
    ghost mistake = { op_mistake };

    fn push_mistake(alloc: Global, page: &mut Page, value: &Value) -> Result<(), AllocError> {
        if !is_object(value) {
            return push_object_wanted(page);
        }
        match op_kind_at(value, "do") {
            Ok(kind) => push_op_mistake(alloc, page, value, kind),
            Err(ScenarioFault::NoMemory) => Err(AllocError),
            Err(_) => push_wanted_at(page, value, "do", OP),
        }
    }
}

/// Appends the first mistake of an op behind its name.
fn push_op_mistake(
    alloc: Global,
    page: &mut Page,
    object: &Value,
    kind: Kind,
) -> Result<(), AllocError>
    ensures { OnOk result (page.new ≡ page.old ++ op_fields_mistake kind (view object.now)) }
{
    if is_event_refused(alloc, kind, object)? {
        return push_fields_mistake(alloc, page, object, fields_of(kind));
    }
    push_keys_mistake(page, object, &["do"], fields_of(kind))
}
