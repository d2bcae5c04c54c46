ghost use Rattle.std.specs.Prelude.{◌≡◌, ◌++◌, OnOk, codes};
ghost use Rattle.serde_json.specs.Find.{get};
ghost use Rattle.serde_json.specs.View.{view};
ghost use Rattle.tr_mistakes.specs.Workers.{plan_mistake, served_fields_mistake, served_mistake, worker_fields_mistake, worker_mistake};

use crate::lists::{Mistaken, is_list_refused, push_list_mistake, push_listed_mistake, refused};
use crate::parts::{is_object, push_key, push_keys_mistake, push_number_at, push_object_wanted};
use crate::wanted::Wanted;
use serde_json::Value;
use std::alloc::{AllocError, Global};
use tr_model::Event;
use tr_reading::fields::{id, number};
use tr_reading::workers::plan;
use tr_scenario::Page;
use tr_workers::{Item, Script, Served};

impl Mistaken for Served {
    ghost mistake = { served_mistake };

    fn push_mistake(alloc: Global, page: &mut Page, value: &Value) -> Result<(), AllocError> {
        if !is_object(value) {
            return push_object_wanted(page);
        }
        push_machine_mistake(alloc, page, value)
    }
}

/// Appends the first mistake of a thread that a machine serves.
fn push_machine_mistake(alloc: Global, page: &mut Page, object: &Value) -> Result<(), AllocError>
    ensures { OnOk result (page.new ≡ page.old ++ served_fields_mistake (view object.now)) }
{
    if refused(id(object, "tid"))? {
        return Wanted::Id.push_mistake(alloc, page, object, "tid");
    }
    if is_list_refused::<Event>(alloc, object, "ops")? {
        return push_list_mistake::<Event>(alloc, page, object, "ops");
    }
    push_keys_mistake(page, object, &["tid", "ops"], &[])
}

impl Mistaken for Script {
    ghost mistake = { worker_mistake };

    fn push_mistake(alloc: Global, page: &mut Page, value: &Value) -> Result<(), AllocError> {
        if !is_object(value) {
            return push_object_wanted(page);
        }
        push_worker_mistake(alloc, page, value)
    }
}

fn push_worker_mistake(alloc: Global, page: &mut Page, object: &Value) -> Result<(), AllocError>
    ensures { OnOk result (page.new ≡ page.old ++ worker_fields_mistake (view object.now)) }
{
    if refused(number(object, "actor", 1, u32::MAX))? {
        return push_number_at(page, object, "actor", 1, u32::MAX);
    }
    if refused(plan(alloc, object))? {
        return push_plan_mistake(alloc, page, object);
    }
    push_keys_mistake(page, object, &["actor", "items", "machine"], &[])
}

fn push_plan_mistake(alloc: Global, page: &mut Page, object: &Value) -> Result<(), AllocError>
    ensures { OnOk result
        (page.new
        ≡ page.old
        ++ plan_mistake
        (get (codes "items") (view object.now)) (get (codes "machine") (view object.now))) }
{
    match (object.get("items"), object.get("machine")) {
        (Some(items), None) => {
            push_key(page, "items")?;
            push_listed_mistake::<Item>(alloc, page, items)
        }
        (None, Some(threads)) => {
            push_key(page, "machine")?;
            push_listed_mistake::<Served>(alloc, page, threads)
        }
        (None, None) => page.push(b": `items` or `machine` is wanted"),
        (Some(_), Some(_)) => page.push(b": `items` or `machine` is wanted, and not both"),
    }
}
