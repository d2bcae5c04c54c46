ghost use Rattle.std.specs.Prelude.{◌≡◌, ◌++◌, OnOk};
ghost use Rattle.serde_json.specs.View.{view};
ghost use Rattle.tr_mistakes.specs.Groups.{action_fields_mistake, action_mistake, group_fields_mistake, group_lists_mistake, group_mistake, start_fields_mistake, thread_fields_mistake, thread_mistake};

use crate::lists::{Mistaken, is_list_refused, push_list_mistake, refused};
use crate::parts::{is_object, push_keys_mistake, push_object_wanted, push_wanted_at};
use crate::wanted::Wanted;
use serde_json::Value;
use std::alloc::{AllocError, Global};
use tr_group::Action;
use tr_reading::fields::{id, set, signal, text};
use tr_reading::groups::how;
use tr_scenario::Page;
use tr_sigset::{SigSet, Signal};
use tr_starts::GroupStart;

impl Mistaken for (u32, SigSet) {
    ghost mistake = { thread_mistake };

    fn push_mistake(alloc: Global, page: &mut Page, value: &Value) -> Result<(), AllocError> {
        if !is_object(value) {
            return push_object_wanted(page);
        }
        push_thread_mistake(alloc, page, value)
    }
}

fn push_thread_mistake(alloc: Global, page: &mut Page, object: &Value) -> Result<(), AllocError>
    ensures { OnOk result (page.new ≡ page.old ++ thread_fields_mistake (view object.now)) }
{
    if refused(id(object, "tid"))? {
        return Wanted::Id.push_mistake(alloc, page, object, "tid");
    }
    if refused(set(alloc, object, "blocked"))? {
        return Wanted::Signals.push_mistake(alloc, page, object, "blocked");
    }
    push_keys_mistake(page, object, &["tid", "blocked"], &[])
}

impl Mistaken for (Signal, Action) {
    ghost mistake = { action_mistake };

    fn push_mistake(alloc: Global, page: &mut Page, value: &Value) -> Result<(), AllocError> {
        if !is_object(value) {
            return push_object_wanted(page);
        }
        push_action_mistake(alloc, page, value)
    }
}

fn push_action_mistake(alloc: Global, page: &mut Page, object: &Value) -> Result<(), AllocError>
    ensures { OnOk result (page.new ≡ page.old ++ action_fields_mistake (view object.now)) }
{
    if refused(signal(object, "sig"))? {
        let wanted = b": a signal, 1 to 64, is wanted";
        return push_wanted_at(page, object, "sig", wanted);
    }
    if refused(how(object, "how"))? {
        return Wanted::How.push_mistake(alloc, page, object, "how");
    }
    push_keys_mistake(page, object, &["sig", "how"], &[])
}

impl Mistaken for GroupStart {
    ghost mistake = { group_mistake };

    fn push_mistake(alloc: Global, page: &mut Page, value: &Value) -> Result<(), AllocError> {
        if !is_object(value) {
            return push_object_wanted(page);
        }
        push_group_mistake(alloc, page, value)
    }
}

fn push_group_mistake(alloc: Global, page: &mut Page, object: &Value) -> Result<(), AllocError>
    ensures { OnOk result (page.new ≡ page.old ++ group_fields_mistake (view object.now)) }
{
    if refused(id(object, "tgid"))? {
        return Wanted::Id.push_mistake(alloc, page, object, "tgid");
    }
    if refused(text(object, "name"))? {
        return push_wanted_at(page, object, "name", b": a text is wanted");
    }
    push_group_lists_mistake(alloc, page, object)
}

/// Appends the first mistake of the lists of a group, or of its keys.
fn push_group_lists_mistake(
    alloc: Global,
    page: &mut Page,
    object: &Value,
) -> Result<(), AllocError>
    ensures { OnOk result (page.new ≡ page.old ++ group_lists_mistake (view object.now)) }
{
    if is_list_refused::<(u32, SigSet)>(alloc, object, "threads")? {
        return push_list_mistake::<(u32, SigSet)>(alloc, page, object, "threads");
    }
    if is_list_refused::<(Signal, Action)>(alloc, object, "actions")? {
        return push_list_mistake::<(Signal, Action)>(alloc, page, object, "actions");
    }
    let names = ["tgid", "name", "threads", "actions"];
    push_keys_mistake(page, object, &names, &[])
}

/// Appends the first mistake of where a kernel starts from, which is refused: of `limit`, `entries` or `groups`.
pub fn push_start_mistake(alloc: Global, page: &mut Page, object: &Value) -> Result<(), AllocError>
    ensures { OnOk result (page.new ≡ page.old ++ start_fields_mistake (view object.now)) }
{
    if refused(id(object, "limit"))? {
        return Wanted::Id.push_mistake(alloc, page, object, "limit");
    }
    if refused(id(object, "entries"))? {
        return Wanted::Id.push_mistake(alloc, page, object, "entries");
    }
    push_list_mistake::<GroupStart>(alloc, page, object, "groups")
}
