ghost use Rattle.std.specs.Prelude.{◌≡◌, ◌++◌, IfOk, OnOk, is_err};
ghost use Rattle.serde_json.specs.Find.{as_array};
ghost use Rattle.serde_json.specs.View.{items_view, view};
ghost use Rattle.tr_reading.specs.Fields.{list_at};
ghost use Rattle.tr_mistakes.specs.Parts.{list_mistake, listed_mistake, refused_member};
ghost use Rattle.tr_mistakes.specs.Private.{refusal};

use crate::parts::{push_index, push_key};
use serde_json::Value;
use std::alloc::{AllocError, Global};
use tr_reading::ScenarioFault;
use tr_reading::fields::{FromJson, list};
use tr_scenario::Page;
use tr_starts::Items;

/// What is told of a value that isn't read as such a one.
pub trait Mistaken {
    ghost use Rattle.std.specs.Prelude.{List, ℕ};
    ghost use Rattle.serde_json.specs.Data.{Data};

    ghost mistake: { Data → List ℕ };

    /// Appends the first mistake of a value that is refused: its place, and what is wanted there.
    fn push_mistake(alloc: Global, page: &mut Page, value: &Value) -> Result<(), AllocError>
        ensures { OnOk result (page.new ≡ page.old ++ mistake (view value.now)) };
}

/// Whether a reading is refused.
pub fn refused<T: Drop>(read: Result<T, ScenarioFault>) -> Result<bool, AllocError>
    ensures { result ≡ refusal read }
{
    match read {
        Ok(_) => Ok(false),
        Err(ScenarioFault::NoMemory) => Err(AllocError),
        Err(_) => Ok(true),
    }
}

/// Whether the list at a key is refused.
pub(crate) fn is_list_refused<T: FromJson>(
    alloc: Global,
    object: &Value,
    key: &str,
) -> Result<bool, AllocError>
    ensures { IfOk result (λ b. b ≡ is_err (list_at key.now T.reads (view object.now))) }
{
    match object.get(key) {
        Some(value) => {
            let items: Result<Items<T>, ScenarioFault> = list(alloc, value);
            refused(items)
        }
        None => Ok(true),
    }
}

/// Appends the first mistake of the list at a key.
pub(crate) fn push_list_mistake<T: FromJson + Mistaken>(
    alloc: Global,
    page: &mut Page,
    object: &Value,
    key: &str,
) -> Result<(), AllocError>
    ensures { OnOk result
        (page.new ≡ page.old ++ list_mistake key.now T.reads T.mistake (view object.now)) }
{
    push_key(page, key)?;
    match object.get(key) {
        Some(value) => push_listed_mistake::<T>(alloc, page, value),
        None => page.push(b": is missing"),
    }
}

/// Appends the first mistake of a list.
pub(crate) fn push_listed_mistake<T: FromJson + Mistaken>(
    alloc: Global,
    page: &mut Page,
    value: &Value,
) -> Result<(), AllocError>
    ensures { OnOk result
        (page.new
        ≡ page.old ++ listed_mistake T.reads T.mistake (as_array (view value.now))) }
{
    match value.as_array() {
        Some(values) => push_refused_member::<T>(alloc, page, values),
        None => page.push(b": a list is wanted"),
    }
}

/// Appends the first mistake of the first of these values whose reading is refused.
pub(crate) fn push_refused_member<T: FromJson + Mistaken>(
    alloc: Global,
    page: &mut Page,
    values: &[Value],
) -> Result<(), AllocError>
    ensures { OnOk result
        (page.new ≡ page.old ++ refused_member T.reads T.mistake 0 (items_view values.now)) }
{
    for (index, value) in values.iter().enumerate() {
        if refused(T::from_json(alloc, value))? {
            push_index(page, index)?;
            return T::push_mistake(alloc, page, value);
        }
    }
    Ok(())
}
