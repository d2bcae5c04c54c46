ghost use Rattle.std.specs.Prelude.{◌≡◌, ◌++◌, ◌||◌, OnOk, codes, find, is_some, map, not, option_map, string_bytes};
ghost use Rattle.std.specs.BTreeMap.{keys};
ghost use Rattle.std.specs.List.{list_all, list_any};
ghost use Rattle.std.specs.Str.{bytes_eq};
ghost use Rattle.serde_json.specs.Find.{as_object};
ghost use Rattle.serde_json.specs.View.{view};
ghost use Rattle.tr_mistakes.specs.Parts.{index_part, is_told, is_told_byte, key_part, keys_mistake, named_key, unknown_key, wanted_at, whole_number};

use serde_json::{Map, Value};
use std::alloc::AllocError;
use tr_reading::fields::is_in_either;
use tr_scenario::Page;
use tr_text::TextBuffer;

// The words that a mistake is told by.

/// Appends a key's part of a place.
pub(crate) fn push_key(page: &mut Page, key: &str) -> Result<(), AllocError>
    ensures { OnOk result (page.new ≡ page.old ++ key_part key.now) }
{
    page.push(b".")?;
    page.push(key.as_bytes())
}

/// Appends the part of a place that a place in a list is, from 0.
pub(crate) fn push_index(page: &mut Page, index: usize) -> Result<(), AllocError>
    ensures { OnOk result (page.new ≡ page.old ++ index_part index) }
{
    let mut text = TextBuffer::<32>::new();
    text.prepend(b"]");
    text.prepend_number(index as u64);
    text.prepend(b"[");
    page.push(text.as_bytes())
}

/// Appends that a whole number from `low` to `high` is wanted.
pub(crate) fn push_whole_number(page: &mut Page, low: u32, high: u32) -> Result<(), AllocError>
    ensures { OnOk result (page.new ≡ page.old ++ whole_number low high) }
{
    let mut text = TextBuffer::<96>::new();
    text.prepend(b" is wanted");
    text.prepend_number(u64::from(high));
    text.prepend(b" to ");
    text.prepend_number(u64::from(low));
    text.prepend(b": a whole number from ");
    page.push(text.as_bytes())
}

/// Appends a key of an object, and what is wanted there, or that nothing stands there.
pub fn push_wanted_at(
    page: &mut Page,
    object: &Value,
    key: &str,
    wanted: &[u8],
) -> Result<(), AllocError>
    ensures { OnOk result (page.new ≡ page.old ++ wanted_at key.now wanted.now (view object.now)) }
{
    push_key(page, key)?;
    match object.get(key) {
        Some(_) => page.push(wanted),
        None => page.push(b": is missing"),
    }
}

/// Appends a key of an object, and that a whole number from `low` to `high` is wanted there.
pub(crate) fn push_number_at(
    page: &mut Page,
    object: &Value,
    key: &str,
    low: u32,
    high: u32,
) -> Result<(), AllocError>
    ensures { OnOk result
        (page.new ≡ page.old ++ wanted_at key.now (whole_number low high) (view object.now)) }
{
    push_key(page, key)?;
    match object.get(key) {
        Some(_) => push_whole_number(page, low, high),
        None => page.push(b": is missing"),
    }
}

/// Tells whether a value is an object.
pub fn is_object(value: &Value) -> bool
    ensures { result ≡ is_some (as_object (view value.now)) }
{
    value.as_object().is_some()
}

/// Appends that an object is wanted.
pub fn push_object_wanted(page: &mut Page) -> Result<(), AllocError>
    ensures { OnOk result (page.new ≡ page.old ++ codes ": an object is wanted") }
{
    page.push(b": an object is wanted")
}

/// Appends the first key, in alphabetical order, that is none of these.
pub fn push_keys_mistake(
    page: &mut Page,
    object: &Value,
    names: &[&str],
    fields: &[&str],
) -> Result<(), AllocError>
    ensures { OnOk result
        (page.new
        ≡ page.old
        ++ keys_mistake
        (map (λ n. n.now) names.now ++ map (λ n. n.now) fields.now) (view object.now)) }
{
    let Some(members) = object.as_object() else {
        return Ok(());
    };
    match first_unknown(members, names, fields) {
        Some(key) => push_unknown(page, key.as_str()),
        None => Ok(()),
    }
}

/// The first key, in alphabetical order, that is none of these.
fn first_unknown<'a>(
    members: &'a Map<String, Value>,
    names: &[&str],
    fields: &[&str],
) -> Option<&'a String>
    ensures { option_map (λ k. k.now) result
        ≡ find (λ k. not (list_any (λ n. bytes_eq n.now (string_bytes k)) names.now
        || list_any (λ n. bytes_eq n.now (string_bytes k)) fields.now)) (keys members.now) }
{
    members
        .keys()
        .find(|key| !is_in_either(names, fields, key.as_str()))
}

fn push_unknown(page: &mut Page, key: &str) -> Result<(), AllocError>
    ensures { OnOk result (page.new ≡ page.old ++ unknown_key key.now) }
{
    if is_told(key.as_bytes()) {
        push_named_key(page, key)
    } else {
        page.push(b": a key isn't known here")
    }
}

fn push_named_key(page: &mut Page, key: &str) -> Result<(), AllocError>
    ensures { OnOk result (page.new ≡ page.old ++ named_key key.now) }
{
    page.push(b": the key `")?;
    page.push(key.as_bytes())?;
    page.push(b"` isn't known here")
}

/// Whether a key is short, and of printable ASCII but the blank and the quote.
fn is_told(key: &[u8]) -> bool
    ensures { result ≡ is_told key.now }
{
    key.len() <= 32 && are_told_bytes(key)
}

fn are_told_bytes(key: &[u8]) -> bool
    ensures { result ≡ list_all is_told_byte key.now }
{
    key.iter()
        .all(|byte| b'!' <= *byte && *byte <= b'~' && *byte != b'`')
}
