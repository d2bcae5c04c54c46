ghost use Rattle.std.specs.Prelude.{◌≡◌, ◌-◌, ◌++◌, ◌||◌, Result, map, string_bytes};
ghost use Rattle.std.specs.BTreeMap.{keys};
ghost use Rattle.std.specs.List.{list_all, list_any};
ghost use Rattle.std.specs.Str.{bytes_eq};
ghost use Rattle.serde_json.specs.Data.{Data};
ghost use Rattle.serde_json.specs.View.{view};
ghost use Rattle.tr_reading.specs.declared.faults.ScenarioFault.{ScenarioFault};
ghost use Rattle.tr_reading.specs.Fields.{
  Gives,
  field_at,
  flag_at,
  id_at,
  list_of,
  no_key_but,
  number_at,
  number_in,
  set_at,
  set_of,
  signal_at,
  signal_of,
  text_at,
  value_at,
};

use crate::faults::ScenarioFault;
use serde_json::{Map, Value};
use std::alloc::Global;
use tr_sigset::{SigSet, Signal};
use tr_starts::Items;

/// What a value is read as.
pub trait FromJson: Sized + Drop {
    ghost reads: { Data → Result Self ScenarioFault };

    /// The reading of a value, or its first fault.
    fn from_json(alloc: Global, value: &Value) -> Result<Self, ScenarioFault>
        ensures { Gives (λ x. x) result (reads (view value.now)) };
}

/// The value at a key.
pub fn field<'a>(object: &'a Value, key: &str) -> Result<&'a Value, ScenarioFault>
    ensures { Gives (λ v. view v.now) result (field_at key.now (view object.now)) }
{
    match object.get(key) {
        Some(value) => Ok(value),
        None => Err(ScenarioFault::BadField),
    }
}

/// A whole number from low to high.
pub fn number_in(value: &Value, low: u32, high: u32) -> Result<u32, ScenarioFault>
    ensures { Gives (λ n. n) result (number_in low high (view value.now)) }
{
    match value.as_u64() {
        Some(n) if low as u64 <= n && n <= high as u64 => Ok(n as u32),
        _ => Err(ScenarioFault::BadField),
    }
}

/// The whole number at a key, from low to high.
#[tactic(auto, unfolding(crate::specs::Fields::number_at))]
pub fn number(object: &Value, key: &str, low: u32, high: u32) -> Result<u32, ScenarioFault>
    ensures { Gives (λ n. n) result (number_at key.now low high (view object.now)) }
{
    let value = field(object, key)?;
    number_in(value, low, high)
}

/// The id at a key, or another number of 32 bits.
pub fn id(object: &Value, key: &str) -> Result<u32, ScenarioFault>
    ensures { Gives (λ n. n) result (id_at key.now (view object.now)) }
{
    number(object, key, 0, u32::MAX)
}

/// The number at a key, 0 to 255.
#[tactic(auto, unfolding(crate::specs::Fields::number_at))]
pub fn byte(object: &Value, key: &str) -> Result<u8, ScenarioFault>
    ensures { Gives (λ n. n) result (number_at key.now 0 255 (view object.now)) }
{
    let value = field(object, key)?;
    match value.as_u64() {
        Some(n) if n <= 255 => Ok(n as u8),
        _ => Err(ScenarioFault::BadField),
    }
}

/// The signed number of 32 bits at a key.
#[tactic(auto, unfolding(crate::specs::Fields::value_at))]
pub fn signed(object: &Value, key: &str) -> Result<i32, ScenarioFault>
    ensures { Gives (λ n. n) result (value_at key.now (view object.now)) }
{
    let value = field(object, key)?;
    match value.as_i64() {
        Some(n) if i32::MIN as i64 <= n && n <= i32::MAX as i64 => Ok(n as i32),
        _ => Err(ScenarioFault::BadField),
    }
}

/// The truth value at a key.
#[tactic(auto, unfolding(crate::specs::Fields::flag_at))]
pub fn flag(object: &Value, key: &str) -> Result<bool, ScenarioFault>
    ensures { Gives (λ b. b) result (flag_at key.now (view object.now)) }
{
    let value = field(object, key)?;
    match value.as_bool() {
        Some(flag) => Ok(flag),
        None => Err(ScenarioFault::BadField),
    }
}

/// The text at a key.
#[tactic(auto, unfolding(crate::specs::Fields::text_at))]
pub fn text<'a>(object: &'a Value, key: &str) -> Result<&'a str, ScenarioFault>
    ensures { Gives (λ t. t.now) result (text_at key.now (view object.now)) }
{
    let value = field(object, key)?;
    match value.as_str() {
        Some(text) => Ok(text),
        None => Err(ScenarioFault::BadField),
    }
}

/// A list, item by item up to the first fault.
#[tactic(auto, unfolding(crate::specs::Fields::list_of))]
pub fn list<T: FromJson>(alloc: Global, value: &Value) -> Result<Items<T>, ScenarioFault>
    ensures { Gives (λ x. x) result (list_of T.reads (view value.now)) }
{
    let Some(values) = value.as_array() else {
        return Err(ScenarioFault::BadField);
    };
    let mut items = Vec::with_capacity(alloc, values.len())?;
    for value in values {
        let item = T::from_json(alloc, value)?;
        items.push(item)?;
    }
    Ok(Items::from_vec(items))
}

impl FromJson for Signal {
    ghost use Rattle.tr_reading.specs.Fields.{signal_of};

    ghost reads = { signal_of };

    fn from_json(_alloc: Global, value: &Value) -> Result<Signal, ScenarioFault> {
        signal_of(value)
    }
}

/// A signal. What is a whole number and no signal is told from what is no whole number.
fn signal_of(value: &Value) -> Result<Signal, ScenarioFault>
    ensures { Gives (λ s. s) result (signal_of (view value.now)) }
{
    match value.as_u64() {
        Some(n) if n <= 255 => match Signal::new(n as u8) {
            Some(signal) => Ok(signal),
            None => Err(ScenarioFault::BadSignal),
        },
        Some(_) => Err(ScenarioFault::BadSignal),
        None if value.is_i64() => Err(ScenarioFault::BadSignal),
        None => Err(ScenarioFault::BadField),
    }
}

/// The signal at a key.
#[tactic(auto, unfolding(crate::specs::Fields::signal_at))]
pub fn signal(object: &Value, key: &str) -> Result<Signal, ScenarioFault>
    ensures { Gives (λ s. s) result (signal_at key.now (view object.now)) }
{
    let value = field(object, key)?;
    signal_of(value)
}

/// The list of signals at a key, as a set.
#[tactic(auto, unfolding(crate::specs::Fields::set_at))]
pub fn set(alloc: Global, object: &Value, key: &str) -> Result<SigSet, ScenarioFault>
    ensures { Gives (λ s. s) result (set_at key.now (view object.now)) }
{
    let signals: Items<Signal> = list(alloc, field(object, key)?)?;
    Ok(set_of(signals.as_slice()))
}

fn set_of(signals: &[Signal]) -> SigSet
    ensures { result ≡ set_of signals.now }
{
    let mut bits = 0;
    for signal in signals {
        bits |= 1 << (signal.number() - 1);
    }
    SigSet::from_bits(bits)
}

/// Fails at a key that is neither one of these nor one of those.
#[tactic(auto, using(crate::proofs::Keys::keys_among_view))]
pub fn no_key_but(object: &Value, names: &[&str], fields: &[&str]) -> Result<(), ScenarioFault>
    ensures { Gives (λ x. x) result
        (no_key_but (map (λ n. n.now) names.now ++ map (λ n. n.now) fields.now) (view object.now)) }
{
    let Some(members) = object.as_object() else {
        return Err(ScenarioFault::BadField);
    };
    if has_only(members, names, fields) {
        Ok(())
    } else {
        Err(ScenarioFault::BadField)
    }
}

fn has_only(members: &Map<String, Value>, names: &[&str], fields: &[&str]) -> bool
    ensures { result
        ≡ list_all (λ k. list_any (λ n. bytes_eq n.now (string_bytes k)) names.now
        || list_any (λ n. bytes_eq n.now (string_bytes k)) fields.now) (keys members.now) }
{
    members
        .keys()
        .all(|key| is_in_either(names, fields, key.as_str()))
}

/// Tells whether a key is one of these or one of those.
pub fn is_in_either(names: &[&str], fields: &[&str], key: &str) -> bool
    ensures { result
        ≡ (list_any (λ n. bytes_eq n.now key.now) names.now || list_any
        (λ n. bytes_eq n.now key.now) fields.now) }
{
    is_one_of(names, key) || is_one_of(fields, key)
}

fn is_one_of(names: &[&str], key: &str) -> bool
    ensures { result ≡ list_any (λ n. bytes_eq n.now key.now) names.now }
{
    names.iter().any(|name| is_name(name, key))
}

/// Tells whether a key is this name. Most are told apart by their lengths alone.
#[inline(always)]
#[tactic(auto, using(crate::proofs::Keys::other_length))]
fn is_name(name: &str, key: &str) -> bool
    ensures { result ≡ bytes_eq name.now key.now }
{
    name.len() == key.len() && name == key
}
