ghost use Rattle.std.specs.Prelude.{◌≡◌, ◌<◌, ◌≤◌, ◌^◌, ◌++◌, map, IfOk, OnOk};
ghost use Rattle.serde_json.specs.View.{view};
ghost use Rattle.tr_sigset.specs.Sets.{has, word_of};
ghost use Rattle.tr_encoding.specs.Sets.{name_if, number_list, option_names, signals_of, text_list};

use serde_json::Value;
use std::alloc::{AllocError, Global};
use tr_sigset::{SigSet, Signal};
use tr_tracee::Options;

/// Lists the members of a set, the least first.
pub(crate) fn signals(alloc: Global, set: SigSet) -> Result<Vec<Value>, AllocError>
    ensures members { IfOk result (λ v. map view v.items ≡ number_list (signals_of set)) }
    ensures range { word_of set < 2 ^ 64 }
{
    let mut values = Vec::with_capacity(alloc, set.bits().count_ones() as usize)?;
    for place in 0..64 {
        if has(set, place + 1) {
            values.push(Value::from(u32::from(place + 1)))?;
        }
    }
    Ok(values)
}

/// Whether the signal of a number is a member.
fn has(set: SigSet, number: u8) -> bool
    requires low { 1 ≤ number }
    requires high { number ≤ 64 }
    ensures { result ≡ has set number }
{
    match Signal::new(number) {
        Some(signal) => set.has(signal),
        None => false,
    }
}

/// Lists the names of the options that are set.
pub(crate) fn options(alloc: Global, options: &Options) -> Result<Vec<Value>, AllocError>
    ensures { IfOk result (λ v. map view v.items ≡ text_list (option_names options.now)) }
{
    let mut values = Vec::new(alloc);
    push_name(&mut values, alloc, options.clone, "clone")?;
    push_name(&mut values, alloc, options.exec, "exec")?;
    push_name(&mut values, alloc, options.exit, "exit")?;
    push_name(&mut values, alloc, options.exitkill, "exitkill")?;
    Ok(values)
}

/// Appends a name, where it is told.
fn push_name(values: &mut Vec<Value>, alloc: Global, is: bool, name: &str) -> Result<(), AllocError>
    ensures { OnOk result (map view values.new.items
        ≡ map view values.old.items ++ text_list (name_if is name.now)) }
{
    if is {
        values.push(Value::try_from_str(alloc, name)?)?;
    }
    Ok(())
}
