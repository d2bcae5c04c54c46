//! Scenarios as texts, in the layout in which most programs write JSON.

use std::alloc::{AllocError, Global};

/// One thread, which catches three signals.
const START: &str =
    "{\"version\": 1, \"limit\": 4, \"entries\": 100000, \"groups\": [{\"tgid\": 4194303, \"name\": \"demo\", \"threads\": [{\"tid\": 4194303, \"blocked\": []}], \"actions\": [{\"sig\": 10, \"how\": \"catch\"}, {\"sig\": 34, \"how\": \"catch\"}, {\"sig\": 35, \"how\": \"catch\"}]}], \"steps\": [\n";

const TAKE: &str = "{\"actor\": 4194303, \"do\": \"take\", \"tid\": 4194303}";

const KILLS: &str =
    "{\"actor\": 900, \"do\": \"kill\", \"tgid\": 4194303, \"sig\": 10, \"times\": 9999},\n";

/// A step by which the thread blocks the signals from 8 on, but not those that stay open.
fn push_mask(text: &mut String, open: &[u32]) -> Result<(), AllocError> {
    text.push_str("{\"actor\": 4194303, \"do\": \"mask\", \"tid\": 4194303, \"set\": [64")?;
    for signal in 8..64 {
        if !open.contains(&signal) {
            write!(text, ", {signal}")?;
        }
    }
    text.push_str("]},\n")
}

/// Sends that wait, one that only asks, and a wait that is refused.
fn push_sends(text: &mut String, sender: u32) -> Result<(), AllocError> {
    for signal in [10, 0] {
        write!(
            text,
            "{{\"actor\": {sender}, \"do\": \"kill\", \"tgid\": 4194303, \"sig\": {signal}}},\n"
        )?;
    }
    for signal in [34, 35] {
        write!(
            text,
            "{{\"actor\": {sender}, \"do\": \"sigqueue\", \"tgid\": 4194303, \"sig\": {signal}, \"value\": {sender}}},\n"
        )?;
    }
    write!(
        text,
        "{{\"actor\": {sender}, \"do\": \"wait\", \"tid\": 4194303}},\n"
    )
}

/// Ten steps: the thread blocks its signals while a sender sends them, opens them, and takes each.
fn push_ten(text: &mut String, sender: u32) -> Result<(), AllocError> {
    push_mask(text, &[])?;
    push_sends(text, sender)?;
    push_mask(text, &[10, 34, 35])?;
    write!(text, "{TAKE},\n{TAKE},\n{TAKE},\n")
}

/// 9,991 steps in just under 1,048,576 bytes, each made once.
pub fn long_text(alloc: Global) -> Result<String, AllocError> {
    let mut text = String::new(alloc);
    text.push_str(START)?;
    for sender in 4194304..4195303 {
        push_ten(&mut text, sender)?;
    }
    write!(text, "{TAKE}]}}\n")?;
    Ok(text)
}

/// 20 steps that are 100,000 calls: ten times 9,999 sends, of which all but one are merged, and a take.
pub fn short_text(alloc: Global) -> Result<String, AllocError> {
    let mut text = String::new(alloc);
    write!(text, "{START}{KILLS}")?;
    for _ in 1..10 {
        write!(text, "{TAKE},\n{KILLS}")?;
    }
    write!(text, "{TAKE}]}}\n")?;
    Ok(text)
}

/// A group of 64 threads, which block two signals and catch one.
fn push_group(text: &mut String, tgid: u32) -> Result<(), AllocError> {
    write!(
        text,
        "{{\"tgid\": {tgid}, \"name\": \"demo\", \"actions\": [{{\"sig\": 10, \"how\": \"catch\"}}], \"threads\": ["
    )?;
    for place in 0..64_u32 {
        let comma = if place == 0 { "" } else { ", " };
        let tid = tgid.wrapping_add(place);
        write!(text, "{comma}{{\"tid\": {tid}, \"blocked\": [10, 34]}}")?;
    }
    text.push_str("]}")
}

/// 16 groups of 64 threads, and no step.
pub fn crowd_text(alloc: Global) -> Result<String, AllocError> {
    let mut text = String::new(alloc);
    text.push_str("{\"version\": 1, \"limit\": 4, \"entries\": 1, \"groups\": [\n")?;
    for group in 1..17_u32 {
        text.push_str(if group == 1 { "" } else { ",\n" })?;
        push_group(&mut text, group.wrapping_mul(64))?;
    }
    text.push_str("], \"steps\": []}\n")?;
    Ok(text)
}
