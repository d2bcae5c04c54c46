use super::refusals::are_read_so;
use super::*;
use tr_model::Event;
use tr_workers::{Item, Plan, Repeat, Script, Served};

const OBJECTS: &str =
    r#"none {"version":2,"limit":0,"entries":0,"groups":[],"workers":[{"actor":1,"items":[]}]}
BadField {"version":0,"limit":0,"entries":0,"groups":[],"workers":[{"actor":1,"items":[]}]}
BadField {"version":3,"limit":0,"entries":0,"groups":[],"workers":[{"actor":1,"items":[]}]}
BadField {"version":1,"limit":0,"entries":0,"groups":[],"workers":[{"actor":1,"items":[]}]}
BadField {"version":1,"limit":0,"entries":0,"groups":[],"steps":[],"workers":[{"actor":1,"items":[]}]}
BadField {"version":2,"limit":0,"entries":0,"groups":[],"steps":[]}
BadField {"version":2,"limit":0,"entries":0,"groups":[],"steps":[],"workers":[{"actor":1,"items":[]}]}
BadField {"version":2,"limit":0,"entries":0,"groups":[]}
BadField {"version":2,"limit":0,"entries":0,"groups":[],"workers":[]}
BadField {"version":2,"limit":0,"entries":0,"groups":[],"workers":{"actor":1,"items":[]}}
BadField {"version":2,"limit":0,"entries":0,"groups":[],"workers":[1]}
BadSignal {"version":2,"limit":0,"entries":0,"groups":[],"workers":[{"actor":1,"items":[{"do":"mask","tid":10,"set":[65]}]}],"note":0}
BadField {"version":2,"limit":0,"entries":0,"groups":7,"workers":[{"actor":1,"items":[{"do":"mask","tid":10,"set":[65]}]}]}"#;

#[test]
fn faults_of_objects_with_workers(rt: HostRuntime) -> Result<(), Fail> {
    are_read_so(&rt, "", OBJECTS, "")
}

const WORKERS_BEFORE: &str = r#"{"version":2,"limit":4,"entries":100,"groups":[],"workers":["#;

const WORKERS: &str = r#"none {"actor":1,"items":[]}
none {"actor":4294967295,"machine":[]}
none {"actor":1,"items":[]},{"actor":2,"machine":[]}
BadField {"actor":0,"items":[]}
BadField {"actor":4294967296,"items":[]}
BadField {"items":[]}
BadField {"actor":1}
BadField {"actor":1,"items":{}}
BadField {"actor":1,"machine":{}}
BadField {"actor":1,"items":[],"machine":[]}
BadField {"actor":1,"items":[],"times":1}
BadField {"actor":1,"items":[{"do":"mask","tid":10,"set":[65]}],"machine":[]}
BadField {"actor":0,"items":[{"do":"mask","tid":10,"set":[65]}]}
BadSignal {"actor":1,"items":[{"do":"mask","tid":10,"set":[65]}],"note":0}
BadSignal {"actor":1,"items":[{"do":"mask","tid":10,"set":[65]}]},{"actor":2}
BadField {"actor":2},{"actor":1,"items":[{"do":"mask","tid":10,"set":[65]}]}
Repeated {"actor":1,"items":[]},{"actor":1,"machine":[]}
Repeated {"actor":1,"items":[]},{"actor":2,"items":[]},{"actor":1,"items":[]}
TooLarge {"actor":1,"items":[{"do":"take","tid":9,"times":50001}]},{"actor":1,"items":[{"do":"take","tid":9,"times":50000}]}
Repeated {"actor":1,"items":[{"do":"take","tid":9,"times":50000}]},{"actor":1,"items":[{"do":"take","tid":9,"times":50000}]}"#;

#[test]
fn faults_of_workers(rt: HostRuntime) -> Result<(), Fail> {
    are_read_so(&rt, WORKERS_BEFORE, WORKERS, "]}")
}

const ITEMS_BEFORE: &str =
    r#"{"version":2,"limit":4,"entries":100,"groups":[],"workers":[{"actor":1,"items":["#;

const ITEMS: &str = r#"none {"do":"take","tid":10}
none {"do":"take","tid":10,"times":100000}
none {"do":"take","tid":10,"until":true}
none {"do":"take","tid":10,"times":99999},{"do":"take","tid":10}
none {"do":"take","tid":10,"times":99999},{"do":"take","tid":10,"until":true}
TooLarge {"do":"take","tid":10,"times":100000},{"do":"take","tid":10}
TooLarge {"do":"take","tid":10,"times":100000},{"do":"take","tid":10,"until":true}
BadField {"do":"take","tid":10,"until":false}
BadField {"do":"take","tid":10,"until":1}
BadField {"do":"take","tid":10,"until":null}
BadField {"do":"take","tid":10,"times":1,"until":true}
BadField {"do":"take","tid":10,"times":0}
BadField {"do":"take","tid":10,"times":100001}
BadField {"do":"take","tid":10,"times":null}
BadField {"actor":1,"do":"take","tid":10}
BadField {"do":"take","tid":10,"note":0}
BadField {"do":"Take","tid":10}
BadField {"tid":10}
BadField {"do":"take"}
BadField {"do":"mask","set":[65]}
BadSignal {"do":"mask","tid":10,"set":[65],"times":1,"until":false}"#;

#[test]
fn faults_of_items(rt: HostRuntime) -> Result<(), Fail> {
    are_read_so(&rt, ITEMS_BEFORE, ITEMS, "]}]}")
}

const MACHINE_BEFORE: &str =
    r#"{"version":2,"limit":4,"entries":100,"groups":[],"workers":[{"actor":1,"machine":["#;

const MACHINE: &str = r#"none {"tid":4294967295,"ops":[]}
none {"tid":10,"ops":[]},{"tid":10,"ops":[]}
BadField {"tid":4294967296,"ops":[]}
BadField {"tid":10}
BadField {"ops":[]}
BadField {"tid":10,"ops":{}}
BadField {"tid":10,"ops":[],"note":0}
BadField {"tid":-1,"ops":[{"do":"mask","tid":10,"set":[0]}]}"#;

#[test]
fn faults_of_machines(rt: HostRuntime) -> Result<(), Fail> {
    are_read_so(&rt, MACHINE_BEFORE, MACHINE, "]}]}")
}

const OPS_BEFORE: &str =
    r#"{"version":2,"limit":4,"entries":100,"groups":[],"workers":[{"actor":1,"machine":[{"tid":10,"ops":["#;

const OPS: &str = r#"none {"do":"mask","tid":10,"set":[1]}
none {"do":"action","tid":10,"sig":10,"how":"catch"}
none {"do":"pause","tid":10}
none {"do":"clone","tid":11}
none {"do":"exec","tid":10}
none {"do":"exit","tid":10,"code":0}
none {"do":"exit_group","tid":10,"code":4294967295}
BadField {"do":"take","tid":10}
BadField {"do":"die","tid":10}
BadField {"do":"kill","tgid":10,"sig":9}
BadField {"do":"tracer_exit"}
BadField {"do":"exec","tid":10,"times":1}
BadField {"do":"exec","tid":10,"until":true}
BadField {"actor":10,"do":"exec","tid":10}
BadField {"do":"exec"}
BadField {"do":7,"tid":10}
BadSignal {"do":"mask","tid":10,"set":[0],"times":1}"#;

#[test]
fn faults_of_ops(rt: HostRuntime) -> Result<(), Fail> {
    are_read_so(&rt, OPS_BEFORE, OPS, "]}]}]}")
}

/// What is wrong with a scenario of these groups and workers, if anything.
fn fault_among(
    rt: &impl AllocGlobal,
    groups: &str,
    workers: &str,
) -> Result<Option<ScenarioFault>, Fail> {
    let text = format!(in rt.alloc();
        "{{\"version\":2,\"limit\":4,\"entries\":100,\"groups\":[{groups}],\"workers\":[{workers}]}}"
    )?;
    Ok(fault_of(rt, &text))
}

/// Appends a member so many times, with commas between.
fn push_many(text: &mut String, member: &str, count: u32) -> Result<(), Fail> {
    for n in 0..count {
        if n > 0 {
            text.push(',')?;
        }
        text.push_str(member)?;
    }
    Ok(())
}

/// So many items, and so many ops, of two workers.
fn fault_of_members(
    rt: &impl AllocGlobal,
    items: u32,
    ops: u32,
) -> Result<Option<ScenarioFault>, Fail> {
    let mut workers = String::new(rt.alloc());
    workers.push_str(r#"{"actor":1,"items":["#)?;
    push_many(&mut workers, r#"{"do":"take","tid":9,"times":20}"#, items)?;
    workers.push_str(r#"]},{"actor":2,"machine":[{"tid":9,"ops":["#)?;
    push_many(&mut workers, r#"{"do":"pause","tid":9}"#, ops)?;
    workers.push_str(r#"]},{"tid":10,"ops":[{"do":"pause","tid":10}]}]}"#)?;
    fault_among(rt, "", &workers)
}

#[test]
fn the_most_items_and_ops(rt: HostRuntime) -> Result<(), Fail> {
    same(&rt, &fault_of_members(&rt, 5000, 4999)?, &None);
    same(
        &rt,
        &fault_of_members(&rt, 5000, 5000)?,
        &Some(ScenarioFault::TooLarge),
    );
    same(
        &rt,
        &fault_of_members(&rt, 5001, 0)?,
        &Some(ScenarioFault::TooLarge),
    );
    Ok(())
}

/// So many workers, each of another actor.
fn fault_of_workers(rt: &impl AllocGlobal, count: u32) -> Result<Option<ScenarioFault>, Fail> {
    let mut workers = String::new(rt.alloc());
    for actor in 1..count {
        let worker = format!(in rt.alloc(); "{{\"actor\":{actor},\"items\":[]}},")?;
        workers.push_str(&worker)?;
    }
    workers.push_str(r#"{"actor":1000,"items":[]}"#)?;
    fault_among(rt, "", &workers)
}

#[test]
fn the_most_workers(rt: HostRuntime) -> Result<(), Fail> {
    same(&rt, &fault_of_workers(&rt, 64)?, &None);
    same(
        &rt,
        &fault_of_workers(&rt, 65)?,
        &Some(ScenarioFault::BadField),
    );
    Ok(())
}

const TWICE: &str = r#"{"actor":1,"items":[]},{"actor":1,"items":[]}"#;

const ONCE: &str = r#"{"actor":1,"items":[]}"#;

#[test]
fn two_equal_actors_come_before_a_bad_start(rt: HostRuntime) -> Result<(), Fail> {
    let bad = r#"{"tgid":1,"name":"demo","threads":[{"tid":1,"blocked":[]}],"actions":[]}"#;
    same(
        &rt,
        &fault_among(&rt, bad, TWICE)?,
        &Some(ScenarioFault::Repeated),
    );
    same(
        &rt,
        &fault_among(&rt, bad, ONCE)?,
        &Some(ScenarioFault::BadStart),
    );
    Ok(())
}

const SCRIPTS: &str =
    r#"{"version":2,"limit":4,"entries":100,"groups":[],"workers":[{"actor":7,"items":[{"do":"take","tid":10},{"do":"pause","tid":10,"times":3},{"do":"wait","tid":0,"until":true}]},{"actor":6,"machine":[{"tid":10,"ops":[{"do":"exec","tid":10}]},{"tid":11,"ops":[]}]}]}"#;

fn are_items(rt: &impl Abort, script: &Script) -> Result<(), Fail> {
    let Plan::Items(items) = &script.plan else {
        return Err(Fail::from("items"));
    };
    let [take, pause, wait] = items.as_slice() else {
        return Err(Fail::from("three items"));
    };
    let take_once = Item {
        event: Event::Take { tid: 10 },
        repeat: Repeat::Times(1),
    };
    same(rt, &script.actor, &7);
    same(rt, take, &take_once);
    same(rt, &pause.repeat, &Repeat::Times(3));
    same(rt, &wait.repeat, &Repeat::Until);
    Ok(())
}

fn is_served(rt: &impl Abort, served: &Served, tid: u32, ops: &[Event]) {
    same(rt, &served.tid, &tid);
    same(rt, &served.ops.as_slice(), &ops);
}

fn is_machine(rt: &impl Abort, script: &Script) -> Result<(), Fail> {
    let Plan::Machine(threads) = &script.plan else {
        return Err(Fail::from("a machine"));
    };
    let [leader, other] = threads.as_slice() else {
        return Err(Fail::from("two threads"));
    };
    same(rt, &script.actor, &6);
    is_served(rt, leader, 10, &[Event::Exec { tid: 10 }]);
    is_served(rt, other, 11, &[]);
    Ok(())
}

#[test]
fn reads_scripts(rt: HostRuntime) -> Result<(), Fail> {
    let scenario = read(rt.alloc(), SCRIPTS.as_bytes())?;
    let Job::Workers(scripts) = &scenario.job else {
        return Err(Fail::from("workers"));
    };
    let [items, machine] = scripts.as_slice() else {
        return Err(Fail::from("two workers"));
    };
    are_items(&rt, items)?;
    is_machine(&rt, machine)
}
