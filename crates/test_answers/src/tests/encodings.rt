use super::same;
use std::process::Abort;
use std::test::Fail;
use tr_encoding::{Call, call_value, scenario_text};
use tr_group::Action;
use tr_model::Event;
use tr_reading::{Job, read};
use tr_sigset::SigSet;
use tr_tracee::Options;
use tr_wait::{WaitFlags, Which};

/// Whether the object of a call of actor 900 is this text.
fn is(rt: &(impl AllocGlobal + Abort), event: Event, wanted: &str) -> Result<bool, Fail> {
    let call = Call { actor: 900, event };
    let text = call_value(rt.alloc(), &call)?.to_string(rt.alloc())?;
    Ok(text.as_str() == wanted)
}

#[test]
fn calls_of_processes(rt: HostRuntime) -> Result<(), Fail> {
    let kill = Event::Kill { tgid: 1, sig: 255 };
    assert!(rt;
        is(
            &rt,
            kill,
            "{\"actor\":900,\"do\":\"kill\",\"sig\":255,\"tgid\":1}"
        )?
    );
    let queued = Event::Sigqueue {
        tgid: 10,
        sig: 34,
        value: -2147483648,
    };
    let text = "{\"actor\":900,\"do\":\"sigqueue\",\"sig\":34,\"tgid\":10,\"value\":-2147483648}";
    assert!(rt; is(&rt, queued, text)?);
    let mask = Event::Mask {
        tid: 4294967295,
        set: SigSet::from_bits(0x8000_0000_0000_0101),
    };
    assert!(rt;
        is(
            &rt,
            mask,
            "{\"actor\":900,\"do\":\"mask\",\"set\":[1,9,64],\"tid\":4294967295}"
        )?
    );
    let action = Event::SetAction {
        tid: 10,
        sig: 2,
        how: Action::Catch,
    };
    assert!(rt;
        is(
            &rt,
            action,
            "{\"actor\":900,\"do\":\"action\",\"how\":\"catch\",\"sig\":2,\"tid\":10}"
        )?
    );
    assert!(rt;
        is(
            &rt,
            Event::TracerExit,
            "{\"actor\":900,\"do\":\"tracer_exit\"}"
        )?
    );
    Ok(())
}

#[test]
fn calls_of_tracers(rt: HostRuntime) -> Result<(), Fail> {
    let seize = Event::Seize {
        tid: 10,
        options: Options {
            clone: true,
            exec: false,
            exit: true,
            exitkill: true,
        },
    };
    let text =
        "{\"actor\":900,\"do\":\"seize\",\"options\":[\"clone\",\"exit\",\"exitkill\"],\"tid\":10}";
    assert!(rt; is(&rt, seize, text)?);
    let any = Event::Wait { which: Which::Any };
    assert!(rt; is(&rt, any, "{\"actor\":900,\"do\":\"wait\",\"tid\":0}")?);
    let one = Event::StarterWait {
        which: Which::One(10),
        flags: WaitFlags {
            untraced: true,
            continued: false,
        },
    };
    let text =
        "{\"actor\":900,\"continued\":false,\"do\":\"starter_wait\",\"tgid\":10,\"untraced\":true}";
    assert!(rt; is(&rt, one, text)?);
    Ok(())
}

const WORKERS: &str = "{\"version\": 2, \"limit\": 8, \"entries\": 99, \"groups\": [{\"tgid\": 10, \
    \"name\": \"a\", \"actions\": [], \"threads\": [{\"tid\": 10, \"blocked\": [12]}]}], \
    \"workers\": [{\"actor\": 900, \"items\": [{\"do\": \"kill\", \"tgid\": 10, \"sig\": 12}]}]}";

#[test]
fn the_scenario_of_a_call(rt: HostRuntime) -> Result<(), Fail> {
    let alloc = rt.alloc();
    let event = Event::Kill { tgid: 10, sig: 12 };
    let calls = [Call { actor: 900, event }];
    let text = scenario_text(alloc, WORKERS.as_bytes(), &calls)
        .ok()
        .ok_or("no text")?;
    let wanted =
        "{\"entries\":99,\"groups\":[{\"actions\":[],\"name\":\"a\",\"tgid\":10,\"threads\":\
        [{\"blocked\":[12],\"tid\":10}]}],\"limit\":8,\"steps\":[{\"actor\":900,\"do\":\"kill\",\
        \"sig\":12,\"tgid\":10}],\"version\":1}";
    assert!(rt; text.as_slice() == wanted.as_bytes());
    let scenario = read(alloc, &text).ok().ok_or("not read")?;
    let Job::Steps(steps) = &scenario.job else {
        return Err("no steps".into());
    };
    assert!(rt; steps.as_slice().len() == 1);
    same(&rt, &steps.as_slice()[0].event, &event);
    Ok(())
}

#[test]
fn bytes_without_a_value(rt: HostRuntime) {
    assert!(rt; scenario_text(rt.alloc(), b"{", &[]).is_err());
}
