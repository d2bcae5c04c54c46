use super::{BLOCKED, same, same_of};
use std::process::Abort;
use std::test::Fail;
use tr_answers::read;
use tr_reading::ScenarioFault;

/// What is wrong with a text, by its name, or `none`.
fn told_of(rt: &impl AllocGlobal, text: &str) -> Result<String, Fail> {
    match read(rt.alloc(), text.as_bytes()) {
        Ok(_) => Ok(format!(in rt.alloc(); "none")?),
        Err(fault) => Ok(format!(in rt.alloc(); "{fault}")?),
    }
}

/// That each line has the name of what is wrong with a text, or `none`, and after a blank the text, between these two.
fn are_read_so<R: Abort + AllocGlobal>(
    rt: &R,
    before: &str,
    cases: &str,
    after: &str,
) -> Result<(), Fail> {
    for line in cases.lines() {
        let (want, part) = line.split_once(' ').ok_or("a case")?;
        let text = format!(in rt.alloc(); "{before}{part}{after}")?;
        same_of(rt, &told_of(rt, &text)?.as_str(), &want, &text);
    }
    Ok(())
}

const OBJECTS: &str = r#"NotJson {
BadField []
BadField {}
BadField {"version":2,"limit":0,"entries":0,"groups":[],"steps":[]}
BadField {"version":2,"limit":0,"entries":0,"groups":[],"workers":[{"actor":1,"items":[]}]}
BadField {"version":0,"limit":0,"entries":0,"groups":[],"steps":[]}
BadField {"version":1,"entries":0,"groups":[],"steps":[]}
BadField {"version":1,"limit":0,"entries":0,"groups":[]}
BadField {"version":1,"limit":0,"entries":0,"groups":[],"steps":{}}
BadField {"version":1,"limit":0,"entries":0,"groups":[],"steps":[],"answer":"ok"}
BadStart {"version":1,"limit":0,"entries":0,"groups":[{"tgid":0,"name":"demo","threads":[],"actions":[]}],"steps":[]}
Repeated {"version":1,"limit":0,"entries":0,"groups":[{"tgid":0,"name":"demo","threads":[{"tid":10,"blocked":[]},{"tid":10,"blocked":[]}],"actions":[]}],"steps":[]}
none {"version":1,"limit":0,"entries":0,"groups":[],"steps":[]}"#;

#[test]
fn faults_of_the_object(rt: HostRuntime) -> Result<(), Fail> {
    are_read_so(&rt, "", OBJECTS, "")
}

const STEPS_BEFORE: &str = r#"{"version":1,"limit":4,"entries":100,"groups":[],"steps":["#;

const STEPS: &str = r#"none {"actor":1,"do":"take","tid":9}
none {"actor":1,"do":"take","tid":9,"answer":""}
none {"actor":1,"do":"take","tid":9,"answer":"any text"}
none {"actor":1,"do":"take","tid":9,"times":100000,"answer":"_"}
BadField {"actor":1,"do":"take","tid":9,"answer":null}
BadField {"actor":1,"do":"take","tid":9,"answer":3}
BadField {"actor":1,"do":"take","tid":9,"answer":["ESRCH 3"]}
BadField {"actor":1,"do":"take","tid":9,"answers":"ESRCH 3"}
BadField {"actor":1,"do":"take","tid":9,"answer":"ESRCH 3","note":0}
BadField {"actor":1,"do":"take","tid":9,"sig":9,"answer":"ESRCH 3"}
BadField {"actor":0,"do":"take","tid":9,"answer":"ESRCH 3"}
BadField {"actor":1,"do":"Take","tid":9,"answer":"ESRCH 3"}
BadField {"actor":1,"do":"take","tid":9,"times":0,"answer":"ESRCH 3"}
BadSignal {"actor":1,"do":"mask","tid":9,"set":[65],"answer":3}
TooLarge {"actor":1,"do":"take","tid":9,"times":100000,"answer":"ESRCH 3"},{"actor":1,"do":"take","tid":9}"#;

#[test]
fn faults_of_steps(rt: HostRuntime) -> Result<(), Fail> {
    are_read_so(&rt, STEPS_BEFORE, STEPS, "]}")
}

#[test]
fn a_scenario_has_no_answers(rt: HostRuntime) {
    let fault = tr_reading::read(rt.alloc(), BLOCKED.as_bytes()).err();
    same(&rt, &fault, &Some(ScenarioFault::BadField));
}

/// A record of so many steps, which have no answers.
fn many_steps(rt: &impl AllocGlobal, count: u32) -> Result<String, Fail> {
    let mut text = String::from_str(rt.alloc(), STEPS_BEFORE)?;
    for step in 0..count {
        text.push_str(if step == 0 { "" } else { "," })?;
        text.push_str(r#"{"actor":1,"do":"take","tid":9}"#)?;
    }
    text.push_str("]}")?;
    Ok(text)
}

#[test]
fn the_most_steps(rt: HostRuntime) -> Result<(), Fail> {
    same(
        &rt,
        &told_of(&rt, &many_steps(&rt, 10000)?)?.as_str(),
        &"none",
    );
    same(
        &rt,
        &told_of(&rt, &many_steps(&rt, 10001)?)?.as_str(),
        &"TooLarge",
    );
    Ok(())
}

#[test]
fn the_most_bytes(rt: HostRuntime) -> Result<(), Fail> {
    let mut text = String::from_str(rt.alloc(), BLOCKED)?;
    for _ in text.len()..1048576 {
        text.push(' ')?;
    }
    same(&rt, &told_of(&rt, &text)?.as_str(), &"none");
    text.push(' ')?;
    same(&rt, &told_of(&rt, &text)?.as_str(), &"TooLarge");
    Ok(())
}
