use super::devices::Stream;
use super::rounds::EXITS;
use super::runs::{NO_STEP_TEXT, tape};
use super::*;
use std::sync::Wait;
use std::thread::Threads;

/// What workers with so many turns print of a text.
fn printed<T: AllocGlobal + Threads + Wait + Sync>(
    rt: &T,
    text: &str,
    turns: u32,
) -> Result<Vec<u8>, Fail> {
    let stream = Stream {
        text: text.as_bytes(),
        reads: 1000,
    };
    let mut tape = tape(rt, 1000, 1000);
    threaded(
        rt,
        rt.alloc(),
        &mut FromReader::new(stream),
        &mut ToWriter::new(&mut tape),
        u64::from(turns),
    )?;
    Ok(tape.bytes)
}

/// A thread has nothing to take, and tries it until it has.
const NEVER: &str =
    r#"{"version":2,"limit":4,"entries":1000,"groups":[{"tgid":10,"name":"demo","threads":[{"tid":10,"blocked":[]}],"actions":[]}],"workers":[{"actor":10,"items":[{"do":"take","tid":10,"until":true},{"do":"exit","tid":10,"code":0}]}]}"#;

#[test]
fn what_never_comes_ends_by_turns(rt: HostRuntime) -> Result<(), Fail> {
    let want = format!(in rt.alloc();
        "worker 10 entries 0 accepted 0 refused 0 turns\n{NO_STEP_TEXT}settled\n"
    )?;
    for turns in [1, 2, 50] {
        let bytes = printed(&rt, NEVER, turns)?;
        same(&rt, &bytes.as_slice(), &want.as_bytes());
    }
    Ok(())
}

/// The text of a thread's exit but for how often its machine was refused, which is open.
const BEFORE: &str = "worker 10 entries 2 accepted 0 refused ";

const AFTER: &str =
    " end\nworker 1 entries 1 accepted 0 refused 0 end\n\ntotals accepted 0 pending 0 merged 0 delivered 0 suppressed 0 flushed 0\nsettled\n";

#[test]
fn a_starter_waits_on_a_thread_of_its_own(rt: HostRuntime) -> Result<(), Fail> {
    let bytes = printed(&rt, EXITS, 10_000_000)?;
    assert!(rt; bytes.starts_with(BEFORE.as_bytes()));
    assert!(rt; bytes.ends_with(AFTER.as_bytes()));
    Ok(())
}

#[test]
fn the_most_workers_run(rt: HostRuntime) -> Result<(), Fail> {
    let mut text = String::new(rt.alloc());
    let mut want = String::new(rt.alloc());
    text.push_str(r#"{"version":2,"limit":4,"entries":9,"groups":[],"workers":["#)?;
    for actor in 1..64u32 {
        let worker = format!(in rt.alloc();
            "{{\"actor\":{actor},\"items\":[{{\"do\":\"take\",\"tid\":9}}]}},"
        )?;
        text.push_str(&worker)?;
        let line = format!(in rt.alloc(); "worker {actor} entries 0 accepted 0 refused 1 end\n")?;
        want.push_str(&line)?;
    }
    text.push_str(r#"{"actor":64,"machine":[{"tid":9,"ops":[]}]}]}"#)?;
    want.push_str(
        "worker 64 entries 0 accepted 0 refused 1 end\n\ntotals accepted 0 pending 0 merged 0 delivered 0 suppressed 0 flushed 0\nsettled\n",
    )?;
    let bytes = printed(&rt, &text, 1000)?;
    same(&rt, &bytes.as_slice(), &want.as_bytes());
    Ok(())
}
