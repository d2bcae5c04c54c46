use super::*;
use std::alloc::AllocError;

/// An attach to a thread, its stop, and a request that it isn't in the state for.
const ATTACHED: &str =
    r#"{"version":1,"limit":4,"entries":2,"groups":[{"tgid":10,"name":"demo","threads":[{"tid":10,"blocked":[]}],"actions":[]}],"steps":[{"actor":900,"do":"attach","tid":10},{"actor":10,"do":"take","tid":10},{"actor":900,"do":"listen","tid":10},{"actor":900,"do":"cont","tid":10,"sig":0}]}"#;

const FRONT: &str =
    "#1 900 attach sent 1 pending\n#2 10 take took 10 1 19 0 reported\n  reported: signal 19 (SIGSTOP) waits at the tracer; ptrace(2), \"Signal-delivery-stop\"\n! 900 listen EIO 5\n  EIO: thread 10 was attached, and not seized; ptrace(2), PTRACE_SEIZE\n! 900 cont JournalFull\n  JournalFull: the journal has its 2 entries; this model's choice\n\nName:\tdemo\n";

const BAD: &str = r#"{"version":1,"limit":4,"entries":2,"groups":[],"steps":[{"actor":1}]}"#;

const EXPLAIN: [&str; 2] = ["tracebox", "explain"];

#[test]
fn a_run_is_explained(rt: HostRuntime) {
    let run = done(&rt, &EXPLAIN, ATTACHED.as_bytes(), SOUND);
    same(&rt, &run.status, &0);
    same(&rt, &text(&run.told), &"");
    assert!(rt; text(&run.written).starts_with(FRONT));
}

#[test]
fn an_input_is_explained(rt: HostRuntime) {
    expect(
        &rt,
        &EXPLAIN,
        BAD,
        (
            1,
            "BadField: steps[0].do: is missing\n",
            "tracebox: BadField\n",
        ),
    );
    expect(
        &rt,
        &EXPLAIN,
        "{\n\"version\":}",
        (1, "NotJson: line 2, column 11\n", "tracebox: NotJson\n"),
    );
}

/// A scenario of a machine with so many ops.
fn with_ops(rt: &impl AllocGlobal, count: u32) -> Result<String, AllocError> {
    let mut ops = String::new(rt.alloc());
    for _ in 1..count {
        ops.push_str("{\"do\":\"pause\",\"tid\":10},")?;
    }
    format!(in rt.alloc();
        "{{\"version\":2,\"limit\":4,\"entries\":2,\"groups\":[],\"workers\":[{{\"actor\":10,\"machine\":[{{\"tid\":10,\"ops\":[{ops}{{\"do\":\"exec\",\"tid\":10}}]}}]}}]}}"
    )
}

#[test]
fn too_many_ops_are_told(rt: HostRuntime) -> Result<(), Fail> {
    let input = with_ops(&rt, 10001)?;
    let told = "TooLarge: more than 10000 items and ops\n";
    let want = (1, told, "tracebox: TooLarge\n");
    expect(&rt, &EXPLAIN, input.as_str(), want);
    Ok(())
}

#[test]
fn devices_fail_while_it_is_explained(rt: HostRuntime) {
    let unwritten = Ways {
        failing_put: 1,
        ..SOUND
    };
    let unread = Ways {
        failing_get: 1,
        ..SOUND
    };
    for input in [ATTACHED, BAD] {
        let run = done(&rt, &EXPLAIN, input.as_bytes(), unwritten);
        expect_outcome(&rt, &run, (3, "", "tracebox: WriteFault\n"));
        let run = done(&rt, &EXPLAIN, input.as_bytes(), unread);
        expect_outcome(&rt, &run, (3, "", "tracebox: ReadFault\n"));
    }
}
