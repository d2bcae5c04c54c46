use super::*;

/// Two actors, each with a send of its own signal.
const SENDS: &str =
    r#"{"version":1,"limit":4,"entries":9,"groups":[{"tgid":10,"name":"demo","threads":[{"tid":10,"blocked":[]}],"actions":[]}],"steps":[{"actor":900,"do":"kill","tgid":10,"sig":10},{"actor":901,"do":"kill","tgid":10,"sig":12}]}"#;

/// The start, a send of either, and both sends in either order: two states that have one text.
const REPORT: &str =
    "states 5 steps 4 ends 1\nend 1 states 2 schedule 0 1\nworker 900 end\nworker 901 end\n\nName:\tdemo\nState:\tR (running)\nTgid:\t10\nPid:\t10\nPPid:\t1\nTracerPid:\t0\nThreads:\t1\nSigQ:\t2/4\nSigPnd:\t0000000000000000\nShdPnd:\t0000000000000a00\nSigBlk:\t0000000000000000\nSigIgn:\t0000000000000000\nSigCgt:\t0000000000000000\n\ntotals accepted 2 pending 2 merged 0 delivered 0 suppressed 0 flushed 0\ncomplete\n";

/// A tracer that waits twice for a tracee that stops once.
const WAITS: &str =
    r#"{"version":2,"limit":4,"entries":99,"groups":[{"tgid":10,"name":"demo","threads":[{"tid":10,"blocked":[]}],"actions":[]}],"workers":[{"actor":900,"items":[{"do":"attach","tid":10},{"do":"wait","tid":10,"until":true},{"do":"wait","tid":10,"until":true}]},{"actor":10,"machine":[{"tid":10,"ops":[]}]}]}"#;

const EXPLORE: [&str; 2] = ["tracebox", "explore"];

#[test]
fn schedules_are_explored(rt: HostRuntime) {
    expect(&rt, &EXPLORE, SENDS, (0, REPORT, ""));
}

#[test]
fn a_wait_too_many_is_stuck(rt: HostRuntime) {
    let run = done(&rt, &EXPLORE, WAITS.as_bytes(), SOUND);
    same(&rt, &run.status, &0);
    let stuck =
        "\nworker 900 stuck at wait\nworker 10 stuck at thread 10\n\nName:\tdemo\nState:\tt (tracing stop)\n";
    assert!(rt; text(&run.written).contains(stuck));
    assert!(rt; text(&run.written).contains(" ends 1\n"));
}

#[test]
fn states_are_limited(rt: HostRuntime) {
    let words = ["tracebox", "explore", "--states", "5"];
    expect(&rt, &words, SENDS, (0, REPORT, ""));
    let words = ["tracebox", "explore", "--states", "4"];
    expect(&rt, &words, SENDS, (1, "more than 4 states\n", ""));
    for states in ["0", "100000001", "many"] {
        let words = ["tracebox", "explore", "--states", states];
        expect(&rt, &words, SENDS, (2, "", "tracebox: Usage\n"));
    }
}

#[test]
fn what_is_refused_is_not_explored(rt: HostRuntime) {
    expect(&rt, &EXPLORE, "{", (1, "", "tracebox: NotJson\n"));
    let unread = Ways {
        failing_get: 1,
        ..SOUND
    };
    let run = done(&rt, &EXPLORE, SENDS.as_bytes(), unread);
    expect_outcome(&rt, &run, (3, "", "tracebox: ReadFault\n"));
    let unwritten = Ways {
        failing_put: 1,
        ..SOUND
    };
    let run = done(&rt, &EXPLORE, SENDS.as_bytes(), unwritten);
    expect_outcome(&rt, &run, (3, "", "tracebox: WriteFault\n"));
}

/// The calls of the schedule of the end of `SENDS`.
const CALLS: &str =
    "{\"entries\":9,\"groups\":[{\"actions\":[],\"name\":\"demo\",\"tgid\":10,\"threads\":[{\"blocked\":[],\"tid\":10}]}],\"limit\":4,\"steps\":[{\"actor\":900,\"do\":\"kill\",\"sig\":10,\"tgid\":10},{\"actor\":901,\"do\":\"kill\",\"sig\":12,\"tgid\":10}],\"version\":1}\n";

#[test]
fn an_end_is_replayed(rt: HostRuntime) {
    let words = ["tracebox", "explore", "--end", "1"];
    expect(&rt, &words, SENDS, (0, CALLS, ""));
    let serial = done(&rt, &["tracebox", "serial"], CALLS.as_bytes(), SOUND);
    same(&rt, &serial.status, &0);
    assert!(rt; text(&serial.written).contains("totals accepted 2 pending 2"));
}

#[test]
fn an_end_is_missing(rt: HostRuntime) {
    let words = ["tracebox", "explore", "--end", "2"];
    expect(&rt, &words, SENDS, (1, "no end 2 of 1\n", ""));
    let words = ["tracebox", "explore", "--states", "4", "--end", "1"];
    expect(&rt, &words, SENDS, (1, "more than 4 states\n", ""));
    let words = ["tracebox", "explore", "--end", "0"];
    expect(&rt, &words, SENDS, (2, "", "tracebox: Usage\n"));
    let words = ["tracebox", "explore", "--end", "1"];
    expect(&rt, &words, "{", (1, "", "tracebox: NotJson\n"));
    let unwritten = Ways {
        failing_put: 1,
        ..SOUND
    };
    let run = done(&rt, &words, SENDS.as_bytes(), unwritten);
    expect_outcome(&rt, &run, (3, "", "tracebox: WriteFault\n"));
}

/// A traced thread and another, and a send to their group that either may take.
const EITHER: &str =
    r#"{"version":1,"limit":4,"entries":99,"groups":[{"tgid":10,"name":"demo","threads":[{"tid":10,"blocked":[]},{"tid":11,"blocked":[]}],"actions":[{"sig":10,"how":"catch"}]}],"steps":[{"actor":900,"do":"seize","tid":11,"options":[]},{"actor":900,"do":"kill","tgid":10,"sig":10},{"actor":900,"do":"take_any","tgid":10}]}"#;

#[test]
fn open_choices_are_explored(rt: HostRuntime) {
    let run = done(&rt, &EXPLORE, EITHER.as_bytes(), SOUND);
    same(&rt, &run.status, &0);
    assert!(rt; text(&run.written).contains("states 4 steps 3 ends 1\n"));
    let free = ["tracebox", "explore", "--free"];
    let run = done(&rt, &free, EITHER.as_bytes(), SOUND);
    same(&rt, &run.status, &0);
    assert!(rt; text(&run.written).contains("states 5 steps 4 ends 2\n"));
    assert!(rt; text(&run.written).contains("\nend 2 states 1 schedule 0 0 0.1\n"));
    let end = ["tracebox", "explore", "--free", "--end", "1"];
    expect(&rt, &end, EITHER, (2, "", "tracebox: Usage\n"));
}
