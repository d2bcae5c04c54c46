use super::*;

/// A thread blocks USR1, which is then sent to its group twice.
const BLOCKED: &str =
    r#"{"version":1,"limit":4,"entries":100,"groups":[{"tgid":10,"name":"demo","threads":[{"tid":10,"blocked":[]}],"actions":[]}],"steps":[{"actor":10,"do":"mask","tid":10,"set":[10]},{"actor":900,"do":"kill","tgid":10,"sig":10},{"actor":900,"do":"kill","tgid":10,"sig":10}]}"#;

const TEXT: &str =
    "#1 10 mask ok\n#2 900 kill sent 1 pending\n#3 900 kill sent 2 merged\n\nName:\tdemo\nState:\tR (running)\nTgid:\t10\nPid:\t10\nPPid:\t1\nTracerPid:\t0\nThreads:\t1\nSigQ:\t1/4\nSigPnd:\t0000000000000000\nShdPnd:\t0000000000000200\nSigBlk:\t0000000000000200\nSigIgn:\t0000000000000000\nSigCgt:\t0000000000000000\n\ntotals accepted 2 pending 1 merged 1 delivered 0 suppressed 0 flushed 0\n";

const SERIAL: [&str; 2] = ["tracebox", "serial"];

fn run(rt: &impl Machine, ways: Ways) -> Outcome {
    done(rt, &SERIAL, BLOCKED.as_bytes(), ways)
}

#[test]
fn bytes_come_and_go_one_at_a_time(rt: HostRuntime) {
    let ways = Ways { most: 1, ..SOUND };
    expect_outcome(&rt, &run(&rt, ways), (0, TEXT, ""));
}

/// Sixteen bytes at a time, the input comes in 17 pieces, and the end after them.
#[test]
fn a_reader_is_interrupted_at_each_call(rt: HostRuntime) {
    for interrupted_get in 1..20 {
        let ways = Ways {
            most: 16,
            interrupted_get,
            ..SOUND
        };
        expect_outcome(&rt, &run(&rt, ways), (0, TEXT, ""));
    }
}

#[test]
fn a_reader_fails_at_each_call(rt: HostRuntime) {
    for failing_get in 1..19 {
        let ways = Ways {
            most: 16,
            failing_get,
            ..SOUND
        };
        expect_outcome(&rt, &run(&rt, ways), (3, "", "tracebox: ReadFault\n"));
    }
}

/// That the writer that fails at a put, and at no other, took a front of the text.
fn expect_front(rt: &impl Machine, failing_put: usize) {
    let ways = Ways {
        most: 16,
        failing_put,
        ..SOUND
    };
    let done = run(rt, ways);
    same(rt, &done.status, &3);
    same(rt, &text(&done.told), &"tracebox: WriteFault\n");
    assert!(rt; TEXT.as_bytes().starts_with(&done.written));
    same(rt, &done.written.is_empty(), &(failing_put == 1));
}

#[test]
fn a_writer_fails_at_each_put(rt: HostRuntime) {
    for failing_put in 1..24 {
        expect_front(&rt, failing_put);
    }
}

#[test]
fn an_input_is_cut_anywhere(rt: HostRuntime) {
    for length in 0..BLOCKED.len() {
        let input = BLOCKED.get(..length).unwrap_or(BLOCKED);
        expect(&rt, &SERIAL, input, (1, "", "tracebox: NotJson\n"));
    }
}

/// That the scenario with one part put in place of another is refused with this fault.
fn expect_refused(rt: &impl Machine, old: &str, new: &str, told: &str) -> Result<(), Fail> {
    let input = BLOCKED.replace(rt.alloc(), old, new)?;
    expect(rt, &SERIAL, &input, (1, "", told));
    Ok(())
}

#[test]
fn an_input_is_refused(rt: HostRuntime) -> Result<(), Fail> {
    for (old, new, told) in [
        (r#""version":1"#, r#""version":3"#, "tracebox: BadField\n"),
        (
            r#""limit":4"#,
            r#""limit":4294967296"#,
            "tracebox: BadField\n",
        ),
        (r#""limit":4"#, r#""limit":1.5"#, "tracebox: BadField\n"),
        (r#""actor":10"#, r#""actor":0"#, "tracebox: BadField\n"),
        ("[10]", "[65]", "tracebox: BadSignal\n"),
        (
            r#""sig":10"#,
            r#""sig":10,"times":60000"#,
            "tracebox: TooLarge\n",
        ),
        (
            r#"{"tid":10,"blocked":[]}"#,
            r#"{"tid":10,"blocked":[]},{"tid":11,"blocked":[]},{"tid":11,"blocked":[]}"#,
            "tracebox: Repeated\n",
        ),
        (
            r#""actions":[]"#,
            r#""actions":[{"sig":10,"how":"catch"},{"sig":10,"how":"catch"}]"#,
            "tracebox: Repeated\n",
        ),
        (
            r#""actions":[]"#,
            r#""actions":[{"sig":9,"how":"catch"}]"#,
            "tracebox: BadStart\n",
        ),
        (
            r#""tgid":10,"name":"demo","threads":[{"tid":10"#,
            r#""tgid":1,"name":"demo","threads":[{"tid":1"#,
            "tracebox: BadStart\n",
        ),
        ("demo", "demodemodemodemo", "tracebox: BadStart\n"),
    ] {
        expect_refused(&rt, old, new, told)?;
    }
    Ok(())
}

/// That bytes that aren't a scenario are refused with this fault.
fn expect_hostile(rt: &impl Machine, input: &[u8], told: &str) {
    expect_outcome(rt, &done(rt, &SERIAL, input, SOUND), (1, "", told));
}

#[test]
fn an_input_is_hostile(rt: HostRuntime) -> Result<(), Fail> {
    let name =
        b"{\"version\":1,\"limit\":4,\"entries\":9,\"groups\":[{\"tgid\":10,\"name\":\"de\xffo\",\"threads\":[],\"actions\":[]}],\"steps\":[]}";
    expect_hostile(&rt, name, "tracebox: NotJson\n");
    let mut brackets = [b']'; 400];
    brackets[..200].fill(b'[');
    expect_hostile(&rt, &brackets, "tracebox: NotJson\n");
    let blanks = " ".repeat(rt.alloc(), 1048577)?;
    expect_hostile(&rt, blanks.as_bytes(), "tracebox: TooLarge\n");
    expect_hostile(&rt, &blanks.as_bytes()[1..], "tracebox: NotJson\n");
    Ok(())
}
