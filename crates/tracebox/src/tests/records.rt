use super::*;

/// A thread blocks USR1, which is then sent to its group three times; every answer is known, in part or as a whole.
const BLOCKED: &str =
    r#"{"version":1,"limit":4,"entries":100,"groups":[{"tgid":10,"name":"demo","threads":[{"tid":10,"blocked":[]}],"actions":[]}],"steps":[{"actor":10,"do":"mask","tid":10,"set":[10],"answer":"ok"},{"actor":900,"do":"kill","tgid":10,"sig":10,"answer":"sent _ pending"},{"actor":901,"do":"kill","tgid":10,"sig":10,"times":2,"answer":"sent _ merged"}]}"#;

const TEXT: &str =
    "step 2: `900 kill`: assumed `sent 1 pending`\nstep 3: `901 kill`: assumed `sent 2 merged`\nstep 3: `901 kill`: assumed `sent 3 merged`\nagrees: 4 answers\n";

/// Two signals, whose sends have no answers here, wait for a thread that catches both, and it takes one of them.
const CAUGHT: &str =
    r#"{"version":1,"limit":4,"entries":100,"groups":[{"tgid":10,"name":"demo","threads":[{"tid":10,"blocked":[]}],"actions":[{"sig":10,"how":"catch"},{"sig":12,"how":"catch"}]}],"steps":[{"actor":901,"do":"kill","tgid":10,"sig":10},{"actor":901,"do":"kill","tgid":10,"sig":12},{"actor":10,"do":"take","tid":10,"answer":"took 10 1 10 0 caught"}]}"#;

const COMPARE: [&str; 2] = ["tracebox", "compare"];

fn compared(rt: &impl Machine, ways: Ways) -> Outcome {
    done(rt, &COMPARE, BLOCKED.as_bytes(), ways)
}

/// That a record with one part put in place of another comes to this.
fn expect_changed(
    rt: &impl Machine,
    record: &str,
    change: (&str, &str),
    want: (u8, &str, &str),
) -> Result<(), Fail> {
    let input = record.replace(rt.alloc(), change.0, change.1)?;
    expect(rt, &COMPARE, &input, want);
    Ok(())
}

#[test]
fn a_record_agrees(rt: HostRuntime) -> Result<(), Fail> {
    expect(&rt, &COMPARE, BLOCKED, (0, TEXT, ""));
    expect(&rt, &COMPARE, CAUGHT, (0, "agrees: 1 answers\n", ""));
    for (old, new, text) in [
        ("took 10 1 10 0", "took 10 2 12 0", "agrees: 1 answers\n"),
        (
            "took 10 1 10 0",
            "took 10 _ 12 0",
            "step 3: `10 take`: assumed `took 10 2 12 0 caught`\nagrees: 1 answers\n",
        ),
        (
            "took 10 1 10 0 caught",
            "_ _ _ _ _ _",
            "step 3: `10 take`: assumed `took 10 1 10 0 caught`\nagrees: 1 answers\n",
        ),
        (
            r#","answer":"took 10 1 10 0 caught""#,
            "",
            "agrees: 0 answers\n",
        ),
    ] {
        expect_changed(&rt, CAUGHT, (old, new), (0, text, ""))?;
    }
    Ok(())
}

#[test]
fn an_answer_differs(rt: HostRuntime) -> Result<(), Fail> {
    for (old, new, text) in [
        (
            r#""ok""#,
            r#""EPERM 1""#,
            "step 1: `10 mask`: answered `EPERM 1`; admitted: `ok`\n",
        ),
        (
            "sent _ merged",
            "sent 2 merged",
            "step 2: `900 kill`: assumed `sent 1 pending`\nstep 3: `901 kill`: answered `sent 2 merged`; admitted: `sent 3 merged`\n",
        ),
        (
            "sent _ merged",
            "sent _",
            "step 2: `900 kill`: assumed `sent 1 pending`\nstep 3: `901 kill`: answered `sent _`; admitted: `sent 2 merged`\n",
        ),
    ] {
        expect_changed(&rt, BLOCKED, (old, new), (1, text, ""))?;
    }
    let text =
        "step 3: `10 take`: answered `nothing`; admitted: `took 10 1 10 0 caught`, `took 10 2 12 0 caught`\n";
    expect_changed(
        &rt,
        CAUGHT,
        ("took 10 1 10 0 caught", "nothing"),
        (1, text, ""),
    )
}

#[test]
fn a_record_is_refused(rt: HostRuntime) -> Result<(), Fail> {
    for (old, new, told) in [
        (r#""ok""#, "1", "tracebox: BadField\n"),
        (r#""ok""#, "null", "tracebox: BadField\n"),
        ("answer", "answers", "tracebox: BadField\n"),
        (r#""version":1"#, r#""version":2"#, "tracebox: BadField\n"),
        ("[10]", "[65]", "tracebox: BadSignal\n"),
        (r#""times":2"#, r#""times":100000"#, "tracebox: TooLarge\n"),
        ("demo", "", "tracebox: BadStart\n"),
        (r#"merged"}]}"#, r#"merged"}]"#, "tracebox: NotJson\n"),
    ] {
        expect_changed(&rt, BLOCKED, (old, new), (1, "", told))?;
    }
    expect(&rt, &COMPARE, "", (1, "", "tracebox: NotJson\n"));
    Ok(())
}

#[test]
fn a_record_is_no_scenario(rt: HostRuntime) {
    for word in ["serial", "threads"] {
        let words = ["tracebox", word];
        expect(&rt, &words, BLOCKED, (1, "", "tracebox: BadField\n"));
    }
}

#[test]
fn bytes_of_a_record_come_and_go_one_at_a_time(rt: HostRuntime) {
    let ways = Ways { most: 1, ..SOUND };
    expect_outcome(&rt, &compared(&rt, ways), (0, TEXT, ""));
}

/// Sixteen bytes at a time, the record comes in 22 pieces, and the end after them.
#[test]
fn a_reader_of_a_record_fails_or_is_interrupted(rt: HostRuntime) {
    for call in 1..24 {
        let failing = Ways {
            most: 16,
            failing_get: call,
            ..SOUND
        };
        let want = (3, "", "tracebox: ReadFault\n");
        expect_outcome(&rt, &compared(&rt, failing), want);
        let interrupted = Ways {
            most: 16,
            interrupted_get: call,
            ..SOUND
        };
        expect_outcome(&rt, &compared(&rt, interrupted), (0, TEXT, ""));
    }
}

/// That the writer that fails at a put, and at no other, took a front of the text.
fn expect_front(rt: &impl Machine, input: &str, failing_put: usize, whole: &str) {
    let ways = Ways {
        most: 16,
        failing_put,
        ..SOUND
    };
    let done = done(rt, &COMPARE, input.as_bytes(), ways);
    same(rt, &done.status, &3);
    same(rt, &text(&done.told), &"tracebox: WriteFault\n");
    assert!(rt; whole.as_bytes().starts_with(&done.written));
    same(rt, &done.written.is_empty(), &(failing_put == 1));
}

#[test]
fn a_writer_of_a_comparison_fails_at_each_put(rt: HostRuntime) -> Result<(), Fail> {
    for failing_put in 1..10 {
        expect_front(&rt, BLOCKED, failing_put, TEXT);
    }
    let differing = CAUGHT.replace(rt.alloc(), "took 10 1 10 0 caught", "nothing")?;
    let text =
        "step 3: `10 take`: answered `nothing`; admitted: `took 10 1 10 0 caught`, `took 10 2 12 0 caught`\n";
    for failing_put in 1..7 {
        expect_front(&rt, &differing, failing_put, text);
    }
    Ok(())
}
