//! Runs by workers, whose texts are the same in every schedule.

use super::*;

const THREADS: [&str; 2] = ["tracebox", "threads"];

/// Two actors send USR1 100 times each to a group whose thread blocks it.
const TWO: &str =
    r#"{"version":1,"limit":4,"entries":1000,"groups":[{"tgid":10,"name":"demo","threads":[{"tid":10,"blocked":[10]}],"actions":[]}],"steps":[{"actor":900,"do":"kill","tgid":10,"sig":10,"times":100},{"actor":901,"do":"kill","tgid":10,"sig":10,"times":100}]}"#;

const TWO_TEXT: &str = "worker 900 entries 100 accepted 100 refused 0 end\n\
worker 901 entries 100 accepted 100 refused 0 end\n\
\n\
Name:\tdemo\n\
State:\tR (running)\n\
Tgid:\t10\n\
Pid:\t10\n\
PPid:\t1\n\
TracerPid:\t0\n\
Threads:\t1\n\
SigQ:\t1/4\n\
SigPnd:\t0000000000000000\n\
ShdPnd:\t0000000000000200\n\
SigBlk:\t0000000000000200\n\
SigIgn:\t0000000000000000\n\
SigCgt:\t0000000000000000\n\
\n\
totals accepted 200 pending 1 merged 199 delivered 0 suppressed 0 flushed 0\n\
settled\n";

/// The text of a table without groups and of a run that accepted nothing.
const NOTHING_TEXT: &str =
    "\ntotals accepted 0 pending 0 merged 0 delivered 0 suppressed 0 flushed 0\nsettled\n";

/// A scenario of these steps whose table has no groups.
fn groupless(rt: &impl Machine, steps: &str) -> Result<String, Fail> {
    Ok(format!(in rt.alloc();
        "{{\"version\":1,\"limit\":4,\"entries\":1000,\"groups\":[],\"steps\":[{steps}]}}"
    )?)
}

#[test]
fn workers_run_and_settle(rt: HostRuntime) {
    expect(&rt, &THREADS, TWO, (0, TWO_TEXT, ""));
    for words in [
        ["tracebox", "threads", "--turns=100"],
        ["tracebox", "threads", "--turns=+100"],
        ["tracebox", "threads", "--turns=100000000"],
    ] {
        expect(&rt, &words, TWO, (0, TWO_TEXT, ""));
    }
}

#[test]
fn workers_run_out_of_turns(rt: HostRuntime) -> Result<(), Fail> {
    let lines =
        "worker 900 entries 7 accepted 7 refused 0 turns\nworker 901 entries 7 accepted 7 refused 0 turns\n";
    let totals =
        "totals accepted 14 pending 1 merged 13 delivered 0 suppressed 0 flushed 0\nsettled\n";
    let done = done(
        &rt,
        &["tracebox", "threads", "--turns", "7"],
        TWO.as_bytes(),
        SOUND,
    );
    same(&rt, &done.status, &0);
    assert!(&rt; text(&done.written).starts_with(lines));
    assert!(&rt; text(&done.written).ends_with(totals));
    Ok(())
}

/// Two refusals and a call without an entry: only refusals are counted as such.
#[test]
fn refusals_are_counted(rt: HostRuntime) -> Result<(), Fail> {
    let wait =
        r#"{"actor":1,"do":"starter_wait","tgid":0,"untraced":false,"continued":false,"times":2}"#;
    let end = r#"{"actor":900,"do":"tracer_exit"}"#;
    let input = groupless(&rt, &format!(in rt.alloc(); "{wait},{end}")?)?;
    let lines =
        "worker 1 entries 0 accepted 0 refused 2 end\nworker 900 entries 0 accepted 0 refused 0 end\n";
    let want = format!(in rt.alloc(); "{lines}{NOTHING_TEXT}")?;
    expect(&rt, &THREADS, &input, (0, &want, ""));
    Ok(())
}

#[test]
fn a_run_without_steps_settles(rt: HostRuntime) -> Result<(), Fail> {
    let input = groupless(&rt, "")?;
    expect(&rt, &THREADS, &input, (0, NOTHING_TEXT, ""));
    Ok(())
}

/// Sends to no group by each of so many actors.
fn crowd(rt: &impl Machine, actors: u32) -> Result<String, Fail> {
    let mut steps = String::new(rt.alloc());
    for actor in 1..actors.saturating_add(1) {
        let comma = if actor == 1 { "" } else { "," };
        write!(
            steps,
            "{comma}{{\"actor\":{actor},\"do\":\"kill\",\"tgid\":10,\"sig\":1}}"
        )?;
    }
    groupless(rt, &steps)
}

/// The first and the last line of what a run of a crowd prints.
fn expect_lines(
    rt: &impl Machine,
    words: &[&str],
    input: &str,
    lines: [&str; 2],
) -> Result<(), Fail> {
    let done = done(rt, words, input.as_bytes(), SOUND);
    same(rt, &done.status, &0);
    for line in lines {
        assert!(rt; text(&done.written).contains(line), "{line}");
    }
    Ok(())
}

#[test]
fn workers_are_at_most_64(rt: HostRuntime) -> Result<(), Fail> {
    let most = crowd(&rt, 64)?;
    let lines = [
        "worker 1 entries 0 accepted 0 refused 1 end\n",
        "worker 64 entries 0 accepted 0 refused 1 end\n",
    ];
    expect_lines(&rt, &THREADS, &most, lines)?;
    let more = crowd(&rt, 65)?;
    expect(&rt, &THREADS, &more, (1, "", "tracebox: TooLarge\n"));
    let lines = ["! 1 kill ESRCH 3\n", "! 65 kill ESRCH 3\n"];
    expect_lines(&rt, &["tracebox", "serial"], &more, lines)
}

#[test]
fn turns_are_1_to_100_000_000(rt: HostRuntime) {
    let want = (2, "", "tracebox: Usage\n");
    for turns in [
        "0",
        "100000001",
        "-1",
        "1.0",
        "1e3",
        "x",
        "",
        "99999999999999999999",
    ] {
        expect(&rt, &["tracebox", "threads", "--turns", turns], TWO, want);
    }
    expect(&rt, &["tracebox", "threads", "--turns"], TWO, want);
    expect(&rt, &["tracebox", "threads", "7"], TWO, want);
}

#[test]
fn refused_inputs_are_not_run(rt: HostRuntime) {
    for length in [0, 1, 100, 200] {
        let input = TWO.get(..length).unwrap_or(TWO);
        expect(&rt, &THREADS, input, (1, "", "tracebox: NotJson\n"));
    }
}

/// That the writer that fails at a put took a front of the text.
fn expect_front(rt: &impl Machine, failing_put: usize) {
    let ways = Ways {
        most: 16,
        failing_put,
        ..SOUND
    };
    let done = done(rt, &THREADS, TWO.as_bytes(), ways);
    same(rt, &done.status, &3);
    same(rt, &text(&done.told), &"tracebox: WriteFault\n");
    assert!(rt; TWO_TEXT.as_bytes().starts_with(&done.written));
    same(rt, &done.written.is_empty(), &(failing_put == 1));
}

#[test]
fn a_writer_fails_at_each_put_of_a_run_by_workers(rt: HostRuntime) {
    for failing_put in 1..27 {
        expect_front(&rt, failing_put);
    }
}

#[test]
fn a_reader_fails_before_a_run_by_workers(rt: HostRuntime) {
    for failing_get in 1..18 {
        let ways = Ways {
            most: 16,
            failing_get,
            ..SOUND
        };
        let done = done(&rt, &THREADS, TWO.as_bytes(), ways);
        expect_outcome(&rt, &done, (3, "", "tracebox: ReadFault\n"));
    }
}
