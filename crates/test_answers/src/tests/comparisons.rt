use super::devices::{blank_tape, compare_to};
use super::{BLOCKED, same};
use std::process::Abort;
use std::test::Fail;
use tr_reading::ScenarioFault;

/// Two groups, whose threads block USR1 and USR2. The first group catches both.
const GROUPS: &str =
    r#"{"tgid":10,"name":"ten","threads":[{"tid":10,"blocked":[10,12]}],"actions":[{"sig":10,"how":"catch"},{"sig":12,"how":"catch"}]},{"tgid":20,"name":"twenty","threads":[{"tid":20,"blocked":[10,12]}],"actions":[]}"#;

/// The record of these steps, with a journal of so many entries.
fn record_of(rt: &impl AllocGlobal, entries: u32, steps: &str) -> Result<String, Fail> {
    let text = format!(in rt.alloc();
        "{{\"version\":1,\"limit\":9,\"entries\":{entries},\"groups\":[{GROUPS}],\"steps\":[{steps}]}}"
    )?;
    Ok(text)
}

/// That the comparison of a record prints this text, and agrees where its last line says so.
fn is_compared<R: Abort + AllocGlobal>(rt: &R, record: &str, want: &str) {
    let mut tape = blank_tape(rt, 1000, 1000);
    let agrees = compare_to(rt, record, 10000, &mut tape);
    same(rt, &tape.bytes.as_slice(), &want.as_bytes());
    same(rt, &agrees, &Ok(!want.contains("admitted")));
}

/// The same, of a record of these steps.
fn are_compared<R: Abort + AllocGlobal>(rt: &R, steps: &str, want: &str) -> Result<(), Fail> {
    is_compared(rt, &record_of(rt, 100, steps)?, want);
    Ok(())
}

#[test]
fn answers_that_agree(rt: HostRuntime) -> Result<(), Fail> {
    is_compared(
        &rt,
        BLOCKED,
        "\
step 3: `901 kill`: assumed `sent 2 merged`
step 3: `901 kill`: assumed `sent 3 merged`
step 3: `901 kill`: assumed `sent 4 merged`
agrees: 4 answers
",
    );
    are_compared(&rt, "", "agrees: 0 answers\n")?;
    are_compared(
        &rt,
        r#"{"actor":900,"do":"kill","tgid":10,"sig":10,"times":5}"#,
        "agrees: 0 answers\n",
    )
}

/// A call after some steps. With it, so many have an answer.
#[derive(Clone, Copy)]
struct Call<'a> {
    before: &'a str,
    known: u32,
    /// The step, without its end.
    step: &'a str,
    /// How lines name it.
    name: &'a str,
}

/// That each answer, one a line, is given to the call as the line says after a bar; where it is open, that is told.
fn are_given<R: Abort + AllocGlobal>(rt: &R, call: &Call<'_>, cases: &str) -> Result<(), Fail> {
    for line in cases.lines() {
        let (answer, made) = line.split_once('|').ok_or("a case")?;
        let steps = format!(in rt.alloc();
            "{}{},\"answer\":\"{answer}\"}}",
            call.before, call.step
        )?;
        let mut want = String::new(rt.alloc());
        if !made.is_empty() {
            write!(want, "{}: assumed `{made}`\n", call.name)?;
        }
        write!(want, "agrees: {} answers\n", call.known)?;
        are_compared(rt, &steps, &want)?;
    }
    Ok(())
}

/// That none of the answers, one a line, fits what is admitted for the call.
fn are_refuted<R: Abort + AllocGlobal>(
    rt: &R,
    call: &Call<'_>,
    answers: &str,
    admitted: &str,
) -> Result<(), Fail> {
    for answer in answers.lines() {
        let steps = format!(in rt.alloc();
            "{}{},\"answer\":\"{answer}\"}}",
            call.before, call.step
        )?;
        let want = format!(in rt.alloc();
            "{}: answered `{answer}`; admitted: {admitted}\n",
            call.name
        )?;
        are_compared(rt, &steps, &want)?;
    }
    Ok(())
}

/// USR2 and then USR1 are sent to a group, and its thread unblocks both.
const TAKES: &str =
    r#"{"actor":900,"do":"kill","tgid":10,"sig":12,"answer":"sent 1 pending"},{"actor":900,"do":"kill","tgid":10,"sig":10,"answer":"sent 2 pending"},{"actor":10,"do":"mask","tid":10,"set":[]},"#;

const TAKEN: &str = "\
took 10 1 12 0 caught|
took 10 2 10 0 caught|
took _ _ 12 _ _|took 10 1 12 0 caught
took _ _ _ _ _|took 10 2 10 0 caught";

const NOT_TAKEN: &str = "\
took 10 1 12 0 dying
took 10 1 10 0 caught
took _ _ _ _
nothing";

#[test]
fn takes_that_are_open(rt: HostRuntime) -> Result<(), Fail> {
    let call = Call {
        before: TAKES,
        known: 3,
        step: r#"{"actor":10,"do":"take","tid":10"#,
        name: "step 4: `10 take`",
    };
    are_given(&rt, &call, TAKEN)?;
    let admitted = "`took 10 2 10 0 caught`, `took 10 1 12 0 caught`";
    are_refuted(&rt, &call, NOT_TAKEN, admitted)
}

/// After the open take the run goes on with the instance that was told.
#[test]
fn a_take_leaves_the_other_instance(rt: HostRuntime) -> Result<(), Fail> {
    let steps = format!(in rt.alloc();
        "{TAKES}{{\"actor\":10,\"do\":\"take\",\"tid\":10,\"answer\":\"took _ 1 _ _ _\"}},{{\"actor\":10,\"do\":\"take\",\"tid\":10,\"answer\":\"took 10 1 12 0 caught\"}}"
    )?;
    are_compared(
        &rt,
        &steps,
        "\
step 4: `10 take`: assumed `took 10 1 12 0 caught`
step 5: `10 take`: answered `took 10 1 12 0 caught`; admitted: `took 10 2 10 0 caught`
",
    )
}

/// Both groups' threads are attached to, and have stopped.
const STOPS: &str =
    r#"{"actor":900,"do":"attach","tid":10},{"actor":900,"do":"attach","tid":20},{"actor":10,"do":"take","tid":10,"answer":"took 10 1 19 0 reported"},{"actor":20,"do":"take","tid":20,"answer":"took 20 2 19 0 reported"},"#;

const WAITED: &str = "\
waited 10 137f 1|
waited 20 137f 2|
waited _ 137f _|waited 10 137f 1
waited 20 _ _|waited 20 137f 2";

const NOT_WAITED: &str = "\
waited 20 _ 1
waited 20 137F 2
nothing";

#[test]
fn waits_that_are_open(rt: HostRuntime) -> Result<(), Fail> {
    let call = Call {
        before: STOPS,
        known: 3,
        step: r#"{"actor":900,"do":"wait","tid":0"#,
        name: "step 5: `900 wait`",
    };
    are_given(&rt, &call, WAITED)?;
    let admitted = "`waited 10 137f 1`, `waited 20 137f 2`";
    are_refuted(&rt, &call, NOT_WAITED, admitted)
}

const CLONED: &str = "\
cloned 11|
cloned 4000000|
_ 12|cloned 12
cloned _|cloned 11
_ _|cloned 11";

const NOT_CLONED: &str = "\
cloned 20
cloned 4194304
cloned 012
_
_ 12 _
_ 20";

#[test]
fn clones(rt: HostRuntime) -> Result<(), Fail> {
    let call = Call {
        before: "",
        known: 1,
        step: r#"{"actor":10,"do":"clone","tid":10"#,
        name: "step 1: `10 clone`",
    };
    are_given(&rt, &call, CLONED)?;
    are_refuted(&rt, &call, NOT_CLONED, "`cloned 11`")
}

#[test]
fn differences(rt: HostRuntime) -> Result<(), Fail> {
    are_compared(
        &rt,
        r#"{"actor":900,"do":"kill","tgid":10,"sig":10,"answer":"sent 1 merged"},{"actor":900,"do":"kill","tgid":10,"sig":10,"answer":"sent _ pending"}"#,
        "step 1: `900 kill`: answered `sent 1 merged`; admitted: `sent 1 pending`\n",
    )?;
    are_compared(
        &rt,
        r#"{"actor":900,"do":"kill","tgid":10,"sig":10,"answer":"sent _ pending"},{"actor":900,"do":"kill","tgid":10,"sig":10,"answer":"sent 2 pending"}"#,
        "step 1: `900 kill`: assumed `sent 1 pending`\nstep 2: `900 kill`: answered `sent 2 pending`; admitted: `sent 2 merged`\n",
    )?;
    are_compared(
        &rt,
        r#"{"actor":900,"do":"mask","tid":20,"set":[]},{"actor":900,"do":"kill","tgid":10,"sig":10,"times":3,"answer":"sent _ pending"},{"actor":900,"do":"kill","tgid":10,"sig":10,"answer":"sent _ merged"}"#,
        "step 2: `900 kill`: assumed `sent 1 pending`\nstep 2: `900 kill`: answered `sent _ pending`; admitted: `sent 2 merged`\n",
    )?;
    are_compared(
        &rt,
        r#"{"actor":900,"do":"kill","tgid":10,"sig":10,"answer":"sent one"}"#,
        "step 1: `900 kill`: answered `sent one`; admitted: `sent 1 pending`\n",
    )
}

#[test]
fn refusals_that_are_expected(rt: HostRuntime) -> Result<(), Fail> {
    are_compared(
        &rt,
        r#"{"actor":900,"do":"kill","tgid":11,"sig":10,"answer":"ESRCH 3"},{"actor":900,"do":"kill","tgid":11,"sig":10,"answer":"ESRCH _"},{"actor":900,"do":"kill","tgid":11,"sig":10,"answer":"EPERM 1"}"#,
        "step 2: `900 kill`: assumed `ESRCH 3`\nstep 3: `900 kill`: answered `EPERM 1`; admitted: `ESRCH 3`\n",
    )?;
    are_compared(
        &rt,
        r#"{"actor":900,"do":"wait","tid":10,"answer":"nothing"}"#,
        "step 1: `900 wait`: answered `nothing`; admitted: `ECHILD 10`\n",
    )
}

#[test]
fn a_full_journal(rt: HostRuntime) -> Result<(), Fail> {
    let kills =
        r#"{"actor":900,"do":"kill","tgid":10,"sig":10,"answer":"sent 1 pending"},{"actor":900,"do":"kill","tgid":10,"sig":10,"answer":"JournalFull"},{"actor":900,"do":"kill","tgid":10,"sig":0,"answer":"exists"},{"actor":900,"do":"kill","tgid":10,"sig":12,"answer":"sent 2 pending"}"#;
    is_compared(
        &rt,
        &record_of(&rt, 1, kills)?,
        "step 4: `900 kill`: answered `sent 2 pending`; admitted: `JournalFull`\n",
    );
    let waits = format!(in rt.alloc();
        "{STOPS}{{\"actor\":900,\"do\":\"wait\",\"tid\":0,\"answer\":\"waited _ _ _\"}}"
    )?;
    is_compared(
        &rt,
        &record_of(&rt, 4, &waits)?,
        "step 5: `900 wait`: answered `waited _ _ _`; admitted: `JournalFull`\n",
    );
    Ok(())
}

/// Three answers are assumed, and the fourth differs.
const HALF: &str =
    r#"{"actor":900,"do":"kill","tgid":10,"sig":10,"times":3,"answer":"sent _ _"},{"actor":900,"do":"kill","tgid":10,"sig":10,"answer":"sent 4 pending"}"#;

const HALF_TEXT: &str = "\
step 1: `900 kill`: assumed `sent 1 pending`
step 1: `900 kill`: assumed `sent 2 merged`
step 1: `900 kill`: assumed `sent 3 merged`
step 2: `900 kill`: answered `sent 4 pending`; admitted: `sent 4 merged`
";

#[test]
fn a_writer_that_breaks_took_a_front(rt: HostRuntime) -> Result<(), Fail> {
    let record = record_of(&rt, 100, HALF)?;
    let whole = HALF_TEXT.as_bytes();
    for writes in 0..50 {
        let mut tape = blank_tape(&rt, 5, writes);
        let agrees = compare_to(&rt, &record, 10000, &mut tape);
        let front = whole.len().min(writes * 5);
        same(&rt, &tape.bytes.as_slice(), &&whole[..front]);
        let want = if front == whole.len() {
            Ok(false)
        } else {
            Err(ScenarioFault::WriteFault)
        };
        same(&rt, &agrees, &want);
    }
    Ok(())
}

#[test]
fn nothing_is_written_after_a_reader_breaks(rt: HostRuntime) {
    for reads in 0..20 {
        let mut tape = blank_tape(&rt, 1000, 1000);
        let agrees = compare_to(&rt, BLOCKED, reads, &mut tape);
        same(&rt, &agrees, &Err(ScenarioFault::ReadFault));
        assert!(rt; tape.bytes.is_empty());
    }
}

fn is_refused<R: Abort + AllocGlobal>(rt: &R, record: &str, want: ScenarioFault) {
    let mut tape = blank_tape(rt, 1000, 1000);
    same(rt, &compare_to(rt, record, 10000, &mut tape), &Err(want));
    assert!(rt; tape.bytes.is_empty());
}

#[test]
fn nothing_is_written_of_a_refused_input(rt: HostRuntime) -> Result<(), Fail> {
    is_refused(&rt, "", ScenarioFault::NotJson);
    is_refused(&rt, "{}", ScenarioFault::BadField);
    let steps =
        r#"{"actor":1,"do":"take","tid":10,"answer":"nothing"},{"actor":1,"do":"mask","tid":10,"set":[65],"answer":3}"#;
    is_refused(&rt, &record_of(&rt, 9, steps)?, ScenarioFault::BadSignal);
    let many =
        r#"{"actor":1,"do":"take","tid":10,"times":100000,"answer":"nothing"},{"actor":1,"do":"take","tid":10}"#;
    is_refused(&rt, &record_of(&rt, 9, many)?, ScenarioFault::TooLarge);
    Ok(())
}

/// More lines than are kept back at once.
#[test]
fn many_lines_come_in_order(rt: HostRuntime) -> Result<(), Fail> {
    let record = record_of(
        &rt,
        5000,
        r#"{"actor":900,"do":"kill","tgid":10,"sig":10,"times":4000,"answer":"sent _ _"}"#,
    )?;
    let mut tape = blank_tape(&rt, 1000, 1000);
    same(&rt, &compare_to(&rt, &record, 10000, &mut tape), &Ok(true));
    let mut rest = tape.bytes.as_slice();
    for n in 1..4001u32 {
        let fate = if n == 1 { "pending" } else { "merged" };
        let line = format!(in rt.alloc(); "step 1: `900 kill`: assumed `sent {n} {fate}`\n")?;
        rest = rest.strip_prefix(line.as_bytes()).ok_or("a line")?;
    }
    same(&rt, &rest, &b"agrees: 4000 answers\n".as_slice());
    Ok(())
}
