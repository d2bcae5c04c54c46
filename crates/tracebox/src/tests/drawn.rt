//! Pictures of runs: what they show is said by contracts, what these tests look at are runs of each size and device.

use super::*;
use std::alloc::AllocError;

/// An attach to a thread, its stop, a request that it isn't in the state for, twice, and the wait for it.
const ATTACHED: &str =
    r#"{"version":1,"limit":4,"entries":9,"groups":[{"tgid":10,"name":"a<b&\"c\"","threads":[{"tid":10,"blocked":[]}],"actions":[]}],"steps":[{"actor":900,"do":"attach","tid":10},{"actor":10,"do":"take","tid":10},{"actor":900,"do":"listen","tid":10,"times":2},{"actor":900,"do":"wait","tid":0}]}"#;

const NO_STEP: &str = r#"{"version":1,"limit":4,"entries":9,"groups":[],"steps":[]}"#;

/// A tracer that waits again and again, and a thread that it traces.
const WORKERS: &str =
    r#"{"version":2,"limit":4,"entries":9,"groups":[{"tgid":10,"name":"demo","threads":[{"tid":10,"blocked":[]}],"actions":[]}],"workers":[{"actor":900,"items":[{"do":"attach","tid":10},{"do":"wait","tid":10,"until":true}]},{"actor":10,"items":[{"do":"take","tid":10,"until":true}]}]}"#;

const DRAW: [&str; 2] = ["tracebox", "draw"];

/// How often a piece stands in a text.
fn count_of(text: &str, piece: &str) -> usize {
    text.split(piece).count().saturating_sub(1)
}

/// The picture of a scenario, on sound devices: it begins as an SVG, and as many tags begin in it as end.
fn picture(rt: &impl Machine, input: &str) -> Vec<u8> {
    let run = done(rt, &DRAW, input.as_bytes(), SOUND);
    same(rt, &run.status, &0);
    same(rt, &text(&run.told), &"");
    let drawn = text(&run.written);
    assert!(rt; drawn.starts_with("<svg xmlns=\"http://www.w3.org/2000/svg\" width=\""));
    assert!(rt; drawn.ends_with("</svg>\n"));
    same(
        rt,
        &count_of(drawn, "<"),
        &count_of(drawn, "</").saturating_mul(2),
    );
    run.written
}

#[test]
fn a_run_is_drawn(rt: HostRuntime) {
    let picture = picture(&rt, ATTACHED);
    let drawn = text(&picture);
    assert!(rt; drawn.contains("tracebox: 5 calls, 3 entries"));
    assert!(rt; drawn.contains("signal STOP"));
    assert!(rt; drawn.contains("by 900 attached"));
    assert!(rt; drawn.contains("waited 10 137f 1"));
    assert!(rt; drawn.contains(">end</text>"));
}

#[test]
fn a_name_is_escaped(rt: HostRuntime) {
    let picture = picture(&rt, ATTACHED);
    assert!(rt; text(&picture).contains(">a&lt;b&amp;&quot;c&quot;</text>"));
}

/// Two equal calls without an entry share a row, and a third row is that of the wait.
#[test]
fn equal_calls_share_a_row(rt: HostRuntime) {
    let picture = picture(&rt, ATTACHED);
    let drawn = text(&picture);
    same(&rt, &count_of(drawn, "! 900 listen EIO 5"), &1);
    assert!(rt; drawn.contains(">x2</text>"));
    same(&rt, &count_of(drawn, "<g transform="), &5);
}

#[test]
fn a_run_of_no_step_is_drawn(rt: HostRuntime) {
    let picture = picture(&rt, NO_STEP);
    let drawn = text(&picture);
    assert!(rt; drawn.contains("tracebox: 0 calls, 0 entries"));
    same(&rt, &count_of(drawn, "<g transform="), &1);
}

#[test]
fn workers_are_drawn(rt: HostRuntime) {
    let picture = picture(&rt, WORKERS);
    let drawn = text(&picture);
    assert!(rt; drawn.contains("900 attach 10"));
    assert!(rt; drawn.contains("waited 10 137f 1"));
}

/// A scenario whose group has the threads 10 to `last`, and steps.
fn many_threads(rt: &impl AllocGlobal, last: u32, steps: &str) -> Result<String, AllocError> {
    let mut threads = String::new(rt.alloc());
    for tid in 11..=last {
        write!(threads, ",{{\"tid\":{tid},\"blocked\":[]}}")?;
    }
    format!(in rt.alloc();
        "{{\"version\":1,\"limit\":4,\"entries\":9,\"groups\":[{{\"tgid\":10,\"name\":\"demo\",\"threads\":[{{\"tid\":10,\"blocked\":[]}}{threads}],\"actions\":[]}}],\"steps\":[{steps}]}}"
    )
}

/// Sixty-four threads have sixteen lanes, and a clone is one thread more without one.
#[test]
fn threads_without_a_lane_are_counted(rt: HostRuntime) -> Result<(), Fail> {
    let input = many_threads(&rt, 72, "{\"actor\":10,\"do\":\"clone\",\"tid\":10}")?;
    let picture = picture(&rt, &input);
    let drawn = text(&picture);
    same(&rt, &count_of(drawn, ">thread "), &16);
    assert!(rt; drawn.contains("without a lane: 48 threads, 0 groups, 0 actors"));
    Ok(())
}

/// A clone has a lane of its own.
#[test]
fn a_clone_has_a_lane(rt: HostRuntime) -> Result<(), Fail> {
    let input = many_threads(&rt, 10, "{\"actor\":10,\"do\":\"clone\",\"tid\":10}")?;
    let picture = picture(&rt, &input);
    let drawn = text(&picture);
    assert!(rt; drawn.contains(">thread 11</text>"));
    assert!(rt; !drawn.contains("without a lane"));
    Ok(())
}

/// Of 1,024 threads in 16 groups sixteen have a lane.
#[test]
fn the_most_threads_are_drawn(rt: HostRuntime) -> Result<(), Fail> {
    let mut groups = String::new(rt.alloc());
    for group in 0u32..16 {
        let leader = 1000u32.wrapping_add(group.wrapping_mul(64));
        let comma = if group == 0 { "" } else { "," };
        write!(
            groups,
            "{comma}{{\"tgid\":{leader},\"name\":\"demo\",\"actions\":[],\"threads\":[{{\"tid\":{leader},\"blocked\":[]}}"
        )?;
        for thread in 1u32..64 {
            let tid = leader.wrapping_add(thread);
            write!(groups, ",{{\"tid\":{tid},\"blocked\":[]}}")?;
        }
        write!(groups, "]}}")?;
    }
    let input = format!(in rt.alloc();
        "{{\"version\":1,\"limit\":4,\"entries\":9,\"groups\":[{groups}],\"steps\":[]}}"
    )?;
    let picture = picture(&rt, &input);
    let drawn = text(&picture);
    same(&rt, &count_of(drawn, ">group 1"), &16);
    same(&rt, &count_of(drawn, ">thread "), &16);
    assert!(rt; drawn.contains("without a lane: 1008 threads, 0 groups, 0 actors"));
    Ok(())
}

/// Of 203 sends, of which eight make no entry, two hundred have a row; of nine actors eight have a lane.
#[test]
fn calls_without_a_row_are_counted(rt: HostRuntime) -> Result<(), Fail> {
    let mut steps = String::new(rt.alloc());
    for actor in 900..908 {
        write!(
            steps,
            "{{\"actor\":{actor},\"do\":\"kill\",\"tgid\":10,\"sig\":0}},"
        )?;
    }
    let input = format!(in rt.alloc();
        "{{\"version\":1,\"limit\":4,\"entries\":999,\"groups\":[{{\"tgid\":10,\"name\":\"demo\",\"threads\":[{{\"tid\":10,\"blocked\":[10]}}],\"actions\":[]}}],\"steps\":[{steps}{{\"actor\":908,\"do\":\"kill\",\"tgid\":10,\"sig\":10,\"times\":195}}]}}"
    )?;
    let picture = picture(&rt, &input);
    let drawn = text(&picture);
    assert!(rt; drawn.contains("tracebox: 203 calls, 195 entries"));
    same(&rt, &count_of(drawn, "<g transform="), &201);
    assert!(rt; drawn.contains("cut: 3 calls have no row"));
    assert!(rt; drawn.contains("without a lane: 0 threads, 0 groups, 1 actors"));
    Ok(())
}

/// Nothing is written of an input that is refused.
#[test]
fn a_refused_input_is_not_drawn(rt: HostRuntime) {
    expect(&rt, &DRAW, "{", (1, "", "tracebox: NotJson\n"));
}

/// A writer that fails at a put took a front of the picture, after each put a longer one.
#[test]
fn a_writer_fails_at_each_put_of_a_picture(rt: HostRuntime) {
    let whole = picture(&rt, ATTACHED);
    let mut least = 0;
    for failing_put in 1..100 {
        let ways = Ways {
            most: 512,
            failing_put,
            ..SOUND
        };
        let run = done(&rt, &DRAW, ATTACHED.as_bytes(), ways);
        if run.status == 0 {
            same(&rt, &text(&run.written), &text(&whole));
            return;
        }
        same(&rt, &run.status, &3);
        same(&rt, &text(&run.told), &"tracebox: WriteFault\n");
        assert!(rt; whole.as_slice().starts_with(&run.written));
        assert!(rt; run.written.len() >= least);
        least = run.written.len().saturating_add(1);
    }
    assert!(rt; false);
}

#[test]
fn a_reader_fails_before_a_picture(rt: HostRuntime) {
    let ways = Ways {
        failing_get: 1,
        ..SOUND
    };
    let run = done(&rt, &DRAW, ATTACHED.as_bytes(), ways);
    expect_outcome(&rt, &run, (3, "", "tracebox: ReadFault\n"));
}
