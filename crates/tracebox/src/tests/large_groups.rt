//! Groups of sixty-four threads, 10 to 73, that clones make or that stand in the start.

ghost use Rattle.std.specs.Prelude.{◌≤◌};

use super::*;
use std::alloc::AllocError;

const NONE: &str = "0000000000000000";

const USR2: &str = "0000000000000800";

/// What each thread of the group shows: how many signals are queued, which of them wait for the group, and which the
/// group catches.
#[derive(Clone, Copy)]
struct Shared {
    queued: u32,
    waiting: &'static str,
    caught: &'static str,
}

/// Steps by which the threads 10 to `last` block USR2.
fn push_masks(steps: &mut String, last: u32) -> Result<(), AllocError> {
    for tid in 10..=last {
        write!(
            steps,
            "{{\"actor\":{tid},\"do\":\"mask\",\"tid\":{tid},\"set\":[12]}},"
        )?;
    }
    Ok(())
}

/// The threads 11 to `last` of a start, which block USR2.
fn push_threads(threads: &mut String, last: u32) -> Result<(), AllocError> {
    for tid in 11..=last {
        write!(threads, ",{{\"tid\":{tid},\"blocked\":[12]}}")?;
    }
    Ok(())
}

/// Sixty-three clones, perhaps more steps, and masks of the threads up to `last`; then USR2 is sent, and taken.
fn cloning(rt: &impl AllocGlobal, more: &str, last: u32) -> Result<String, AllocError> {
    let mut masks = String::new(rt.alloc());
    push_masks(&mut masks, last)?;
    format!(in rt.alloc();
        "{{\"version\":1,\"limit\":4,\"entries\":1000,\"groups\":[{{\"tgid\":10,\"name\":\"demo\",\"threads\":[{{\"tid\":10,\"blocked\":[]}}],\"actions\":[]}}],\"steps\":[{{\"actor\":10,\"do\":\"clone\",\"tid\":10,\"times\":63}},{more}{masks}{{\"actor\":901,\"do\":\"kill\",\"tgid\":10,\"sig\":12}},{{\"actor\":900,\"do\":\"take_any\",\"tgid\":10}}]}}"
    )
}

/// A group that catches USR2, whose threads up to `last` block it, perhaps with more threads; it is sent, and taken.
fn standing(rt: &impl AllocGlobal, last: u32, more: &str) -> Result<String, AllocError> {
    let mut threads = String::new(rt.alloc());
    push_threads(&mut threads, last)?;
    format!(in rt.alloc();
        "{{\"version\":1,\"limit\":4,\"entries\":1000,\"groups\":[{{\"tgid\":10,\"name\":\"demo\",\"threads\":[{{\"tid\":10,\"blocked\":[12]}}{threads}{more}],\"actions\":[{{\"sig\":12,\"how\":\"catch\"}}]}}],\"steps\":[{{\"actor\":901,\"do\":\"kill\",\"tgid\":10,\"sig\":12}},{{\"actor\":900,\"do\":\"take_any\",\"tgid\":10}}]}}"
    )
}

/// The lines of the clones, entries 1 to 63.
fn push_cloned(text: &mut String) -> Result<(), AllocError> {
    for tid in 11u32..=73 {
        write!(text, "#{} 10 clone cloned {tid}\n", tid - 10)?;
    }
    Ok(())
}

/// The lines of the masks, entries 64 and on.
fn push_masked(text: &mut String, last: u32) -> Result<(), AllocError>
    requires { last ≤ 73 }
{
    for tid in 10..=last {
        write!(text, "#{} {tid} mask ok\n", tid + 54)?;
    }
    Ok(())
}

/// The status of one thread.
fn push_status(
    text: &mut String,
    tid: u32,
    blocked: &str,
    shared: Shared,
) -> Result<(), AllocError> {
    write!(
        text,
        "\nName:\tdemo\nState:\tR (running)\nTgid:\t10\nPid:\t{tid}\nPPid:\t1\nTracerPid:\t0\nThreads:\t64\nSigQ:\t{}/4\nSigPnd:\t{NONE}\nShdPnd:\t{}\nSigBlk:\t{blocked}\nSigIgn:\t{NONE}\nSigCgt:\t{}\n",
        shared.queued, shared.waiting, shared.caught
    )
}

/// The statuses of all threads, of which those up to `last` block USR2.
fn push_statuses(text: &mut String, last: u32, shared: Shared) -> Result<(), AllocError> {
    for tid in 10..=73 {
        let blocked = if tid <= last { USR2 } else { NONE };
        push_status(text, tid, blocked, shared)?;
    }
    Ok(())
}

fn expect_text(rt: &impl Machine, input: &str, output: &str) {
    expect(rt, &["tracebox", "serial"], input, (0, output, ""));
}

#[test]
fn the_only_clone_that_can_take_takes(rt: HostRuntime) -> Result<(), Fail> {
    let refused = "{\"actor\":10,\"do\":\"clone\",\"tid\":10},";
    let shared = Shared {
        queued: 0,
        waiting: NONE,
        caught: NONE,
    };
    let mut text = String::new(rt.alloc());
    push_cloned(&mut text)?;
    text.push_str("! 10 clone EAGAIN 11\n")?;
    push_masked(&mut text, 72)?;
    text.push_str("#127 901 kill sent 1 pending\n#128 900 take_any took 73 1 12 0 dying\n")?;
    push_statuses(&mut text, 72, shared)?;
    text.push_str("\ntotals accepted 1 pending 0 merged 0 delivered 1 suppressed 0 flushed 0\n")?;
    expect_text(&rt, &cloning(&rt, refused, 72)?, &text);
    Ok(())
}

#[test]
fn no_clone_can_take(rt: HostRuntime) -> Result<(), Fail> {
    let shared = Shared {
        queued: 1,
        waiting: USR2,
        caught: NONE,
    };
    let mut text = String::new(rt.alloc());
    push_cloned(&mut text)?;
    push_masked(&mut text, 73)?;
    text.push_str("#128 901 kill sent 1 pending\n. 900 take_any nothing\n")?;
    push_statuses(&mut text, 73, shared)?;
    text.push_str("\ntotals accepted 1 pending 1 merged 0 delivered 0 suppressed 0 flushed 0\n")?;
    expect_text(&rt, &cloning(&rt, "", 73)?, &text);
    Ok(())
}

#[test]
fn the_only_thread_that_can_take_takes(rt: HostRuntime) -> Result<(), Fail> {
    let shared = Shared {
        queued: 0,
        waiting: NONE,
        caught: USR2,
    };
    let mut text = String::new(rt.alloc());
    text.push_str("#1 901 kill sent 1 pending\n#2 900 take_any took 73 1 12 0 caught\n")?;
    push_statuses(&mut text, 72, shared)?;
    text.push_str("\ntotals accepted 1 pending 0 merged 0 delivered 1 suppressed 0 flushed 0\n")?;
    expect_text(
        &rt,
        &standing(&rt, 72, ",{\"tid\":73,\"blocked\":[]}")?,
        &text,
    );
    Ok(())
}

#[test]
fn no_thread_can_take(rt: HostRuntime) -> Result<(), Fail> {
    let shared = Shared {
        queued: 1,
        waiting: USR2,
        caught: USR2,
    };
    let mut text = String::new(rt.alloc());
    text.push_str("#1 901 kill sent 1 pending\n. 900 take_any nothing\n")?;
    push_statuses(&mut text, 73, shared)?;
    text.push_str("\ntotals accepted 1 pending 1 merged 0 delivered 0 suppressed 0 flushed 0\n")?;
    expect_text(&rt, &standing(&rt, 73, "")?, &text);
    Ok(())
}
