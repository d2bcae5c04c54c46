//! Runs with what they print, worked out by hand from the manual pages and by another program.

mod ends;
mod events;
mod group_stops;
mod real_time;
mod sends;
mod tracers;
mod workers;

use super::*;

/// A scenario, and what its run prints.
#[derive(Clone, Copy)]
struct Run {
    shows: &'static str,
    input: &'static str,
    output: &'static str,
}

/// That a text is the one that is wanted of the run that shows something.
fn is_text(rt: &impl Abort, value: &str, want: &str, shows: &str) {
    assert_eq!(rt; value, want, "{shows}");
}

fn expect_run(rt: &impl Machine, run: &Run) {
    let done = done(rt, &["tracebox", "serial"], run.input.as_bytes(), SOUND);
    is_text(rt, text(&done.written), run.output, run.shows);
    is_text(rt, text(&done.told), "", run.shows);
    same(rt, &done.status, &0);
}

fn expect_runs(rt: &impl Machine, runs: &[Run]) {
    for run in runs {
        expect_run(rt, run);
    }
}

#[test]
fn sends_masks_and_actions(rt: HostRuntime) {
    expect_runs(&rt, &sends::RUNS);
}

#[test]
fn signals_that_queue(rt: HostRuntime) {
    expect_runs(&rt, &real_time::RUNS);
}

#[test]
fn pauses_and_group_stops(rt: HostRuntime) {
    expect_runs(&rt, &group_stops::RUNS);
}

#[test]
fn tracers_and_restarts(rt: HostRuntime) {
    expect_runs(&rt, &tracers::RUNS);
}

#[test]
fn event_stops_and_execve(rt: HostRuntime) {
    expect_runs(&rt, &events::RUNS);
}

#[test]
fn ends_of_threads_and_groups(rt: HostRuntime) {
    expect_runs(&rt, &ends::RUNS);
}

#[test]
fn workers_in_rounds(rt: HostRuntime) {
    expect_runs(&rt, &workers::RUNS);
}
