mod breaking;
mod command_lines;
mod devices;
mod drawn;
mod explained;
mod explored;
mod large_groups;
mod records;
mod runs;
mod stored;
mod threads;

use crate::faults::Fault;
use crate::performing::perform;
use devices::{SOUND, Ways, blank_page, new_feed};
use std::fmt::Debug;
use std::process::Abort;
use std::sync::Wait;
use std::test::Fail;
use std::thread::Threads;
use tr_reading::ScenarioFault;

/// What a command line is performed with, and what a test fails by.
trait Machine: Abort + AllocGlobal + Threads + Wait + Sync {}

impl<T: Abort + AllocGlobal + Threads + Wait + Sync> Machine for T {}

/// What came of a command line.
#[derive(Drop)]
struct Outcome {
    status: u8,
    written: Vec<u8>,
    told: Vec<u8>,
}

/// Performs the words on devices in memory.
fn done(rt: &impl Machine, words: &[&str], input: &[u8], ways: Ways) -> Outcome {
    let mut reader = new_feed(rt.alloc(), input, ways);
    let mut writer = blank_page(rt.alloc(), ways.most, ways.failing_put);
    let mut faults = blank_page(rt.alloc(), ways.most, ways.failing_tell);
    let status = perform(rt, words, &mut reader, &mut writer, &mut faults);
    Outcome {
        status,
        written: writer.bytes,
        told: faults.bytes,
    }
}

/// That a value is the one that is wanted.
fn same<T: PartialEq + Debug>(rt: &impl Abort, value: &T, want: &T) {
    assert_eq!(rt; *value, *want);
}

fn text(bytes: &[u8]) -> &str {
    std::str::from_utf8(bytes).unwrap_or("not UTF-8")
}

/// That this came of a command line: its status, what was written, and what was told.
fn expect_outcome(rt: &impl Abort, done: &Outcome, want: (u8, &str, &str)) {
    same(rt, &text(&done.written), &want.1);
    same(rt, &text(&done.told), &want.2);
    same(rt, &done.status, &want.0);
}

/// That the words, with an input on sound devices, come to this.
fn expect(rt: &impl Machine, words: &[&str], input: &str, want: (u8, &str, &str)) {
    expect_outcome(rt, &done(rt, words, input.as_bytes(), SOUND), want);
}
