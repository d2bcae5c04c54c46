//! The program `tracebox`: it runs scenarios, call by call or by workers on threads, explains and draws their runs, goes
//! through all their schedules, holds dialogues, compares records of another system's answers with the model, and tells what
//! wait status words mean.
#![tactic(auto)]

mod faults;
mod meanings;
mod performing;
#[cfg(test)]
mod tests;

use performing::perform_words;
use std::process::ExitCode;
use std::{env, io};
use tr_scenario::{FromReader, ToWriter};

fn words(rt: &HostRuntime) -> io::Result<Vec<String>> {
    Ok(env::args(rt)?.collect(rt.alloc())?)
}

fn main(rt: HostRuntime) -> ExitCode {
    let mut reader = FromReader::new(rt.stdin());
    let mut writer = ToWriter::new(rt.stdout());
    let mut faults = ToWriter::new(rt.stderr());
    let status = perform_words(&rt, words(&rt), &mut reader, &mut writer, &mut faults);
    ExitCode::from(status)
}
