mod groups;
mod lanes;
mod queues;
mod records;
mod signals;
mod texts;
mod wait_words;

use std::fmt::Debug;
use std::process::Abort;
use std::test::Fail;
use tr_sigset::{SigSet, Signal};

/// That a value is the one that is wanted.
fn same<T: PartialEq + Debug>(rt: &impl Abort, value: &T, want: &T) {
    assert_eq!(rt; *value, *want);
}

/// That a value is the one that is wanted of something.
fn same_of<T: PartialEq + Debug, O: Debug>(rt: &impl Abort, value: &T, want: &T, of: &O) {
    assert_eq!(rt; *value, *want, "of {of:?}");
}

fn signal(number: u8) -> Result<Signal, Fail> {
    Ok(Signal::new(number).ok_or("not the number of a signal")?)
}

fn set_of(numbers: &[u8]) -> Result<SigSet, Fail> {
    let mut set = SigSet::empty();
    for number in numbers {
        set = set.with(signal(*number)?);
    }
    Ok(set)
}
