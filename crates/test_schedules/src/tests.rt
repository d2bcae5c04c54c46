mod reports;
mod schedules;
mod searches;

use std::fmt::Debug;
use std::process::Abort;

/// That a value is the one that is wanted.
fn same<T: PartialEq + Debug>(rt: &impl Abort, value: &T, want: &T) {
    assert_eq!(rt; *value, *want);
}
