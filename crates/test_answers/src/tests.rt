mod answers;
mod comparisons;
mod devices;
mod dialogues;
mod encodings;
mod refusals;
mod texts;

use std::fmt::Debug;
use std::process::Abort;

/// A thread blocks USR1, which is sent to its group; what was answered to the first call isn't known.
const BLOCKED: &str =
    r#"{"version":1,"limit":4,"entries":100,"groups":[{"tgid":10,"name":"demo","threads":[{"tid":10,"blocked":[]}],"actions":[]}],"steps":[{"actor":10,"do":"mask","tid":10,"set":[10]},{"actor":900,"do":"kill","tgid":10,"sig":10,"answer":"sent 1 pending"},{"answer":"sent _ merged","actor":901,"do":"kill","tgid":10,"sig":10,"times":3}]}"#;

/// That a value is the one that is wanted.
fn same<T: PartialEq + Debug>(rt: &impl Abort, value: &T, want: &T) {
    assert_eq!(rt; *value, *want);
}

/// That a value is the one that is wanted of something.
fn same_of<T: PartialEq + Debug, O: Debug>(rt: &impl Abort, value: &T, want: &T, of: &O) {
    assert_eq!(rt; *value, *want, "of {of:?}");
}
