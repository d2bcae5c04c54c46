//! Words that read, on devices that break at each call in turn until none is left, and on inputs that are cut.

use super::*;

const WORDS: [&str; 5] = ["serial", "threads", "explore", "explain", "compare"];

/// Two actors, each with a send of its own signal.
const SENDS: &str =
    r#"{"version":1,"limit":4,"entries":9,"groups":[{"tgid":10,"name":"demo","threads":[{"tid":10,"blocked":[]}],"actions":[]}],"steps":[{"actor":900,"do":"kill","tgid":10,"sig":10},{"actor":901,"do":"kill","tgid":10,"sig":12}]}"#;

/// A start, a line that is refused, and a send.
const LINES: &str =
    "{\"version\":1,\"limit\":4,\"entries\":9,\"groups\":[{\"tgid\":10,\"name\":\"demo\",\"threads\":[{\"tid\":10,\"blocked\":[]}],\"actions\":[]}]}\n{}\n{\"actor\":900,\"do\":\"kill\",\"tgid\":10,\"sig\":10}\n";

/// More calls than a device gets in one of these runs.
const CALLS: usize = 60;

/// The text of a run on sound devices.
fn whole(rt: &impl Machine, word: &str, input: &str) -> Vec<u8> {
    let run = done(rt, &["tracebox", word], input.as_bytes(), SOUND);
    same(rt, &run.status, &0);
    run.written
}

/// That a writer that fails at a put took a front of the text, after each put a longer one, and the whole one at last.
fn writer_breaks(rt: &impl Machine, word: &str, input: &str) -> Result<(), Fail> {
    let whole = whole(rt, word, input);
    let mut least = 0;
    for failing_put in 1..CALLS {
        let ways = Ways {
            most: 16,
            failing_put,
            ..SOUND
        };
        let run = done(rt, &["tracebox", word], input.as_bytes(), ways);
        if run.status == 0 {
            same(rt, &text(&run.written), &text(&whole));
            return Ok(());
        }
        same(rt, &run.status, &3);
        same(rt, &text(&run.told), &"tracebox: WriteFault\n");
        assert!(rt; whole.as_slice().starts_with(&run.written));
        assert!(rt; run.written.len() >= least);
        least = run.written.len().saturating_add(1);
    }
    Err(Fail::from("a whole text"))
}

/// That a reader that fails at a call is to blame, until no call is left. A dialogue keeps a front of its text.
fn reader_breaks(rt: &impl Machine, word: &str, input: &str) -> Result<(), Fail> {
    let whole = whole(rt, word, input);
    for failing_get in 1..CALLS {
        let ways = Ways {
            most: 16,
            failing_get,
            ..SOUND
        };
        let run = done(rt, &["tracebox", word], input.as_bytes(), ways);
        if run.status == 0 {
            return Ok(());
        }
        same(rt, &run.status, &3);
        same(rt, &text(&run.told), &"tracebox: ReadFault\n");
        assert!(rt; whole.as_slice().starts_with(&run.written));
        assert!(rt; run.written.is_empty() || word == "live");
    }
    Err(Fail::from("a whole text"))
}

/// That a reader that is interrupted at a call changes nothing.
fn reader_is_interrupted(rt: &impl Machine, word: &str, input: &str) {
    let whole = whole(rt, word, input);
    for interrupted_get in 1..CALLS {
        let ways = Ways {
            most: 16,
            interrupted_get,
            ..SOUND
        };
        let run = done(rt, &["tracebox", word], input.as_bytes(), ways);
        expect_outcome(rt, &run, (0, text(&whole), ""));
    }
}

#[test]
fn a_writer_breaks_anywhere(rt: HostRuntime) -> Result<(), Fail> {
    for word in WORDS {
        writer_breaks(&rt, word, SENDS)?;
    }
    writer_breaks(&rt, "live", LINES)
}

#[test]
fn a_reader_breaks_anywhere(rt: HostRuntime) -> Result<(), Fail> {
    for word in WORDS {
        reader_breaks(&rt, word, SENDS)?;
    }
    reader_breaks(&rt, "live", LINES)
}

#[test]
fn a_reader_is_interrupted_anywhere(rt: HostRuntime) {
    for word in WORDS {
        reader_is_interrupted(&rt, word, SENDS);
    }
    reader_is_interrupted(&rt, "live", LINES);
}

/// That each front of an input but itself is refused by a word.
fn cuts_are_refused(rt: &impl Machine, word: &str) {
    for length in 0..SENDS.len() {
        let input = SENDS.get(..length).unwrap_or(SENDS);
        let run = done(rt, &["tracebox", word], input.as_bytes(), SOUND);
        same(rt, &text(&run.told), &"tracebox: NotJson\n");
        same(rt, &run.status, &1);
    }
}

#[test]
fn an_input_of_each_word_is_cut_anywhere(rt: HostRuntime) {
    for word in WORDS {
        cuts_are_refused(&rt, word);
    }
}
