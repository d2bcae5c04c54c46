use super::devices::{Lines, Tape, blank_tape};
use super::same;
use std::process::Abort;
use std::test::Fail;
use tr_live::converse;
use tr_reading::ScenarioFault;
use tr_scenario::{FromReader, ToWriter};

/// One thread that blocks nothing.
const START: &str =
    "{\"version\":1,\"limit\":4,\"entries\":2,\"groups\":[{\"tgid\":10,\"name\":\"demo\",\"threads\":[{\"tid\":10,\"blocked\":[]}],\"actions\":[]}]}\n";

const KILL: &str = "{\"actor\":900,\"do\":\"kill\",\"tgid\":10,\"sig\":17}\n";

/// Holds a dialogue over these lines, a read each.
fn converse_on(
    rt: &impl AllocGlobal,
    lines: &[&str],
    tape: &mut Tape,
) -> Result<(), ScenarioFault> {
    let mut reader = FromReader::new(Lines::new(lines));
    converse(rt.alloc(), &mut reader, &mut ToWriter::new(tape))
}

/// That these lines are answered so.
fn answered(rt: &(impl AllocGlobal + Abort), lines: &[&str], want: &str) {
    let mut tape = blank_tape(rt, 1, 4096);
    same(rt, &converse_on(rt, lines, &mut tape), &Ok(()));
    assert!(rt; tape.bytes.as_slice() == want.as_bytes());
}

#[test]
fn each_line_is_answered(rt: HostRuntime) -> Result<(), Fail> {
    answered(
        &rt,
        &[
            START,
            "{\"actor\":900,\"do\":\"kill\",\"tgid\":10,\"sig\":0,\"times\":2}\n",
            KILL,
            "{\"show\":\"totals\"}",
        ],
        "started\n\n. 900 kill exists\n. 900 kill exists\n\n#1 900 kill sent 1 flushed\n\ntotals accepted 1 pending 0 merged 0 delivered 0 suppressed 0 flushed 1\n\n",
    );
    Ok(())
}

#[test]
fn refused_lines_change_nothing(rt: HostRuntime) -> Result<(), Fail> {
    answered(
        &rt,
        &[
            KILL,
            START,
            START,
            "\n",
            "{\"actor\":900,\"do\":\"kill\",\"tgid\":10,\"sig\":256}\n",
            "{\"show\":\"everything\"}\n",
            "{\"show\":\"status\",\"tid\":11}\n",
            "{\"show\":\"totals\",\"tid\":10}\n",
            KILL,
        ],
        "refused BadField: version: is missing\n\nstarted\n\nrefused BadField: actor: is missing\n\nrefused NotJson: line 1, column 0\n\nrefused BadField: sig: a whole number from 0 to 255 is wanted\n\nrefused BadField: show: `status`, `totals` or `table` is wanted\n\nrefused ESRCH 3\n\nrefused BadField: the key `tid` isn't known here\n\n#1 900 kill sent 1 flushed\n\n",
    );
    Ok(())
}

#[test]
fn start_that_no_kernel_can_have_is_refused(rt: HostRuntime) -> Result<(), Fail> {
    answered(
        &rt,
        &[
            "{\"version\":1,\"limit\":4,\"entries\":2,\"groups\":[{\"tgid\":1,\"name\":\"demo\",\"threads\":[{\"tid\":1,\"blocked\":[]}],\"actions\":[]}]}\n",
            "{\"version\":1,\"limit\":4,\"entries\":2,\"groups\":[{\"tgid\":10,\"name\":\"demo\",\"threads\":[{\"tid\":10,\"blocked\":[]},{\"tid\":10,\"blocked\":[]}],\"actions\":[]}]}\n",
            "{\"version\":1,\"limit\":4,\"entries\":2,\"groups\":[],\"steps\":[]}\n",
            START,
        ],
        "refused BadStart: groups[0].threads[0].tid: a whole number from 2 to 4194303 is wanted\n\nrefused Repeated: thread 10 stands twice\n\nrefused BadField: the key `steps` isn't known here\n\nstarted\n\n",
    );
    Ok(())
}

#[test]
fn full_journal_takes_no_entry_more(rt: HostRuntime) -> Result<(), Fail> {
    answered(
        &rt,
        &[START, KILL, KILL, KILL],
        "started\n\n#1 900 kill sent 1 flushed\n\n#2 900 kill sent 2 flushed\n\n! 900 kill JournalFull\n\n",
    );
    Ok(())
}

#[test]
fn writer_that_fails_keeps_a_front(rt: HostRuntime) -> Result<(), Fail> {
    let want = "started\n\n#1 900 kill sent 1 flushed\n\n";
    for most in 0..want.len() {
        let mut tape = blank_tape(&rt, 1, most);
        let ended = converse_on(&rt, &[START, KILL], &mut tape);
        same(&rt, &ended, &Err(ScenarioFault::WriteFault));
        assert!(&rt; tape.bytes.as_slice() == &want.as_bytes()[..most]);
    }
    Ok(())
}

#[test]
fn reader_that_fails_leaves_each_line_answered(rt: HostRuntime) -> Result<(), Fail> {
    let mut tape = blank_tape(&rt, 1, 4096);
    let mut reader = FromReader::new(Lines::broken(&[START, KILL]));
    let ended = converse(rt.alloc(), &mut reader, &mut ToWriter::new(&mut tape));
    same(&rt, &ended, &Err(ScenarioFault::ReadFault));
    assert!(&rt; tape.bytes.as_slice() == b"started\n\n#1 900 kill sent 1 flushed\n\n".as_slice());
    Ok(())
}

/// A line of 65,537 bytes, its newline not counted, and one of a byte less.
#[test]
fn long_line_is_too_large(rt: HostRuntime) -> Result<(), Fail> {
    let mut line = String::new(rt.alloc());
    for _ in 0..65536 {
        line.push_str(" ")?;
    }
    line.push_str("\n")?;
    let mut longer = String::new(rt.alloc());
    longer.push_str(" ")?;
    longer.push_str(line.as_str())?;
    answered(
        &rt,
        &[line.as_str(), longer.as_str(), START],
        "refused NotJson: line 1, column 65536\n\nrefused TooLarge: more than 65536 bytes\n\nstarted\n\n",
    );
    Ok(())
}
