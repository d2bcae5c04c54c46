use super::{same, same_of};
use std::process::Abort;
use std::test::Fail;
use tr_answers::Expected;
use tr_model::{Fate, Refusal, Reply};
use tr_oracle::Expectation;

/// What is expected, what is printed, and whether it fits.
const FITS: &str = r#"sent 1 pending|sent 1 pending|yes
sent 1 pending|sent 2 pending|no
sent 1 pending|sent 1|no
sent 1|sent 1 pending|no
sent _ pending|sent 30 pending|yes
sent _ pending|sent  pending|yes
sent _ pending|sent pending|no
sent _ _|sent 1 pending|yes
_ _ _|sent 1 pending|yes
_ _|sent 1 pending|no
_|nothing|yes
_|ESRCH 3|no
__|nothing|no
_x|_x|yes
nothing|nothing|yes
nothing|Nothing|no
nothing|nothing |no
nothing |nothing|no
nothing |nothing |yes
||yes
|ok|no
ok||no
_||yes
took 10 7 64 _ caught|took 10 7 64 -1 caught|yes
waited 10 137f 2|waited 10 137F 2|no"#;

#[test]
fn fits_word_by_word(rt: HostRuntime) -> Result<(), Fail> {
    for line in FITS.lines() {
        let (expected, rest) = line.split_once('|').ok_or("a case")?;
        let (text, want) = rest.split_once('|').ok_or("a case")?;
        let fits = Expected::new(rt.alloc(), expected)?.fits_text(text.as_bytes());
        same_of(&rt, &fits, &(want == "yes"), &line);
    }
    Ok(())
}

fn is_open(rt: &impl AllocGlobal, text: &str) -> Result<bool, Fail> {
    Ok(Expected::new(rt.alloc(), text)?.is_open())
}

#[test]
fn a_word_is_open(rt: HostRuntime) -> Result<(), Fail> {
    for text in ["_", "sent _ pending", "_ 1", "cloned _"] {
        assert!(rt; is_open(&rt, text)?, "{text}");
    }
    for text in ["", " ", "nothing", "__", "cloned_", "_a b_", "take_any"] {
        assert!(rt; !is_open(&rt, text)?, "{text}");
    }
    Ok(())
}

fn named_id(rt: &impl AllocGlobal, text: &str) -> Result<Option<u32>, Fail> {
    Ok(Expected::new(rt.alloc(), text)?.named_id())
}

#[test]
fn names_a_new_thread(rt: HostRuntime) -> Result<(), Fail> {
    for text in ["cloned 11", "_ 11", " 11", "Cloned 11"] {
        same_of(&rt, &named_id(&rt, text)?, &Some(11), &text);
    }
    same(&rt, &named_id(&rt, "cloned 0")?, &Some(0));
    same(&rt, &named_id(&rt, "cloned 4294967295")?, &Some(4294967295));
    Ok(())
}

/// One a line.
const NO_IDS: &str = "\
cloned
cloned 
cloned _
cloned 011
cloned 00
cloned +11
cloned -1
cloned 4294967296
cloned 99999999999999999999
cloned  11
 cloned 11
cloned 11 
cloned 1a
11
nothing
_
_ _";

#[test]
fn names_no_thread(rt: HostRuntime) -> Result<(), Fail> {
    for text in NO_IDS.lines() {
        same_of(&rt, &named_id(&rt, text)?, &None, &text);
    }
    Ok(())
}

/// That an expected text fits an answer, or doesn't.
fn is_fit<R: Abort + AllocGlobal>(
    rt: &R,
    text: &str,
    answer: &Result<Reply, Refusal>,
    want: bool,
) -> Result<(), Fail> {
    let expected = Expected::new(rt.alloc(), text)?;
    same_of(rt, &expected.fits(answer)?, &want, &text);
    Ok(())
}

#[test]
fn fits_answers(rt: HostRuntime) -> Result<(), Fail> {
    let fate = Fate::Merged;
    let sent = Ok(Reply::Sent { n: 12, fate });
    is_fit(&rt, "sent 12 merged", &sent, true)?;
    is_fit(&rt, "sent _ merged", &sent, true)?;
    is_fit(&rt, "sent 12 pending", &sent, false)?;
    let cloned = Ok(Reply::Cloned { tid: 12 });
    is_fit(&rt, "_ 12", &cloned, true)?;
    is_fit(&rt, "cloned _", &cloned, true)?;
    is_fit(&rt, "cloned 11", &cloned, false)?;
    is_fit(&rt, "ESRCH 3", &Err(Refusal::Srch), true)?;
    is_fit(&rt, "JournalFull", &Err(Refusal::JournalFull), true)?;
    is_fit(&rt, "Busy", &Err(Refusal::NotDue), false)
}
