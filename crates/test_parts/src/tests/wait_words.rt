use super::{same, same_of, signal};
use std::test::Fail;
use tr_wait::{Status, StopSig, Which, Word, decode, encode, words_differ};

/// Words as a Linux kernel writes them.
#[test]
fn words_of_linux(rt: HostRuntime) -> Result<(), Fail> {
    let statuses = [
        (0x80137f, Status::EventStop(StopSig::of(signal(19)?))),
        (0x80057f, Status::EventStop(StopSig::of(signal(5)?))),
        (0x4057f, Status::Exec),
        (0x3057f, Status::Clone),
        (0x6057f, Status::Exit),
        (0x300, Status::Exited(3)),
        (0, Status::Exited(0)),
        (0xff00, Status::Exited(255)),
        (0x40, Status::Killed(signal(64)?)),
        (9, Status::Killed(signal(9)?)),
        (0xf, Status::Killed(signal(15)?)),
        (0xa7f, Status::Stopped(signal(10)?)),
        (0x407f, Status::Stopped(signal(64)?)),
        (0x137f, Status::Stopped(signal(19)?)),
        (0xffff, Status::Continued),
    ];
    for (word, status) in statuses {
        same_of(&rt, &decode(Word(word)), &Some(status), &word);
        same_of(&rt, &encode(status), &Word(word), &word);
    }
    Ok(())
}

#[test]
fn words_of_no_status(rt: HostRuntime) {
    for word in [0x7f, 0x41, 0x89, 0x417f, 0x80177f, 0x80, 0x10000] {
        same_of(&rt, &decode(Word(word)), &None, &word);
    }
}

#[test]
fn a_wait_asks_for_one_id_or_any(rt: HostRuntime) {
    words_differ();
    for (which, want) in [
        (Which::Any, true),
        (Which::One(0), true),
        (Which::One(7), true),
        (Which::One(8), false),
    ] {
        same_of(&rt, &which.asks_for(7), &want, &which);
    }
    for (shown, number) in [
        (StopSig::Trap, 5),
        (StopSig::Stop, 19),
        (StopSig::Tstp, 20),
        (StopSig::Ttin, 21),
        (StopSig::Ttou, 22),
    ] {
        same(&rt, &shown.number(), &number);
    }
}
