use super::{same, same_of, set_of, signal};
use std::process::Abort;
use std::test::Fail;
use tr_sigset::{Base, SigSet, Signal};

/// Says that the default action of each is the one that is wanted, and gives their set.
fn assert_action(rt: &impl Abort, want: Base, group: &[(&str, u8)]) -> Result<SigSet, Fail> {
    let mut set = SigSet::empty();
    for (name, number) in group {
        let signal = signal(*number)?;
        same_of(rt, &signal.default_action(), &want, &name);
        set = set.with(signal);
    }
    Ok(set)
}

/// The tables of signal(7), "Standard signals" and "Signal numbering for standard signals".
#[test]
fn default_actions(rt: HostRuntime) -> Result<(), Fail> {
    let term = [
        ("ALRM", 14),
        ("HUP", 1),
        ("INT", 2),
        ("IO", 29),
        ("KILL", 9),
        ("PIPE", 13),
        ("PROF", 27),
        ("PWR", 30),
        ("STKFLT", 16),
        ("TERM", 15),
        ("USR1", 10),
        ("USR2", 12),
        ("VTALRM", 26),
    ];
    let core = [
        ("ABRT", 6),
        ("BUS", 7),
        ("FPE", 8),
        ("ILL", 4),
        ("QUIT", 3),
        ("SEGV", 11),
        ("SYS", 31),
        ("TRAP", 5),
        ("XCPU", 24),
        ("XFSZ", 25),
    ];
    let ignored = [("CHLD", 17), ("URG", 23), ("WINCH", 28)];
    let stop = [("STOP", 19), ("TSTP", 20), ("TTIN", 21), ("TTOU", 22)];
    let seen = assert_action(&rt, Base::Term, &term)?
        .union(assert_action(&rt, Base::Core, &core)?)
        .union(assert_action(&rt, Base::Ignored, &ignored)?)
        .union(assert_action(&rt, Base::Stop, &stop)?)
        .union(assert_action(&rt, Base::Continue, &[("CONT", 18)])?);
    same_of(&rt, &seen.bits(), &0x7fff_ffff, &"HUP to SYS");
    Ok(())
}

#[test]
fn a_real_time_signal_ends_the_process(rt: HostRuntime) -> Result<(), Fail> {
    for number in 32..65 {
        let signal = signal(number)?;
        assert!(rt; signal.is_real_time(), "{number}");
        assert!(rt; !signal.is_stop(), "{number}");
        same_of(&rt, &signal.default_action(), &Base::Term, &number);
    }
    assert!(rt; !signal(31)?.is_real_time());
    assert!(rt; signal(22)?.is_stop());
    same(&rt, &Signal::new(0), &None);
    same(&rt, &Signal::new(65), &None);
    Ok(())
}

#[test]
fn sets(rt: HostRuntime) -> Result<(), Fail> {
    let set = set_of(&[9, 64, 2])?;
    same(&rt, &set.bits(), &0x8000_0000_0000_0102);
    same(&rt, &set, &SigSet::from_bits(0x8000_0000_0000_0102));
    assert!(rt; set.has(signal(64)?));
    assert!(rt; !set.has(signal(3)?));
    same(&rt, &set.least(), &Some(signal(2)?));
    same(&rt, &set.without(signal(2)?), &set_of(&[9, 64])?);
    same(&rt, &set.minus(set_of(&[2, 3, 9])?), &set_of(&[64])?);
    same(&rt, &SigSet::empty().least(), &None);
    Ok(())
}
