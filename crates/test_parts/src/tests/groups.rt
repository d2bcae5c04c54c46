use super::{same, same_of, signal};
use std::test::Fail;
use tr_group::{Action, GroupStop};

/// Signal dispositions and the group-stop: signal(7), ptrace(2).
#[test]
fn actions_and_group_stops(rt: HostRuntime) -> Result<(), Fail> {
    for (number, does_nothing) in [
        (17, true),
        (18, true),
        (23, true),
        (28, true),
        (10, false),
        (19, false),
    ] {
        let signal = signal(number)?;
        same_of(
            &rt,
            &Action::Default.ignores(signal),
            &does_nothing,
            &number,
        );
        assert!(rt; Action::Ignore.ignores(signal) && !Action::Catch.ignores(signal));
    }
    let mut stop = GroupStop::No;
    stop.complete();
    same(&rt, &stop.signal(), &None);
    stop.begin(signal(20)?);
    assert!(rt; stop.is_stopping() && !stop.is_complete());
    stop.begin(signal(19)?);
    stop.complete();
    assert!(rt; stop.is_complete() && !stop.is_stopping());
    stop.begin(signal(19)?);
    same(&rt, &stop, &GroupStop::Stopped(signal(20)?));
    Ok(())
}
