use super::{BLOCKED, same};
use std::process::Abort;
use std::test::Fail;
use tr_answers::{Answered, read};
use tr_model::Event;
use tr_sigset::SigSet;

fn is_answered(rt: &impl Abort, answered: &Answered, event: Event, times: u32, want: Option<&str>) {
    same(rt, &answered.step.event, &event);
    same(rt, &answered.step.times, &times);
    let text = answered.answer.as_ref().map(|answer| answer.as_str());
    same(rt, &text, &want);
}

#[test]
fn reads_steps_with_and_without_answers(rt: HostRuntime) -> Result<(), Fail> {
    let record = read(rt.alloc(), BLOCKED.as_bytes())?;
    same(&rt, &record.start.limit, &4);
    same(&rt, &record.start.entries, &100);
    same(&rt, &record.start.groups.as_slice().len(), &1);
    let [mask, first, others] = record.steps.as_slice() else {
        return Err(Fail::from("three steps"));
    };
    let set = SigSet::from_bits(0x200);
    let kill = Event::Kill { tgid: 10, sig: 10 };
    is_answered(&rt, mask, Event::Mask { tid: 10, set }, 1, None);
    is_answered(&rt, first, kill, 1, Some("sent 1 pending"));
    is_answered(&rt, others, kill, 3, Some("sent _ merged"));
    same(&rt, &others.step.actor, &901);
    Ok(())
}
