ghost use Rattle.std.specs.Prelude.{◌≡◌, ◌<◌, ◌^◌, []};

use super::gates::Open;
use super::{item, same};
use std::alloc::Global;
use std::mem;
use std::test::Fail;
use tr_hub::{Answer, Receipt};
use tr_model::{Event, Refusal, Reply};
use tr_workers::{Ended, Item, Plan, Port, Repeat, Script, Tally, Told, keep, work};

/// A port in memory: by turns an entry that accepts two signals, a reply and a refusal.
#[derive(Drop)]
pub(super) struct ByTurns {
    alloc: Global,
    pub(super) calls: u64,
    receipts: Vec<Receipt>,
    told: Vec<Told>,
}

impl ByTurns {
    pub(super) fn new(alloc: Global) -> ByTurns
        ensures { (result.calls ≡ 0) × (result.receipts.items ≡ []) × (result.told.items ≡ []) }
    {
        ByTurns {
            alloc,
            calls: 0,
            receipts: Vec::new(alloc),
            told: Vec::new(alloc),
        }
    }
}

impl Port for ByTurns {
    ghost calls = { λ p. p.calls };

    ghost receipts = { λ p. p.receipts.items };

    ghost told = { λ p. p.told.items };

    fn call(&mut self, event: Event) -> Answer {
        self.calls += 1;
        if self.receipts.reserve(1).is_err() || self.told.reserve(1).is_err() {
            return Answer::Refused(Refusal::NoMemory);
        }
        let answer = match self.calls % 3 {
            0 => Answer::Refused(Refusal::Perm),
            1 => Answer::Entered(Receipt {
                position: self.calls,
                event,
                reply: Reply::Done,
                accepted: 2,
            }),
            _ => Answer::Read(Reply::Exists),
        };
        keep(&mut self.receipts, &mut self.told, &event, &answer);
        answer
    }

    fn hand_over(&mut self) -> (Vec<Receipt>, Vec<Told>) {
        let receipts = mem::replace(&mut self.receipts, Vec::new(self.alloc));
        let told = mem::replace(&mut self.told, Vec::new(self.alloc));
        (receipts, told)
    }
}

/// A script of five calls.
fn five(alloc: Global) -> Result<Script, Fail> {
    let mut items = item(
        alloc,
        Item {
            event: Event::TracerExit,
            repeat: Repeat::Times(2),
        },
    )?;
    items.push(Item {
        event: Event::Pause { tid: 10 },
        repeat: Repeat::Times(0),
    })?;
    items.push(Item {
        event: Event::Take { tid: 10 },
        repeat: Repeat::Times(3),
    })?;
    Ok(Script {
        actor: 900,
        plan: Plan::Items(items),
    })
}

/// What comes of five calls in so many turns.
fn worked(alloc: Global, turns: u64) -> Result<Tally, Fail>
    requires { turns < 2 ^ 32 }
{
    Ok(work(
        alloc,
        0,
        &mut ByTurns::new(alloc),
        &Open,
        &five(alloc)?,
        turns,
    )?)
}

#[test]
fn work_counts_what_a_port_answers(rt: HostRuntime) -> Result<(), Fail> {
    let tally = Tally {
        entries: 2,
        accepted: 4,
        refused: 1,
        outcome: Ended::AtEnd,
    };
    same(&rt, &worked(rt.alloc(), 5)?, &tally);
    Ok(())
}

#[test]
fn work_stops_after_its_turns(rt: HostRuntime) -> Result<(), Fail> {
    let tally = Tally {
        entries: 2,
        accepted: 4,
        refused: 1,
        outcome: Ended::OutOfTurns,
    };
    same(&rt, &worked(rt.alloc(), 4)?, &tally);
    Ok(())
}
