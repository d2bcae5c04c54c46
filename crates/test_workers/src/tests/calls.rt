ghost use Rattle.std.specs.Prelude.{◌≡◌};

use super::same;
use std::process::Abort;
use std::sync::Wait;
use std::test::Fail;
use tr_hub::{Answer, Asked, Hub, Parts, Receipt, Seat};
use tr_kernel::Kernel;
use tr_model::{Did, Event, Fate, Refusal, Reply};
use tr_pending::{Info, Instance};
use tr_sigset::Signal;
use tr_tracee::Options;
use tr_wait::{WaitFlags, Which};

/// A reply, with numbers for its signal.
#[derive(Clone, Copy, Debug)]
pub(super) enum Told {
    Done,
    Nothing,
    Sent {
        n: u64,
        fate: Fate,
    },
    Took {
        tid: u32,
        n: u64,
        sig: u8,
        info: Info,
        did: Did,
    },
    Waited {
        id: u32,
        word: u32,
        report: u64,
    },
}

/// The answer that is wanted: of an entry its position, its reply and how many signals it accepted.
#[derive(Clone, Copy, Debug)]
pub(super) enum Shown {
    Entered(u64, Told, u64),
    Read(Told),
    Refused(Refusal),
}

/// A call from one of two seats, and the answer that is wanted.
#[derive(Clone, Copy, Debug)]
pub(super) struct Turn {
    seat: usize,
    event: Event,
    want: Shown,
}

const WAIT: Event = Event::Wait { which: Which::Any };

const TAKE: Event = Event::Take { tid: 10 };

/// SI_KERNEL: sigaction(2).
const BY_THE_KERNEL: Info = Info {
    code: 128,
    pid: 0,
    value: 0,
};

/// SI_USER, by kill(2) of actor 1.
const BY_THE_STARTER: Info = Info {
    code: 0,
    pid: 1,
    value: 0,
};

/// PTRACE_ATTACH, the stop by its SIGSTOP, and PTRACE_CONT: the seats of 900 and 10.
pub(super) const ATTACHED: [Turn; 5] = [
    Turn {
        seat: 0,
        event: Event::Attach { tid: 10 },
        want: Shown::Entered(
            1,
            Told::Sent {
                n: 1,
                fate: Fate::Pending,
            },
            1,
        ),
    },
    Turn {
        seat: 1,
        event: TAKE,
        want: Shown::Entered(
            2,
            Told::Took {
                tid: 10,
                n: 1,
                sig: 19,
                info: BY_THE_KERNEL,
                did: Did::Reported,
            },
            0,
        ),
    },
    Turn {
        seat: 0,
        event: WAIT,
        want: Shown::Entered(
            3,
            Told::Waited {
                id: 10,
                word: 0x137f,
                report: 1,
            },
            0,
        ),
    },
    Turn {
        seat: 0,
        event: Event::Cont { tid: 10, sig: 0 },
        want: Shown::Entered(4, Told::Done, 0),
    },
    Turn {
        seat: 0,
        event: WAIT,
        want: Shown::Read(Told::Nothing),
    },
];

/// A tracee that is killed at its stop, for its tracer and for the starter: the seats of 900 and 1.
pub(super) const KILLED: [Turn; 10] = [
    Turn {
        seat: 0,
        event: Event::Seize {
            tid: 10,
            options: Options::NONE,
        },
        want: Shown::Entered(1, Told::Done, 0),
    },
    Turn {
        seat: 1,
        event: Event::Kill { tgid: 10, sig: 10 },
        want: Shown::Entered(
            2,
            Told::Sent {
                n: 1,
                fate: Fate::Pending,
            },
            1,
        ),
    },
    Turn {
        seat: 1,
        event: TAKE,
        want: Shown::Entered(
            3,
            Told::Took {
                tid: 10,
                n: 1,
                sig: 10,
                info: BY_THE_STARTER,
                did: Did::Reported,
            },
            0,
        ),
    },
    Turn {
        seat: 0,
        event: WAIT,
        want: Shown::Entered(
            4,
            Told::Waited {
                id: 10,
                word: 0xa7f,
                report: 1,
            },
            0,
        ),
    },
    Turn {
        seat: 1,
        event: Event::Kill { tgid: 10, sig: 9 },
        want: Shown::Entered(
            5,
            Told::Sent {
                n: 2,
                fate: Fate::Delivered,
            },
            1,
        ),
    },
    Turn {
        seat: 0,
        event: Event::Die { tid: 10 },
        want: Shown::Entered(6, Told::Done, 0),
    },
    Turn {
        seat: 0,
        event: WAIT,
        want: Shown::Entered(
            7,
            Told::Waited {
                id: 10,
                word: 9,
                report: 2,
            },
            0,
        ),
    },
    Turn {
        seat: 0,
        event: Event::Cont { tid: 10, sig: 0 },
        want: Shown::Refused(Refusal::Srch),
    },
    Turn {
        seat: 1,
        event: Event::StarterWait {
            which: Which::Any,
            flags: WaitFlags {
                untraced: false,
                continued: false,
            },
        },
        want: Shown::Entered(
            8,
            Told::Waited {
                id: 10,
                word: 9,
                report: 3,
            },
            0,
        ),
    },
    Turn {
        seat: 1,
        event: Event::Kill { tgid: 10, sig: 0 },
        want: Shown::Refused(Refusal::Srch),
    },
];

fn reply_of(told: &Told) -> Result<Reply, Fail> {
    match *told {
        Told::Done => Ok(Reply::Done),
        Told::Nothing => Ok(Reply::Nothing),
        Told::Sent { n, fate } => Ok(Reply::Sent { n, fate }),
        Told::Took {
            tid,
            n,
            sig,
            info,
            did,
        } => {
            let sig = Signal::new(sig).ok_or("not the number of a signal")?;
            let inst = Instance { n, sig, info };
            Ok(Reply::Took { tid, inst, did })
        }
        Told::Waited { id, word, report } => Ok(Reply::Waited { id, word, report }),
    }
}

fn answer_of(turn: &Turn) -> Result<Answer, Fail> {
    match &turn.want {
        Shown::Entered(position, told, accepted) => Ok(Answer::Entered(Receipt {
            position: *position,
            event: turn.event,
            reply: reply_of(told)?,
            accepted: *accepted,
        })),
        Shown::Read(told) => Ok(Answer::Read(reply_of(told)?)),
        Shown::Refused(why) => Ok(Answer::Refused(*why)),
    }
}

/// Makes one call from its seat, and compares the answer.
fn call<E: Parts, A: Parts>(
    rt: &(impl Wait + Abort),
    hub: &Hub<E, A>,
    seats: &mut [Seat<E, A>],
    turn: &Turn,
) -> Result<(), Fail> {
    let Some(seat) = seats.get_mut(turn.seat) else {
        return Err(Fail::from("a seat"));
    };
    same(rt, &hub.call(rt, seat, turn.event), &answer_of(turn)?);
    Ok(())
}

fn actor_of(actors: &[u32], turn: &Turn) -> Result<u32, Fail> {
    match actors.get(turn.seat) {
        Some(actor) => Ok(*actor),
        None => Err(Fail::from("an actor")),
    }
}

/// That the journal has what a receipt told, at its position.
fn is_entered(rt: &impl Abort, kernel: &Kernel, actor: u32, turn: &Turn) -> Result<(), Fail> {
    if let Shown::Entered(position, told, _) = &turn.want {
        let entry = kernel
            .journal()
            .iter()
            .nth(position.saturating_sub(1) as usize);
        same(
            rt,
            &entry.map(|e| (e.actor(), e.event())),
            &Some((actor, turn.event)),
        );
        same(rt, &kernel.reply_at(*position), &Some(reply_of(told)?));
    }
    Ok(())
}

/// That the answers without an entry were written down, in order and in full: each at the number of entries that were
/// made before it, which is the last of their positions.
fn are_asked(rt: &impl Abort, asked: &[Asked], actors: &[u32], turns: &[Turn]) -> Result<(), Fail> {
    let mut left = asked.iter();
    let mut entries = 0;
    for turn in turns {
        if let Shown::Entered(position, ..) = &turn.want {
            entries = *position;
            continue;
        }
        let want = Asked {
            actor: actor_of(actors, turn)?,
            event: turn.event,
            position: entries,
            answer: answer_of(turn)?,
        };
        same(rt, &left.next(), &Some(&want));
    }
    same(rt, &left.next().is_none(), &true);
    Ok(())
}

/// Makes the calls, and compares each answer, and then the journal and what was asked.
pub(super) fn call_all<E: Parts, A: Parts>(
    rt: &(impl Wait + Abort),
    hub: Hub<E, A>,
    mut seats: Vec<Seat<E, A>>,
    actors: &[u32],
    turns: &[Turn],
) -> Result<(), Fail>
    requires { (E.all ≡ E.parts) × (A.all ≡ A.parts) }
{
    for turn in turns {
        call(rt, &hub, seats.as_mut_slice(), turn)?;
    }
    let Ok((kernel, asked)) = hub.close(seats) else {
        return Err(Fail::from("not closed"));
    };
    for turn in turns {
        is_entered(rt, &kernel, actor_of(actors, turn)?, turn)?;
    }
    are_asked(rt, &asked, actors, turns)
}
