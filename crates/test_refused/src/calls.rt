use tr_group::Action;
use tr_model::Event;
use tr_sigset::SigSet;
use tr_tracee::Options;
use tr_wait::{WaitFlags, Which};

/// A call of an actor.
#[derive(Clone, Copy)]
pub struct Call {
    pub actor: u32,
    pub event: Event,
}

/// A call, and those that make it one with an entry.
#[derive(Clone, Copy)]
pub struct Case {
    pub name: &'static str,
    pub before: &'static [Call],
    pub call: Call,
}

/// An entry that changes nothing else once it was made twice: a send that is merged.
pub const FILLER: Call = Call {
    actor: 901,
    event: Event::Kill { tgid: 30, sig: 10 },
};

const KILL: Call = Call {
    actor: 901,
    event: Event::Kill { tgid: 10, sig: 10 },
};

const STOP: Call = Call {
    actor: 901,
    event: Event::Kill { tgid: 10, sig: 19 },
};

const TAKE: Call = Call {
    actor: 10,
    event: Event::Take { tid: 10 },
};

const HALT: Call = Call {
    actor: 10,
    event: Event::Halt { tid: 10 },
};

const ATTACH: Call = Call {
    actor: 900,
    event: Event::Attach { tid: 10 },
};

const SEIZE: Call = Call {
    actor: 900,
    event: Event::Seize {
        tid: 10,
        options: Options::NONE,
    },
};

const SEIZE_WITH_EXIT: Call = Call {
    actor: 900,
    event: Event::Seize {
        tid: 11,
        options: Options {
            clone: false,
            exec: false,
            exit: true,
            exitkill: false,
        },
    },
};

const EXIT: Call = Call {
    actor: 11,
    event: Event::Exit { tid: 11, code: 0 },
};

const DIE: Call = Call {
    actor: 11,
    event: Event::Die { tid: 11 },
};

const INTERRUPT: Call = Call {
    actor: 900,
    event: Event::Interrupt { tid: 10 },
};

const GO_ON_TO_STOP: Call = Call {
    actor: 900,
    event: Event::Cont { tid: 10, sig: 19 },
};

/// Each event that makes an entry, and the two that only read.
pub const CASES: &[Case] = &[
    Case {
        name: "kill",
        before: &[],
        call: KILL,
    },
    Case {
        name: "tgkill",
        before: &[],
        call: Call {
            actor: 901,
            event: Event::Tgkill {
                tgid: 10,
                tid: 11,
                sig: 12,
            },
        },
    },
    Case {
        name: "sigqueue",
        before: &[],
        call: Call {
            actor: 901,
            event: Event::Sigqueue {
                tgid: 10,
                sig: 34,
                value: 7,
            },
        },
    },
    Case {
        name: "action",
        before: &[],
        call: Call {
            actor: 10,
            event: Event::SetAction {
                tid: 10,
                sig: 12,
                how: Action::Ignore,
            },
        },
    },
    Case {
        name: "pause",
        before: &[],
        call: Call {
            actor: 10,
            event: Event::Pause { tid: 10 },
        },
    },
    Case {
        name: "take",
        before: &[KILL],
        call: TAKE,
    },
    Case {
        name: "take_any",
        before: &[KILL],
        call: Call {
            actor: 10,
            event: Event::TakeAny { tgid: 10 },
        },
    },
    Case {
        name: "halt",
        before: &[STOP, TAKE],
        call: HALT,
    },
    Case {
        name: "trap",
        before: &[SEIZE, INTERRUPT],
        call: Call {
            actor: 10,
            event: Event::Trap { tid: 10 },
        },
    },
    Case {
        name: "die",
        before: &[EXIT],
        call: DIE,
    },
    Case {
        name: "clone",
        before: &[],
        call: Call {
            actor: 10,
            event: Event::CloneThread { tid: 10 },
        },
    },
    Case {
        name: "exec",
        before: &[],
        call: Call {
            actor: 10,
            event: Event::Exec { tid: 10 },
        },
    },
    Case {
        name: "finish",
        before: &[
            Call {
                actor: 10,
                event: Event::Exec { tid: 10 },
            },
            DIE,
        ],
        call: Call {
            actor: 10,
            event: Event::Finish { tid: 10 },
        },
    },
    Case {
        name: "exit",
        before: &[],
        call: Call {
            actor: 11,
            event: Event::Exit { tid: 11, code: 3 },
        },
    },
    Case {
        name: "exit_group",
        before: &[],
        call: Call {
            actor: 10,
            event: Event::ExitGroup { tid: 10, code: 3 },
        },
    },
    Case {
        name: "attach",
        before: &[],
        call: ATTACH,
    },
    Case {
        name: "seize",
        before: &[],
        call: SEIZE,
    },
    Case {
        name: "interrupt",
        before: &[SEIZE],
        call: INTERRUPT,
    },
    Case {
        name: "cont",
        before: &[ATTACH, TAKE],
        call: Call {
            actor: 900,
            event: Event::Cont { tid: 10, sig: 0 },
        },
    },
    Case {
        name: "listen",
        before: &[SEIZE, STOP, TAKE, GO_ON_TO_STOP, HALT],
        call: Call {
            actor: 900,
            event: Event::Listen { tid: 10 },
        },
    },
    Case {
        name: "detach",
        before: &[ATTACH, TAKE],
        call: Call {
            actor: 900,
            event: Event::Detach { tid: 10, sig: 10 },
        },
    },
    Case {
        name: "options",
        before: &[ATTACH, TAKE],
        call: Call {
            actor: 900,
            event: Event::SetOptions {
                tid: 10,
                options: Options::NONE,
            },
        },
    },
    Case {
        name: "message",
        before: &[SEIZE_WITH_EXIT, EXIT],
        call: Call {
            actor: 900,
            event: Event::EventMessage { tid: 11 },
        },
    },
    Case {
        name: "siginfo",
        before: &[ATTACH, TAKE],
        call: Call {
            actor: 900,
            event: Event::SignalInfo { tid: 10 },
        },
    },
    Case {
        name: "tracer_exit",
        before: &[SEIZE, KILL],
        call: Call {
            actor: 900,
            event: Event::TracerExit,
        },
    },
    Case {
        name: "wait",
        before: &[ATTACH, TAKE],
        call: Call {
            actor: 900,
            event: Event::Wait { which: Which::Any },
        },
    },
    Case {
        name: "starter_wait",
        before: &[
            Call {
                actor: 901,
                event: Event::Kill { tgid: 20, sig: 19 },
            },
            Call {
                actor: 20,
                event: Event::Take { tid: 20 },
            },
            Call {
                actor: 20,
                event: Event::Halt { tid: 20 },
            },
        ],
        call: Call {
            actor: 1,
            event: Event::StarterWait {
                which: Which::Any,
                flags: WaitFlags {
                    untraced: true,
                    continued: false,
                },
            },
        },
    },
];

/// The event whose set no constant can name.
pub fn mask() -> Case {
    Case {
        name: "mask",
        before: &[],
        call: Call {
            actor: 10,
            event: Event::Mask {
                tid: 10,
                set: SigSet::empty(),
            },
        },
    }
}
