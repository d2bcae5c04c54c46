ghost use Rattle.std.specs.Prelude.{◌≡◌, ◌+◌, ◌*◌, ◌^◌};
ghost use Rattle.tr_model.specs.Packed.{bits_of, choice_of, event_of, halves_of, id_asked, is_one, options_of, pack, which_of, word_of};

use crate::choices::Choice;
use crate::events::Event;
use tr_group::Action;
use tr_sigset::SigSet;
use tr_tracee::Options;
use tr_wait::{WaitFlags, Which};

/// A word in two halves, which stands at a multiple of four.
#[derive(Clone, Copy, Debug)]
pub struct Halves {
    pub low: u32,
    pub high: u32,
}

impl Halves {
    /// Cuts a word.
    pub fn new(word: u64) -> Halves
        ensures halves { result ≡ halves_of word }
        ensures same { word_of result ≡ word }
    {
        Halves {
            low: (word % (1 << 32)) as u32,
            high: (word / (1 << 32)) as u32,
        }
    }

    /// Puts the word together.
    pub fn word(self) -> u64
        ensures { result ≡ word_of self }
    {
        u64::from(self.low) + u64::from(self.high) * (1 << 32)
    }
}

/// An event with what was chosen where the model leaves it free, in 20 bytes. What is shorter than a word stands first.
#[derive(Clone, Copy, Debug)]
pub(crate) enum PackedEvent {
    Kill {
        sig: u8,
        tgid: u32,
    },
    Tgkill {
        sig: u8,
        tgid: u32,
        tid: u32,
    },
    Sigqueue {
        sig: u8,
        tgid: u32,
        value: i32,
    },
    Mask {
        tid: u32,
        set: Halves,
    },
    SetAction {
        sig: u8,
        how: Action,
        tid: u32,
    },
    Pause {
        tid: u32,
    },
    Take {
        tid: u32,
        number: Halves,
    },
    TakeAny {
        tgid: u32,
        number: Halves,
        tid: u32,
    },
    Halt {
        tid: u32,
    },
    Trap {
        tid: u32,
    },
    Die {
        tid: u32,
    },
    CloneThread {
        tid: u32,
        new_id: u32,
    },
    Exec {
        tid: u32,
    },
    Finish {
        tid: u32,
    },
    Exit {
        tid: u32,
        code: u32,
    },
    ExitGroup {
        tid: u32,
        code: u32,
    },
    Attach {
        tid: u32,
    },
    Seize {
        options: u8,
        tid: u32,
    },
    Interrupt {
        tid: u32,
    },
    Cont {
        sig: u8,
        tid: u32,
    },
    Listen {
        tid: u32,
    },
    Detach {
        sig: u8,
        tid: u32,
    },
    SetOptions {
        options: u8,
        tid: u32,
    },
    EventMessage {
        tid: u32,
    },
    SignalInfo {
        tid: u32,
    },
    TracerExit,
    Wait {
        is_one: bool,
        id: u32,
        number: Halves,
    },
    StarterWait {
        is_one: bool,
        flags: WaitFlags,
        id: u32,
        number: Halves,
    },
}

/// Whether a wait asks for one thread or group.
fn is_one(which: Which) -> bool
    ensures { result ≡ is_one which }
{
    matches!(which, Which::One(_))
}

/// The id of the one that a wait asks for, else 0.
fn id_asked(which: Which) -> u32
    ensures { result ≡ id_asked which }
{
    match which {
        Which::Any => 0,
        Which::One(id) => id,
    }
}

fn which_of(is_one: bool, id: u32) -> Which
    ensures { result ≡ which_of is_one id }
{
    if is_one { Which::One(id) } else { Which::Any }
}

/// Options as the four low bits of a byte.
fn bits_of(options: Options) -> u8
    ensures { result ≡ bits_of options }
{
    u8::from(options.clone)
        + 2 * u8::from(options.exec)
        + 4 * u8::from(options.exit)
        + 8 * u8::from(options.exitkill)
}

fn options_of(bits: u8) -> Options
    ensures { result ≡ options_of bits }
{
    Options {
        clone: bits % 2 == 1,
        exec: bits / 2 % 2 == 1,
        exit: bits / 4 % 2 == 1,
        exitkill: bits / 8 % 2 == 1,
    }
}

impl PackedEvent {
    #[inline(always)]
    pub(crate) fn new(event: Event, choice: Choice) -> PackedEvent
        ensures { result ≡ pack event choice }
    {
        let number = Halves::new(choice.number());
        let id = choice.id();
        match event {
            Event::Kill { tgid, sig } => PackedEvent::Kill { sig, tgid },
            Event::Tgkill { tgid, tid, sig } => PackedEvent::Tgkill { sig, tgid, tid },
            Event::Sigqueue { tgid, sig, value } => PackedEvent::Sigqueue { sig, tgid, value },
            Event::Mask { tid, set } => PackedEvent::Mask {
                tid,
                set: Halves::new(set.bits()),
            },
            Event::SetAction { tid, sig, how } => PackedEvent::SetAction { sig, how, tid },
            Event::Pause { tid } => PackedEvent::Pause { tid },
            Event::Take { tid } => PackedEvent::Take { tid, number },
            Event::TakeAny { tgid } => PackedEvent::TakeAny {
                tgid,
                number,
                tid: id,
            },
            Event::Halt { tid } => PackedEvent::Halt { tid },
            Event::Trap { tid } => PackedEvent::Trap { tid },
            Event::Die { tid } => PackedEvent::Die { tid },
            Event::CloneThread { tid } => PackedEvent::CloneThread { tid, new_id: id },
            Event::Exec { tid } => PackedEvent::Exec { tid },
            Event::Finish { tid } => PackedEvent::Finish { tid },
            Event::Exit { tid, code } => PackedEvent::Exit { tid, code },
            Event::ExitGroup { tid, code } => PackedEvent::ExitGroup { tid, code },
            Event::Attach { tid } => PackedEvent::Attach { tid },
            Event::Seize { tid, options } => PackedEvent::Seize {
                options: bits_of(options),
                tid,
            },
            Event::Interrupt { tid } => PackedEvent::Interrupt { tid },
            Event::Cont { tid, sig } => PackedEvent::Cont { sig, tid },
            Event::Listen { tid } => PackedEvent::Listen { tid },
            Event::Detach { tid, sig } => PackedEvent::Detach { sig, tid },
            Event::SetOptions { tid, options } => PackedEvent::SetOptions {
                options: bits_of(options),
                tid,
            },
            Event::EventMessage { tid } => PackedEvent::EventMessage { tid },
            Event::SignalInfo { tid } => PackedEvent::SignalInfo { tid },
            Event::TracerExit => PackedEvent::TracerExit,
            Event::Wait { which } => PackedEvent::Wait {
                is_one: is_one(which),
                id: id_asked(which),
                number,
            },
            Event::StarterWait { which, flags } => PackedEvent::StarterWait {
                is_one: is_one(which),
                flags,
                id: id_asked(which),
                number,
            },
        }
    }

    pub(crate) fn event(self) -> Event
        ensures { result ≡ event_of self }
    {
        match self {
            PackedEvent::Kill { sig, tgid } => Event::Kill { tgid, sig },
            PackedEvent::Tgkill { sig, tgid, tid } => Event::Tgkill { tgid, tid, sig },
            PackedEvent::Sigqueue { sig, tgid, value } => Event::Sigqueue { tgid, sig, value },
            PackedEvent::Mask { tid, set } => Event::Mask {
                tid,
                set: SigSet::from_bits(set.word()),
            },
            PackedEvent::SetAction { sig, how, tid } => Event::SetAction { tid, sig, how },
            PackedEvent::Pause { tid } => Event::Pause { tid },
            PackedEvent::Take { tid, .. } => Event::Take { tid },
            PackedEvent::TakeAny { tgid, .. } => Event::TakeAny { tgid },
            PackedEvent::Halt { tid } => Event::Halt { tid },
            PackedEvent::Trap { tid } => Event::Trap { tid },
            PackedEvent::Die { tid } => Event::Die { tid },
            PackedEvent::CloneThread { tid, .. } => Event::CloneThread { tid },
            PackedEvent::Exec { tid } => Event::Exec { tid },
            PackedEvent::Finish { tid } => Event::Finish { tid },
            PackedEvent::Exit { tid, code } => Event::Exit { tid, code },
            PackedEvent::ExitGroup { tid, code } => Event::ExitGroup { tid, code },
            PackedEvent::Attach { tid } => Event::Attach { tid },
            PackedEvent::Seize { options, tid } => Event::Seize {
                tid,
                options: options_of(options),
            },
            PackedEvent::Interrupt { tid } => Event::Interrupt { tid },
            PackedEvent::Cont { sig, tid } => Event::Cont { tid, sig },
            PackedEvent::Listen { tid } => Event::Listen { tid },
            PackedEvent::Detach { sig, tid } => Event::Detach { tid, sig },
            PackedEvent::SetOptions { options, tid } => Event::SetOptions {
                tid,
                options: options_of(options),
            },
            PackedEvent::EventMessage { tid } => Event::EventMessage { tid },
            PackedEvent::SignalInfo { tid } => Event::SignalInfo { tid },
            PackedEvent::TracerExit => Event::TracerExit,
            PackedEvent::Wait { is_one, id, .. } => Event::Wait {
                which: which_of(is_one, id),
            },
            PackedEvent::StarterWait {
                is_one,
                flags,
                id,
                ..
            } => Event::StarterWait {
                which: which_of(is_one, id),
                flags,
            },
        }
    }

    pub(crate) fn choice(self) -> Choice
        ensures { result ≡ choice_of self }
    {
        match self {
            PackedEvent::Take { number, .. } => Choice::of_instance(number.word()),
            PackedEvent::TakeAny { number, tid, .. } => Choice::of_thread(tid, number.word()),
            PackedEvent::Wait { number, .. } | PackedEvent::StarterWait { number, .. } => {
                Choice::of_report(number.word())
            }
            PackedEvent::CloneThread { new_id, .. } => Choice::of_new_id(new_id),
            _ => Choice::NONE,
        }
    }
}
