ghost use Rattle.std.specs.Prelude.{◌≡◌, ◌+◌, ◌<◌, ◌^◌, ℕ, List, IfSome, false, true, vec_capacity, vec_len};
ghost use Rattle.tr_kernel.specs.Kept.{IsHeld, IsMore, IsSince, IsToldBy, fact_of_take, fact_told, fact_told_whole, signal_of, taker, told, told_take, told_whole};
ghost use Rattle.tr_kernel.specs.Private.{IsOfStop, fact_with, shown};
ghost use Rattle.tr_kernel.specs.declared.notes.EntryFact.{EntryFact};
ghost use Rattle.tr_kernel.specs.declared.notes.EntryFact.TheVariants.{Nothing};
ghost use Rattle.tr_kernel.specs.declared.replies.WholeReply.{WholeReply};
ghost use Rattle.tr_model.specs.Entries.{Entry};
ghost use Rattle.tr_model.specs.declared.replies.Reply.TheVariants as reply;
ghost use Rattle.tr_model.specs.Steps.{number};

use crate::notes::{EntryFact, FactBefore, Noticed, Origin, Stopped, TakenFrom};
use tr_model::{Did, Entry, Event, Fate, Halves, Reply, Target};
use tr_pending::{Info, Instance};
use tr_sigset::Signal;

/// How many entries stand between two marks.
pub(crate) const BLOCK: usize = 64;

/// How far a journal was where a block of entries began: the number of the last signal that was sent before, and how many
/// replies were kept whole.
#[derive(Clone, Copy)]
pub(crate) struct Mark {
    pub(crate) sent: u64,
    pub(crate) whole: usize,
}

/// What is kept of each reply, in two bytes: how many numbers after its mark's a signal was sent, or which of the replies
/// since its mark it is that are kept whole.
#[derive(Clone, Copy)]
pub(crate) enum BriefReply {
    Done,
    Exists,
    Nothing,
    Pending(u8),
    Merged(u8),
    Flushed(u8),
    Whole(u8),
}

/// What is kept of a reply that doesn't go in two bytes, in 16: the entry tells which thread took which number, and which
/// report a wait consumed. A number stands in two halves, and a signal as its number. Of most takes and of a tracer's wait
/// for a stop it also tells what they are to the laws.
#[derive(Clone, Copy)]
pub(crate) enum WholeReply {
    Sent {
        fate: Fate,
        low: u32,
        high: u32,
    },
    Took {
        did: Did,
        sig: u8,
        info: Info,
    },
    /// From the queue of a thread whose id had not passed on.
    TookFromThread {
        did: Did,
        sig: u8,
        code: i8,
        pid: u32,
        value: i32,
        thread: u32,
    },
    TookFromGroup {
        did: Did,
        sig: u8,
        code: i8,
        pid: u32,
        value: i32,
        group: u32,
    },
    Cloned {
        tid: u32,
    },
    Waited {
        id: u32,
        word: u32,
    },
    /// A tracer's wait for a stop of a thread of this group.
    WaitedForStop {
        id: u32,
        word: u32,
        group: u32,
    },
    Message {
        value: u32,
    },
    Signal {
        sig: u8,
        info: Info,
    },
}

/// What is kept of a reply, and whether that tells all that its entry is to the laws.
#[derive(Clone, Copy)]
pub(crate) struct KeptReply {
    pub(crate) brief: BriefReply,
    pub(crate) tells_fact: bool,
}

/// The thread that an entry is a take of.
fn taker(entry: &Entry) -> u32
    ensures { result ≡ taker entry.now }
{
    match entry.event() {
        Event::Take { tid } => tid,
        _ => entry.choice().thread().unwrap_or(0),
    }
}

/// The signal of a number that is kept; KILL for the number of none, which is never kept.
pub(crate) fn signal_of(number: u8) -> Signal
    ensures { result ≡ signal_of number }
{
    Signal::new(number).unwrap_or(Signal::KILL)
}

impl Mark {
    /// What is kept in two bytes of a signal sent; none where that tells another number or fate.
    #[inline(always)]
    fn brief_of_sent(self, number: u64, fate: Fate) -> Option<BriefReply>
        ensures held { IfSome result (λ b. (ws : List WholeReply) → IsHeld self ws b) }
        ensures told { IfSome result (λ b. (e : Entry) (ws : List WholeReply)
            → told e self ws b ≡ reply.Sent fate number) }
        ensures no_fact { IfSome result (λ b. (e : Entry) (ws : List WholeReply)
            → fact_told e self ws b ≡ Nothing) }
    {
        if number < self.sent || number - self.sent > u64::from(u8::MAX) {
            return None;
        }
        let more = number - self.sent;
        match fate {
            Fate::Pending => Some(BriefReply::Pending(more as u8)),
            Fate::Merged => Some(BriefReply::Merged(more as u8)),
            Fate::Flushed => Some(BriefReply::Flushed(more as u8)),
            _ => None,
        }
    }

    /// What is kept in two bytes of a reply, if they tell it.
    #[inline(always)]
    fn brief_of(self, reply: &Reply) -> Option<BriefReply>
        ensures held { IfSome result (λ b. (ws : List WholeReply) → IsHeld self ws b) }
        ensures told { IfSome result (λ b. (e : Entry) (ws : List WholeReply)
            → told e self ws b ≡ reply.now) }
        ensures no_fact { IfSome result (λ b. (e : Entry) (ws : List WholeReply)
            → fact_told e self ws b ≡ Nothing) }
    {
        match *reply {
            Reply::Done => Some(BriefReply::Done),
            Reply::Exists => Some(BriefReply::Exists),
            Reply::Nothing => Some(BriefReply::Nothing),
            Reply::Sent { n, fate } => self.brief_of_sent(n, fate),
            _ => None,
        }
    }

    /// The number of a signal sent so many after.
    fn number(self, more: u8) -> u64
        requires { self.sent + more < 2 ^ 64 }
        ensures { result ≡ self.sent + more }
    {
        self.sent + u64::from(more)
    }
}

/// Adds a reply to those that are kept whole, of which this many at most stand since the mark.
#[inline(always)]
fn add_whole(wholes: &mut Vec<WholeReply>, mark: Mark, whole: WholeReply) -> BriefReply
    requires room { vec_len wholes.old < vec_capacity wholes.old }
    requires since { IsSince mark (vec_len wholes.old) }
    ensures held { IsHeld mark wholes.new.items result }
    ensures told { (e : Entry) → told e mark wholes.new.items result ≡ told_whole e whole }
    ensures fact { (e : Entry) → fact_told e mark wholes.new.items result ≡ fact_told_whole e whole }
    ensures more { IsMore wholes.old.items wholes.new.items }
    ensures capacity { vec_capacity wholes.new ≡ vec_capacity wholes.old }
{
    let since = wholes.len() - mark.whole;
    wholes.push_reserved(whole);
    BriefReply::Whole(since as u8)
}

/// Keeps a reply whole, and nothing with it. Few are kept so.
#[cold]
#[inline(never)]
fn keep_alone(wholes: &mut Vec<WholeReply>, mark: Mark, reply: Reply) -> BriefReply
    requires room { vec_len wholes.old < vec_capacity wholes.old }
    requires since { IsSince mark (vec_len wholes.old) }
    ensures held { IsHeld mark wholes.new.items result }
    ensures told { (e : Entry) → IsToldBy e reply → told e mark wholes.new.items result ≡ reply }
    ensures no_fact { (e : Entry) → fact_told e mark wholes.new.items result ≡ Nothing }
    ensures more { IsMore wholes.old.items wholes.new.items }
    ensures capacity { vec_capacity wholes.new ≡ vec_capacity wholes.old }
{
    let whole = match reply {
        Reply::Done => return BriefReply::Done,
        Reply::Exists => return BriefReply::Exists,
        Reply::Nothing => return BriefReply::Nothing,
        Reply::Sent { n, fate } => {
            let Halves { low, high } = Halves::new(n);
            WholeReply::Sent { fate, low, high }
        }
        Reply::Took { inst, did, .. } => WholeReply::Took {
            did,
            sig: inst.sig.number(),
            info: inst.info,
        },
        Reply::Cloned { tid } => WholeReply::Cloned { tid },
        Reply::Waited { id, word, .. } => WholeReply::Waited { id, word },
        Reply::Message { value } => WholeReply::Message { value },
        Reply::Signal { sig, info } => WholeReply::Signal {
            sig: sig.number(),
            info,
        },
    };
    add_whole(wholes, mark, whole)
}

/// Whether an entry with this reply is surely nothing to the laws.
#[inline(always)]
fn is_nothing(reply: &Reply, noticed: &Noticed) -> bool
    ensures { result ≡ true
        → fact_with (shown noticed.now.before) noticed.now.origin reply.now ≡ Nothing }
{
    match reply {
        Reply::Took { .. } => false,
        _ => matches!(noticed.before, FactBefore::Nothing),
    }
}

/// Keeps a reply, and with it what its entry is to the laws if that has a place there: in two bytes, or whole where it says
/// more.
#[inline(always)]
pub(crate) fn keep(
    wholes: &mut Vec<WholeReply>,
    mark: Mark,
    reply: &Reply,
    noticed: &Noticed,
) -> KeptReply
    requires room { vec_len wholes.old < vec_capacity wholes.old }
    requires since { IsSince mark (vec_len wholes.old) }
    requires stop { IsOfStop (shown noticed.now.before) reply.now }
    ensures held { IsHeld mark wholes.new.items result.brief }
    ensures told { (e : Entry)
        → IsToldBy e reply.now
        → told e mark wholes.new.items result.brief ≡ reply.now }
    ensures fact { result.tells_fact ≡ true
        → (e : Entry)
        → IsToldBy e reply.now
        → fact_told e mark wholes.new.items result.brief
        ≡ fact_with (shown noticed.now.before) noticed.now.origin reply.now }
    ensures no_fact { result.tells_fact ≡ false
        → (e : Entry)
        → fact_told e mark wholes.new.items result.brief ≡ Nothing }
    ensures more { IsMore wholes.old.items wholes.new.items }
    ensures capacity { vec_capacity wholes.new ≡ vec_capacity wholes.old }
{
    if let Some(whole) = WholeReply::with_fact(reply, noticed) {
        return KeptReply {
            brief: add_whole(wholes, mark, whole),
            tells_fact: true,
        };
    }
    KeptReply {
        brief: match mark.brief_of(reply) {
            Some(brief) => brief,
            None => keep_alone(wholes, mark, *reply),
        },
        tells_fact: is_nothing(reply, noticed),
    }
}

impl BriefReply {
    /// The reply of an entry, of which this is kept.
    pub(crate) fn reply(self, entry: &Entry, mark: Mark, wholes: &[WholeReply]) -> Reply
        requires { IsHeld mark wholes.now self }
        ensures { result ≡ told entry.now mark wholes.now self }
    {
        match self {
            BriefReply::Done => Reply::Done,
            BriefReply::Exists => Reply::Exists,
            BriefReply::Nothing => Reply::Nothing,
            BriefReply::Pending(more) => Reply::Sent {
                n: mark.number(more),
                fate: Fate::Pending,
            },
            BriefReply::Merged(more) => Reply::Sent {
                n: mark.number(more),
                fate: Fate::Merged,
            },
            BriefReply::Flushed(more) => Reply::Sent {
                n: mark.number(more),
                fate: Fate::Flushed,
            },
            BriefReply::Whole(more) => wholes[mark.whole + usize::from(more)].reply(entry),
        }
    }

    /// What the entry is to the laws, as far as this tells.
    pub(crate) fn fact(self, entry: &Entry, mark: Mark, wholes: &[WholeReply]) -> EntryFact
        requires { IsHeld mark wholes.now self }
        ensures { result ≡ fact_told entry.now mark wholes.now self }
    {
        match self {
            BriefReply::Whole(more) => wholes[mark.whole + usize::from(more)].fact(entry),
            _ => EntryFact::Nothing,
        }
    }
}

fn info_of(code: i8, pid: u32, value: i32) -> Info
    ensures { result ≡ record { code = code; pid = pid; value = value } }
{
    Info {
        code: i32::from(code),
        pid,
        value,
    }
}

/// The reply of a wait by an entry.
fn waited(entry: &Entry, id: u32, word: u32) -> Reply
    ensures { result ≡ reply.Waited id word (number entry.now.choice.report) }
{
    Reply::Waited {
        id,
        word,
        report: entry.choice().report().unwrap_or(0),
    }
}

/// The reply of a take by an entry.
fn took(entry: &Entry, did: Did, sig: u8, info: Info) -> Reply
    ensures { result ≡ told_take entry.now did sig info }
{
    Reply::Took {
        tid: taker(entry),
        inst: Instance {
            n: entry.choice().instance().unwrap_or(0),
            sig: signal_of(sig),
            info,
        },
        did,
    }
}

/// What a take by an entry is to the laws, from a queue whose id had not passed on.
fn taken_from(entry: &Entry, sig: u8, queue: Target) -> EntryFact
    ensures { result ≡ fact_of_take entry.now sig queue }
{
    EntryFact::Take(TakenFrom {
        number: entry.choice().instance().unwrap_or(0),
        signal: signal_of(sig),
        queue,
        transfers: 0,
    })
}

impl WholeReply {
    /// Keeps a take with its queue. None where the queue's id had passed on, or for a code that no call gives.
    #[inline(always)]
    fn of_take(did: Did, inst: Instance, origin: Option<Origin>) -> Option<WholeReply>
        ensures told { IfSome result (λ w. (e : Entry)
            → inst.n ≡ number e.choice.instance
            → told_whole e w ≡ reply.Took did (taker e) inst) }
        ensures fact { IfSome result (λ w. (f : EntryFact) (e : Entry)
            → inst.n ≡ number e.choice.instance
            → fact_told_whole e w ≡ fact_with f origin (reply.Took did (taker e) inst)) }
    {
        let Origin { queue, transfers } = origin?;
        if transfers != 0 {
            return None;
        }
        let sig = inst.sig.number();
        let Info { code, pid, value } = inst.info;
        let code = i8::try_from(code).ok()?;
        Some(match queue {
            Target::Thread(thread) => WholeReply::TookFromThread {
                did,
                sig,
                code,
                pid,
                value,
                thread,
            },
            Target::Group(group) => WholeReply::TookFromGroup {
                did,
                sig,
                code,
                pid,
                value,
                group,
            },
        })
    }

    /// Keeps a reply with what its entry is to the laws, if both have a place.
    #[inline(always)]
    fn with_fact(reply: &Reply, noticed: &Noticed) -> Option<WholeReply>
        requires stop { IsOfStop (shown noticed.now.before) reply.now }
        ensures told { IfSome result
            (λ w. (e : Entry) → IsToldBy e reply.now → told_whole e w ≡ reply.now) }
        ensures fact { IfSome result (λ w. (e : Entry)
            → IsToldBy e reply.now
            → fact_told_whole e w
            ≡ fact_with (shown noticed.now.before) noticed.now.origin reply.now) }
    {
        match (*reply, noticed.before) {
            (Reply::Took { inst, did, .. }, _) => WholeReply::of_take(did, inst, noticed.origin),
            (Reply::Waited { id, word, .. }, FactBefore::Stop(Stopped { group, .. })) => {
                Some(WholeReply::WaitedForStop { id, word, group })
            }
            _ => None,
        }
    }

    /// The reply of an entry, of which this is kept.
    fn reply(&self, entry: &Entry) -> Reply
        ensures { result ≡ told_whole entry.now self.now }
    {
        match *self {
            WholeReply::Sent { fate, low, high } => Reply::Sent {
                n: Halves { low, high }.word(),
                fate,
            },
            WholeReply::Took { did, sig, info } => took(entry, did, sig, info),
            WholeReply::TookFromThread {
                did,
                sig,
                code,
                pid,
                value,
                ..
            } => took(entry, did, sig, info_of(code, pid, value)),
            WholeReply::TookFromGroup {
                did,
                sig,
                code,
                pid,
                value,
                ..
            } => took(entry, did, sig, info_of(code, pid, value)),
            WholeReply::Cloned { tid } => Reply::Cloned { tid },
            WholeReply::Waited { id, word } => waited(entry, id, word),
            WholeReply::WaitedForStop { id, word, .. } => waited(entry, id, word),
            WholeReply::Message { value } => Reply::Message { value },
            WholeReply::Signal { sig, info } => Reply::Signal {
                sig: signal_of(sig),
                info,
            },
        }
    }

    /// What the entry is to the laws, as far as this tells.
    fn fact(&self, entry: &Entry) -> EntryFact
        ensures { result ≡ fact_told_whole entry.now self.now }
    {
        match *self {
            WholeReply::TookFromThread { sig, thread, .. } => {
                taken_from(entry, sig, Target::Thread(thread))
            }
            WholeReply::TookFromGroup { sig, group, .. } => {
                taken_from(entry, sig, Target::Group(group))
            }
            WholeReply::WaitedForStop { id, group, .. } => EntryFact::Stop(Stopped {
                thread: id,
                group,
            }),
            _ => EntryFact::Nothing,
        }
    }
}
