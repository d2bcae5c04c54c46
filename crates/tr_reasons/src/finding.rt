//! Which condition refuses an event, at the table before it. Nothing here takes memory.

ghost use Rattle.std.specs.Prelude.{◌≡◌, ◌∷◌, ◌++◌, []};
ghost use Rattle.tr_model.specs.Tables.{thread_of};
ghost use Rattle.tr_reasons.specs.Reasons.{above_all_signals, action_fixed, cannot_listen, first_reason, full, group_missing, marked, member_missing, no_child, no_halt, no_live_tracee, no_message, no_restart, no_siginfo, no_stopped_tracee, no_tracee, no_trap, not_free, not_last, not_seized, not_traceable, over_limit, own, reason_of, unless, with_thread};
ghost use Rattle.tr_reasons.specs.declared.reasons.Reason.TheVariants.{NotLeaving};
ghost use Rattle.tr_tracee.specs.Lives.{is_leaving};

use crate::reasons::Reason;
use tr_ends::check_starter_wait;
use tr_model::{Event, MOST_MEMBERS, MOST_THREADS};
use tr_signals::script;
use tr_sigset::Signal;
use tr_table::Table;
use tr_tracee::{Life, Stop, Thread};
use tr_wait::{WaitFlags, Which};

// Sends

fn above_all_signals(sig: u8) -> Option<Reason>
    ensures { result ≡ above_all_signals sig }
{
    if sig > Signal::GREATEST {
        Some(Reason::NoSignal(sig))
    } else {
        None
    }
}

fn group_missing(table: &Table, tgid: u32) -> Option<Reason>
    ensures { result ≡ group_missing table.now.table tgid }
{
    match table.group(tgid) {
        Some(_) => None,
        None => Some(Reason::NoGroup(tgid)),
    }
}

fn member_missing(table: &Table, tgid: u32, tid: u32) -> Option<Reason>
    ensures { result ≡ member_missing tgid tid (thread_of table.now.table tid) }
{
    match table.find(tid) {
        Some(thread) if thread.group == tgid => None,
        Some(_) => Some(Reason::OfAnotherGroup(tid)),
        None => Some(Reason::NoThread(tid)),
    }
}

fn over_limit(table: &Table, sig: u8) -> Option<Reason>
    ensures { result ≡ over_limit table.now.table sig }
{
    if sig >= Signal::LEAST_REAL_TIME && table.queued() >= table.limit() as usize {
        Some(Reason::QueueFull(table.limit()))
    } else {
        None
    }
}

/// Why a send is refused whose target is missing for this reason, if for any.
fn send_reason(table: &Table, sig: u8, missing: Option<Reason>) -> Option<Reason>
    ensures { result
        ≡ first_reason (above_all_signals sig ∷ missing ∷ over_limit table.now.table sig ∷ []) }
{
    if let Some(reason) = above_all_signals(sig) {
        return Some(reason);
    }
    if let Some(reason) = missing {
        return Some(reason);
    }
    over_limit(table, sig)
}

// A thread's own operations

/// Why a thread can't do an operation of its own.
fn own_reason(table: &Table, thread: &Thread) -> Option<Reason>
    ensures { result ≡ first_reason (own table.now.table thread.now) }
{
    if !thread.life.is_free() {
        return Some(Reason::NotRunning(thread.id));
    }
    if thread.pausing {
        return Some(Reason::Pausing(thread.id));
    }
    if thread.has_mark() {
        return Some(Reason::HasMark(thread.id));
    }
    match script(table, thread) {
        Some(_) => Some(Reason::MayTake(thread.id)),
        None => None,
    }
}

fn own_at(table: &Table, tid: u32) -> Option<Reason>
    ensures { result ≡ first_reason (with_thread table.now.table tid (own table.now.table)) }
{
    match table.find(tid) {
        Some(thread) => own_reason(table, thread),
        None => Some(Reason::NoThread(tid)),
    }
}

fn action_fixed(sig: u8) -> Option<Reason>
    ensures { result ≡ action_fixed sig }
{
    match Signal::new(sig) {
        Some(signal) if signal != Signal::KILL && signal != Signal::STOP => None,
        _ => Some(Reason::FixedAction(sig)),
    }
}

/// Why a thread can't do an operation of its own that may also be refused for this reason, if for any.
fn own_then(table: &Table, thread: &Thread, other: Option<Reason>) -> Option<Reason>
    ensures { result ≡ first_reason (own table.now.table thread.now ++ other ∷ []) }
{
    match own_reason(table, thread) {
        Some(reason) => Some(reason),
        None => other,
    }
}

fn set_action_at(table: &Table, tid: u32, sig: u8) -> Option<Reason>
    ensures { result
        ≡ first_reason (with_thread table.now.table tid
        (λ t. own table.now.table t ++ action_fixed sig ∷ [])) }
{
    match table.find(tid) {
        Some(thread) => own_then(table, thread, action_fixed(sig)),
        None => Some(Reason::NoThread(tid)),
    }
}

fn full(table: &Table, thread: &Thread) -> Option<Reason>
    ensures { result ≡ full table.now.table thread.now }
{
    if table.thread_count() >= MOST_THREADS {
        Some(Reason::TableFull)
    } else if table.member_count(thread.group) >= MOST_MEMBERS {
        Some(Reason::GroupFull(thread.group))
    } else {
        None
    }
}

fn clone_at(table: &Table, tid: u32) -> Option<Reason>
    ensures { result
        ≡ first_reason (with_thread table.now.table tid
        (λ t. own table.now.table t ++ full table.now.table t ∷ [])) }
{
    match table.find(tid) {
        Some(thread) => own_then(table, thread, full(table, thread)),
        None => Some(Reason::NoThread(tid)),
    }
}

// Takes and stops

fn take_at(table: &Table, tid: u32) -> Option<Reason>
    ensures { result
        ≡ first_reason (with_thread table.now.table tid (λ t. not_free t ∷ marked t ∷ [])) }
{
    let Some(thread) = table.find(tid) else {
        return Some(Reason::NoThread(tid));
    };
    if !thread.life.is_free() {
        Some(Reason::NotRunning(thread.id))
    } else if thread.has_mark() {
        Some(Reason::HasMark(thread.id))
    } else {
        None
    }
}

fn halt_at(table: &Table, tid: u32) -> Option<Reason>
    ensures { result ≡ first_reason (with_thread table.now.table tid (λ t. no_halt t ∷ [])) }
{
    let Some(thread) = table.find(tid) else {
        return Some(Reason::NoThread(tid));
    };
    if !thread.stop_mark {
        Some(Reason::NoGroupStop(thread.id))
    } else if !thread.life.serves_marks() {
        Some(Reason::NotServing(thread.id))
    } else {
        None
    }
}

fn trap_at(table: &Table, tid: u32) -> Option<Reason>
    ensures { result ≡ first_reason (with_thread table.now.table tid (λ t. no_trap t ∷ [])) }
{
    let Some(thread) = table.find(tid) else {
        return Some(Reason::NoThread(tid));
    };
    if !(thread.trap_mark || thread.note_mark) {
        Some(Reason::NoTrap(thread.id))
    } else if !thread.life.serves_marks() {
        Some(Reason::NotServing(thread.id))
    } else {
        None
    }
}

fn die_at(table: &Table, tid: u32) -> Option<Reason>
    ensures { result
        ≡ first_reason (with_thread table.now.table tid
        (λ t. unless (is_leaving t.life) (NotLeaving t.id) ∷ [])) }
{
    let Some(thread) = table.find(tid) else {
        return Some(Reason::NoThread(tid));
    };
    if thread.life.is_leaving() {
        None
    } else {
        Some(Reason::NotLeaving(thread.id))
    }
}

fn finish_at(table: &Table, tid: u32) -> Option<Reason>
    ensures { result
        ≡ first_reason (with_thread table.now.table tid (λ t. not_last table.now.table t ∷ [])) }
{
    let Some(thread) = table.find(tid) else {
        return Some(Reason::NoThread(tid));
    };
    if !thread.life.is_execing() {
        Some(Reason::NotExecing(thread.id))
    } else if !table.others_dead(thread) {
        Some(Reason::OthersAlive(thread.id))
    } else {
        None
    }
}

// Requests of a tracer

fn not_traceable(table: &Table, thread: &Thread) -> Option<Reason>
    ensures { result ≡ not_traceable table.now.table thread.now }
{
    if thread.is_traced() {
        Some(Reason::Traced(thread.id))
    } else if !thread.life.is_live() {
        Some(Reason::Ended(thread.id))
    } else if table.end_of(thread.group).is_some() {
        Some(Reason::GroupEnding(thread.group))
    } else {
        None
    }
}

fn attach_at(table: &Table, tid: u32) -> Option<Reason>
    ensures { result
        ≡ first_reason (with_thread table.now.table tid (λ t. not_traceable table.now.table t ∷ [])) }
{
    match table.find(tid) {
        Some(thread) => not_traceable(table, thread),
        None => Some(Reason::NoThread(tid)),
    }
}

fn interrupt_at(table: &Table, actor: u32, tid: u32) -> Option<Reason>
    ensures { result
        ≡ first_reason (with_thread table.now.table tid
        (λ t. no_live_tracee actor t ∷ not_seized t ∷ [])) }
{
    let Some(thread) = table.find(tid) else {
        return Some(Reason::NoThread(tid));
    };
    if !thread.is_tracee_of(actor) {
        Some(Reason::NotTracee(thread.id))
    } else if !thread.life.is_live() {
        Some(Reason::TraceeEnded(thread.id))
    } else if !thread.is_seized() {
        Some(Reason::NotSeized(thread.id))
    } else {
        None
    }
}

fn no_stopped_tracee(actor: u32, thread: &Thread) -> Option<Reason>
    ensures { result ≡ no_stopped_tracee actor thread.now }
{
    if !thread.is_tracee_of(actor) {
        Some(Reason::NotTracee(thread.id))
    } else if !thread.life.is_in_stop() {
        Some(Reason::NotStopped(thread.id))
    } else {
        None
    }
}

/// Why a request is refused that wants a stopped tracee and nothing else.
fn stopped_at(table: &Table, actor: u32, tid: u32) -> Option<Reason>
    ensures { result
        ≡ first_reason (with_thread table.now.table tid (λ t. no_stopped_tracee actor t ∷ [])) }
{
    match table.find(tid) {
        Some(thread) => no_stopped_tracee(actor, thread),
        None => Some(Reason::NoThread(tid)),
    }
}

fn no_restart(sig: u8) -> Option<Reason>
    ensures { result ≡ no_restart sig }
{
    if sig > Signal::GREATEST {
        Some(Reason::NoRestartSignal(sig))
    } else {
        None
    }
}

fn restart_at(table: &Table, actor: u32, tid: u32, sig: u8) -> Option<Reason>
    ensures { result
        ≡ first_reason (with_thread table.now.table tid
        (λ t. no_stopped_tracee actor t ∷ no_restart sig ∷ [])) }
{
    match stopped_at(table, actor, tid) {
        Some(reason) => Some(reason),
        None => no_restart(sig),
    }
}

fn cannot_listen(thread: &Thread) -> Option<Reason>
    ensures { result ≡ cannot_listen thread.now }
{
    if !thread.is_seized() {
        Some(Reason::NotSeized(thread.id))
    } else if !thread.life.is_in_event_stop() {
        Some(Reason::NoEventStop(thread.id))
    } else {
        None
    }
}

fn listen_at(table: &Table, actor: u32, tid: u32) -> Option<Reason>
    ensures { result
        ≡ first_reason (with_thread table.now.table tid
        (λ t. no_stopped_tracee actor t ∷ cannot_listen t ∷ [])) }
{
    let Some(thread) = table.find(tid) else {
        return Some(Reason::NoThread(tid));
    };
    match no_stopped_tracee(actor, thread) {
        Some(reason) => Some(reason),
        None => cannot_listen(thread),
    }
}

fn message_at(table: &Table, actor: u32, tid: u32) -> Option<Reason>
    ensures { result
        ≡ first_reason (with_thread table.now.table tid
        (λ t. no_stopped_tracee actor t ∷ no_message t ∷ [])) }
{
    let Some(thread) = table.find(tid) else {
        return Some(Reason::NoThread(tid));
    };
    match no_stopped_tracee(actor, thread) {
        Some(reason) => Some(reason),
        None if thread.life.message().is_some() => None,
        None => Some(Reason::NoMessage(thread.id)),
    }
}

fn no_siginfo(tid: u32, life: &Life) -> Option<Reason>
    ensures { result ≡ no_siginfo tid life.now }
{
    match life {
        Life::InStop(Stop::Signal { .. }) => None,
        Life::InStop(Stop::Group(_)) => Some(Reason::InGroupStop(tid)),
        _ => Some(Reason::NoDelivery(tid)),
    }
}

fn siginfo_at(table: &Table, actor: u32, tid: u32) -> Option<Reason>
    ensures { result
        ≡ first_reason (with_thread table.now.table tid
        (λ t. no_stopped_tracee actor t ∷ no_siginfo t.id t.life ∷ [])) }
{
    let Some(thread) = table.find(tid) else {
        return Some(Reason::NoThread(tid));
    };
    match no_stopped_tracee(actor, thread) {
        Some(reason) => Some(reason),
        None => no_siginfo(thread.id, &thread.life),
    }
}

// Waits

fn no_tracee(table: &Table, actor: u32, which: Which) -> Option<Reason>
    ensures { result ≡ no_tracee table.now.table actor which }
{
    if table.has_asked(actor, which) {
        None
    } else {
        Some(Reason::NoTracee(actor))
    }
}

fn no_child(table: &Table, actor: u32, which: Which, flags: WaitFlags) -> Option<Reason>
    ensures { result ≡ no_child table.now.table actor which }
{
    if actor != 1 {
        return Some(Reason::NotStarter(actor));
    }
    match check_starter_wait(table, actor, which, flags) {
        Ok(_) => None,
        Err(_) => Some(Reason::NoChild),
    }
}

/// Gives the first reason why the actor's event is refused, `None` where it isn't.
pub fn reason_of(table: &Table, actor: u32, event: &Event) -> Option<Reason>
    ensures { result ≡ reason_of table.now.table actor event.now }
{
    match event {
        Event::Kill { tgid, sig } => send_reason(table, *sig, group_missing(table, *tgid)),
        Event::Tgkill { tgid, tid, sig } => {
            send_reason(table, *sig, member_missing(table, *tgid, *tid))
        }
        Event::Sigqueue { tgid, sig, .. } => send_reason(table, *sig, group_missing(table, *tgid)),
        Event::Mask { tid, .. } => own_at(table, *tid),
        Event::SetAction { tid, sig, .. } => set_action_at(table, *tid, *sig),
        Event::Pause { tid } => own_at(table, *tid),
        Event::Take { tid } => take_at(table, *tid),
        Event::TakeAny { tgid } => group_missing(table, *tgid),
        Event::Halt { tid } => halt_at(table, *tid),
        Event::Trap { tid } => trap_at(table, *tid),
        Event::Die { tid } => die_at(table, *tid),
        Event::CloneThread { tid } => clone_at(table, *tid),
        Event::Exec { tid } => own_at(table, *tid),
        Event::Finish { tid } => finish_at(table, *tid),
        Event::Exit { tid, .. } => own_at(table, *tid),
        Event::ExitGroup { tid, .. } => own_at(table, *tid),
        Event::Attach { tid } => attach_at(table, *tid),
        Event::Seize { tid, .. } => attach_at(table, *tid),
        Event::Interrupt { tid } => interrupt_at(table, actor, *tid),
        Event::Cont { tid, sig } => restart_at(table, actor, *tid, *sig),
        Event::Listen { tid } => listen_at(table, actor, *tid),
        Event::Detach { tid, sig } => restart_at(table, actor, *tid, *sig),
        Event::SetOptions { tid, .. } => stopped_at(table, actor, *tid),
        Event::EventMessage { tid } => message_at(table, actor, *tid),
        Event::SignalInfo { tid } => siginfo_at(table, actor, *tid),
        Event::TracerExit => None,
        Event::Wait { which } => no_tracee(table, actor, *which),
        Event::StarterWait { which, flags } => no_child(table, actor, *which, *flags),
    }
}
