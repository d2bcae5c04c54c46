ghost use Rattle.std.specs.Prelude.{◌≡◌, false, if◌then◌else◌};
ghost use Rattle.tr_tracee.specs.declared.thread.Thread.{Thread};
ghost use Rattle.tr_threads.specs.Changes.{thread_changed_by};
ghost use Rattle.tr_threads.specs.Alike.{Turns};
ghost use Rattle.tr_threads.specs.declared.thread_changes.Turned.TheVariants as turned;

use tr_sigset::SigSet;
use tr_tracee::{End, Life, Options, Stop, Thread, Trace};
use tr_wait::Status;

/// What happens to the record of one thread.
#[derive(Clone, Copy, Debug)]
pub enum ThreadChange {
    /// It sets its mask.
    Mask(SigSet),
    /// It begins or ends a pause.
    Pausing(bool),
    /// It gets the stop mark, if it is live and takes no part in the group-stop yet.
    Mark,
    /// It takes part in the group-stop: its stop mark is served.
    Join,
    /// It takes part in the group-stop, and stops, if it runs.
    Halt,
    /// It loses its marks and ends its pause.
    Unmark,
    /// A SIGCONT came to it, which its signal-delivery-stop notes; the value says whether a group-stop is in effect.
    Continue(bool),
    /// It enters a ptrace-stop, with the report of this number.
    Enter(Stop, u64),
    /// It has the report of this number.
    Report(u64, Status),
    /// It has no report any more.
    WithdrawReport,
    /// It is restarted from its stop.
    Restart,
    /// It listens, if it is in an event stop.
    Listen,
    /// It is traced from now on, unless somebody traces it.
    TraceBy(Trace),
    /// It has these options from now on, if somebody traces it.
    SetOptions(Options),
    /// Its trap mark is set.
    Interrupt,
    /// Its tracing ends, unless it is in a ptrace-stop; the value says whether a group-stop is in effect.
    Detach(bool),
    /// It waits in execve(2), if it runs.
    BeginExec,
    /// It runs again, if it waited in execve(2).
    EndExec,
    /// It leaves with this end, if it runs.
    Leave(End),
    /// It begins to leave with its group, unless it is dead; true where KILL did it.
    BeginToLeave(bool, End),
    /// It begins to leave, unless it is dead or has this id: that of the thread that called execve(2).
    LeaveForExec(u32, End),
    /// It dies, if it leaves and has no exit stop before it.
    Die,
    /// It loses its tracer and its report, if it is dead.
    Release,
}

/// What a change of a thread may turn of what is kept beside it.
#[derive(Clone, Copy)]
pub(crate) enum Turned {
    /// Nothing, and nothing of the thread.
    Nothing,
    /// No more than whether it may take, and its stop mark.
    Marks,
    /// Its report alone.
    Report,
    /// Whether it may take, its stop mark and its report: it enters a stop or leaves it.
    Stop,
    /// More than that.
    More,
}

impl Turned {
    fn stop_if(stays_live: bool) -> Turned
        ensures { result ≡ (if stays_live then turned.Stop else turned.More) }
    {
        if stays_live {
            Turned::Stop
        } else {
            Turned::More
        }
    }
}

impl ThreadChange {
    /// Whether a thread may become another record by it.
    fn turns(&self, thread: &Thread) -> bool
        ensures { result ≡ false → thread_changed_by self.now thread.now ≡ thread.now }
    {
        match self {
            ThreadChange::Pausing(pausing) => thread.pausing != *pausing,
            ThreadChange::Mark => !thread.stop_mark && !thread.joined && thread.life.is_live(),
            ThreadChange::Continue(in_effect) => {
                *in_effect || thread.life.is_in_stop() || !thread.note_mark && thread.is_seized()
            }
            ThreadChange::BeginToLeave(..) => !thread.life.is_dead(),
            _ => true,
        }
    }

    /// What it may turn of what is kept beside a thread.
    #[tactic(auto, using(crate::proofs::Alike::pause_stands, crate::proofs::Alike::mark_stands, crate::proofs::Alike::join_stands, crate::proofs::Alike::halt_stands, crate::proofs::Alike::continue_stands, crate::proofs::Alike::interrupt_stands, crate::proofs::Alike::enter_stands, crate::proofs::Alike::restart_stands))]
    #[inline(always)]
    pub(crate) fn turned(&self, thread: &Thread) -> Turned
        ensures { Turns result thread.now (thread_changed_by self.now thread.now) }
    {
        if !self.turns(thread) {
            return Turned::Nothing;
        }
        match self {
            ThreadChange::Pausing(_)
            | ThreadChange::Mark
            | ThreadChange::Join
            | ThreadChange::Halt
            | ThreadChange::Continue(_)
            | ThreadChange::Interrupt => Turned::Marks,
            ThreadChange::Report(..) | ThreadChange::WithdrawReport => Turned::Report,
            ThreadChange::Enter(stop, _) => {
                Turned::stop_if(thread.life.is_live() && Life::InStop(*stop).is_live())
            }
            ThreadChange::Restart => Turned::stop_if(thread.life.is_live()),
            _ => Turned::More,
        }
    }

    /// Makes it of a thread.
    #[inline(always)]
    pub(crate) fn make(&self, thread: &mut Thread)
        ensures { thread.new ≡ thread_changed_by self.now thread.old }
    {
        match self {
            ThreadChange::Mask(set) => thread.set_mask(*set),
            ThreadChange::Pausing(pausing) => thread.set_pausing(*pausing),
            ThreadChange::Mark => thread.mark(),
            ThreadChange::Join => thread.join(),
            ThreadChange::Halt => {
                thread.join();
                thread.stop();
            }
            ThreadChange::Unmark => thread.unmark(),
            ThreadChange::Continue(in_effect) => {
                if thread.life.is_in_stop() {
                    thread.note_cont();
                }
                thread.note();
                if *in_effect {
                    thread.continue_one();
                }
            }
            ThreadChange::Enter(stop, number) => thread.enter(stop, *number),
            ThreadChange::Report(number, status) => thread.set_report(*number, status),
            ThreadChange::WithdrawReport => thread.withdraw_report(),
            ThreadChange::Restart => {
                let _held = thread.restart();
            }
            ThreadChange::Listen => thread.listen(),
            ThreadChange::TraceBy(trace) => thread.trace_by(trace),
            ThreadChange::SetOptions(options) => thread.set_options(options),
            ThreadChange::Interrupt => thread.interrupt(),
            ThreadChange::Detach(in_effect) => thread.detach(*in_effect),
            ThreadChange::BeginExec => thread.begin_exec(),
            ThreadChange::EndExec => thread.end_exec(),
            ThreadChange::Leave(end) => thread.leave(end),
            ThreadChange::BeginToLeave(kill, end) => thread.begin_to_leave(*kill, end),
            ThreadChange::LeaveForExec(id, end) => thread.leave_for_exec(*id, end),
            ThreadChange::Die => thread.die(),
            ThreadChange::Release => thread.release(),
        }
    }
}
