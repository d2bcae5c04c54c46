ghost use Rattle.std.specs.Prelude.{◌≡◌, ◌&&◌, nat_le, if◌then◌else◌, Some, None};
ghost use Rattle.tr_tracee.specs.Lives.{end_of_word, held};
ghost use Rattle.tr_tracee.specs.Stops.{ends_part, entered_as, interrupted, listening, listening_life, or_else, reported, restarted, restarted_life, set_options, traced_by, untraced, untraced_life, with_options, without_report, without_trace};

use crate::life::{End, Life, Stop};
use crate::thread::{Options, Report, Thread, Trace};
use tr_pending::Instance;
use tr_sigset::Signal;
use tr_wait::Status;

// Ptrace-stops and restarts of one thread.

impl Thread {
    /// Is traced from now on, unless somebody traces it: `PTRACE_ATTACH`, `PTRACE_SEIZE`. Its report is withdrawn.
    pub fn trace_by(&mut self, trace: &Trace)
        ensures { self.new ≡ traced_by trace.now self.old }
    {
        self.trace = traced_from(&self.trace, trace);
        self.withdraw_report();
    }

    /// Has these options from now on, if somebody traces it: `PTRACE_SETOPTIONS`.
    pub fn set_options(&mut self, options: &Options)
        ensures { self.new ≡ set_options options.now self.old }
    {
        self.trace = with_options(options, &self.trace);
    }

    /// Has the report of this number, with this status.
    pub fn set_report(&mut self, number: u64, status: &Status)
        ensures { self.new ≡ reported number status.now self.old }
    {
        self.report = Some(Report {
            number,
            status: *status,
        });
    }

    /// Has no report from now on: a wait consumed it, or it was withdrawn.
    pub fn withdraw_report(&mut self)
        ensures { self.new ≡ without_report self.old }
    {
        self.report = None;
    }

    /// Enters a ptrace-stop, with the next report's number: ptrace(2). The trap mark goes, and at
    /// `PTRACE_EVENT_STOP` the note mark too. Whether it may enter is the caller's to know.
    pub fn enter(&mut self, stop: &Stop, number: u64)
        ensures { self.new ≡ entered_as number stop.now self.old }
    {
        self.report = Some(Report {
            number,
            status: stop.status(),
        });
        self.note_mark = self.note_mark && !stop.is_event();
        self.trap_mark = false;
        self.life = Life::InStop(*stop);
    }

    /// Restarts it from its ptrace-stop, as `PTRACE_CONT` does: from its exit stop it leaves, from every other stop
    /// it runs. Gives what the stop held. A report that no wait has consumed is withdrawn.
    #[inline(always)]
    pub fn restart(&mut self) -> Option<Instance>
        ensures thread { self.new ≡ restarted self.old }
        ensures held { result ≡ held self.old.life }
    {
        let held = self.life.held();
        self.joined = self.joined && !ends_part_of(&self.life);
        restart_life(&mut self.life);
        self.withdraw_report();
        held
    }

    /// Lets it listen, from a `PTRACE_EVENT_STOP`: `PTRACE_LISTEN`. It still takes part in a group-stop.
    pub fn listen(&mut self)
        ensures { self.new ≡ listening self.old }
    {
        self.life = listening_from(&self.life);
        self.withdraw_report();
    }

    /// Sets its trap mark: `PTRACE_INTERRUPT`.
    pub fn interrupt(&mut self)
        ensures { self.new ≡ interrupted self.old }
    {
        self.trap_mark = true;
    }

    /// Ends its tracing, once it is restarted: `PTRACE_DETACH`. Where a group-stop is in effect a thread that would
    /// run is stopped and takes part in it. In a ptrace-stop it stays as it is.
    pub fn detach(&mut self, in_effect: bool)
        ensures { self.new ≡ untraced in_effect self.old }
    {
        if self.life.is_in_stop() {
            return;
        }
        self.lose_trace(in_effect);
    }

    fn lose_trace(&mut self, in_effect: bool)
        ensures { self.new ≡ without_trace in_effect self.old }
    {
        let halts = in_effect && self.life.serves_marks();
        self.life = untraced_from(in_effect, &self.life);
        self.trace = None;
        self.trap_mark = false;
        self.note_mark = false;
        self.stop_mark = self.stop_mark && !halts;
        self.joined = self.joined || halts;
        self.withdraw_report();
    }
}

fn traced_from(old: &Option<Trace>, trace: &Trace) -> Option<Trace>
    ensures { result ≡ or_else old.now trace.now }
{
    match old {
        Some(old) => Some(*old),
        None => Some(*trace),
    }
}

fn with_options(options: &Options, trace: &Option<Trace>) -> Option<Trace>
    ensures { result ≡ with_options options.now trace.now }
{
    match trace {
        Some(trace) => Some(Trace {
            options: *options,
            ..*trace
        }),
        None => None,
    }
}

/// The end that an exit stop's word tells.
pub(crate) fn end_of_word(word: u32) -> End
    ensures { result ≡ end_of_word word }
{
    match signal_of(word) {
        Some(signal) => End::Killed(signal),
        None => End::Exited((word / 256 % 256) as u8),
    }
}

fn signal_of(word: u32) -> Option<Signal>
    ensures { result ≡ (if nat_le 1 word && nat_le word 64 then Some word else None) }
{
    if word <= 64 {
        Signal::new(word as u8)
    } else {
        None
    }
}

fn ends_part_of(life: &Life) -> bool
    ensures { result ≡ ends_part life.now }
{
    matches!(life, Life::InStop(Stop::Group(_) | Stop::Event(_)))
}

fn restart_life(life: &mut Life)
    ensures { life.new ≡ restarted_life life.old }
{
    match life {
        Life::InStop(Stop::Exit(word)) => {
            *life = Life::Leaving {
                end: end_of_word(*word),
                told: true,
            }
        }
        Life::InStop(_) => *life = Life::Free,
        _ => {}
    }
}

fn listening_from(life: &Life) -> Life
    ensures { result ≡ listening_life life.now }
{
    match life {
        Life::InStop(Stop::Event(_)) => Life::Listening,
        _ => *life,
    }
}

fn untraced_from(in_effect: bool, life: &Life) -> Life
    ensures { result ≡ untraced_life in_effect life.now }
{
    match life {
        Life::Free | Life::Listening => { if in_effect { Life::Stopped } else { Life::Free } }
        Life::Leaving { end, .. } => Life::Leaving {
            end: *end,
            told: true,
        },
        _ => *life,
    }
}
