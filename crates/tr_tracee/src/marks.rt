ghost use Rattle.std.specs.Prelude.{◌≡◌};
ghost use Rattle.tr_tracee.specs.Marks.{cont_noted, cont_noted_life, continued, continued_life, joining, marked, masked, noted, paused, stopped, stopped_life};

use crate::life::{Life, Stop};
use crate::thread::Thread;
use tr_sigset::{SigSet, Signal};

// Masks, pauses and the group-stop, for one thread.

impl Thread {
    /// Sets its mask, without KILL and STOP, which can't be blocked: sigprocmask(2).
    pub fn set_mask(&mut self, set: SigSet)
        ensures { self.new ≡ masked set self.old }
    {
        let mut mask = set;
        if let Some(stop) = Signal::new(19) {
            mask = mask.without(stop);
        }
        if let Some(kill) = Signal::new(9) {
            mask = mask.without(kill);
        }
        self.mask = mask;
    }

    /// Begins or ends a pause: pause(2).
    pub fn set_pausing(&mut self, pausing: bool)
        ensures { self.new ≡ paused pausing self.old }
    {
        self.pausing = pausing;
    }

    /// Sets the stop mark where it is live and takes no part in the group-stop yet.
    pub fn mark(&mut self)
        ensures { self.new ≡ marked self.old }
    {
        self.stop_mark = self.stop_mark || (self.life.is_live() && !self.joined);
    }

    /// Takes part in the group-stop: its stop mark is served.
    pub fn join(&mut self)
        ensures { self.new ≡ joining self.old }
    {
        self.stop_mark = false;
        self.joined = true;
    }

    /// Stops, if it runs: a thread that nobody traces serves its stop mark so.
    pub fn stop(&mut self)
        ensures { self.new ≡ stopped self.old }
    {
        if self.life.is_free() {
            self.life = Life::Stopped;
        }
    }

    /// Sets the note mark of a live seized thread, since a SIGCONT came.
    pub fn note(&mut self)
        ensures { self.new ≡ noted self.old }
    {
        self.note_mark = self.note_mark || (self.life.is_live() && self.is_seized());
    }

    /// Ends its part in a group-stop: a stopped thread runs again.
    pub fn continue_one(&mut self)
        ensures { self.new ≡ continued self.old }
    {
        if self.life.is_stopped() {
            self.life = Life::Free;
        }
        self.stop_mark = false;
        self.joined = false;
    }

    /// Notes at its signal-delivery-stop, if it is in one, that a SIGCONT came.
    pub fn note_cont(&mut self)
        ensures { self.new ≡ cont_noted self.old }
    {
        if let Life::InStop(Stop::Signal { cont_came, .. }) = &mut self.life {
            *cont_came = true;
        }
    }
}
