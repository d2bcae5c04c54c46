ghost use Rattle.std.specs.Prelude.{◌≡◌};
ghost use Rattle.tr_tracee.specs.Ends.{begun_to_leave, begun_to_leave_by_exec, child, dead, dead_life, execed, execed_life, execing, execing_life, leaving, leaving_life, leaving_with, own_end, released, unmarked};

use crate::life::{End, Life, Stop};
use crate::stops::end_of_word;
use crate::thread::Thread;

// How one thread leaves and dies, and what execve(2) and clone(2) make of it.

impl Thread {
    /// Begins to leave, with this end: its stop is broken, its marks go and a report that no wait has consumed is
    /// withdrawn. It has its exit stop before it where its tracer asks for that, unless KILL did it or it was told
    /// before. A dead thread stays as it is.
    pub fn begin_to_leave(&mut self, kill: bool, end: &End)
        ensures { self.new ≡ begun_to_leave kill end.now self.old }
    {
        if self.life.is_dead() {
            return;
        }
        self.set_out(kill, end);
    }

    fn set_out(&mut self, kill: bool, end: &End)
        ensures { self.new ≡ leaving_with kill end.now self.old }
    {
        let told = kill || self.life.was_told() || !self.options().exit;
        self.life = Life::Leaving { end: *end, told };
        self.unmark();
        self.joined = false;
        self.withdraw_report();
    }

    /// Loses its marks and ends its pause, as it exits.
    pub fn unmark(&mut self)
        ensures { self.new ≡ unmarked self.old }
    {
        self.stop_mark = false;
        self.trap_mark = false;
        self.note_mark = false;
        self.pausing = false;
    }

    /// Leaves with this end, if it runs, and has no exit stop before it: _exit(2).
    pub fn leave(&mut self, end: &End)
        ensures { self.new ≡ leaving end.now self.old }
    {
        self.life = leaving_from(end, &self.life);
    }

    /// Dies, if it leaves and has no exit stop before it.
    pub fn die(&mut self)
        ensures { self.new ≡ dead self.old }
    {
        self.life = dead_from(&self.life);
    }

    /// Loses its tracer and its report, if it is dead.
    pub fn release(&mut self)
        ensures { self.new ≡ released self.old }
    {
        if self.life.is_dead() {
            self.trace = None;
            self.withdraw_report();
        }
    }

    /// Begins to leave, unless it is the thread with this id, since that has called execve(2). It keeps an end of its
    /// own: one that it leaves with, or that its exit stop tells.
    pub fn leave_for_exec(&mut self, id: u32, end: &End)
        ensures { self.new ≡ begun_to_leave_by_exec id end.now self.old }
    {
        if self.id == id {
            return;
        }
        let end = own_end_or(end, &self.life);
        self.begin_to_leave(false, &end);
    }

    /// Waits in execve(2), if it runs, for the deaths of the other threads of its group.
    pub fn begin_exec(&mut self)
        ensures { self.new ≡ execing self.old }
    {
        self.life = execing_from(&self.life);
    }

    /// Runs again, if it waited in execve(2).
    pub fn end_exec(&mut self)
        ensures { self.new ≡ execed self.old }
    {
        self.life = execed_from(&self.life);
    }

    /// The thread that clone(2) makes of it, with this id: it runs, with the same mask. Where its tracer asks for that
    /// the new thread is traced as it is, and a seized one has the trap mark.
    pub fn child(&self, id: u32, stop_mark: bool) -> Thread
        ensures { result ≡ child id stop_mark self.now }
    {
        let traced = self.options().clone;
        Thread {
            id,
            group: self.group,
            mask: self.mask,
            pausing: false,
            life: Life::Free,
            trace: if traced { self.trace } else { None },
            stop_mark,
            trap_mark: traced && self.is_seized(),
            note_mark: false,
            joined: false,
            report: None,
        }
    }
}

fn leaving_from(end: &End, life: &Life) -> Life
    ensures { result ≡ leaving_life end.now life.now }
{
    match life {
        Life::Free => Life::Leaving {
            end: *end,
            told: true,
        },
        _ => *life,
    }
}

fn dead_from(life: &Life) -> Life
    ensures { result ≡ dead_life life.now }
{
    match life {
        Life::Leaving { end, told: true } => Life::Dead(*end),
        _ => *life,
    }
}

/// The end that a thread ends with already, else this one.
fn own_end_or(end: &End, life: &Life) -> End
    ensures { result ≡ own_end end.now life.now }
{
    match life {
        Life::Leaving { end: own, .. } => *own,
        Life::InStop(Stop::Exit(word)) => end_of_word(*word),
        _ => *end,
    }
}

fn execing_from(life: &Life) -> Life
    ensures { result ≡ execing_life life.now }
{
    match life {
        Life::Free => Life::Execing,
        _ => *life,
    }
}

fn execed_from(life: &Life) -> Life
    ensures { result ≡ execed_life life.now }
{
    match life {
        Life::Execing => Life::Free,
        _ => *life,
    }
}
