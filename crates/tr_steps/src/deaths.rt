//! How a group begins to die: exit_group(2), and "Death under ptrace" of ptrace(2).

ghost use Rattle.std.specs.Prelude.{◌≡◌, ◌≤◌, unwrap_or};
ghost use Rattle.tr_model.specs.Deaths.{begin_death, kill_group};
ghost use Rattle.tr_model.specs.Tables.{group_end};
ghost use Rattle.tr_steps.specs.UnderWay.{Moves};

use crate::steps::Step;
use tr_sigset::Signal;
use tr_table::GroupChange;
use tr_tracee::End;

impl Step {
    fn end_now(&self, tgid: u32, end: &End) -> End
        ensures { result ≡ unwrap_or (group_end self.now.work.table tgid) end.now }
    {
        self.table().end_of(tgid).unwrap_or(*end)
    }

    /// A group begins to die; where it is dying already it keeps its end.
    pub fn begin_death(&mut self, tgid: u32, end: &End, kill: bool)
        requires { 1 ≤ self.old.room }
        ensures { Moves (begin_death tgid end.now kill) 1 self.old self.new }
    {
        let first = self.end_now(tgid, end);
        self.change_group(tgid, &GroupChange::Die(*end));
        self.leave(tgid, kill, &first);
        self.tell_dying(tgid);
    }

    /// A KILL is delivered to a group.
    pub fn kill_group(&mut self, tgid: u32)
        requires { 2 ≤ self.old.room }
        ensures { Moves (kill_group tgid) 2 self.old self.new }
    {
        self.tell_killed(tgid);
        self.begin_death(tgid, &End::Killed(Signal::KILL), true);
    }
}
