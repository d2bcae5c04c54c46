//! What a thread does at a signal that is delivered to it: "Signal dispositions" of signal(7).

ghost use Rattle.std.specs.Prelude.{◌≡◌, ◌≤◌, not};
ghost use Rattle.tr_model.specs.GroupStops.{initiate};
ghost use Rattle.tr_model.specs.Moves.{when};
ghost use Rattle.tr_steps.specs.UnderWay.{Moves};
ghost use Rattle.tr_model.specs.Takes.{act, act_on, did_of};
ghost use Rattle.tr_signals.specs.Private.{die_of};

use tr_group::Action;
use tr_model::Did;
use tr_sigset::{Base, Signal};
use tr_steps::Step;
use tr_threads::ThreadChange;
use tr_tracee::{End, Thread};

/// What an action makes of a signal.
pub fn did_of(action: Action, signal: Signal) -> Did
    ensures { result ≡ did_of action signal }
{
    match action {
        Action::Ignore => Did::Ignored,
        Action::Catch => Did::Caught,
        Action::Default => match signal.default_action() {
            Base::Term | Base::Core => Did::Dying,
            Base::Stop => Did::Stopping,
            Base::Ignored | Base::Continue => Did::Ignored,
        },
    }
}

fn die_of(step: &mut Step, tgid: u32, signal: Signal)
    requires { 2 ≤ step.old.room }
    ensures { Moves (die_of tgid signal) 2 step.old step.new }
{
    if signal == Signal::KILL {
        step.kill_group(tgid);
    } else {
        step.begin_death(tgid, &End::Killed(signal), false);
    }
}

fn initiate_unless(step: &mut Step, came: bool, tgid: u32, signal: Signal)
    ensures { Moves (when (not came) (initiate tgid signal)) 0 step.old step.new }
{
    if !came {
        step.initiate(tgid, signal);
    }
}

/// A thread does at a signal what its action makes of that: `came` says that a SIGCONT came since the thread took it,
/// so that a stop signal begins no group-stop.
#[inline(always)]
pub fn act(step: &mut Step, thread: &Thread, signal: Signal, came: bool, did: Did)
    requires { 2 ≤ step.old.room }
    ensures { Moves (act thread.now signal came did) 2 step.old step.new }
{
    match did {
        Did::Caught => step.change_thread(thread.id, &ThreadChange::Pausing(false)),
        Did::Stopping => initiate_unless(step, came, thread.group, signal),
        Did::Dying => die_of(step, thread.group, signal),
        Did::Ignored | Did::Reported => {}
    }
}

/// A thread acts on a signal, by the action that its group has.
pub fn act_on(step: &mut Step, thread: &Thread, signal: Signal, came: bool)
    requires { 2 ≤ step.old.room }
    ensures { Moves (act_on thread.now signal came) 2 step.old step.new }
{
    let did = did_of(step.table().action_of(thread.group, signal), signal);
    act(step, thread, signal, came, did);
}
