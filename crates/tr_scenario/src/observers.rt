ghost use Rattle.std.specs.Prelude.{◌≡◌, ◌∷◌, ◌+◌, ◌-◌, ◌^◌, ℕ, [], IfErr, IfOk, OnOk, replicate};
ghost use Rattle.tr_model.specs.Runs.{Call};
ghost use Rattle.tr_model.specs.Runs as runs;
ghost use Rattle.tr_reading.specs.declared.faults.ScenarioFault.TheVariants.{NoMemory};
ghost use Rattle.tr_scenario.specs.Kernels.{Answers, Makes, so_far};
ghost use Rattle.tr_scenario.specs.Observers.{Observes};
ghost use Rattle.tr_scenario.specs.Private.{AreLow, IsLow};
ghost use Rattle.tr_scenario.specs.Rounds.{all_rounds, round, rounds, turn};
ghost use Rattle.tr_scenario.specs.RunTexts.{call_of, calls};
ghost use Rattle.tr_scenario.specs.Serial.{job_calls};

use crate::rounds::{MOST_TURNS, Player, are_at_end, players_of};
use std::alloc::Global;
use tr_kernel::{Answer, Kernel};
use tr_model::Event;
use tr_reading::{Job, ScenarioFault, Step};
use tr_workers::Script;

/// What takes note of the calls of a run, one after the other.
pub trait Observer {
    /// What it knows after a call at a run so far.
    ghost knows: { Self → runs.State → Call → Self };

    /// Makes a call, and takes note of it. `NoMemory` also where the call is refused for want of memory.
    fn make(
        &mut self,
        kernel: &mut Kernel,
        actor: u32,
        event: &Event,
    ) -> Result<Answer, ScenarioFault>
        ensures known { OnOk result (self.new
            ≡ knows self.old (so_far kernel.old) (call_of actor event.now)) }
        ensures makes { OnOk result (Makes kernel.old kernel.new (call_of actor event.now ∷ [])) }
        ensures answer { IfOk result (λ x. Answers kernel.old (call_of actor event.now) x) }
        ensures err { IfErr result (λ e. e ≡ NoMemory) };
}

/// Makes the calls of a job, those that `run` makes, and lets an observer take note of each.
pub fn observe<O: Observer>(
    alloc: Global,
    kernel: &mut Kernel,
    job: &Job,
    observer: &mut O,
) -> Result<(), ScenarioFault>
    ensures ok { OnOk result
        (Observes O.knows observer.old observer.new kernel.old kernel.new
        (job_calls (so_far kernel.old) job.now)) }
    ensures err { IfErr result (λ e. e ≡ NoMemory) }
{
    match job {
        Job::Steps(steps) => observe_steps(kernel, steps.as_slice(), observer),
        Job::Workers(scripts) => observe_workers(alloc, kernel, scripts.as_slice(), observer),
    }
}

/// Makes the calls of the steps.
fn observe_steps<O: Observer>(
    kernel: &mut Kernel,
    steps: &[Step],
    observer: &mut O,
) -> Result<(), ScenarioFault>
    ensures ok { OnOk result
        (Observes O.knows observer.old observer.new kernel.old kernel.new (calls steps.now)) }
    ensures err { IfErr result (λ e. e ≡ NoMemory) }
{
    for step in steps {
        observe_step(kernel, step, observer)?;
    }
    Ok(())
}

/// Makes the calls of a step.
fn observe_step<O: Observer>(
    kernel: &mut Kernel,
    step: &Step,
    observer: &mut O,
) -> Result<(), ScenarioFault>
    ensures ok { OnOk result
        (Observes O.knows observer.old observer.new kernel.old kernel.new
        (replicate step.now.times (call_of step.now.actor step.now.event))) }
    ensures err { IfErr result (λ e. e ≡ NoMemory) }
{
    for _ in 0..step.times {
        observer.make(kernel, step.actor, &step.event)?;
    }
    Ok(())
}

/// Makes the calls of the scripts in rounds. Room for all scripts comes before the first call.
fn observe_workers<O: Observer>(
    alloc: Global,
    kernel: &mut Kernel,
    scripts: &[Script],
    observer: &mut O,
) -> Result<(), ScenarioFault>
    ensures ok { OnOk result
        (Observes O.knows observer.old observer.new kernel.old kernel.new
        (all_rounds (so_far kernel.old) scripts.now).calls) }
    ensures err { IfErr result (λ e. e ≡ NoMemory) }
{
    let mut players = players_of(alloc, scripts)?;
    observe_rounds(kernel, &mut players, MOST_TURNS, observer)
}

/// Makes so many rounds, or up to the first in which no player has a call left.
fn observe_rounds<O: Observer>(
    kernel: &mut Kernel,
    players: &mut [Player<'_>],
    turns: u32,
    observer: &mut O,
) -> Result<(), ScenarioFault>
    requires { AreLow 0 players.old }
    ensures ok { OnOk result
        (Observes O.knows observer.old observer.new kernel.old kernel.new
        (rounds turns (so_far kernel.old) players.old).calls) }
    ensures err { IfErr result (λ e. e ≡ NoMemory) }
{
    for _ in 0..turns {
        if are_at_end(players) {
            return Ok(());
        }
        observe_round(kernel, players, observer)?;
    }
    Ok(())
}

/// Gives each player a turn.
fn observe_round<O: Observer>(
    kernel: &mut Kernel,
    players: &mut [Player<'_>],
    observer: &mut O,
) -> Result<(), ScenarioFault>
    requires { AreLow (2 ^ 32 - 1) players.old }
    ensures ok { OnOk result
        (Observes O.knows observer.old observer.new kernel.old kernel.new
        (round (so_far kernel.old) players.old).calls) }
    ensures players { OnOk result (players.new ≡ (round (so_far kernel.old) players.old).players) }
    ensures low { OnOk result ((n : ℕ) → AreLow n players.old → AreLow (n + 1) players.new) }
    ensures err { IfErr result (λ e. e ≡ NoMemory) }
{
    for player in players.iter_mut() {
        observe_turn(kernel, player, observer)?;
    }
    Ok(())
}

/// Makes a player's next call, if its script has one left.
fn observe_turn<O: Observer>(
    kernel: &mut Kernel,
    player: &mut Player<'_>,
    observer: &mut O,
) -> Result<(), ScenarioFault>
    requires { IsLow (2 ^ 32 - 1) player.old }
    ensures ok { OnOk result
        (Observes O.knows observer.old observer.new kernel.old kernel.new
        (turn (so_far kernel.old) player.old).calls) }
    ensures player { OnOk result ((turn (so_far kernel.old) player.old).players ≡ player.new ∷ []) }
    ensures low { OnOk result ((n : ℕ) → IsLow n player.old → IsLow (n + 1) player.new) }
    ensures err { IfErr result (λ e. e ≡ NoMemory) }
{
    let Some(event) = player.calls.next() else {
        return Ok(());
    };
    let answer = observer.make(kernel, player.actor, &event)?;
    player.tally.count(&answer)?;
    player.calls.tell(&answer);
    Ok(())
}
