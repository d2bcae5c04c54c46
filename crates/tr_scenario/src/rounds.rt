ghost use Rattle.std.specs.Prelude.{◌≡◌, ◌∷◌, ◌++◌, ◌<◌, ◌+◌, ◌-◌, ◌^◌, ℕ, [], IfOk, OnOk, is_none, map};
ghost use Rattle.std.specs.List.{list_all};
ghost use Rattle.tr_workers.specs.Scripts.{next};
ghost use Rattle.tr_scenario.specs.Kernels.{Makes, so_far};
ghost use Rattle.tr_scenario.specs.Printing.{Fills};
ghost use Rattle.tr_scenario.specs.Private.{AreLow, IsLow};
ghost use Rattle.tr_scenario.specs.Rounds.{all_rounds, final_tally, player_lines, player_of, round, rounds, rounds_text, turn};
ghost use Rattle.tr_scenario.specs.RunTexts.{calls_text};

use crate::lines::push_worker;
use crate::pages::Page;
use crate::runs::fill_call;
use crate::telling::Telling;
use std::alloc::{AllocError, Global};
use tr_kernel::Kernel;
use tr_reading::ScenarioFault;
use tr_status::Sink;
use tr_workers::{Calls, Ended, Script, Tally};

/// The most turns of a worker.
pub(crate) const MOST_TURNS: u32 = 100000;

/// A worker of a serial run: how far its script has come, and what it counted.
#[derive(Drop)]
pub(crate) struct Player<'a> {
    pub(crate) actor: u32,
    pub(crate) calls: Calls<'a>,
    pub(crate) tally: Tally,
}

/// Makes the calls of the scripts in rounds, and prints what is told of the calls, and the lines of the workers. Room for all scripts
/// comes before the first call.
pub(crate) fn fill_workers<T: Telling, W: Sink>(
    alloc: Global,
    kernel: &mut Kernel,
    scripts: &[Script],
    page: &mut Page,
    writer: &mut W,
) -> Result<(), ScenarioFault>
    requires { W.failures writer.old < 2 ^ 64 - 1 }
    ensures prints { Fills W.taken W.failures writer.old writer.new page.old page.new
        (rounds_text T.text (so_far kernel.old) (all_rounds (so_far kernel.old) scripts.now)) result }
    ensures makes { OnOk result
        (Makes kernel.old kernel.new (all_rounds (so_far kernel.old) scripts.now).calls) }
{
    let mut players = players_of(alloc, scripts)?;
    fill_rounds::<T, W>(kernel, &mut players, MOST_TURNS, page, writer)?;
    push_players(page, &players)?;
    Ok(())
}

pub(crate) fn players_of<'a>(
    alloc: Global,
    scripts: &'a [Script],
) -> Result<Vec<Player<'a>>, AllocError>
    ensures { IfOk result (λ players. players.items ≡ map player_of scripts.now) }
{
    let mut players = Vec::new(alloc);
    for script in scripts {
        players.push(Player {
            actor: script.actor,
            calls: Calls::new(alloc, script)?,
            tally: Tally::new(),
        })?;
    }
    Ok(players)
}

/// Makes so many rounds, or up to the first in which no player has a call left: then none comes later.
fn fill_rounds<T: Telling, W: Sink>(
    kernel: &mut Kernel,
    players: &mut [Player<'_>],
    turns: u32,
    page: &mut Page,
    writer: &mut W,
) -> Result<(), ScenarioFault>
    requires room { W.failures writer.old < 2 ^ 64 - 1 }
    requires low { AreLow 0 players.old }
    ensures prints { Fills W.taken W.failures writer.old writer.new page.old page.new
        (calls_text T.text (so_far kernel.old)
        (rounds turns (so_far kernel.old) players.old).calls) result }
    ensures makes { OnOk result
        (Makes kernel.old kernel.new (rounds turns (so_far kernel.old) players.old).calls) }
    ensures players { OnOk result
        (players.new ≡ (rounds turns (so_far kernel.old) players.old).players) }
{
    for _ in 0..turns {
        if are_at_end(players) {
            return Ok(());
        }
        fill_round::<T, W>(kernel, players, page, writer)?;
    }
    Ok(())
}

pub(crate) fn are_at_end(players: &[Player<'_>]) -> bool
    ensures { result ≡ list_all (λ p. is_none (next p.calls)) players.now }
{
    players.iter().all(|player| player.calls.next().is_none())
}

/// Gives each player a turn.
fn fill_round<T: Telling, W: Sink>(
    kernel: &mut Kernel,
    players: &mut [Player<'_>],
    page: &mut Page,
    writer: &mut W,
) -> Result<(), ScenarioFault>
    requires room { W.failures writer.old < 2 ^ 64 - 1 }
    requires low { AreLow (2 ^ 32 - 1) players.old }
    ensures prints { Fills W.taken W.failures writer.old writer.new page.old page.new
        (calls_text T.text (so_far kernel.old) (round (so_far kernel.old) players.old).calls) result }
    ensures makes { OnOk result
        (Makes kernel.old kernel.new (round (so_far kernel.old) players.old).calls) }
    ensures players { OnOk result (players.new ≡ (round (so_far kernel.old) players.old).players) }
    ensures low { OnOk result ((n : ℕ) → AreLow n players.old → AreLow (n + 1) players.new) }
{
    for player in players.iter_mut() {
        fill_turn::<T, W>(kernel, player, page, writer)?;
    }
    Ok(())
}

/// Makes a player's next call, if its script has one left, and prints what is told of it.
fn fill_turn<T: Telling, W: Sink>(
    kernel: &mut Kernel,
    player: &mut Player<'_>,
    page: &mut Page,
    writer: &mut W,
) -> Result<(), ScenarioFault>
    requires room { W.failures writer.old < 2 ^ 64 - 1 }
    requires low { IsLow (2 ^ 32 - 1) player.old }
    ensures prints { Fills W.taken W.failures writer.old writer.new page.old page.new
        (calls_text T.text (so_far kernel.old) (turn (so_far kernel.old) player.old).calls) result }
    ensures makes { OnOk result
        (Makes kernel.old kernel.new (turn (so_far kernel.old) player.old).calls) }
    ensures player { OnOk result ((turn (so_far kernel.old) player.old).players ≡ player.new ∷ []) }
    ensures low { OnOk result ((n : ℕ) → IsLow n player.old → IsLow (n + 1) player.new) }
{
    let Some(event) = player.calls.next() else {
        return Ok(());
    };
    let answer = fill_call::<T, W>(kernel, player.actor, &event, page, writer)?;
    player.tally.count(&answer)?;
    player.calls.tell(&answer);
    Ok(())
}

// The lines

/// Appends the lines of the workers.
fn push_players(page: &mut Page, players: &[Player<'_>]) -> Result<(), AllocError>
    ensures { OnOk result (page.new ≡ page.old ++ player_lines players.now) }
{
    for player in players {
        push_worker(page, player.actor, &final_tally(player))?;
    }
    Ok(())
}

fn final_tally(player: &Player<'_>) -> Tally
    ensures { result ≡ final_tally player.now }
{
    let outcome = match player.calls.next() {
        None => Ended::AtEnd,
        Some(_) => Ended::OutOfTurns,
    };
    player.tally.ended(outcome)
}
