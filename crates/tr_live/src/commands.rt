ghost use Rattle.std.specs.Prelude.{◌≡◌, IfOk, true};
ghost use Rattle.serde_json.specs.View.{view};
ghost use Rattle.tr_starts.specs.Starts.{is_good};
ghost use Rattle.tr_reading.specs.Fields.{Gives};
ghost use Rattle.tr_live.specs.Commands.{command_of, line_read, opening_of, plain_command, shown_by, status_command, whole_start};

use serde_json::Value;
use std::alloc::Global;
use tr_reading::fields::{FromJson, id, no_key_but, number};
use tr_reading::{ScenarioFault, Step, json, repeats_in_start, start};
use tr_starts::Start;

/// The most bytes of a line.
pub(crate) const LONGEST: usize = 65536;

/// What a line asks for, once there is a kernel.
#[derive(Clone, Copy, Debug, PartialEq, Eq)]
pub enum Command {
    /// Make the calls of a step.
    Make(Step),
    /// Show the status of the thread with this id.
    ShowStatus(u32),
    /// Show the status of each thread.
    ShowTable,
    /// Show how many signals were accepted, and what became of them.
    ShowTotals,
}

/// Reads the start that a line is.
#[tactic(auto, unfolding(crate::specs::Commands::line_read))]
pub(crate) fn read_opening(alloc: Global, line: &[u8]) -> Result<Start, ScenarioFault>
    ensures gives { Gives (λ s. s) result (line_read opening_of line.now) }
    ensures good { IfOk result (λ s. is_good s ≡ true) }
{
    if line.len() > LONGEST {
        return Err(ScenarioFault::TooLarge);
    }
    let value = json(alloc, line)?;
    opening(alloc, &value)
}

/// Reads a scenario without steps.
#[tactic(auto, unfolding(crate::specs::Commands::opening_of))]
fn opening(alloc: Global, value: &Value) -> Result<Start, ScenarioFault>
    ensures gives { Gives (λ s. s) result (opening_of (view value.now)) }
    ensures good { IfOk result (λ s. is_good s ≡ true) }
{
    number(value, "version", 1, 1)?;
    let start = start(alloc, value)?;
    no_key_but(value, &["version", "limit", "entries", "groups"], &[])?;
    whole(alloc, start)
}

/// The start, where a kernel can have it.
#[tactic(auto, unfolding(crate::specs::Commands::whole_start))]
fn whole(alloc: Global, start: Start) -> Result<Start, ScenarioFault>
    ensures gives { Gives (λ s. s) result (whole_start start) }
    ensures good { IfOk result (λ s. is_good s ≡ true) }
{
    if repeats_in_start(alloc, &start)? {
        return Err(ScenarioFault::Repeated);
    }
    if !start.is_good() {
        return Err(ScenarioFault::BadStart);
    }
    Ok(start)
}

/// Reads the command that a line is.
#[tactic(auto, unfolding(crate::specs::Commands::line_read))]
pub(crate) fn read_command(alloc: Global, line: &[u8]) -> Result<Command, ScenarioFault>
    ensures { Gives (λ c. c) result (line_read command_of line.now) }
{
    if line.len() > LONGEST {
        return Err(ScenarioFault::TooLarge);
    }
    let value = json(alloc, line)?;
    command_from(alloc, &value)
}

#[tactic(auto, unfolding(crate::specs::Commands::command_of))]
fn command_from(alloc: Global, value: &Value) -> Result<Command, ScenarioFault>
    ensures { Gives (λ c. c) result (command_of (view value.now)) }
{
    let Some(shown) = value.get("show") else {
        return Ok(Command::Make(Step::from_json(alloc, value)?));
    };
    match shown.as_str() {
        Some(name) => shown_by(name, value),
        None => Err(ScenarioFault::BadField),
    }
}

/// Reads what is to be shown.
fn shown_by(name: &str, value: &Value) -> Result<Command, ScenarioFault>
    ensures { Gives (λ c. c) result (shown_by name.now (view value.now)) }
{
    if name == "status" {
        status_command(value)
    } else if name == "totals" {
        plain_command(Command::ShowTotals, value)
    } else if name == "table" {
        plain_command(Command::ShowTable, value)
    } else {
        Err(ScenarioFault::BadField)
    }
}

#[tactic(auto, unfolding(crate::specs::Commands::status_command))]
fn status_command(value: &Value) -> Result<Command, ScenarioFault>
    ensures { Gives (λ c. c) result (status_command (view value.now)) }
{
    let tid = id(value, "tid")?;
    no_key_but(value, &["show", "tid"], &[])?;
    Ok(Command::ShowStatus(tid))
}

/// Reads a command that has no further field.
#[tactic(auto, unfolding(crate::specs::Commands::plain_command))]
fn plain_command(command: Command, value: &Value) -> Result<Command, ScenarioFault>
    ensures { Gives (λ c. c) result (plain_command command (view value.now)) }
{
    no_key_but(value, &["show"], &[])?;
    Ok(command)
}
