ghost use Rattle.std.specs.Prelude.{◌≡◌, ◌≢◌, ◌<◌, ◌-◌, ◌^◌, ℕ, List, ◌++◌, [], IfErr, IfOk, None, OnOk, Some, option_map};
ghost use Rattle.tr_model.specs.Tables.{thread_of};
ghost use Rattle.tr_reading.specs.declared.faults.ScenarioFault.TheVariants.{NoMemory};
ghost use Rattle.tr_scenario.specs.Lines.{totals_line};
ghost use Rattle.tr_scenario.specs.Printing.{Fills};
ghost use Rattle.tr_live.specs.declared.commands.Command.TheVariants.{Make};
ghost use Rattle.tr_mistakes.specs.Texts.{IsTold};
ghost use Rattle.tr_live.specs.Commands.{command_of, line_read, longest, opening_of};
ghost use Rattle.tr_live.specs.Mistakes.{command_mistake, opening_mistake};
ghost use Rattle.tr_live.specs.Dialogues.{MayTell, ToldOf, answer, commanded, obeyed, opened, refused_line, session_after, session_of, status_or_refusal, table_text, totals_of};

use crate::commands::{Command, LONGEST, read_command, read_opening};
use crate::mistakes::Opening;
use std::alloc::{AllocError, Global};
use tr_kernel::Kernel;
use tr_mistakes::{Mistaken, push_told};
use tr_model::Refusal;
use tr_reading::ScenarioFault;
use tr_scenario::{LineBuffer, Lines, Page, compose_totals, fill_calls, open, refusal_text};
use tr_status::{Sink, StatusBuffer, prepend_status};
use tr_table::Table;
use tr_tracee::Thread;

// What a line is answered, by way of a page.

/// Answers a line: where there is no kernel yet it may open one, else it commands it.
pub(crate) fn fill_answer<W: Sink>(
    alloc: Global,
    kernel: &mut Option<Kernel>,
    line: &[u8],
    page: &mut Page,
    writer: &mut W,
) -> Result<(), ScenarioFault>
    requires { W.failures writer.old < 2 ^ 64 - 1 }
    ensures fills { (told : List ℕ)
        × MayTell (option_map session_of kernel.old) line.now told
        × Fills W.taken W.failures writer.old writer.new page.old page.new
        (answer told (option_map session_of kernel.old) line.now).text result }
    ensures session { OnOk result (option_map session_of kernel.new
        ≡ session_after (option_map session_of kernel.old) line.now) }
{
    match kernel {
        Some(kernel) => fill_command(alloc, kernel, line, page, writer),
        None => match push_opening(alloc, line, page) {
            Ok(opened) => {
                *kernel = opened;
                Ok(())
            }
            Err(fault) => Err(fault),
        },
    }
}

/// Opens the kernel that a line asks for, and appends the answer; no kernel where the line is refused.
fn push_opening(
    alloc: Global,
    line: &[u8],
    page: &mut Page,
) -> Result<Option<Kernel>, ScenarioFault>
    ensures text { OnOk result ((told : List ℕ)
        × ToldOf opening_mistake line.now (line_read opening_of line.now) told
        × (page.new ≡ page.old ++ (opened told (line_read opening_of line.now)).text)) }
    ensures session { IfOk result (λ k. option_map session_of k
        ≡ (opened [] (line_read opening_of line.now)).session) }
    ensures err { IfErr result (λ e. e ≡ NoMemory) }
{
    match read_opening(alloc, line) {
        Ok(start) => {
            let kernel = open(alloc, start)?;
            page.push(b"started\n")?;
            Ok(Some(kernel))
        }
        Err(ScenarioFault::NoMemory) => Err(ScenarioFault::NoMemory),
        Err(fault) => {
            push_refused::<Opening>(alloc, page, fault, line)?;
            Ok(None)
        }
    }
}

/// Obeys the command that a line is, and prints its answer.
fn fill_command<W: Sink>(
    alloc: Global,
    kernel: &mut Kernel,
    line: &[u8],
    page: &mut Page,
    writer: &mut W,
) -> Result<(), ScenarioFault>
    requires { W.failures writer.old < 2 ^ 64 - 1 }
    ensures fills { (told : List ℕ)
        × ToldOf command_mistake line.now (line_read command_of line.now) told
        × Fills W.taken W.failures writer.old writer.new page.old page.new
        (commanded (session_of kernel.old) told (line_read command_of line.now)).text result }
    ensures session { OnOk result (Some (session_of kernel.new)
        ≡ (commanded (session_of kernel.old) [] (line_read command_of line.now)).session) }
{
    match read_command(alloc, line) {
        Ok(Command::Make(step)) => fill_calls::<Lines, W>(kernel, &step, page, writer),
        Ok(command) => match push_shown(page, kernel, command) {
            Ok(()) => Ok(()),
            Err(AllocError) => Err(ScenarioFault::NoMemory),
        },
        Err(ScenarioFault::NoMemory) => Err(ScenarioFault::NoMemory),
        Err(fault) => match push_refused::<Command>(alloc, page, fault, line) {
            Ok(()) => Ok(()),
            Err(AllocError) => Err(ScenarioFault::NoMemory),
        },
    }
}

/// Appends what a command asks to be shown.
fn push_shown(page: &mut Page, kernel: &Kernel, command: Command) -> Result<(), AllocError>
    requires { (s : _) → command ≢ Make s }
    ensures text { OnOk result (page.new
        ≡ page.old ++ (obeyed (session_of kernel.now) command).text) }
    ensures session { Some (session_of kernel.now) ≡ (obeyed (session_of kernel.now) command).session }
{
    match command {
        Command::ShowStatus(tid) => push_status_or_refusal(page, kernel.table(), tid),
        Command::ShowTable => push_table(page, kernel.table()),
        Command::ShowTotals => push_totals(page, kernel),
        Command::Make(_) => unreachable!(),
    }
}

/// Appends that a line is refused for a fault, and its first mistake; of what is no JSON, where it stops to be.
fn push_refused<T: Mistaken>(
    alloc: Global,
    page: &mut Page,
    fault: ScenarioFault,
    line: &[u8],
) -> Result<(), AllocError>
    ensures { OnOk result
        ((told : List ℕ)
        × IsTold T.mistake longest line.now fault told
        × (page.new ≡ page.old ++ refused_line fault told)) }
{
    page.push(b"refused ")?;
    page.push(fault.name().as_bytes())?;
    push_told::<T>(alloc, page, LONGEST, line, fault)?;
    page.push(b"\n")
}

/// Appends the status of the thread with an id, or that there is none.
fn push_status_or_refusal(page: &mut Page, table: &Table, tid: u32) -> Result<(), AllocError>
    ensures { OnOk result (page.new
        ≡ page.old ++ status_or_refusal table.now.table (thread_of table.now.table tid)) }
{
    match table.find(tid) {
        Some(thread) => push_status(page, table, thread),
        None => push_no_thread(page),
    }
}

fn push_no_thread(page: &mut Page) -> Result<(), AllocError>
    ensures { (T : _) → OnOk result (page.new ≡ page.old ++ status_or_refusal T None) }
{
    let mut line = LineBuffer::new();
    line.prepend(b"\n");
    line.prepend(refusal_text(Refusal::Srch).as_bytes());
    line.prepend(b"refused ");
    page.push(line.as_bytes())
}

fn push_status(page: &mut Page, table: &Table, thread: &Thread) -> Result<(), AllocError>
    ensures { OnOk result (page.new
        ≡ page.old ++ status_or_refusal table.now.table (Some thread.now)) }
{
    let mut text = StatusBuffer::new();
    prepend_status(&mut text, table, thread);
    page.push(text.as_bytes())
}

/// Appends the status of each thread.
fn push_table(page: &mut Page, table: &Table) -> Result<(), AllocError>
    ensures { OnOk result (page.new
        ≡ page.old ++ table_text table.now.table table.now.table.threads) }
{
    let threads = table.threads();
    for thread in threads {
        push_status(page, table, thread)?;
    }
    Ok(())
}

/// Appends the totals.
fn push_totals(page: &mut Page, kernel: &Kernel) -> Result<(), AllocError>
    ensures { OnOk result (page.new
        ≡ page.old ++ totals_line (totals_of (session_of kernel.now))) }
{
    let mut line = LineBuffer::new();
    compose_totals(&mut line, &kernel.totals());
    page.push(line.as_bytes())
}
