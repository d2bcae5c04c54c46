ghost use Rattle.std.specs.Prelude.{◌≡◌, ◌<◌, ◌+◌, ◌*◌, ◌++◌, ◌^◌, OnOk, Some, length, true};
ghost use Rattle.tr_model.specs.Tables.{group_of, thread_of};
ghost use Rattle.tr_figures.specs.Cells.{cell, cells, first_cell, group_cell, how_traced, letter, mark_cell, more_cell, report_cell, thread_cell, trace_cell, block};
ghost use Rattle.tr_figures.specs.Elements.{printed};

use crate::elements::{push_rect, push_words};
use crate::lives::{push_group_words, push_life, signal_name, style_of_group, style_of_life};
use crate::styles::Style;
use itoa::Buffer;
use std::alloc::AllocError;
use tr_model::{Group, Target};
use tr_pending::Instance;
use tr_scenario::Page;
use tr_sigset::SigSet;
use tr_table::Table;
use tr_tracee::{Report, Thread, Trace};

fn how_traced(seized: bool) -> &'static str
    ensures { result.now ≡ how_traced seized }
{
    if seized { " seized" } else { " attached" }
}

/// Appends who traces a thread, if anybody.
fn push_trace(page: &mut Page, x: u64, trace: &Option<Trace>) -> Result<(), AllocError>
    requires { x < 2 ^ 32 }
    ensures { OnOk result (page.new ≡ page.old ++ printed (trace_cell x trace.now)) }
{
    let Some(trace) = trace else {
        return Ok(());
    };
    let mut digits = Buffer::new();
    let pieces: [&[u8]; 3] = [
        b"by ",
        digits.format(trace.tracer).as_bytes(),
        how_traced(trace.seized).as_bytes(),
    ];
    push_words(page, Style::Dim, x + 128, 42, &pieces)
}

fn letter(is_there: bool, mark: &'static str) -> &'static str
    ensures { result.now ≡ letter is_there mark.now }
{
    if is_there { mark } else { "" }
}

/// Appends the letters of a thread's marks, if it has one.
fn push_marks(page: &mut Page, x: u64, thread: &Thread) -> Result<(), AllocError>
    requires { x < 2 ^ 32 }
    ensures { OnOk result (page.new ≡ page.old ++ printed (mark_cell x thread.now)) }
{
    if !thread.has_mark() {
        return Ok(());
    }
    let pieces: [&[u8]; 3] = [
        letter(thread.stop_mark, "S").as_bytes(),
        letter(thread.trap_mark, "T").as_bytes(),
        letter(thread.note_mark, "N").as_bytes(),
    ];
    push_words(page, Style::Ink, x + 224, 30, &pieces)
}

/// Appends the number of a report, if there is one.
fn push_report(page: &mut Page, x: u64, report: &Option<Report>) -> Result<(), AllocError>
    requires { x < 2 ^ 32 }
    ensures { OnOk result (page.new ≡ page.old ++ printed (report_cell x report.now)) }
{
    let Some(report) = report else {
        return Ok(());
    };
    let mut digits = Buffer::new();
    let pieces: [&[u8]; 2] = [b"r", digits.format(report.number).as_bytes()];
    push_words(page, Style::Report, x + 252, 30, &pieces)
}

/// Appends all that is known of a thread.
fn push_thread(page: &mut Page, x: u64, thread: &Thread) -> Result<(), AllocError>
    requires { x < 2 ^ 32 }
    ensures { OnOk result (page.new ≡ page.old ++ printed (thread_cell true x (Some thread.now))) }
{
    let style = style_of_life(thread.pausing, &thread.life);
    push_rect(page, style, x + 124, 10, 124, 44)?;
    push_life(page, x + 128, thread.pausing, &thread.life)?;
    push_trace(page, x, &thread.trace)?;
    push_marks(page, x, thread)?;
    push_report(page, x, &thread.report)?;
    Ok(())
}

/// Appends what a thread is doing; all that is known of it only where told.
fn push_thread_cell(page: &mut Page, told: bool, x: u64, thread: &Thread) -> Result<(), AllocError>
    requires { x < 2 ^ 32 }
    ensures { OnOk result (page.new ≡ page.old ++ printed (thread_cell told x (Some thread.now))) }
{
    if told {
        return push_thread(page, x, thread);
    }
    let style = style_of_life(thread.pausing, &thread.life);
    push_rect(page, style, x + 124, 10, 124, 44)
}

/// Appends all that is known of a group.
fn push_group(page: &mut Page, x: u64, group: &Group) -> Result<(), AllocError>
    requires { x < 2 ^ 32 }
    ensures { OnOk result (page.new ≡ page.old ++ printed (group_cell true x (Some group.now))) }
{
    let style = style_of_group(group.end, group.group_stop);
    push_rect(page, style, x + 124, 10, 124, 44)?;
    push_group_words(page, x + 128, group.end, group.group_stop)?;
    push_report(page, x, &group.note)?;
    Ok(())
}

/// Appends what a group is doing; all that is known of it only where told.
fn push_group_cell(page: &mut Page, told: bool, x: u64, group: &Group) -> Result<(), AllocError>
    requires { x < 2 ^ 32 }
    ensures { OnOk result (page.new ≡ page.old ++ printed (group_cell told x (Some group.now))) }
{
    if told {
        return push_group(page, x, group);
    }
    let style = style_of_group(group.end, group.group_stop);
    push_rect(page, style, x + 124, 10, 124, 44)
}

/// Appends the block of the thread with an id, if it is there.
fn push_thread_block(
    page: &mut Page,
    told: bool,
    x: u64,
    table: &Table,
    id: u32,
) -> Result<(), AllocError>
    requires { x < 2 ^ 32 }
    ensures { OnOk result
        (page.new ≡ page.old ++ printed (thread_cell told x (thread_of table.now.table id))) }
{
    match table.find(id) {
        Some(thread) => push_thread_cell(page, told, x, thread),
        None => Ok(()),
    }
}

/// Appends the block of the group with an id, if it is there.
fn push_group_block(
    page: &mut Page,
    told: bool,
    x: u64,
    table: &Table,
    tgid: u32,
) -> Result<(), AllocError>
    requires { x < 2 ^ 32 }
    ensures { OnOk result
        (page.new ≡ page.old ++ printed (group_cell told x (group_of table.now.table tgid))) }
{
    match table.group(tgid) {
        Some(group) => push_group_cell(page, told, x, group),
        None => Ok(()),
    }
}

/// Appends the block of a thread or a group.
fn push_block(
    page: &mut Page,
    told: bool,
    x: u64,
    table: &Table,
    lane: Target,
) -> Result<(), AllocError>
    requires { x < 2 ^ 32 }
    ensures { OnOk result (page.new ≡ page.old ++ printed (block told x table.now.table lane)) }
{
    match lane {
        Target::Thread(id) => push_thread_block(page, told, x, table, id),
        Target::Group(tgid) => push_group_block(page, told, x, table, tgid),
    }
}

/// Appends how many more than one wait, if more do.
fn push_more(page: &mut Page, x: u64, waiting: usize) -> Result<(), AllocError>
    requires { x < 2 ^ 32 }
    ensures { OnOk result (page.new ≡ page.old ++ printed (more_cell x waiting)) }
{
    if waiting <= 1 {
        return Ok(());
    }
    let mut digits = Buffer::new();
    let pieces: [&[u8]; 2] = [b"+", digits.format(waiting - 1).as_bytes()];
    push_words(page, Style::Waiting, x + 90, 30, &pieces)
}

/// Appends the number and the name of a signal that waits.
fn push_first(page: &mut Page, x: u64, instance: Option<Instance>) -> Result<(), AllocError>
    requires { x < 2 ^ 32 }
    ensures { OnOk result (page.new ≡ page.old ++ printed (first_cell x instance)) }
{
    let Some(instance) = instance else {
        return Ok(());
    };
    let mut digits = Buffer::new();
    let pieces: [&[u8]; 3] = [
        digits.format(instance.n).as_bytes(),
        b" ",
        signal_name(instance.sig.number()).as_bytes(),
    ];
    push_words(page, Style::Waiting, x + 4, 30, &pieces)
}

/// Appends what waits in the lane of a thread or a group, and what it is doing.
fn push_cell(
    page: &mut Page,
    told: bool,
    x: u64,
    table: &Table,
    lane: Target,
) -> Result<(), AllocError>
    requires { x < 2 ^ 32 }
    ensures { OnOk result (page.new ≡ page.old ++ printed (cell told x table.now.table lane)) }
{
    push_first(page, x, table.best(lane, SigSet::empty()))?;
    push_more(page, x, table.queue_len(lane))?;
    push_block(page, told, x, table, lane)?;
    Ok(())
}

/// Appends the lanes of threads and groups, the first of them at `x`.
pub fn push_cells(
    page: &mut Page,
    told: bool,
    x: u64,
    table: &Table,
    lanes: &[Target],
) -> Result<(), AllocError>
    requires { x + 292 * length lanes.now < 2 ^ 32 }
    ensures { OnOk result (page.new ≡ page.old ++ printed (cells told x table.now.table lanes.now)) }
{
    let mut left = x;
    for lane in lanes {
        push_cell(page, told, left, table, *lane)?;
        left += 292;
    }
    Ok(())
}
