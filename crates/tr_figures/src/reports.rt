ghost use Rattle.std.specs.Prelude.{◌≡◌, ◌<◌, ◌+◌, ◌*◌, ◌++◌, ◌^◌, OnOk, length, map};
ghost use Rattle.tr_workers.specs.Follows.{heard};
ghost use Rattle.tr_figures.specs.Elements.{printed};
ghost use Rattle.tr_figures.specs.Reports.{is_report, lane_report, number_of, report_in, taken_by, withdrawals, withdrawn};

use crate::elements::push_words;
use crate::styles::Style;
use itoa::Buffer;
use std::alloc::AllocError;
use tr_kernel::Answer;
use tr_model::{Reply, Target};
use tr_scenario::Page;
use tr_table::Table;
use tr_tracee::Report;

/// The report that a lane shows.
#[derive(Clone, Copy, Debug)]
pub struct LaneReport {
    pub lane: Target,
    pub report: Option<u64>,
}

fn number_of(report: &Option<Report>) -> Option<u64>
    ensures { result ≡ number_of report.now }
{
    match report {
        Some(report) => Some(report.number),
        None => None,
    }
}

/// Gives the number of the report that the lane of a thread or a group shows.
fn report_in(table: &Table, lane: Target) -> Option<u64>
    ensures { result ≡ report_in table.now.table lane }
{
    match lane {
        Target::Thread(id) => match table.find(id) {
            Some(thread) => number_of(&thread.report),
            None => None,
        },
        Target::Group(tgid) => match table.group(tgid) {
            Some(group) => number_of(&group.note),
            None => None,
        },
    }
}

/// Appends the reports that these lanes show.
pub fn list_reports(
    reports: &mut Vec<LaneReport>,
    table: &Table,
    lanes: &[Target],
) -> Result<(), AllocError>
    ensures { OnOk result (reports.new.items
        ≡ reports.old.items ++ map (lane_report table.now.table) lanes.now) }
{
    for lane in lanes {
        reports.push(LaneReport {
            lane: *lane,
            report: report_in(table, *lane),
        })?;
    }
    Ok(())
}

/// Gives the report that a wait took.
pub fn taken_by(answer: &Answer) -> Option<u64>
    ensures { result ≡ taken_by (heard answer.now) }
{
    let Answer::Entered(receipt) = answer else {
        return None;
    };
    match receipt.reply {
        Reply::Waited { report, .. } => Some(report),
        _ => None,
    }
}

fn is_report(number: u64, report: Option<u64>) -> bool
    ensures { result ≡ is_report number report }
{
    match report {
        Some(other) => number == other,
        None => false,
    }
}

/// Appends that a report was withdrawn which a lane showed before, unless it shows it still or a wait took it.
fn push_withdrawn(
    page: &mut Page,
    x: u64,
    before: Option<u64>,
    after: Option<u64>,
    taken: Option<u64>,
) -> Result<(), AllocError>
    requires { x < 2 ^ 32 }
    ensures { OnOk result (page.new ≡ page.old ++ printed (withdrawn x before after taken)) }
{
    let Some(number) = before else {
        return Ok(());
    };
    if is_report(number, after) || is_report(number, taken) {
        return Ok(());
    }
    let mut digits = Buffer::new();
    let pieces: [&[u8]; 3] = [b"r", digits.format(number).as_bytes(), b" withdrawn"];
    push_words(page, Style::Report, x + 252, 42, &pieces)
}

/// Appends which reports were withdrawn of those that lanes showed before, the first of them at `x`.
pub fn push_withdrawals(
    page: &mut Page,
    x: u64,
    table: &Table,
    taken: Option<u64>,
    before: &[LaneReport],
) -> Result<(), AllocError>
    requires { x + 292 * length before.now < 2 ^ 32 }
    ensures { OnOk result
        (page.new ≡ page.old ++ printed (withdrawals x table.now.table taken before.now)) }
{
    let mut left = x;
    for shown in before {
        let after = report_in(table, shown.lane);
        push_withdrawn(page, left, shown.report, after, taken)?;
        left += 292;
    }
    Ok(())
}
