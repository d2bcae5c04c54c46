ghost use Rattle.std.specs.Prelude.{◌≡◌, ◌∷◌, ◌++◌, ◌≤◌, ◌<◌, ◌+◌, ◌*◌, [], OnOk, codes, length};
ghost use Rattle.tr_status.specs.Texts.{texts};
ghost use Rattle.tr_workers.specs.Follows.{heard};
ghost use Rattle.tr_scenario.specs.RunTexts.{call_of};
ghost use Rattle.tr_figures.specs.declared.styles.Style.TheVariants.{Dim, Ink, Report};
ghost use Rattle.tr_figures.specs.Elements.{Open, printed, token_pieces, words};
ghost use Rattle.tr_picture.specs.Layouts.{IsSmall};
ghost use Rattle.tr_scenario.specs.Replies.{reply_text};
ghost use Rattle.tr_picture.specs.Rows.{answer_words, below_raised, is_entry, last_report, moved_down, position_words, raised_cell, raised_words, row_inside, row_words, title};

use crate::layouts::Layout;
use itoa::Buffer;
use std::alloc::AllocError;
use tr_figures::{
    LaneReport, Style, aim_of, joined, push_call, push_cells, push_detail, push_endings,
    push_escaped, push_joins, push_marks, push_pieces, push_withdrawals, push_words, taken_by,
};
use tr_kernel::{Answer, StepLog};
use tr_model::{Event, Raise, Reply};
use tr_scenario::{LineBuffer, Page, prepend_reply, refusal_text};
use tr_table::Table;

/// Appends the place of a call's entry in a journal of so many entries.
fn push_position(page: &mut Page, entries: u64, answer: &Answer) -> Result<(), AllocError>
    ensures { OnOk result (page.new
        ≡ page.old ++ printed (words Dim 16 14 (position_words entries (heard answer.now) ∷ []))) }
{
    let mut digits = Buffer::new();
    match answer {
        Answer::Entered(_) => {
            let pieces: [&[u8]; 1] = [digits.format(entries).as_bytes()];
            push_words(page, Style::Dim, 16, 14, &pieces)
        }
        Answer::Read(_) => push_words(page, Style::Dim, 16, 14, &[b"."]),
        Answer::Refused(_) => push_words(page, Style::Dim, 16, 14, &[b"!"]),
    }
}

/// Appends the text of a reply.
fn push_reply(page: &mut Page, reply: &Reply) -> Result<(), AllocError>
    ensures { OnOk result
        (page.new ≡ page.old ++ printed (words Ink 312 14 (reply_text reply.now ∷ []))) }
{
    let mut line = LineBuffer::new();
    prepend_reply(&mut line, reply);
    let pieces: [&[u8]; 1] = [line.as_bytes()];
    push_words(page, Style::Ink, 312, 14, &pieces)
}

/// Appends an answer.
fn push_answer(page: &mut Page, answer: &Answer) -> Result<(), AllocError>
    ensures { OnOk result (page.new
        ≡ page.old ++ printed (words Ink 312 14 (answer_words (heard answer.now) ∷ []))) }
{
    match answer {
        Answer::Entered(receipt) => push_reply(page, &receipt.reply),
        Answer::Read(reply) => push_reply(page, reply),
        Answer::Refused(why) => {
            let pieces: [&[u8]; 1] = [refusal_text(*why).as_bytes()];
            push_words(page, Style::Ink, 312, 14, &pieces)
        }
    }
}

/// Appends the first and the last report that were raised.
fn push_raised_words(page: &mut Page, first: u64, last: u64) -> Result<(), AllocError>
    ensures { OnOk result (page.new
        ≡ page.old ++ printed (words Report 312 30 (raised_words first last))) }
{
    let mut first_digits = Buffer::new();
    let first_text = first_digits.format(first).as_bytes();
    if first >= last {
        return push_words(page, Style::Report, 312, 30, &[b"raises r", first_text]);
    }
    let mut last_digits = Buffer::new();
    let pieces: [&[u8]; 4] = [
        b"raises r",
        first_text,
        b" to r",
        last_digits.format(last).as_bytes(),
    ];
    push_words(page, Style::Report, 312, 30, &pieces)
}

/// Gives the last of the reports, of which this is the first.
fn last_report(first: u64, raises: &[Raise]) -> u64
    ensures { result ≡ last_report first raises.now }
{
    let mut last = first;
    for raise in raises {
        last = raise.number;
    }
    last
}

/// Appends the first and the last of the reports that were raised, if some were.
fn push_raised(page: &mut Page, raises: &[Raise]) -> Result<(), AllocError>
    ensures { OnOk result (page.new ≡ page.old ++ printed (raised_cell raises.now)) }
{
    match raises {
        [] => Ok(()),
        [first, more @ ..] => {
            push_raised_words(page, first.number, last_report(first.number, more))
        }
    }
}

/// Gives where the next words below an answer are.
fn below_raised(raises: &[Raise]) -> u64
    ensures { result ≡ below_raised raises.now }
{
    match raises {
        [] => 30,
        _ => 42,
    }
}

/// Appends the words of a call, after which there are so many entries, and which did this beside its answer.
fn push_row_words(
    page: &mut Page,
    entries: u64,
    done: &StepLog,
    actor: u32,
    event: &Event,
    answer: &Answer,
) -> Result<(), AllocError>
    ensures { OnOk result (page.new
        ≡ page.old ++ printed (row_words entries done.now (call_of actor event.now)
        (heard answer.now))) }
{
    push_position(page, entries, answer)?;
    push_call(page, actor, event)?;
    push_detail(page, event)?;
    push_answer(page, answer)?;
    let raises = done.raises();
    push_raised(page, raises)?;
    push_endings(page, below_raised(raises), done.ended())?;
    Ok(())
}

/// Appends a title.
fn push_title(page: &mut Page, line: &[u8]) -> Result<(), AllocError>
    ensures { OnOk result (page.new ≡ page.old ++ printed (title line.now)) }
{
    page.push(b"<title>")?;
    push_escaped(page, line)?;
    page.push(b"</title>\n")?;
    Ok(())
}

/// Appends the start of a group of elements that is moved down.
pub(crate) fn push_group_start(page: &mut Page, y: u64) -> Result<(), AllocError>
    ensures { OnOk result
        (page.new ≡ page.old ++ texts (token_pieces (Open (codes "g") (moved_down y)))) }
{
    let mut digits = Buffer::new();
    let pieces: [&[u8]; 3] = [
        b"<g transform=\"translate(0 ",
        digits.format(y).as_bytes(),
        b")\">",
    ];
    push_pieces(page, &pieces)
}

fn is_entry(answer: &Answer) -> bool
    ensures { result ≡ is_entry (heard answer.now) }
{
    matches!(answer, Answer::Entered(_))
}

/// Appends what is in the row of a call that led to this table, in which this line tells of it, and before which lanes showed
/// these reports.
pub(crate) fn push_row_inside(
    page: &mut Page,
    layout: &Layout,
    line: &[u8],
    entries: u64,
    done: &StepLog,
    before: &[LaneReport],
    table: &Table,
    actor: u32,
    event: &Event,
    answer: &Answer,
) -> Result<(), AllocError>
    requires small { IsSmall layout.now }
    requires few { length before.now ≤ 64 }
    ensures { OnOk result (page.new
        ≡ page.old ++ printed (row_inside layout.now line.now entries done.now before.now
        table.now.table (call_of actor event.now) (heard answer.now))) }
{
    let left = layout.lanes_left();
    push_title(page, line)?;
    push_cells(page, is_entry(answer), left, table, layout.lanes.as_slice())?;
    push_withdrawals(page, left, table, taken_by(answer), before)?;
    push_row_words(page, entries, done, actor, event, answer)?;
    let actor_lane = layout.actor_place(actor);
    let lane = layout.aimed_place(aim_of(event, answer));
    push_marks(page, event, answer, actor_lane, lane)?;
    let renamed = done.renamed();
    let other = layout.aimed_place(joined(answer, renamed));
    push_joins(page, lane, other, renamed)?;
    Ok(())
}
