ghost use Rattle.std.specs.Prelude.{◌≡◌, ◌<◌, ◌≤◌, ◌+◌, ◌*◌, ◌++◌, ◌^◌, ◌∷◌, [], OnOk, codes, length, map};
ghost use Rattle.tr_scenario.specs.Lines.{totals_line};
ghost use Rattle.tr_status.specs.Texts.{texts};
ghost use Rattle.tr_figures.specs.declared.styles.Style.TheVariants.{Dim, Ink, Refused};
ghost use Rattle.tr_picture.specs.Draws.{ArePictures};
ghost use Rattle.tr_figures.specs.Elements.{Open, escaped, printed, token_pieces, words};
ghost use Rattle.tr_picture.specs.Layouts.{IsSmall};
ghost use Rattle.tr_picture.specs.Pictures.{captions, description, foot, has_hidden, head, height, hidden_note, hidden_words, life_line, life_lines, limits, lost_note, picture_description, picture_of, picture_title, rows_end, sheet, summary, svg_attributes, width};

use crate::canvas::Canvas;
use crate::layouts::Layout;
use crate::legends::push_legend;
use itoa::Buffer;
use std::alloc::AllocError;
use tr_figures::{
    Style, push_escaped, push_escaped_pieces, push_line, push_number, push_pieces, push_rect,
    push_words, push_words_begin, style_sheet,
};
use tr_model::Totals;
use tr_scenario::{LineBuffer, Page, compose_totals};

/// What is known of a run at its end.
#[derive(Clone, Copy, Debug)]
pub struct Facts {
    pub entries: u64,
    /// The queue limit.
    pub limit: u32,
    pub entry_limit: u32,
    pub totals: Totals,
}

fn width(layout: &Layout) -> u64
    requires { IsSmall layout.now }
    ensures { result ≡ width layout.now }
{
    let right = layout.lanes_right() + 84;
    if right < 1000 { 1000 } else { right }
}

/// Gives where so many rows end.
fn rows_end(rows: u64) -> u64
    requires { rows ≤ 200 }
    ensures end { result ≡ rows_end rows }
    ensures small { result < 2 ^ 14 }
{
    136 + 44 * rows
}

/// Appends the start of a picture.
fn push_opening(page: &mut Page, width: u64, height: u64) -> Result<(), AllocError>
    ensures { OnOk result (page.new
        ≡ page.old ++ texts (token_pieces (Open (codes "svg") (svg_attributes width height)))) }
{
    let mut width_digits = Buffer::new();
    let mut height_digits = Buffer::new();
    let mut box_width_digits = Buffer::new();
    let mut box_height_digits = Buffer::new();
    let pieces: [&[u8]; 9] = [
        b"<svg xmlns=\"http://www.w3.org/2000/svg\" width=\"",
        width_digits.format(width).as_bytes(),
        b"\" height=\"",
        height_digits.format(height).as_bytes(),
        b"\" viewBox=\"0 0 ",
        box_width_digits.format(width).as_bytes(),
        b" ",
        box_height_digits.format(height).as_bytes(),
        b"\" role=\"img\" aria-labelledby=\"t d\">",
    ];
    push_pieces(page, &pieces)
}

/// Appends how much was done.
fn push_summary(page: &mut Page, calls: u64, entries: u64) -> Result<(), AllocError>
    ensures { OnOk result (page.new
        ≡ page.old ++ texts (map escaped (summary calls entries))) }
{
    let mut call_digits = Buffer::new();
    let mut entry_digits = Buffer::new();
    let pieces: [&[u8]; 5] = [
        b"tracebox: ",
        call_digits.format(calls).as_bytes(),
        b" calls, ",
        entry_digits.format(entries).as_bytes(),
        b" entries",
    ];
    push_escaped_pieces(page, &pieces)
}

/// Appends the title of a picture.
fn push_picture_title(page: &mut Page, calls: u64, entries: u64) -> Result<(), AllocError>
    ensures { OnOk result (page.new ≡ page.old ++ printed (picture_title calls entries)) }
{
    page.push(b"<title id=\"t\">")?;
    push_summary(page, calls, entries)?;
    page.push(b"</title>\n")?;
    Ok(())
}

/// Appends how to read a picture, and the totals.
fn push_description_text(page: &mut Page, totals: &Totals) -> Result<(), AllocError>
    ensures { OnOk result (page.new
        ≡ page.old ++ texts (map escaped (description totals.now))) }
{
    let mut line = LineBuffer::new();
    compose_totals(&mut line, totals);
    let pieces: [&[u8]; 2] = [
        b"Time runs down: a row for each call, with its place in the journal, the call, its answer, \
the reports that it raised and how signals ended by it. Right of them are the lanes of \
actors, of groups and of their threads: what waits, what each does after the call, who \
traces it, the report that no wait has taken, and one that was withdrawn; arrows between \
threads are of clones and of ids that execve(2) takes. ",
        line.as_bytes(),
    ];
    push_escaped_pieces(page, &pieces)
}

/// Appends the description of a picture.
fn push_description(page: &mut Page, totals: &Totals) -> Result<(), AllocError>
    ensures { OnOk result (page.new ≡ page.old ++ printed (picture_description totals.now)) }
{
    page.push(b"<desc id=\"d\">")?;
    push_description_text(page, totals)?;
    page.push(b"</desc>\n")?;
    Ok(())
}

/// Appends the style sheet.
fn push_sheet(page: &mut Page) -> Result<(), AllocError>
    ensures { OnOk result (page.new ≡ page.old ++ printed sheet) }
{
    page.push(b"<style>")?;
    push_escaped(page, style_sheet().as_bytes())?;
    page.push(b"</style>\n")?;
    Ok(())
}

/// Appends how much was done, over the rows.
fn push_summary_words(page: &mut Page, calls: u64, entries: u64) -> Result<(), AllocError>
    ensures { OnOk result (page.new
        ≡ page.old ++ printed (words Ink 16 28 (summary calls entries))) }
{
    push_words_begin(page, Style::Ink, 16, 28)?;
    push_summary(page, calls, entries)?;
    page.push(b"</text>\n")?;
    Ok(())
}

/// Appends the limits of a run.
fn push_limits(page: &mut Page, limit: u32, entry_limit: u32) -> Result<(), AllocError>
    ensures { OnOk result (page.new
        ≡ page.old ++ printed (words Dim 16 50 (limits limit entry_limit))) }
{
    let mut limit_digits = Buffer::new();
    let mut entry_digits = Buffer::new();
    let pieces: [&[u8]; 4] = [
        b"queue limit ",
        limit_digits.format(limit).as_bytes(),
        b", entry limit ",
        entry_digits.format(entry_limit).as_bytes(),
    ];
    push_words(page, Style::Dim, 16, 50, &pieces)
}

/// Appends what stands over the columns of words.
fn push_captions(page: &mut Page) -> Result<(), AllocError>
    ensures { OnOk result (page.new ≡ page.old ++ printed captions) }
{
    push_words(page, Style::Dim, 16, 94, &[b"at"])?;
    push_words(page, Style::Dim, 64, 94, &[b"call"])?;
    push_words(page, Style::Dim, 312, 94, &[b"answer"])?;
    Ok(())
}

/// Appends an actor's line down to the end of the rows, and the actor below it.
fn push_life_line(page: &mut Page, x: u64, y: u64, actor: u32) -> Result<(), AllocError>
    requires { (x < 2 ^ 32) × (y < 2 ^ 32) }
    ensures { OnOk result (page.new ≡ page.old ++ printed (life_line x y actor)) }
{
    push_line(page, Style::Dim, x + 46, 102, x + 46, y)?;
    push_number(page, Style::Dim, x + 4, y + 24, actor)?;
    Ok(())
}

/// Appends the lines of actors.
fn push_life_lines(page: &mut Page, y: u64, actors: &[u32]) -> Result<(), AllocError>
    requires y { y < 2 ^ 32 }
    requires few { length actors.now ≤ 8 }
    ensures { OnOk result (page.new ≡ page.old ++ printed (life_lines 640 y actors.now)) }
{
    let mut x = 640;
    for actor in actors {
        push_life_line(page, x, y, *actor)?;
        x += 118;
    }
    Ok(())
}

/// Appends what stands over the rows.
fn push_head(page: &mut Page, canvas: &Canvas, facts: &Facts) -> Result<(), AllocError>
    ensures { OnOk result (page.new ≡ page.old ++ printed (head canvas.now facts.now)) }
{
    let end = rows_end(canvas.rows);
    let width = width(&canvas.layout);
    push_picture_title(page, canvas.calls, facts.entries)?;
    push_description(page, &facts.totals)?;
    push_sheet(page)?;
    push_rect(page, Style::Ground, 0, 0, width, end + 400)?;
    push_summary_words(page, canvas.calls, facts.entries)?;
    push_limits(page, facts.limit, facts.entry_limit)?;
    push_captions(page)?;
    push_life_lines(page, end, canvas.layout.actors.as_slice())?;
    Ok(())
}

/// Appends how many calls have no row, or that none is left out.
fn push_lost(page: &mut Page, y: u64, lost: u64) -> Result<(), AllocError>
    ensures { OnOk result (page.new ≡ page.old ++ printed (lost_note y lost)) }
{
    if lost == 0 {
        return push_words(page, Style::Dim, 16, y, &[b"end"]);
    }
    let mut digits = Buffer::new();
    let pieces: [&[u8]; 3] = [
        b"cut: ",
        digits.format(lost).as_bytes(),
        b" calls have no row",
    ];
    push_words(page, Style::Refused, 16, y, &pieces)
}

fn has_hidden(layout: &Layout) -> bool
    ensures { result ≡ has_hidden layout.now }
{
    layout.hidden_threads > 0 || layout.hidden_groups > 0 || layout.hidden_actors > 0
}

/// Appends how many threads, groups and actors have no lane.
fn push_hidden_words(page: &mut Page, y: u64, layout: &Layout) -> Result<(), AllocError>
    ensures { OnOk result (page.new
        ≡ page.old ++ printed (words Refused 16 y (hidden_words layout.now))) }
{
    let mut thread_digits = Buffer::new();
    let mut group_digits = Buffer::new();
    let mut actor_digits = Buffer::new();
    let pieces: [&[u8]; 7] = [
        b"without a lane: ",
        thread_digits.format(layout.hidden_threads).as_bytes(),
        b" threads, ",
        group_digits.format(layout.hidden_groups).as_bytes(),
        b" groups, ",
        actor_digits.format(layout.hidden_actors).as_bytes(),
        b" actors",
    ];
    push_words(page, Style::Refused, 16, y, &pieces)
}

/// Appends how many threads, groups and actors have no lane, if some have none.
fn push_hidden(page: &mut Page, y: u64, layout: &Layout) -> Result<(), AllocError>
    ensures { OnOk result (page.new ≡ page.old ++ printed (hidden_note y layout.now)) }
{
    if has_hidden(layout) {
        push_hidden_words(page, y, layout)
    } else {
        Ok(())
    }
}

/// Appends the totals.
fn push_totals_line(page: &mut Page, y: u64, totals: &Totals) -> Result<(), AllocError>
    ensures { OnOk result (page.new
        ≡ page.old ++ printed (words Ink 16 y (totals_line totals.now ∷ []))) }
{
    let mut line = LineBuffer::new();
    compose_totals(&mut line, totals);
    let pieces: [&[u8]; 1] = [line.as_bytes()];
    push_words(page, Style::Ink, 16, y, &pieces)
}

/// Appends what stands below the rows.
fn push_foot(page: &mut Page, canvas: &Canvas, totals: &Totals) -> Result<(), AllocError>
    ensures { OnOk result (page.new ≡ page.old ++ printed (foot canvas.now totals.now)) }
{
    let end = rows_end(canvas.rows);
    push_lost(page, end + 24, canvas.lost)?;
    push_hidden(page, end + 44, &canvas.layout)?;
    push_totals_line(page, end + 64, totals)?;
    push_legend(page, end + 90)?;
    Ok(())
}

/// Appends a whole picture.
pub(crate) fn push_picture(
    page: &mut Page,
    canvas: &Canvas,
    facts: &Facts,
) -> Result<(), AllocError>
    ensures { OnOk result (page.new ≡ page.old ++ picture_of canvas.now facts.now) }
{
    push_opening(page, width(&canvas.layout), rows_end(canvas.rows) + 400)?;
    push_head(page, canvas, facts)?;
    page.push(canvas.page.as_bytes())?;
    push_foot(page, canvas, &facts.totals)?;
    page.push(b"</svg>\n")?;
    Ok(())
}

/// The text of each picture is that of elements.
pub fn pictures_are_of_elements()
    ensures { ArePictures }
{}
