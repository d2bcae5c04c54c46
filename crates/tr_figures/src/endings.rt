ghost use Rattle.std.specs.Prelude.{◌≡◌, ◌∷◌, ◌+◌, ◌++◌, [], OnOk, decimal, codes};
ghost use Rattle.tr_scenario.specs.Replies.{fate_text};
ghost use Rattle.tr_figures.specs.declared.styles.Style.TheVariants.{Waiting};
ghost use Rattle.tr_figures.specs.Elements.{printed, words};
ghost use Rattle.tr_figures.specs.Endings.{ending_words, endings_cell, endings_words};

use crate::elements::push_words;
use crate::styles::Style;
use itoa::Buffer;
use std::alloc::AllocError;
use tr_model::{Ending, Fate};
use tr_scenario::Page;

fn fate_text(fate: Fate) -> &'static str
    ensures { result.now ≡ fate_text fate }
{
    match fate {
        Fate::Pending => "pending",
        Fate::Merged => "merged",
        Fate::Delivered => "delivered",
        Fate::Suppressed => "suppressed",
        Fate::Flushed => "flushed",
    }
}

/// Appends how one signal ended.
fn push_ending(page: &mut Page, y: u64, ending: &Ending) -> Result<(), AllocError>
    ensures { OnOk result (page.new
        ≡ page.old ++ printed (words Waiting 312 y (ending_words ending.now))) }
{
    let mut digits = Buffer::new();
    let pieces: [&[u8]; 3] = [
        digits.format(ending.number).as_bytes(),
        b" ",
        fate_text(ending.fate).as_bytes(),
    ];
    push_words(page, Style::Waiting, 312, y, &pieces)
}

/// Appends how two signals ended.
fn push_two(page: &mut Page, y: u64, first: &Ending, second: &Ending) -> Result<(), AllocError>
    ensures { OnOk result (page.new
        ≡ page.old ++ printed (words Waiting 312 y
        (endings_words (first.now ∷ second.now ∷ [])))) }
{
    let mut first_digits = Buffer::new();
    let mut second_digits = Buffer::new();
    let pieces: [&[u8]; 7] = [
        first_digits.format(first.number).as_bytes(),
        b" ",
        fate_text(first.fate).as_bytes(),
        b", ",
        second_digits.format(second.number).as_bytes(),
        b" ",
        fate_text(second.fate).as_bytes(),
    ];
    push_words(page, Style::Waiting, 312, y, &pieces)
}

/// Appends how two signals ended, and how many more did.
fn push_many(
    page: &mut Page,
    y: u64,
    first: &Ending,
    second: &Ending,
    more: usize,
) -> Result<(), AllocError>
    ensures { OnOk result (page.new
        ≡ page.old ++ printed (words Waiting 312 y
        (ending_words first.now ++ codes ", "
        ∷ (ending_words second.now ++ codes " +" ∷ decimal more ∷ [])))) }
{
    let mut first_digits = Buffer::new();
    let mut second_digits = Buffer::new();
    let mut more_digits = Buffer::new();
    let pieces: [&[u8]; 9] = [
        first_digits.format(first.number).as_bytes(),
        b" ",
        fate_text(first.fate).as_bytes(),
        b", ",
        second_digits.format(second.number).as_bytes(),
        b" ",
        fate_text(second.fate).as_bytes(),
        b" +",
        more_digits.format(more).as_bytes(),
    ];
    push_words(page, Style::Waiting, 312, y, &pieces)
}

/// Appends how the signals ended that a call ended, the first two of them, and how many more did.
pub fn push_endings(page: &mut Page, y: u64, ended: &[Ending]) -> Result<(), AllocError>
    ensures { OnOk result (page.new ≡ page.old ++ printed (endings_cell y ended.now)) }
{
    match ended {
        [] => Ok(()),
        [one] => push_ending(page, y, one),
        [first, second] => push_two(page, y, first, second),
        [first, second, more @ ..] => push_many(page, y, first, second, more.len()),
    }
}
