ghost use Rattle.std.specs.Prelude.{◌≡◌, ◌∷◌, ◌++◌, [], OnOk, decimal, map};
ghost use Rattle.tr_status.specs.Texts.{texts};
ghost use Rattle.tr_figures.specs.Elements.{AreBalanced, cross, escape_of, escaped, line, printed, rect, words, words_begin};

use crate::styles::Style;
use itoa::Buffer;
use std::alloc::AllocError;
use tr_scenario::Page;

/// Appends pieces, one after the other.
pub fn push_pieces(page: &mut Page, pieces: &[&[u8]]) -> Result<(), AllocError>
    ensures { OnOk result (page.new ≡ page.old ++ texts (map (λ p. p.now) pieces.now)) }
{
    for piece in pieces {
        page.push(piece)?;
    }
    Ok(())
}

/// Appends what stands for a character.
fn push_character(page: &mut Page, character: u8) -> Result<(), AllocError>
    ensures { OnOk result (page.new ≡ page.old ++ escape_of character) }
{
    match character {
        b'&' => page.push(b"&amp;"),
        b'<' => page.push(b"&lt;"),
        b'>' => page.push(b"&gt;"),
        b'"' => page.push(b"&quot;"),
        other => page.push(&[other]),
    }
}

/// Appends a text, with what stands for its characters.
pub fn push_escaped(page: &mut Page, text: &[u8]) -> Result<(), AllocError>
    ensures { OnOk result (page.new ≡ page.old ++ escaped text.now) }
{
    for character in text {
        push_character(page, *character)?;
    }
    Ok(())
}

/// Appends pieces of a text, with what stands for their characters.
pub fn push_escaped_pieces(page: &mut Page, pieces: &[&[u8]]) -> Result<(), AllocError>
    ensures { OnOk result
        (page.new ≡ page.old ++ texts (map escaped (map (λ p. p.now) pieces.now))) }
{
    for piece in pieces {
        push_escaped(page, piece)?;
    }
    Ok(())
}

/// Appends a rectangle.
pub fn push_rect(
    page: &mut Page,
    style: Style,
    x: u64,
    y: u64,
    width: u64,
    height: u64,
) -> Result<(), AllocError>
    ensures { OnOk result (page.new ≡ page.old ++ printed (rect style x y width height)) }
{
    let mut left_digits = Buffer::new();
    let mut y_digits = Buffer::new();
    let mut width_digits = Buffer::new();
    let mut height_digits = Buffer::new();
    let left = left_digits.format(x).as_bytes();
    let pieces: [&[u8]; 13] = [
        b"<path class=\"",
        style.name().as_bytes(),
        b"\" d=\"M",
        left,
        b" ",
        y_digits.format(y).as_bytes(),
        b"h",
        width_digits.format(width).as_bytes(),
        b"v",
        height_digits.format(height).as_bytes(),
        b"H",
        left,
        b"z\"></path>\n",
    ];
    push_pieces(page, &pieces)
}

/// Appends a line from one point to another.
pub fn push_line(
    page: &mut Page,
    style: Style,
    x: u64,
    y: u64,
    x_end: u64,
    y_end: u64,
) -> Result<(), AllocError>
    ensures { OnOk result (page.new ≡ page.old ++ printed (line style x y x_end y_end)) }
{
    let mut x_digits = Buffer::new();
    let mut y_digits = Buffer::new();
    let mut x_end_digits = Buffer::new();
    let mut y_end_digits = Buffer::new();
    let pieces: [&[u8]; 11] = [
        b"<line class=\"",
        style.name().as_bytes(),
        b"\" x1=\"",
        x_digits.format(x).as_bytes(),
        b"\" y1=\"",
        y_digits.format(y).as_bytes(),
        b"\" x2=\"",
        x_end_digits.format(x_end).as_bytes(),
        b"\" y2=\"",
        y_end_digits.format(y_end).as_bytes(),
        b"\"></line>\n",
    ];
    push_pieces(page, &pieces)
}

/// Appends what comes before words at a place.
pub fn push_words_begin(page: &mut Page, style: Style, x: u64, y: u64) -> Result<(), AllocError>
    ensures { OnOk result (page.new ≡ page.old ++ texts (words_begin style x y)) }
{
    let mut x_digits = Buffer::new();
    let mut y_digits = Buffer::new();
    let pieces: [&[u8]; 7] = [
        b"<text class=\"",
        style.name().as_bytes(),
        b"\" x=\"",
        x_digits.format(x).as_bytes(),
        b"\" y=\"",
        y_digits.format(y).as_bytes(),
        b"\">",
    ];
    push_pieces(page, &pieces)
}

/// Appends words, which come in pieces, at a place.
pub fn push_words(
    page: &mut Page,
    style: Style,
    x: u64,
    y: u64,
    pieces: &[&[u8]],
) -> Result<(), AllocError>
    ensures { OnOk result (page.new
        ≡ page.old ++ printed (words style x y (map (λ p. p.now) pieces.now))) }
{
    push_words_begin(page, style, x, y)?;
    push_escaped_pieces(page, pieces)?;
    page.push(b"</text>\n")?;
    Ok(())
}

/// Appends a number at a place.
pub fn push_number(
    page: &mut Page,
    style: Style,
    x: u64,
    y: u64,
    number: u32,
) -> Result<(), AllocError>
    ensures { OnOk result (page.new
        ≡ page.old ++ printed (words style x y (decimal number ∷ []))) }
{
    let mut digits = Buffer::new();
    let pieces: [&[u8]; 1] = [digits.format(number).as_bytes()];
    push_words(page, style, x, y, &pieces)
}

/// Appends a cross.
pub(crate) fn push_cross(page: &mut Page, style: Style, x: u64) -> Result<(), AllocError>
    ensures { OnOk result (page.new ≡ page.old ++ printed (cross style x)) }
{
    push_words(page, style, x, 14, &[b"x"])
}

/// Each tag of a picture is closed where it was opened.
pub fn tags_are_balanced()
    ensures { AreBalanced }
{}
