ghost use Rattle.std.specs.Prelude.{◌≡◌, ◌<◌, ◌+◌, ◌++◌, ◌^◌, OnOk, map};
ghost use Rattle.tr_figures.specs.Elements.{printed};
ghost use Rattle.tr_picture.specs.Legends.{arrow_item, arrow_items, arrow_meanings, block_item, block_items, block_meanings, legend, word_item, word_items, word_meanings};

use std::alloc::AllocError;
use tr_figures::{Style, push_line, push_rect, push_words};
use tr_scenario::Page;

/// What a class means, in words.
struct Meaning {
    style: Style,
    words: &'static [u8],
}

/// Gives what the blocks of threads and of groups mean.
fn block_meanings() -> &'static [Meaning]
    ensures { map (λ m. (m.style, m.words.now)) result.now ≡ block_meanings }
{
    &[
        Meaning {
            style: Style::Running,
            words: b"runs",
        },
        Meaning {
            style: Style::Pausing,
            words: b"waits in pause(2)",
        },
        Meaning {
            style: Style::Stopped,
            words: b"stopped",
        },
        Meaning {
            style: Style::SignalStop,
            words: b"signal-delivery-stop",
        },
        Meaning {
            style: Style::GroupStop,
            words: b"group-stop, traced",
        },
        Meaning {
            style: Style::EventStop,
            words: b"event stop",
        },
        Meaning {
            style: Style::ExitStop,
            words: b"exit stop",
        },
        Meaning {
            style: Style::Listening,
            words: b"listening",
        },
        Meaning {
            style: Style::Execing,
            words: b"in execve(2)",
        },
        Meaning {
            style: Style::Leaving,
            words: b"leaving, dying",
        },
        Meaning {
            style: Style::Dead,
            words: b"dead",
        },
        Meaning {
            style: Style::Stopping,
            words: b"group is stopping",
        },
        Meaning {
            style: Style::NoStop,
            words: b"group, no stop",
        },
    ]
}

/// Gives what the arrows of calls mean.
fn arrow_meanings() -> &'static [Meaning]
    ensures { map (λ m. (m.style, m.words.now)) result.now ≡ arrow_meanings }
{
    &[
        Meaning {
            style: Style::Request,
            words: b"request",
        },
        Meaning {
            style: Style::Send,
            words: b"signal sent",
        },
        Meaning {
            style: Style::Takes,
            words: b"wait takes a report",
        },
        Meaning {
            style: Style::Joins,
            words: b"clone, id taken by execve(2)",
        },
        Meaning {
            style: Style::Refused,
            words: b"refused",
        },
    ]
}

/// Gives what words in lanes and before calls mean.
fn word_meanings() -> &'static [Meaning]
    ensures { map (λ m. (m.style, m.words.now)) result.now ≡ word_meanings }
{
    &[
        Meaning {
            style: Style::Waiting,
            words: b"7 INT +2: waits first, of 3",
        },
        Meaning {
            style: Style::Waiting,
            words: b"7 flushed +2: so ended, and 2 more did",
        },
        Meaning {
            style: Style::Report,
            words: b"r3: report 3, not taken",
        },
        Meaning {
            style: Style::Report,
            words: b"r3 withdrawn: no wait took it",
        },
        Meaning {
            style: Style::Joins,
            words: b"now 10: has taken the id 10",
        },
        Meaning {
            style: Style::Ink,
            words: b"S T N: marks: stop, trap, note",
        },
        Meaning {
            style: Style::Dim,
            words: b".: no entry; !: refused; x3: 3 calls",
        },
    ]
}

/// Appends the meaning of a block, with a small one.
fn push_block_item(page: &mut Page, x: u64, y: u64, meaning: &Meaning) -> Result<(), AllocError>
    requires { (x < 2 ^ 16) × (y < 2 ^ 16) }
    ensures { OnOk result (page.new
        ≡ page.old ++ printed (block_item x y (meaning.now.style, meaning.now.words.now))) }
{
    push_rect(page, meaning.style, x, y, 18, 12)?;
    push_words(page, Style::Ink, x + 24, y + 11, &[meaning.words])?;
    Ok(())
}

/// Appends the meaning of an arrow, with a short one.
fn push_arrow_item(page: &mut Page, x: u64, y: u64, meaning: &Meaning) -> Result<(), AllocError>
    requires { (x < 2 ^ 16) × (y < 2 ^ 16) }
    ensures { OnOk result (page.new
        ≡ page.old ++ printed (arrow_item x y (meaning.now.style, meaning.now.words.now))) }
{
    push_line(page, meaning.style, x, y + 6, x + 18, y + 6)?;
    push_words(page, Style::Ink, x + 24, y + 11, &[meaning.words])?;
    Ok(())
}

/// Appends the meaning of a word, in words of its class.
fn push_word_item(page: &mut Page, x: u64, y: u64, meaning: &Meaning) -> Result<(), AllocError>
    requires { (x < 2 ^ 16) × (y < 2 ^ 16) }
    ensures { OnOk result (page.new
        ≡ page.old ++ printed (word_item x y (meaning.now.style, meaning.now.words.now))) }
{
    push_words(page, meaning.style, x, y + 11, &[meaning.words])
}

/// Appends the meanings of blocks, below each other.
fn push_block_items(page: &mut Page, x: u64, top: u64) -> Result<(), AllocError>
    requires { (x < 2 ^ 16) × (top < 2 ^ 15) }
    ensures { OnOk result (page.new ≡ page.old ++ printed (block_items x top block_meanings)) }
{
    let mut y = top;
    let meanings = block_meanings();
    for meaning in meanings {
        push_block_item(page, x, y, meaning)?;
        y += 22;
    }
    Ok(())
}

/// Appends the meanings of arrows, below each other.
fn push_arrow_items(page: &mut Page, x: u64, top: u64) -> Result<(), AllocError>
    requires { (x < 2 ^ 16) × (top < 2 ^ 15) }
    ensures { OnOk result (page.new ≡ page.old ++ printed (arrow_items x top arrow_meanings)) }
{
    let mut y = top;
    let meanings = arrow_meanings();
    for meaning in meanings {
        push_arrow_item(page, x, y, meaning)?;
        y += 22;
    }
    Ok(())
}

/// Appends the meanings of words, below each other.
fn push_word_items(page: &mut Page, x: u64, top: u64) -> Result<(), AllocError>
    requires { (x < 2 ^ 16) × (top < 2 ^ 15) }
    ensures { OnOk result (page.new ≡ page.old ++ printed (word_items x top word_meanings)) }
{
    let mut y = top;
    let meanings = word_meanings();
    for meaning in meanings {
        push_word_item(page, x, y, meaning)?;
        y += 22;
    }
    Ok(())
}

/// Appends the legend, in three columns.
pub(crate) fn push_legend(page: &mut Page, y: u64) -> Result<(), AllocError>
    requires { y < 2 ^ 15 }
    ensures { OnOk result (page.new ≡ page.old ++ printed (legend y)) }
{
    push_block_items(page, 16, y)?;
    push_arrow_items(page, 260, y)?;
    push_word_items(page, 500, y)?;
    Ok(())
}
