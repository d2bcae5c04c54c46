ghost use Rattle.std.specs.Prelude.{◌≡◌, ◌<◌, ◌++◌, ◌^◌, IfSome, OnOk};
ghost use Rattle.tr_workers.specs.Follows.{heard};
ghost use Rattle.tr_figures.specs.Elements.{printed};
ghost use Rattle.tr_figures.specs.Joins.{join, join_at, joined, joins, leftward, renamed_at, rightward, taken_id};

use crate::elements::{push_line, push_rect, push_words};
use crate::styles::Style;
use itoa::Buffer;
use std::alloc::AllocError;
use tr_kernel::Answer;
use tr_model::{Reply, Target};
use tr_scenario::Page;

/// Gives the thread whose id a thread took.
fn taken_id(renamed: &[u32]) -> Option<Target>
    ensures { result ≡ taken_id renamed.now }
{
    match renamed {
        [] => None,
        [id, ..] => Some(Target::Thread(*id)),
    }
}

/// Gives the thread that a thread made, or whose id it took.
pub fn joined(answer: &Answer, renamed: &[u32]) -> Option<Target>
    ensures { result ≡ joined (heard answer.now) renamed.now }
{
    let Answer::Entered(receipt) = answer else {
        return taken_id(renamed);
    };
    match receipt.reply {
        Reply::Cloned { tid } => Some(Target::Thread(tid)),
        _ => taken_id(renamed),
    }
}

/// Appends an arrow from the block of one lane to that of another on its right, where it ends in a dot.
fn push_rightward(page: &mut Page, x: u64, y: u64) -> Result<(), AllocError>
    requires { (x < 2 ^ 32) × (y < 2 ^ 32) }
    ensures { OnOk result (page.new ≡ page.old ++ printed (rightward x y)) }
{
    push_line(page, Style::Joins, x + 248, 16, y + 124, 16)?;
    push_rect(page, Style::Joins, y + 118, 13, 6, 6)?;
    Ok(())
}

/// Appends an arrow from the block of one lane to that of another on its left, where it ends in a dot.
fn push_leftward(page: &mut Page, x: u64, y: u64) -> Result<(), AllocError>
    requires { (x < 2 ^ 32) × (y < 2 ^ 32) }
    ensures { OnOk result (page.new ≡ page.old ++ printed (leftward x y)) }
{
    push_line(page, Style::Joins, x + 124, 16, y + 248, 16)?;
    push_rect(page, Style::Joins, y + 248, 13, 6, 6)?;
    Ok(())
}

/// Appends an arrow from the block of one lane to that of another.
fn push_join(page: &mut Page, x: u64, y: u64) -> Result<(), AllocError>
    requires { (x < 2 ^ 32) × (y < 2 ^ 32) }
    ensures { OnOk result (page.new ≡ page.old ++ printed (join x y)) }
{
    if x < y {
        push_rightward(page, x, y)
    } else {
        push_leftward(page, x, y)
    }
}

/// Appends an arrow from one lane to another, where both are there.
fn push_join_at(page: &mut Page, lane: Option<u64>, other: Option<u64>) -> Result<(), AllocError>
    requires lane { IfSome lane (λ x. x < 2 ^ 32) }
    requires other { IfSome other (λ x. x < 2 ^ 32) }
    ensures { OnOk result (page.new ≡ page.old ++ printed (join_at lane other)) }
{
    let Some(x) = lane else {
        return Ok(());
    };
    match other {
        Some(y) => push_join(page, x, y),
        None => Ok(()),
    }
}

/// Appends the id that a thread took, in the lane of the id that it had.
fn push_renamed(page: &mut Page, lane: Option<u64>, renamed: &[u32]) -> Result<(), AllocError>
    requires { IfSome lane (λ x. x < 2 ^ 32) }
    ensures { OnOk result (page.new ≡ page.old ++ printed (renamed_at lane renamed.now)) }
{
    let Some(x) = lane else {
        return Ok(());
    };
    match renamed {
        [] => Ok(()),
        [id, ..] => {
            let mut digits = Buffer::new();
            let pieces: [&[u8]; 2] = [b"now ", digits.format(*id).as_bytes()];
            push_words(page, Style::Joins, x + 128, 30, &pieces)
        }
    }
}

/// Appends the arrow from the lane of the thread that makes a call to that of the thread that it made, or whose id it took.
pub fn push_joins(
    page: &mut Page,
    lane: Option<u64>,
    other: Option<u64>,
    renamed: &[u32],
) -> Result<(), AllocError>
    requires lane { IfSome lane (λ x. x < 2 ^ 32) }
    requires other { IfSome other (λ x. x < 2 ^ 32) }
    ensures { OnOk result (page.new ≡ page.old ++ printed (joins lane other renamed.now)) }
{
    push_join_at(page, lane, other)?;
    push_renamed(page, lane, renamed)?;
    Ok(())
}
