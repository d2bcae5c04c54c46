ghost use Rattle.std.specs.Prelude.{◌≡◌, ◌≤◌, ◌+◌, ◌∷◌, ◌++◌, Ok, OnOk, codes, map};
ghost use Rattle.tr_answers.specs.Comparisons.{admitted, agreement_line, answer_text, asked_by, difference_line, listed, quoted, step_text};
ghost use Rattle.tr_answers.specs.Private.{assumed_front};
ghost use Rattle.tr_scenario.specs.RunTexts.{call_of};

use crate::expected::Expected;
use crate::records::Answered;
use std::alloc::{AllocError, Global};
use tr_kernel::Kernel;
use tr_model::{Refusal, Reply};
use tr_oracle::offered;
use tr_reading::Step;
use tr_scenario::{LineBuffer, Page, prepend_call, prepend_reply, refusal_text};

/// Puts an answer before a text.
pub(crate) fn prepend_answer(text: &mut LineBuffer, answer: &Result<Reply, Refusal>)
    requires { 98 ≤ text.old.room }
    ensures text { text.new.text ≡ answer_text answer.now ++ text.old.text }
    ensures room { text.old.room ≤ text.new.room + 98 }
{
    match answer {
        Ok(reply) => prepend_reply(text, reply),
        Err(why) => text.prepend(refusal_text(*why).as_bytes()),
    }
}

/// Puts before a text which step it is, and its call.
fn prepend_step(text: &mut LineBuffer, place: usize, answered: &Answered)
    requires { 64 ≤ text.old.room }
    ensures { text.new.text ≡ step_text (asked_by place answered.now) ++ text.old.text }
{
    text.prepend(b"`: ");
    prepend_call(text, answered.step.actor, &answered.step.event);
    text.prepend(b": `");
    text.prepend_number(place as u64);
    text.prepend(b"step ");
}

/// Composes the front of the lines of a step whose answers are told.
pub(crate) fn assumed_front(place: usize, answered: &Answered) -> LineBuffer
    ensures { result.text ≡ assumed_front (asked_by place answered.now) }
{
    let mut front = LineBuffer::new();
    front.prepend(b"assumed `");
    prepend_step(&mut front, place, answered);
    front
}

/// Appends the line of an answer that was made, which begins with this front.
pub(crate) fn push_assumed(
    page: &mut Page,
    front: &LineBuffer,
    answer: &Result<Reply, Refusal>,
) -> Result<(), AllocError>
    ensures { OnOk result (page.new
        ≡ page.old ++ (front.now.text ++ (answer_text answer.now ++ codes "`\n"))) }
{
    let mut rest = LineBuffer::new();
    rest.prepend(b"`\n");
    prepend_answer(&mut rest, answer);
    page.push(front.as_bytes())?;
    page.push(rest.as_bytes())
}

/// Appends an answer between backquotes.
fn push_quoted(page: &mut Page, answer: &Result<Reply, Refusal>) -> Result<(), AllocError>
    ensures { OnOk result (page.new ≡ page.old ++ quoted answer.now) }
{
    let mut text = LineBuffer::new();
    text.prepend(b"`");
    prepend_answer(&mut text, answer);
    text.prepend(b"`");
    page.push(text.as_bytes())
}

/// Appends replies, with commas between.
fn push_replies(page: &mut Page, first: &Reply, others: &[Reply]) -> Result<(), AllocError>
    ensures { OnOk result (page.new
        ≡ page.old ++ listed (map (λ r. Ok r) (first.now ∷ others.now))) }
{
    push_quoted(page, &Ok(*first))?;
    for reply in others {
        page.push(b", ")?;
        push_quoted(page, &Ok(*reply))?;
    }
    Ok(())
}

/// Appends what a step's call may be answered, with commas between.
fn push_admitted(
    alloc: Global,
    page: &mut Page,
    kernel: &Kernel,
    step: &Step,
) -> Result<(), AllocError>
    ensures { OnOk result (page.new
        ≡ page.old ++ listed (admitted kernel.now (call_of step.now.actor step.now.event))) }
{
    let own = kernel.foresee(step.actor, &step.event);
    let replies = offered(alloc, kernel.table(), step.actor, &step.event)?;
    match replies.as_slice().split_first() {
        Some((first, others)) if own.is_ok() => push_replies(page, first, others),
        _ => push_quoted(page, &own),
    }
}

/// Appends a step, its call, and that it was answered.
fn push_answered(page: &mut Page, place: usize, answered: &Answered) -> Result<(), AllocError>
    ensures { OnOk result (page.new
        ≡ page.old ++ (step_text (asked_by place answered.now) ++ codes "answered `")) }
{
    let mut text = LineBuffer::new();
    text.prepend(b"answered `");
    prepend_step(&mut text, place, answered);
    page.push(text.as_bytes())
}

/// Appends the line of an answer that can't be made.
pub(crate) fn push_difference(
    alloc: Global,
    page: &mut Page,
    kernel: &Kernel,
    place: usize,
    answered: &Answered,
    expected: &Expected,
) -> Result<(), AllocError>
    ensures { OnOk result (page.new
        ≡ page.old ++ difference_line kernel.now (asked_by place answered.now) expected.now) }
{
    push_answered(page, place, answered)?;
    page.push(expected.as_str().as_bytes())?;
    page.push(b"`; admitted: ")?;
    push_admitted(alloc, page, kernel, &answered.step)?;
    page.push(b"\n")
}

/// Appends how many answers agree.
pub(crate) fn push_agreement(page: &mut Page, count: u64) -> Result<(), AllocError>
    ensures { OnOk result (page.new ≡ page.old ++ agreement_line count) }
{
    let mut line = LineBuffer::new();
    line.prepend(b" answers\n");
    line.prepend_number(count);
    line.prepend(b"agrees: ");
    page.push(line.as_bytes())
}
