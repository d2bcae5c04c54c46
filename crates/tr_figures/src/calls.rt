ghost use Rattle.std.specs.Prelude.{◌≡◌, ◌∷◌, ◌<◌, ◌++◌, ◌^◌, [], OnOk, IfSome, Some, None, codes, decimal, if◌then◌else◌, nat_lt};
ghost use Rattle.tr_workers.specs.Follows.{heard};
ghost use Rattle.tr_reading.specs.Kinds.{event_name};
ghost use Rattle.tr_scenario.specs.RunTexts.{call_of};
ghost use Rattle.tr_figures.specs.declared.styles.Style.TheVariants.{Ink};
ghost use Rattle.tr_figures.specs.Calls.{aim, aim_of, arrow, arrow_style, call_words, chip, chip_place, chip_words, id_of, is_own, marks, refusal_cross, signal_of, style_of_wait};
ghost use Rattle.tr_figures.specs.Elements.{printed, words};
ghost use Rattle.tr_figures.specs.Lives.{signal_name};

use crate::elements::{push_cross, push_line, push_rect, push_words};
use crate::lives::signal_name;
use crate::styles::Style;
use itoa::Buffer;
use std::alloc::AllocError;
use tr_kernel::Answer;
use tr_model::{Event, Reply, Target};
use tr_reading::event_name;
use tr_scenario::{Page, refusal_text};

/// Gives the thread or the group that an event names.
fn aim(event: &Event) -> Option<Target>
    ensures { result ≡ aim event.now }
{
    match event {
        Event::Kill { tgid, .. } => Some(Target::Group(*tgid)),
        Event::Tgkill { tid, .. } => Some(Target::Thread(*tid)),
        Event::Sigqueue { tgid, .. } => Some(Target::Group(*tgid)),
        Event::Mask { tid, .. } => Some(Target::Thread(*tid)),
        Event::SetAction { tid, .. } => Some(Target::Thread(*tid)),
        Event::Pause { tid } => Some(Target::Thread(*tid)),
        Event::Take { tid } => Some(Target::Thread(*tid)),
        Event::TakeAny { tgid } => Some(Target::Group(*tgid)),
        Event::Halt { tid } => Some(Target::Thread(*tid)),
        Event::Trap { tid } => Some(Target::Thread(*tid)),
        Event::Die { tid } => Some(Target::Thread(*tid)),
        Event::CloneThread { tid } => Some(Target::Thread(*tid)),
        Event::Exec { tid } => Some(Target::Thread(*tid)),
        Event::Finish { tid } => Some(Target::Thread(*tid)),
        Event::Exit { tid, .. } => Some(Target::Thread(*tid)),
        Event::ExitGroup { tid, .. } => Some(Target::Thread(*tid)),
        Event::Attach { tid } => Some(Target::Thread(*tid)),
        Event::Seize { tid, .. } => Some(Target::Thread(*tid)),
        Event::Interrupt { tid } => Some(Target::Thread(*tid)),
        Event::Cont { tid, .. } => Some(Target::Thread(*tid)),
        Event::Listen { tid } => Some(Target::Thread(*tid)),
        Event::Detach { tid, .. } => Some(Target::Thread(*tid)),
        Event::SetOptions { tid, .. } => Some(Target::Thread(*tid)),
        Event::EventMessage { tid } => Some(Target::Thread(*tid)),
        Event::SignalInfo { tid } => Some(Target::Thread(*tid)),
        Event::TracerExit => None,
        Event::Wait { .. } => None,
        Event::StarterWait { .. } => None,
    }
}

/// Whether a thread does it by itself.
pub fn is_own(event: &Event) -> bool
    ensures { result ≡ is_own event.now }
{
    matches!(
        event,
        Event::Mask { .. }
            | Event::SetAction { .. }
            | Event::Pause { .. }
            | Event::Take { .. }
            | Event::TakeAny { .. }
            | Event::Halt { .. }
            | Event::Trap { .. }
            | Event::Die { .. }
            | Event::CloneThread { .. }
            | Event::Exec { .. }
            | Event::Finish { .. }
            | Event::Exit { .. }
            | Event::ExitGroup { .. }
    )
}

fn unless_none(sig: u8) -> Option<u8>
    ensures { result ≡ (if nat_lt 0 sig then Some sig else None) }
{
    if sig > 0 { Some(sig) } else { None }
}

/// Gives the signal that an event names.
fn signal_of(event: &Event) -> Option<u8>
    ensures { result ≡ signal_of event.now }
{
    match event {
        Event::Kill { sig, .. } => Some(*sig),
        Event::Tgkill { sig, .. } => Some(*sig),
        Event::Sigqueue { sig, .. } => Some(*sig),
        Event::SetAction { sig, .. } => Some(*sig),
        Event::Cont { sig, .. } => unless_none(*sig),
        Event::Detach { sig, .. } => unless_none(*sig),
        _ => None,
    }
}

fn id_of(target: Target) -> u32
    ensures { result ≡ id_of target }
{
    match target {
        Target::Thread(id) => id,
        Target::Group(tgid) => tgid,
    }
}

/// Appends who asks for what, of a call that names nobody.
fn push_call_alone(page: &mut Page, actor: u32, event: &Event) -> Result<(), AllocError>
    ensures { OnOk result (page.new
        ≡ page.old ++ printed (words Ink 64 14
        (decimal actor ∷ codes " " ∷ event_name event.now ∷ []))) }
{
    let mut digits = Buffer::new();
    let pieces: [&[u8]; 3] = [
        digits.format(actor).as_bytes(),
        b" ",
        event_name(event).as_bytes(),
    ];
    push_words(page, Style::Ink, 64, 14, &pieces)
}

/// Appends who asks for what of a thread or a group, of a call that names no signal.
fn push_call_at(page: &mut Page, actor: u32, event: &Event, id: u32) -> Result<(), AllocError>
    ensures { OnOk result (page.new
        ≡ page.old ++ printed (words Ink 64 14
        (decimal actor ∷ codes " " ∷ event_name event.now ∷ codes " " ∷ decimal id ∷ []))) }
{
    let mut actor_digits = Buffer::new();
    let mut digits = Buffer::new();
    let pieces: [&[u8]; 5] = [
        actor_digits.format(actor).as_bytes(),
        b" ",
        event_name(event).as_bytes(),
        b" ",
        digits.format(id).as_bytes(),
    ];
    push_words(page, Style::Ink, 64, 14, &pieces)
}

/// Appends who asks for what of a thread or a group, and the signal that the call names.
fn push_call_with(
    page: &mut Page,
    actor: u32,
    event: &Event,
    id: u32,
    sig: u8,
) -> Result<(), AllocError>
    ensures { OnOk result (page.new
        ≡ page.old ++ printed (words Ink 64 14
        (decimal actor ∷ codes " " ∷ event_name event.now ∷ codes " " ∷ decimal id
        ∷ codes " " ∷ signal_name sig ∷ []))) }
{
    let mut actor_digits = Buffer::new();
    let mut digits = Buffer::new();
    let pieces: [&[u8]; 7] = [
        actor_digits.format(actor).as_bytes(),
        b" ",
        event_name(event).as_bytes(),
        b" ",
        digits.format(id).as_bytes(),
        b" ",
        signal_name(sig).as_bytes(),
    ];
    push_words(page, Style::Ink, 64, 14, &pieces)
}

/// Appends who asks for what.
pub fn push_call(page: &mut Page, actor: u32, event: &Event) -> Result<(), AllocError>
    ensures { OnOk result
        (page.new ≡ page.old ++ printed (words Ink 64 14 (call_words (call_of actor event.now)))) }
{
    let Some(target) = aim(event) else {
        return push_call_alone(page, actor, event);
    };
    match signal_of(event) {
        Some(sig) => push_call_with(page, actor, event, id_of(target), sig),
        None => push_call_at(page, actor, event, id_of(target)),
    }
}

// Marks

/// Gives whom an arrow joins to the actor of a call: of a wait that was answered the thread or group that it tells of.
pub fn aim_of(event: &Event, answer: &Answer) -> Option<Target>
    ensures { result ≡ aim_of event.now (heard answer.now) }
{
    let Answer::Entered(receipt) = answer else {
        return aim(event);
    };
    let Reply::Waited { id, .. } = receipt.reply else {
        return aim(event);
    };
    match event {
        Event::Wait { .. } => Some(Target::Thread(id)),
        Event::StarterWait { .. } => Some(Target::Group(id)),
        _ => aim(event),
    }
}

/// Gives the class of the arrow of a wait: one that took no report is a request alone.
fn style_of_wait(answer: &Answer) -> Style
    ensures { result ≡ style_of_wait (heard answer.now) }
{
    match answer {
        Answer::Entered(_) => Style::Takes,
        _ => Style::Request,
    }
}

/// Gives the class of the arrow of a call.
fn arrow_style(event: &Event, answer: &Answer) -> Style
    ensures { result ≡ arrow_style event.now (heard answer.now) }
{
    if let Answer::Refused(_) = answer {
        return Style::Refused;
    }
    match event {
        Event::Kill { .. } => Style::Send,
        Event::Tgkill { .. } => Style::Send,
        Event::Sigqueue { .. } => Style::Send,
        Event::Wait { .. } => style_of_wait(answer),
        Event::StarterWait { .. } => style_of_wait(answer),
        _ => Style::Request,
    }
}

/// Appends an arrow from an actor's lane to that of a thread or a group, where it ends in a dot, if both are there.
fn push_arrow(
    page: &mut Page,
    style: Style,
    actor: Option<u64>,
    lane: Option<u64>,
) -> Result<(), AllocError>
    requires actor { IfSome actor (λ x. x < 2 ^ 32) }
    requires lane { IfSome lane (λ x. x < 2 ^ 32) }
    ensures { OnOk result (page.new ≡ page.old ++ printed (arrow style actor lane)) }
{
    let Some(from) = actor else {
        return Ok(());
    };
    let Some(to) = lane else {
        return Ok(());
    };
    push_line(page, style, from + 46, 10, to + 124, 10)?;
    push_rect(page, style, to + 118, 7, 6, 6)?;
    Ok(())
}

/// Appends a cross where a call that is refused aimed.
fn push_refusal(page: &mut Page, answer: &Answer, lane: Option<u64>) -> Result<(), AllocError>
    requires { IfSome lane (λ x. x < 2 ^ 32) }
    ensures { OnOk result (page.new
        ≡ page.old ++ printed (refusal_cross (heard answer.now) lane)) }
{
    let Answer::Refused(_) = answer else {
        return Ok(());
    };
    match lane {
        Some(x) => push_cross(page, Style::Refused, x + 104),
        None => Ok(()),
    }
}

fn chip_place(is_own: bool, actor: Option<u64>, lane: Option<u64>) -> Option<u64>
    requires actor { IfSome actor (λ x. x < 2 ^ 32) }
    requires lane { IfSome lane (λ x. x < 2 ^ 32) }
    ensures place { result ≡ chip_place is_own actor lane }
    ensures small { IfSome result (λ x. x < 2 ^ 33) }
{
    if !is_own {
        return actor;
    }
    match lane {
        Some(x) => Some(x + 130),
        None => actor,
    }
}

/// Appends the words of a chip: what a call is, or why it was refused.
fn push_chip_words(
    page: &mut Page,
    style: Style,
    x: u64,
    event: &Event,
    answer: &Answer,
) -> Result<(), AllocError>
    ensures { OnOk result (page.new
        ≡ page.old ++ printed (words style x 14 (chip_words event.now (heard answer.now)))) }
{
    if let Answer::Refused(why) = answer {
        let pieces: [&[u8]; 1] = [refusal_text(*why).as_bytes()];
        return push_words(page, style, x, 14, &pieces);
    }
    match signal_of(event) {
        Some(sig) => {
            let pieces: [&[u8]; 3] = [
                event_name(event).as_bytes(),
                b" ",
                signal_name(sig).as_bytes(),
            ];
            push_words(page, style, x, 14, &pieces)
        }
        None => {
            let pieces: [&[u8]; 1] = [event_name(event).as_bytes()];
            push_words(page, style, x, 14, &pieces)
        }
    }
}

/// Appends the chip of a call, where it has a place.
fn push_chip(
    page: &mut Page,
    place: Option<u64>,
    event: &Event,
    answer: &Answer,
) -> Result<(), AllocError>
    requires { IfSome place (λ x. x < 2 ^ 33) }
    ensures { OnOk result (page.new
        ≡ page.old ++ printed (chip (arrow_style event.now (heard answer.now)) place
        (chip_words event.now (heard answer.now)))) }
{
    let Some(x) = place else {
        return Ok(());
    };
    push_rect(page, Style::Chip, x, 2, 114, 16)?;
    push_chip_words(page, arrow_style(event, answer), x + 4, event, answer)?;
    Ok(())
}

/// Appends the marks of a call: its arrow, a cross where it was refused, and its chip.
pub fn push_marks(
    page: &mut Page,
    event: &Event,
    answer: &Answer,
    actor: Option<u64>,
    lane: Option<u64>,
) -> Result<(), AllocError>
    requires actor { IfSome actor (λ x. x < 2 ^ 32) }
    requires lane { IfSome lane (λ x. x < 2 ^ 32) }
    ensures { OnOk result (page.new
        ≡ page.old ++ printed (marks event.now (heard answer.now) actor lane)) }
{
    push_arrow(page, arrow_style(event, answer), actor, lane)?;
    push_refusal(page, answer, lane)?;
    push_chip(page, chip_place(is_own(event), actor, lane), event, answer)?;
    Ok(())
}
