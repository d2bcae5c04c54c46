ghost use Rattle.std.specs.Prelude.{◌≡◌, ◌∷◌, ◌++◌, [], OnOk, codes, decimal};
ghost use Rattle.std.specs.Fmt.{signed_decimal};
ghost use Rattle.tr_sigset.specs.Sets.{has};
ghost use Rattle.tr_lanes.specs.Digits.{set_digits};
ghost use Rattle.tr_figures.specs.Details.{action_word, detail, detail_line, option_word, option_words, which_words};
ghost use Rattle.tr_figures.specs.Elements.{printed};

use crate::elements::push_words;
use crate::styles::Style;
use itoa::Buffer;
use std::alloc::AllocError;
use tr_group::Action;
use tr_lanes::hex16;
use tr_model::Event;
use tr_scenario::Page;
use tr_sigset::SigSet;
use tr_text::TextBuffer;
use tr_tracee::Options;
use tr_wait::Which;

/// Appends a word, and a number after it, under the words of a call.
fn push_number(page: &mut Page, word: &[u8], number: u32) -> Result<(), AllocError>
    ensures { OnOk result (page.new
        ≡ page.old ++ printed (detail_line (word.now ∷ decimal number ∷ []))) }
{
    let mut digits = Buffer::new();
    let pieces: [&[u8]; 2] = [word, digits.format(number).as_bytes()];
    push_words(page, Style::Dim, 64, 30, &pieces)
}

/// Appends for which thread or group a wait is.
fn push_which(page: &mut Page, which: Which) -> Result<(), AllocError>
    ensures { OnOk result (page.new ≡ page.old ++ printed (detail_line (which_words which))) }
{
    match which {
        Which::Any => push_words(page, Style::Dim, 64, 30, &[b"for any"]),
        Which::One(id) => push_number(page, b"for ", id),
    }
}

fn action_word(action: Action) -> &'static str
    ensures { result.now ≡ action_word action }
{
    match action {
        Action::Default => "default",
        Action::Ignore => "ignore",
        Action::Catch => "catch",
    }
}

/// Appends which action a thread sets.
fn push_action(page: &mut Page, action: Action) -> Result<(), AllocError>
    ensures { OnOk result (page.new
        ≡ page.old ++ printed (detail_line (action_word action ∷ []))) }
{
    let pieces: [&[u8]; 1] = [action_word(action).as_bytes()];
    push_words(page, Style::Dim, 64, 30, &pieces)
}

/// Appends the value that a signal is queued with.
fn push_value(page: &mut Page, value: i32) -> Result<(), AllocError>
    ensures { OnOk result (page.new
        ≡ page.old ++ printed (detail_line (codes "value " ∷ signed_decimal value ∷ []))) }
{
    let mut digits = TextBuffer::<32>::new();
    digits.prepend_signed(value);
    push_words(page, Style::Dim, 64, 30, &[b"value ", digits.as_bytes()])
}

/// Appends which signals a thread blocks, as `/proc` has masks.
fn push_mask(page: &mut Page, set: SigSet) -> Result<(), AllocError>
    ensures { OnOk result (page.new
        ≡ page.old ++ printed (detail_line (codes "blocks " ∷ set_digits (has set) ∷ []))) }
{
    let digits = mask_digits(set);
    push_words(page, Style::Dim, 64, 30, &[b"blocks ", &digits])
}

fn mask_digits(set: SigSet) -> [u8; 16]
    ensures { result ≡ set_digits (has set) }
{
    hex16(set.bits())
}

fn option_word(is_set: bool, word: &'static str) -> &'static str
    ensures { result.now ≡ option_word is_set word.now }
{
    if is_set { word } else { "" }
}

/// Appends the options that are set.
fn push_options(page: &mut Page, options: Options) -> Result<(), AllocError>
    ensures { OnOk result (page.new ≡ page.old ++ printed (detail_line (option_words options))) }
{
    let pieces: [&[u8]; 5] = [
        b"options",
        option_word(options.clone, " clone").as_bytes(),
        option_word(options.exec, " exec").as_bytes(),
        option_word(options.exit, " exit").as_bytes(),
        option_word(options.exitkill, " exitkill").as_bytes(),
    ];
    push_words(page, Style::Dim, 64, 30, &pieces)
}

/// Appends what a call says beside whom it is about and which signal it names: its code, for whom it waits, its options, its
/// action, its value or its mask.
pub fn push_detail(page: &mut Page, event: &Event) -> Result<(), AllocError>
    ensures { OnOk result (page.new ≡ page.old ++ printed (detail event.now)) }
{
    match event {
        Event::Exit { code, .. } => push_number(page, b"code ", *code),
        Event::ExitGroup { code, .. } => push_number(page, b"code ", *code),
        Event::Wait { which } => push_which(page, *which),
        Event::StarterWait { which, .. } => push_which(page, *which),
        Event::Seize { options, .. } => push_options(page, *options),
        Event::SetOptions { options, .. } => push_options(page, *options),
        Event::SetAction { how, .. } => push_action(page, *how),
        Event::Sigqueue { value, .. } => push_value(page, *value),
        Event::Mask { set, .. } => push_mask(page, *set),
        _ => Ok(()),
    }
}
