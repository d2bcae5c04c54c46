ghost use Rattle.std.specs.Prelude.{◌≡◌, ◌≢◌, ◌==◌, ◌<◌, ◌≤◌, ◌+◌, ◌^◌, ℕ, decimal, drop, length, IfOk, MatchOption};
ghost use Rattle.std.specs.List.{position_or_len};
ghost use Rattle.tr_answers.specs.Fits.{fits, fits_word, is_open};

use crate::lines::prepend_answer;
use itoa::Buffer;
use std::alloc::{AllocError, Global};
use std::marker::Model;
use tr_model::{Refusal, Reply};
use tr_oracle::Expectation;
use tr_scenario::LineBuffer;

/// What another system answered to a call, as `serial` prints it after the event's name. A word of it may be `_`, which
/// fits any word.
#[derive(Debug, Drop)]
pub struct Expected {
    text: String,
    /// Whether some word is `_`.
    some_open: bool,
}

impl Model for Expected {
    ghost use Rattle.std.specs.Prelude.{◌≡◌, ℕ, List, string_bytes};
    ghost use Rattle.tr_answers.specs.Fits.{is_open};

    ghost Value = { List ℕ };

    ghost view = { λ e. string_bytes e.text };

    ghost invariant = { λ e. e.some_open ≡ is_open (string_bytes e.text) };
}

impl Expected {
    /// Copies a text.
    pub fn new(alloc: Global, text: &str) -> Result<Expected, AllocError>
        ensures { IfOk result (λ e. e ≡ text.now) }
    {
        let some_open = has_open_word(text.as_bytes());
        let text = String::from_str(alloc, text)?;
        Ok(Expected { text, some_open })
    }

    /// Gives the text back.
    pub fn as_str(&self) -> &str
        ensures { result.now ≡ self.now }
    {
        self.text.as_str()
    }

    /// Tells whether a printed answer has as many words, each of which fits.
    pub fn fits_text(&self, text: &[u8]) -> bool
        ensures { result ≡ fits self.now text.now }
    {
        let expected = self.text.as_bytes();
        if self.some_open {
            fit_by_words(expected, text)
        } else {
            expected == text
        }
    }

    /// Tells whether some word is `_`.
    pub fn is_open(&self) -> bool
        ensures { result ≡ is_open self.now }
    {
        self.some_open
    }
}

impl Expectation for Expected {
    ghost use Rattle.std.specs.Prelude.{Some};
    ghost use Rattle.tr_answers.specs.Comparisons.{is_expected};

    ghost fits = { λ e. is_expected (Some e) };

    fn fits(&self, answer: &Result<Reply, Refusal>) -> Result<bool, AllocError> {
        let mut text = LineBuffer::new();
        prepend_answer(&mut text, answer);
        Ok(self.fits_text(text.as_bytes()))
    }

    fn named_id(&self) -> Option<u32> {
        let (_, digits) = self.as_str().split_once(' ')?;
        number_of(digits)
    }
}

fn has_open_word(expected: &[u8]) -> bool
    ensures { result ≡ is_open expected.now }
{
    expected
        .split(|byte| *byte == b' ')
        .any(|word| word == b"_".as_slice())
}

/// Goes over both texts word by word, up to the first word that doesn't fit.
fn fit_by_words(expected: &[u8], text: &[u8]) -> bool
    ensures { result ≡ fits expected.now text.now }
{
    let mut expected = expected;
    let mut text = text;
    'words: loop {
        let expected_end = first_end(expected);
        let end = first_end(text);
        if !fits_word(&expected[..expected_end], &text[..end]) {
            return false;
        }
        if expected_end == expected.len() {
            return end == text.len();
        }
        if end == text.len() {
            return false;
        }
        expected = after(expected, expected_end);
        text = after(text, end);
    }
}

#[inline(always)]
fn fits_word(expected: &[u8], word: &[u8]) -> bool
    ensures { result ≡ fits_word expected.now word.now }
{
    expected == b"_".as_slice() || expected == word
}

/// Gives where the first word of a text ends.
#[inline(always)]
fn first_end(text: &[u8]) -> usize
    ensures end { result ≡ position_or_len (λ b. b == 32) text.now }
    ensures within { result ≤ length text.now }
{
    for (place, byte) in text.iter().enumerate() {
        if *byte == b' ' {
            return place;
        }
    }
    text.len()
}

/// Gives what stands after a place of a text.
#[inline(always)]
fn after(text: &[u8], place: usize) -> &[u8]
    requires { place < length text.now }
    ensures { result.now ≡ drop (place + 1) text.now }
{
    &text[place + 1..]
}

/// Gives the number that these are the digits of, as it is printed: with no sign, and with no zero before others.
fn number_of(digits: &str) -> Option<u32>
    ensures { MatchOption result ((n : ℕ) → n < 2 ^ 32 → digits.now ≢ decimal n)
        (λ n. (n < 2 ^ 32) × (digits.now ≡ decimal n)) }
{
    let number: u32 = digits.parse().ok()?;
    if Buffer::new().format(number) == digits {
        Some(number)
    } else {
        None
    }
}
