ghost use Rattle.std.specs.Prelude.{◌<◌, ◌≤◌};

use super::same_of;
use std::process::Abort;
use tr_lanes::{count_holding, first_clear, first_ready, hex16, ready_rows, union_all};
use tr_sigset::Signal;

/// The most rows that are tried.
const MOST: usize = 1000;

/// Whether this many rows are tried: 0 to 65, 127, 128 and 1,000.
fn is_tried(length: usize) -> bool {
    length <= 65 || length == 127 || length == 128 || length == MOST
}

/// Whether the only row that fits is tried at this place: the first, and the places of the last chunks.
fn is_tried_at(place: usize, length: usize) -> bool {
    place == 0 || length <= place.saturating_add(32)
}

/// Rows that look like random ones, from a linear congruential generator.
fn mixed(seed: u64) -> [u64; MOST] {
    let mut word = seed;
    let mut rows = [0; MOST];
    for place in 0..MOST {
        word = word
            .wrapping_mul(6364136223846793005)
            .wrapping_add(1442695040888963407);
        rows[place] = word ^ word >> 29;
    }
    rows
}

/// The signal that is tried at this many rows, and its word.
fn tried_signal(rt: &impl Abort, length: usize) -> (Signal, u64) {
    let place = length % 64;
    (
        Signal::new(place as u8 + 1).expect(rt, "a signal"),
        1 << place,
    )
}

fn plain_first_clear(rows: &[u64], bit: u64) -> Option<usize> {
    for (place, row) in rows.iter().enumerate() {
        if *row & bit == 0 {
            return Some(place);
        }
    }
    None
}

fn plain_ready(own: u64, blocked: u64, shared: u64, runnable: u64) -> u64 {
    (own | shared) & !blocked & runnable
}

fn plain_first(words: &[u64]) -> Option<usize> {
    for (place, word) in words.iter().enumerate() {
        if *word != 0 {
            return Some(place);
        }
    }
    None
}

fn plain_union(rows: &[u64]) -> u64 {
    let mut union = 0;
    for row in rows {
        union |= *row;
    }
    union
}

fn plain_count(rows: &[u64], bit: u64) -> usize {
    let mut count: usize = 0;
    for row in rows {
        if *row & bit != 0 {
            count = count.wrapping_add(1);
        }
    }
    count
}

fn check_first_clear(rt: &impl Abort, length: usize)
    requires { length ≤ 1000 }
{
    let (signal, bit) = tried_signal(rt, length);
    let mut rows = [bit; MOST];
    same_of(rt, &first_clear(&rows[..length], signal), &None, &length);
    for place in 0..length {
        if is_tried_at(place, length) {
            rows[place] = !bit;
            let found = first_clear(&rows[..length], signal);
            same_of(
                rt,
                &found,
                &plain_first_clear(&rows[..length], bit),
                &(place, length),
            );
            same_of(rt, &found, &Some(place), &(place, length));
            rows[place] = bit;
        }
    }
}

#[test]
fn first_clear_is_the_plain_search(rt: HostRuntime) {
    for length in 0..=MOST {
        if is_tried(length) {
            check_first_clear(&rt, length);
        }
    }
}

/// The search where one thread alone has a signal in its own queue.
fn found_by_own(place: usize, length: usize, bit: u64) -> Option<usize>
    requires within { place < length }
    requires at_most { length ≤ 1000 }
{
    let mut own = [0; MOST];
    own[place] = bit;
    let blocked = [0; MOST];
    let runnable = [u64::MAX; MOST];
    first_ready(&own[..length], &blocked[..length], 0, &runnable[..length])
}

/// The search where one thread alone doesn't block a shared signal.
fn found_by_mask(place: usize, length: usize, bit: u64) -> Option<usize>
    requires within { place < length }
    requires at_most { length ≤ 1000 }
{
    let own = [0; MOST];
    let mut blocked = [u64::MAX; MOST];
    blocked[place] = !bit;
    let runnable = [u64::MAX; MOST];
    first_ready(&own[..length], &blocked[..length], bit, &runnable[..length])
}

/// The search where one thread alone is runnable.
fn found_by_run(place: usize, length: usize, bit: u64) -> Option<usize>
    requires within { place < length }
    requires at_most { length ≤ 1000 }
{
    let rows = [0; MOST];
    let mut runnable = [0; MOST];
    runnable[place] = u64::MAX;
    first_ready(&rows[..length], &rows[..length], bit, &runnable[..length])
}

fn check_first_ready(rt: &impl Abort, length: usize)
    requires { length ≤ 1000 }
{
    let (_, bit) = tried_signal(rt, length);
    for place in 0..length {
        if is_tried_at(place, length) {
            same_of(
                rt,
                &found_by_own(place, length, bit),
                &Some(place),
                &(place, length),
            );
            same_of(
                rt,
                &found_by_mask(place, length, bit),
                &Some(place),
                &(place, length),
            );
            same_of(
                rt,
                &found_by_run(place, length, bit),
                &Some(place),
                &(place, length),
            );
        }
    }
}

fn check_mixed_search(rt: &impl Abort, length: usize)
    requires { length ≤ 1000 }
{
    let own = mixed(1);
    let runnable = [u64::MAX; MOST];
    let found = first_ready(&own[..length], &own[..length], 6, &runnable[..length]);
    let mut words = [0; MOST];
    for place in 0..length {
        words[place] = plain_ready(own[place], own[place], 6, u64::MAX);
    }
    same_of(rt, &found, &plain_first(&words[..length]), &length);
    same_of(
        rt,
        &first_ready(&own[..length], &own[..length], 0, &runnable[..length]),
        &None,
        &length,
    );
}

#[test]
fn first_ready_is_the_plain_search(rt: HostRuntime) {
    for length in 0..=MOST {
        if is_tried(length) {
            check_first_ready(&rt, length);
            check_mixed_search(&rt, length);
        }
    }
}

fn check_ready_rows(rt: &impl Abort, length: usize)
    requires { length ≤ 1000 }
{
    let own = mixed(1);
    let blocked = mixed(2);
    let runnable = mixed(3);
    let mut want = [0; MOST];
    for place in 0..length {
        want[place] = plain_ready(own[place], blocked[place], 6, runnable[place]);
    }
    let mut out = mixed(4);
    ready_rows(
        &own[..length],
        &blocked[..length],
        6,
        &runnable[..length],
        &mut out[..length],
    );
    same_of(rt, &&out[..length], &&want[..length], &length);
    same_of(rt, &&out[length..], &&mixed(4)[length..], &length);
}

#[test]
fn ready_rows_are_the_plain_words(rt: HostRuntime) {
    for length in 0..=MOST {
        if is_tried(length) {
            check_ready_rows(&rt, length);
        }
    }
}

fn check_union_all(rt: &impl Abort, length: usize)
    requires { length ≤ 1000 }
{
    let (_, bit) = tried_signal(rt, length);
    let mut rows = [0; MOST];
    for place in 0..length {
        if is_tried_at(place, length) {
            rows[place] = bit;
            same_of(rt, &union_all(&rows[..length]), &bit, &(place, length));
            rows[place] = 0;
        }
    }
    same_of(rt, &union_all(&rows[..length]), &0, &length);
    for place in 0..length {
        rows[place] = 1 << (place % 64);
    }
    same_of(
        rt,
        &union_all(&rows[..length]),
        &plain_union(&rows[..length]),
        &length,
    );
}

#[test]
fn union_all_is_the_plain_union(rt: HostRuntime) {
    for length in 0..=MOST {
        if is_tried(length) {
            check_union_all(&rt, length);
        }
    }
}

fn check_count_holding(rt: &impl Abort, length: usize)
    requires { length ≤ 1000 }
{
    let (signal, bit) = tried_signal(rt, length);
    let mut rows = [!bit; MOST];
    same_of(rt, &count_holding(&rows[..length], signal), &0, &length);
    for place in 0..length {
        if is_tried_at(place, length) {
            rows[place] = bit;
            same_of(
                rt,
                &count_holding(&rows[..length], signal),
                &1,
                &(place, length),
            );
            rows[place] = !bit;
        }
    }
    let rows = mixed(5);
    same_of(
        rt,
        &count_holding(&rows[..length], signal),
        &plain_count(&rows[..length], bit),
        &length,
    );
    let rows = [u64::MAX; MOST];
    same_of(
        rt,
        &count_holding(&rows[..length], signal),
        &length,
        &length,
    );
}

#[test]
fn count_holding_is_the_plain_count(rt: HostRuntime) {
    for length in 0..=MOST {
        if is_tried(length) {
            check_count_holding(&rt, length);
        }
    }
}

#[test]
fn hex16_of_known_words(rt: HostRuntime) {
    for (word, text) in [
        (0, b"0000000000000000"),
        (1 << 63, b"8000000000000000"),
        (u64::MAX, b"ffffffffffffffff"),
        (81985529216486895, b"0123456789abcdef"),
        (18364758544493064720, b"fedcba9876543210"),
    ] {
        same_of(&rt, &hex16(word), text, &word);
    }
}

#[test]
fn hex16_of_each_bit(rt: HostRuntime) {
    for place in 0..64 {
        let mut text = *b"0000000000000000";
        text[15 - place / 4] = b"1248"[place % 4];
        same_of(&rt, &hex16(1 << place), &text, &place);
    }
}
