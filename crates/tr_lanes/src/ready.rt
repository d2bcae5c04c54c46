ghost use Rattle.std.specs.Prelude.{◌≡◌, length};
ghost use Rattle.std.specs.List.{position, position_or_len};
ghost use Rattle.tr_lanes.specs.Scans.{is_ready, ready_words};

use crate::rows::lowest;
use std::simd::prelude::*;

/// What each of eight threads can take.
fn ready_in(own: &[u64; 8], blocked: &[u64; 8], shared: u64, runnable: &[u64; 8]) -> u64x8
    ensures { result ≡ ready_words own.now blocked.now shared runnable.now }
{
    (u64x8::from_array(*own) | u64x8::splat(shared))
        & !u64x8::from_array(*blocked)
        & u64x8::from_array(*runnable)
}

/// How many of eight words come before the first that isn't 0.
fn nonzero_in(words: u64x8) -> usize
    requires { length words ≡ 8 }
    ensures { result ≡ position_or_len is_ready words }
{
    if words.reduce_or() == 0 {
        return 8;
    }
    lowest(words.simd_ne(u64x8::splat(0)).to_bitmask())
}

/// The place of the first thread that can take a signal. Row i of each slice is thread i's: the signals that wait
/// in its own queue, those that it blocks, and all or none as it is runnable or not; `shared` waits in the shared
/// queue. None only where no thread can take one.
pub fn first_ready(own: &[u64], blocked: &[u64], shared: u64, runnable: &[u64]) -> Option<usize>
    requires as_many_blocked { length blocked.now ≡ length own.now }
    requires as_many_runnable { length runnable.now ≡ length own.now }
    ensures { result ≡ position is_ready (ready_words own.now blocked.now shared runnable.now) }
{
    let (own_blocks, own_rest) = own.as_chunks::<8>();
    let (blocked_blocks, blocked_rest) = blocked.as_chunks::<8>();
    let (runnable_blocks, runnable_rest) = runnable.as_chunks::<8>();
    for c in 0..own_blocks.len() {
        let words = ready_in(
            &own_blocks[c],
            &blocked_blocks[c],
            shared,
            &runnable_blocks[c],
        );
        let k = nonzero_in(words);
        if k < 8 {
            return Some(8 * c + k);
        }
    }
    let start = own.len() - own_rest.len();
    for (j, own_row) in own_rest.iter().enumerate() {
        if (*own_row | shared) & !blocked_rest[j] & runnable_rest[j] != 0 {
            return Some(start + j);
        }
    }
    None
}

/// Writes what each thread can take, of rows as `first_ready` reads them.
pub fn ready_rows(own: &[u64], blocked: &[u64], shared: u64, runnable: &[u64], out: &mut [u64])
    requires as_many_blocked { length blocked.now ≡ length own.now }
    requires as_many_runnable { length runnable.now ≡ length own.now }
    requires as_many_out { length out.old ≡ length own.now }
    ensures { out.new ≡ ready_words own.now blocked.now shared runnable.now }
{
    let (own_blocks, own_rest) = own.as_chunks::<8>();
    let (blocked_blocks, blocked_rest) = blocked.as_chunks::<8>();
    let (runnable_blocks, runnable_rest) = runnable.as_chunks::<8>();
    for c in 0..own_blocks.len() {
        let words = ready_in(
            &own_blocks[c],
            &blocked_blocks[c],
            shared,
            &runnable_blocks[c],
        );
        words.copy_to_slice(&mut out[8 * c..]);
    }
    let start = own.len() - own_rest.len();
    for j in 0..own_rest.len() {
        out[start + j] = (own_rest[j] | shared) & !blocked_rest[j] & runnable_rest[j];
    }
}
