ghost use Rattle.std.specs.Prelude.{◌≡◌, ◌==◌, ℕ, bit_and, if◌then◌else◌};
ghost use Rattle.std.specs.Int.{trailing_zeros, w64};
ghost use Rattle.std.specs.List.{position, position_or_len};
ghost use Rattle.tr_lanes.specs.Scans.{holds, lacks};

use std::simd::prelude::*;
use tr_sigset::Signal;

/// The word of one signal.
pub(crate) fn bit_of(signal: Signal) -> u64
    ensures lacking { (row : ℕ) → (bit_and row result == 0) ≡ lacks signal row }
    ensures holding { (row : ℕ) → (bit_and row result == result) ≡ holds signal row }
{
    1 << (signal.number() - 1)
}

/// The place of the lowest bit that is set, or 8 where none is.
pub(crate) fn lowest(hits: u64) -> usize
    ensures { result ≡ (if hits == 0 then 8 else trailing_zeros w64 hits) }
{
    if hits == 0 {
        8
    } else {
        hits.trailing_zeros() as usize
    }
}

/// How many of eight rows come before the first that has no bit of `bit`.
fn clear_in(block: &[u64; 8], bit: u64) -> usize
    ensures { result ≡ position_or_len (λ row. bit_and row bit == 0) block.now }
{
    let rows = u64x8::from_array(*block);
    if rows.reduce_and() & bit != 0 {
        return 8;
    }
    let hits = (rows & u64x8::splat(bit)).simd_eq(u64x8::splat(0));
    lowest(hits.to_bitmask())
}

/// The place of the first row that has no bit of `bit`.
fn first_without(rows: &[u64], bit: u64) -> Option<usize>
    ensures { result ≡ position (λ row. bit_and row bit == 0) rows.now }
{
    let (blocks, rest) = rows.as_chunks::<8>();
    for (c, block) in blocks.iter().enumerate() {
        let k = clear_in(block, bit);
        if k < 8 {
            return Some(8 * c + k);
        }
    }
    for (j, row) in rest.iter().enumerate() {
        if *row & bit == 0 {
            return Some(rows.len() - rest.len() + j);
        }
    }
    None
}

/// The place of the first row that lacks a signal. None only where every row has it.
pub fn first_clear(rows: &[u64], signal: Signal) -> Option<usize>
    ensures { result ≡ position (lacks signal) rows.now }
{
    first_without(rows, bit_of(signal))
}
