ghost use Rattle.std.specs.Prelude.{◌≡◌, ◌==◌, bit_and, count_by, if◌then◌else◌, map};
ghost use Rattle.tr_lanes.specs.Scans.{holds, union_of};

use crate::rows::bit_of;
use std::simd::prelude::*;
use tr_sigset::Signal;

/// The union of all rows, 0 where there is none.
pub fn union_all(rows: &[u64]) -> u64
    ensures { result ≡ union_of rows.now }
{
    let (blocks, rest) = rows.as_chunks::<8>();
    let mut lanes = u64x8::splat(0);
    for block in blocks {
        lanes = lanes | u64x8::from_array(*block);
    }
    let mut all = lanes.reduce_or();
    for row in rest {
        all |= *row;
    }
    all
}

/// 1 for each of sixteen rows that has every bit of `bit`, and 0 for another.
fn held_in(block: &[u64; 16], bit: u64) -> u64x16
    ensures { result ≡ map (λ row. if bit_and row bit == bit then 1 else 0) block.now }
{
    (u64x16::from_array(*block) & u64x16::splat(bit))
        .simd_eq(u64x16::splat(bit))
        .select(u64x16::splat(1), u64x16::splat(0))
}

/// How many rows have every bit of `bit`.
fn count_with(rows: &[u64], bit: u64) -> usize
    ensures { result ≡ count_by (λ row. bit_and row bit == bit) rows.now }
{
    let (blocks, rest) = rows.as_chunks::<16>();
    let mut lanes = u64x16::splat(0);
    for block in blocks {
        lanes = lanes.strict_add(held_in(block, bit));
    }
    let mut count = lanes.strict_reduce_sum() as usize;
    for row in rest {
        if *row & bit == bit {
            count += 1;
        }
    }
    count
}

/// How many rows have a signal.
pub fn count_holding(rows: &[u64], signal: Signal) -> usize
    ensures { result ≡ count_by (holds signal) rows.now }
{
    count_with(rows, bit_of(signal))
}
