//! Each scan of tr_lanes, called as the plain loops are.

use crate::rows::Rows;
use tr_sigset::Signal;

fn answer(found: Option<usize>) -> u64 {
    match found {
        Some(place) => place as u64,
        None => u64::MAX,
    }
}

/// The place of the first own row without the signal, from 0; `u64::MAX` where each has it.
#[inline(never)]
pub fn first_clear(rows: &Rows, signal: &Signal, _out: &mut [u64]) -> u64 {
    answer(tr_lanes::first_clear(rows.own, *signal))
}

/// The place of the first thread that can take a signal, from 0; `u64::MAX` where none can.
#[inline(never)]
pub fn first_ready(rows: &Rows, _signal: &Signal, _out: &mut [u64]) -> u64 {
    let count = rows.own.len();
    if rows.blocked.len() != count || rows.runnable.len() != count {
        return 0;
    }
    answer(tr_lanes::first_ready(rows.own, rows.blocked, rows.shared, rows.runnable))
}

/// Writes what each thread can take, and gives the number of rows.
#[inline(never)]
pub fn ready_rows(rows: &Rows, _signal: &Signal, out: &mut [u64]) -> u64 {
    let count = rows.own.len();
    if rows.blocked.len() != count || rows.runnable.len() != count || out.len() != count {
        return 0;
    }
    tr_lanes::ready_rows(rows.own, rows.blocked, rows.shared, rows.runnable, out);
    count as u64
}

/// The union of all own rows.
#[inline(never)]
pub fn union_all(rows: &Rows, _signal: &Signal, _out: &mut [u64]) -> u64 {
    tr_lanes::union_all(rows.own)
}

/// How many own rows have the signal.
#[inline(never)]
pub fn count_holding(rows: &Rows, signal: &Signal, _out: &mut [u64]) -> u64 {
    tr_lanes::count_holding(rows.own, *signal) as u64
}
