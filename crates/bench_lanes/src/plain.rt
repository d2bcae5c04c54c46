//! Each scan as a plain loop. What can't be scanned answers 0.

use crate::rows::Rows;
use tr_sigset::Signal;

/// The place of the first own row without the signal, from 0; `u64::MAX` where each has it.
#[inline(never)]
pub fn first_clear(rows: &Rows, signal: &Signal, _out: &mut [u64]) -> u64 {
    let bit = 1 << (signal.number() - 1);
    for (place, row) in rows.own.iter().enumerate() {
        if *row & bit == 0 {
            return place as u64;
        }
    }
    u64::MAX
}

/// The place of the first thread that can take a signal, from 0; `u64::MAX` where none can.
#[inline(never)]
pub fn first_ready(rows: &Rows, _signal: &Signal, _out: &mut [u64]) -> u64 {
    let count = rows.own.len();
    if rows.blocked.len() != count || rows.runnable.len() != count {
        return 0;
    }
    for place in 0..count {
        if (rows.own[place] | rows.shared) & !rows.blocked[place] & rows.runnable[place] != 0 {
            return place as u64;
        }
    }
    u64::MAX
}

/// Writes what each thread can take, and gives the number of rows.
#[inline(never)]
pub fn ready_rows(rows: &Rows, _signal: &Signal, out: &mut [u64]) -> u64 {
    let (own, blocked, runnable, shared) = (rows.own, rows.blocked, rows.runnable, rows.shared);
    let count = own.len();
    if blocked.len() != count || runnable.len() != count || out.len() != count {
        return 0;
    }
    for place in 0..count {
        out[place] = (own[place] | shared) & !blocked[place] & runnable[place];
    }
    count as u64
}

/// The union of all own rows.
#[inline(never)]
pub fn union_all(rows: &Rows, _signal: &Signal, _out: &mut [u64]) -> u64 {
    let mut union = 0;
    for row in rows.own {
        union |= *row;
    }
    union
}

/// How many own rows have the signal.
#[inline(never)]
pub fn count_holding(rows: &Rows, signal: &Signal, _out: &mut [u64]) -> u64 {
    let bit = 1 << (signal.number() - 1);
    let mut count: u64 = 0;
    for row in rows.own {
        if *row & bit != 0 {
            count = count.wrapping_add(1);
        }
    }
    count
}
