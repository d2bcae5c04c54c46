//! Which reports a wait may give, and what a wait that gives one tells.

ghost use Rattle.std.specs.Prelude.{◌≡◌, ◌||◌, None, is_some};
ghost use Rattle.tr_model.specs.StarterWaits.{ready_death, ready_note};
ghost use Rattle.tr_model.specs.Steps.{waited_thread};
ghost use Rattle.tr_model.specs.Waits.{ready_thread};

use crate::starter_waits::{ready_death, ready_note};
use crate::waits::{ready_thread, waited_thread};
use tr_model::Reply;
use tr_table::Table;
use tr_wait::{WaitFlags, Which};

/// Whether a wait of the tracer may give the report of a number.
pub fn admits_wait(table: &Table, actor: u32, which: Which, number: u64) -> bool
    ensures { result ≡ is_some (ready_thread table.now.table actor which number) }
{
    ready_thread(table, actor, which, number).is_some()
}

/// What a wait of the tracer that gives the report of a number tells.
pub fn waited_by(table: &Table, actor: u32, which: Which, number: u64) -> Reply
    ensures { result ≡ waited_thread (ready_thread table.now.table actor which number) None }
{
    let thread = ready_thread(table, actor, which, number).copied();
    waited_thread(&thread, &None)
}

/// Whether a wait of the starter may give the report of a number.
pub fn admits_starter_wait(table: &Table, which: Which, flags: WaitFlags, number: u64) -> bool
    ensures { result
        ≡ (is_some (ready_death table.now.table which number) || is_some
        (ready_note table.now.table which flags number)) }
{
    ready_death(table, which, number).is_some() || ready_note(table, which, flags, number).is_some()
}

/// What a wait of the starter that gives the report of a number tells.
pub fn waited_by_starter(table: &Table, which: Which, flags: WaitFlags, number: u64) -> Reply
    ensures { result
        ≡ waited_thread (ready_death table.now.table which number)
        (ready_note table.now.table which flags number) }
{
    let thread = ready_death(table, which, number).copied();
    let group = ready_note(table, which, flags, number).copied();
    waited_thread(&thread, &group)
}
