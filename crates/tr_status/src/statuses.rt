ghost use Rattle.std.specs.Prelude.{◌≡◌, ◌+◌, ◌<◌, ◌≤◌, ◌-◌, ◌^◌, ◌++◌, length};
ghost use Rattle.tr_model.specs.Tables.{thread_of};
ghost use Rattle.tr_status.specs.Faults.{WritesStatus};
ghost use Rattle.tr_status.specs.Shown.{front_pieces, masks_pieces};
ghost use Rattle.tr_status.specs.Statuses.{status_text};
ghost use Rattle.tr_status.specs.Texts.{before};
ghost use Rattle.tr_status.specs.Writing.{Writes};

use crate::sinks::{Failed, Sink, put_all};
use crate::values::{Masks, masks_of, name_of, state_of, tracer_number};
use tr_kernel::Kernel;
use tr_table::Table;
use tr_text::TextBuffer;
use tr_tracee::Thread;

/// Room for a status text, which has at most 342 bytes, and for what comes before it.
pub type StatusBuffer = TextBuffer<384>;

/// Why a status wasn't written.
#[derive(Clone, Copy, Debug, PartialEq, Eq)]
pub enum StatusFault {
    /// No thread has the id (`ESRCH`).
    Srch,
    /// The sink failed.
    Write,
}

/// Writes the status text of the thread of a kernel's table with an id: proc_pid_status(5). `Srch` where no thread has
/// it, and then nothing is put. `Write` where the sink failed; it then took a front of the text.
pub fn write_status<K: Sink>(kernel: &Kernel, tid: u32, sink: &mut K) -> Result<(), StatusFault>
    requires { K.failures sink.old < 2 ^ 64 - 1 }
    ensures { WritesStatus K.taken K.failures sink.old sink.new kernel.now.table
        (thread_of kernel.now.table tid) result }
{
    write_status_of(kernel.table(), tid, sink)
}

/// Writes the status text of the thread of a table with an id. `Srch` where no thread has it, and then nothing is put.
/// `Write` where the sink failed; it then took a front of the text.
pub fn write_status_of<K: Sink>(table: &Table, tid: u32, sink: &mut K) -> Result<(), StatusFault>
    requires { K.failures sink.old < 2 ^ 64 - 1 }
    ensures { WritesStatus K.taken K.failures sink.old sink.new table.now.table
        (thread_of table.now.table tid) result }
{
    match table.find(tid) {
        Some(thread) => match write_thread(table, thread, sink) {
            Ok(()) => Ok(()),
            Err(Failed) => Err(StatusFault::Write),
        },
        None => Err(StatusFault::Srch),
    }
}

/// Writes the status text of a thread of the table. Where the sink fails, it took a front of the text.
pub fn write_thread<K: Sink>(table: &Table, thread: &Thread, sink: &mut K) -> Result<(), Failed>
    requires { K.failures sink.old < 2 ^ 64 - 1 }
    ensures { Writes K.taken K.failures sink.old sink.new
        (status_text table.now.table thread.now) result }
{
    let mut text = StatusBuffer::new();
    prepend_status(&mut text, table, thread);
    put_all(sink, text.as_bytes())
}

/// Puts the status text of a thread of the table before a text.
pub fn prepend_status(text: &mut StatusBuffer, table: &Table, thread: &Thread)
    requires { 342 ≤ text.old.room }
    ensures text { text.new.text ≡ status_text table.now.table thread.now ++ text.old.text }
    ensures room { text.old.room ≤ text.new.room + 342 }
{
    compose_masks(text, masks_of(table, thread));
    compose_front(
        text,
        &Front {
            name: name_of(table.group(thread.group)),
            state: state_of(thread),
            tgid: thread.group,
            pid: thread.id,
            tracer: tracer_number(&thread.trace),
            threads: table.member_count(thread.group),
            queued: table.queued(),
            limit: table.limit(),
        },
    );
}

/// The lines of the sets.
fn compose_masks(text: &mut StatusBuffer, masks: Masks)
    requires { 126 ≤ text.old.room }
    ensures text { text.new.text ≡ before (masks_pieces masks) text.old.text }
    ensures room { text.new.room + 126 ≡ text.old.room }
{
    text.prepend(b"\n");
    text.prepend(&masks.caught);
    text.prepend(b"\nSigCgt:\t");
    text.prepend(&masks.ignored);
    text.prepend(b"\nSigIgn:\t");
    text.prepend(&masks.blocked);
    text.prepend(b"\nSigBlk:\t");
    text.prepend(&masks.shared);
    text.prepend(b"\nShdPnd:\t");
    text.prepend(&masks.own);
    text.prepend(b"\nSigPnd:\t");
}

/// What the lines before those of the sets show.
#[derive(Clone, Copy)]
struct Front<'a> {
    name: &'a [u8],
    state: &'a [u8],
    tgid: u32,
    pid: u32,
    tracer: u32,
    threads: usize,
    queued: usize,
    limit: u32,
}

/// The lines before those of the sets, but for the last newline.
fn compose_front(text: &mut StatusBuffer, front: &Front<'_>)
    requires room { 216 ≤ text.old.room }
    requires name { length front.now.name.now ≤ 15 }
    requires state { length front.now.state.now ≤ 16 }
    ensures text { text.new.text ≡ before (front_pieces front.now) text.old.text }
    ensures room { text.old.room ≤ text.new.room + 216 }
{
    text.prepend_number(u64::from(front.limit));
    text.prepend(b"/");
    text.prepend_number(front.queued as u64);
    text.prepend(b"\nSigQ:\t");
    text.prepend_number(front.threads as u64);
    text.prepend(b"\nThreads:\t");
    text.prepend_number(u64::from(front.tracer));
    text.prepend(b"\nPPid:\t1\nTracerPid:\t");
    text.prepend_number(u64::from(front.pid));
    text.prepend(b"\nPid:\t");
    text.prepend_number(u64::from(front.tgid));
    text.prepend(b"\nTgid:\t");
    text.prepend(front.state);
    text.prepend(b"\nState:\t");
    text.prepend(front.name);
    text.prepend(b"Name:\t");
}
