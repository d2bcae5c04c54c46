ghost use Rattle.std.specs.Prelude.{◌<◌, ◌-◌, ◌^◌, decimal};
ghost use Rattle.tr_status.specs.Writing.{Writes};
ghost use Rattle.tracebox.specs.Meanings.{line, meaning_line};

use itoa::Buffer;
use tr_status::{Failed, Sink, put_all, put_pieces};
use tr_wait::Status;

/// Writes what a status is, and a newline. Where the sink fails, it took a front of that.
pub(crate) fn write_meaning<K: Sink>(status: Status, sink: &mut K) -> Result<(), Failed>
    requires { K.failures sink.old < 2 ^ 64 - 1 }
    ensures { Writes K.taken K.failures sink.old sink.new (meaning_line status) result }
{
    match status {
        Status::Exited(code) => write_numbered(b"exited ", code, sink),
        Status::Killed(signal) => write_numbered(b"killed ", signal.number(), sink),
        Status::Stopped(signal) => write_numbered(b"stopped ", signal.number(), sink),
        Status::Clone => put_all(sink, b"event clone\n"),
        Status::Exec => put_all(sink, b"event exec\n"),
        Status::Exit => put_all(sink, b"event exit\n"),
        Status::EventStop(shown) => write_numbered(b"event stop ", shown.number(), sink),
        Status::Continued => put_all(sink, b"continued\n"),
    }
}

/// Writes a name, a number and a newline.
fn write_numbered<K: Sink>(name: &[u8], number: u8, sink: &mut K) -> Result<(), Failed>
    requires { K.failures sink.old < 2 ^ 64 - 1 }
    ensures { Writes K.taken K.failures sink.old sink.new (line name.now (decimal number)) result }
{
    let mut digits = Buffer::new();
    put_line(name, digits.format(number).as_bytes(), sink)
}

pub(crate) fn put_line<'a, K: Sink>(
    name: &'a [u8],
    value: &'a [u8],
    sink: &mut K,
) -> Result<(), Failed>
    requires { K.failures sink.old < 2 ^ 64 - 1 }
    ensures { Writes K.taken K.failures sink.old sink.new (line name.now value.now) result }
{
    let pieces: [&'a [u8]; 3] = [name, value, b"\n"];
    put_pieces(sink, &pieces)
}
