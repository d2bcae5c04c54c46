ghost use Rattle.std.specs.Prelude.{◌<◌, ◌-◌, ◌^◌, List, ℕ, length};
ghost use Rattle.tr_status.specs.Writing.{Puts, Writes, joined};

/// What takes bytes, and may fail.
pub trait Sink {
    ghost use Rattle.std.specs.Prelude.{◌-◌, ◌^◌, ◌<◌, List, ℕ, length};
    ghost use Rattle.tr_status.specs.Writing.{Puts};

    /// The bytes that it took.
    ghost taken: { Self → List ℕ };

    /// How often it failed.
    ghost failures: { Self → ℕ };

    /// Takes some of the first bytes, at least one, and says how many. `None` where it fails: then it took none.
    fn put(&mut self, bytes: &[u8]) -> Option<usize>
        requires some { 0 < length bytes.now }
        requires room { failures self.old < 2 ^ 64 - 1 }
        ensures { Puts taken failures self.old self.new bytes.now result };
}

/// The sink failed.
#[derive(Clone, Copy, Debug, PartialEq, Eq)]
pub struct Failed;

/// Writes all of the bytes, in as many puts as that takes. It stops at the first failure of the sink, which then took
/// a front of them.
pub fn put_all<K: Sink>(sink: &mut K, bytes: &[u8]) -> Result<(), Failed>
    requires { K.failures sink.old < 2 ^ 64 - 1 }
    ensures { Writes K.taken K.failures sink.old sink.new bytes.now result }
{
    let mut rest = bytes;
    'all: while !rest.is_empty() {
        match sink.put(rest) {
            Some(count) => rest = &rest[count..],
            None => return Err(Failed),
        }
    }
    Ok(())
}

/// Writes the pieces one after another. It stops at the first failure of the sink, which then took a front of their
/// text.
pub fn put_pieces<K: Sink>(sink: &mut K, pieces: &[&[u8]]) -> Result<(), Failed>
    requires { K.failures sink.old < 2 ^ 64 - 1 }
    ensures { Writes K.taken K.failures sink.old sink.new (joined pieces.now) result }
{
    for piece in pieces {
        put_all(sink, piece)?;
    }
    Ok(())
}
