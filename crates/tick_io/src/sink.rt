//! Where the engine writes its bytes.
ghost use Rattle.std.specs.Prelude.{◌≡◌, ◌<◌, ◌≤◌, ℕ, List, Option, IfOk, OnOk, OnErr, IsErrOf, length, take};
ghost use Rattle.std.specs.Io.KnownBytes.{append_known};
ghost use Rattle.tick_io.specs.Counts.{Rose};
ghost use Rattle.tick_io.specs.Written.{AppendsPrefix};
ghost use Rattle.tick_io.specs.declared.sink.SinkFault.TheVariants.{Memory};

use std::alloc::{AllocError, AllocFailed};

/// Why bytes were not written.
#[derive(Clone, Copy, Debug, PartialEq, Eq)]
pub enum SinkFault {
    /// Memory ran out.
    Memory,
    /// The device failed, or took no byte.
    Failed,
}

impl From<AllocError> for SinkFault {
    ghost from_gives = { λ _ fault. fault ≡ Memory };

    fn from(_: AllocError) -> Self {
        SinkFault::Memory
    }
}

impl<T: Drop> From<AllocFailed<T>> for SinkFault {
    ghost from_gives = { λ _ fault. fault ≡ Memory };

    fn from(_: AllocFailed<T>) -> Self {
        SinkFault::Memory
    }
}

/// A stream that bytes are written to.
pub trait Sink: Send {
    /// The bytes written so far, or `None` where the sink does not tell them.
    ghost bytes: { Self → Option (List ℕ) };

    /// How many writes have failed.
    ghost failures: { Self → ℕ };

    /// Appends a prefix of the piece, of one byte at least, and returns its length.
    ///
    /// After an error nothing was appended. `Failed` comes only where the count of failures rose in this call; a write that takes bytes
    /// leaves it as it is.
    fn write(&mut self, piece: &[u8]) -> Result<usize, SinkFault>
        requires { 0 < length piece.now }
        ensures progress { IfOk result (λ count. 1 ≤ count) }
        ensures within { IfOk result (λ count. count ≤ length piece.now) }
        ensures appended { IfOk result (λ count. bytes self.new ≡ append_known (bytes self.old) (take count piece.now)) }
        ensures err { OnErr result (bytes self.new ≡ bytes self.old) }
        ensures failed { IsErrOf result SinkFault.Failed → Rose (failures self.old) (failures self.new) }
        ensures never_falls { failures self.old ≤ failures self.new }
        ensures steady { OnOk result (failures self.new ≡ failures self.old) };
}

/// Appends the whole piece. It takes no memory of its own.
///
/// After an error a prefix of the piece was appended. `Failed` comes only where the sink's count of failures rose in this call.
pub fn put_all<S: Sink>(sink: &mut S, piece: &[u8]) -> Result<(), SinkFault>
    ensures whole { OnOk result (S.bytes sink.new ≡ append_known (S.bytes sink.old) piece.now) }
    ensures err { OnErr result (AppendsPrefix (S.bytes sink.old) (S.bytes sink.new) piece.now) }
    ensures failed { IsErrOf result SinkFault.Failed → Rose (S.failures sink.old) (S.failures sink.new) }
    ensures never_falls { S.failures sink.old ≤ S.failures sink.new }
    ensures steady { OnOk result (S.failures sink.new ≡ S.failures sink.old) }
{
    let mut done = 0;
    while done < piece.len() {
        done += sink.write(&piece[done..])?;
    }
    Ok(())
}
