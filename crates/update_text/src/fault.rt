//! Why a text was not written.
ghost use Rattle.std.specs.Prelude.{◌≡◌};
ghost use Rattle.update_text.specs.declared.fault.WriteFault.TheVariants.{Memory};
ghost use Rattle.update_text.specs.Faults.{write_fault_of};

use std::alloc::{AllocError, AllocFailed};
use thiserror::Error;
use tick_io::SinkFault;

/// Why a text was not written whole.
#[derive(Clone, Copy, Debug, PartialEq, Eq, Error)]
pub enum WriteFault {
    /// Memory ran out.
    #[error("out of memory")]
    Memory,
    /// The sink failed.
    #[error("the text could not be written")]
    Failed,
}

impl From<AllocError> for WriteFault {
    ghost from_gives = { λ _ fault. fault ≡ Memory };

    fn from(_: AllocError) -> Self {
        WriteFault::Memory
    }
}

impl<T: Drop> From<AllocFailed<T>> for WriteFault {
    ghost from_gives = { λ _ fault. fault ≡ Memory };

    fn from(_: AllocFailed<T>) -> Self {
        WriteFault::Memory
    }
}

impl From<SinkFault> for WriteFault {
    ghost from_gives = { λ sink_fault fault. fault ≡ write_fault_of sink_fault };

    fn from(fault: SinkFault) -> Self {
        match fault {
            SinkFault::Memory => WriteFault::Memory,
            SinkFault::Failed => WriteFault::Failed,
        }
    }
}
