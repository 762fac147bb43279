//! Why this program ends early.

use std::alloc::AllocError;
use std::io;
use tick_io::SinkFault;
use viewport::MirrorFault;

/// Why this program ends early.
#[derive(Drop)]
pub(crate) enum Fault {
    /// Memory ran out.
    Memory,
    /// The standard output could not be written.
    Output,
    /// There is no run.
    Read(feed_run::LoadStop),
    /// The run goes no further.
    Step(update_graph::Stop),
    /// The mirror does not take a change.
    Mirror(MirrorFault),
    /// The plan has no such table.
    NoTable,
}

impl From<AllocError> for Fault {
    fn from(_: AllocError) -> Fault {
        Fault::Memory
    }
}

impl From<io::Error> for Fault {
    fn from(_: io::Error) -> Fault {
        Fault::Output
    }
}

impl From<SinkFault> for Fault {
    fn from(_: SinkFault) -> Fault {
        Fault::Output
    }
}

impl From<feed_run::LoadStop> for Fault {
    fn from(stop: feed_run::LoadStop) -> Fault {
        Fault::Read(stop)
    }
}

impl From<update_graph::Stop> for Fault {
    fn from(stop: update_graph::Stop) -> Fault {
        Fault::Step(stop)
    }
}

impl From<MirrorFault> for Fault {
    fn from(fault: MirrorFault) -> Fault {
        Fault::Mirror(fault)
    }
}
