//! The outside world as the engine sees it: files by name, one stream of bytes that is written, and a gate at which the
//! work of each node can be held up.
//!
//! Each of the three is a trait. What it stands for, contracts alone see: the contents of files, the bytes written, and counts of
//! failures. A fault of reading or writing is returned only where a count of failures rose in that call, so code above can say what
//! a fault means without a word about devices.
#![tactic(auto)]

mod calls;
mod gate;
mod host;
mod inputs;
mod memory;
mod sink;

pub use gate::{Gate, Inside, OpenGate};
pub use host::{HostInputs, StdSink};
pub use inputs::{Inputs, LoadFault};
pub use memory::{MemoryInputs, MemorySink, SteadySink, VoidSink};
pub use sink::{Sink, SinkFault, put_all};
