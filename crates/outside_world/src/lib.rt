//! What a program has to do with outside of itself: sources and sinks of bytes, and clocks.
#![tactic(auto)]

mod calls;
mod clock;
mod fault;
mod file_disk;
mod memory_clock;
mod memory_sink;
mod memory_source;
mod pieces_source;
mod real;
mod sink;
mod source;

pub use clock::{Clock, LAST_MOMENT};
pub use fault::Failed;
pub use file_disk::FileDisk;
pub use memory_clock::MemoryClock;
pub use memory_sink::MemorySink;
pub use memory_source::MemorySource;
pub use pieces_source::PiecesSource;
pub use real::{StreamSink, StreamSource, SystemClock};
pub use sink::{Sink, write_all};
pub use source::Source;
