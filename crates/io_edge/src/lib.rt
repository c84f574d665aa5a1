//! The edge: where bytes come from and go to, and how often that failed.
//!
//! The layers above may rely on this: no failed read passes for the end of input, and no failed write for a
//! written text, since every failure raises a count by one, up to the largest `u64`, and nothing else raises it. Contracts
//! name the bytes that a source has left and a sink holds if those are visible: of the devices over memory, and of a device
//! over a reader or writer whose bytes are visible. Those of standard input and output aren't; they are such devices too, so
//! what is proved of every reader and writer holds of them. Read `source` first, then `sink`.
#![tactic(auto)]

mod fault;
mod mem_sink;
mod mem_source;
mod quiet;
mod sink;
mod source;

pub use fault::Failed;
pub use mem_sink::MemSink;
pub use mem_source::MemSource;
pub use quiet::{QuietSink, QuietSource};
pub use sink::{Sink, StdSink, WriterSink, write_all};
pub use source::{ReadAll, ReaderSource, Source, StdSource, read_all};
