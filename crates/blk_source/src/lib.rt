//! Sources of bytes and sinks of bytes, as the rest of the program sees them: what they tell, how they fail, how often they were read.
#![tactic(auto)]

mod edge;
mod memory;
mod sink;
mod source;

pub use apfs_model::{Bytes, NoMemory, ReadFailed, WriteFailed};
pub use edge::{FileSource, StdSink};
pub use memory::{MemSource, SureSource};
pub use sink::{MemSink, Sink};
pub use source::{BlockSource, Opened};
