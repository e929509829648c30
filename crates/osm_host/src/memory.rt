//! A host whose files lie in memory, with its sources and sinks. It tells everything.

mod calls;
mod files;
mod held;
mod plan;
mod sink;
mod source;

pub use files::{FileHeld, Files};
pub use held::MemoryHost;
pub use plan::{FailAt, Fails, calls_come_nearer};
pub use sink::MemorySink;
pub use source::MemorySource;
