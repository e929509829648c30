//! A host over the files of the system and standard error.
#![tactic(auto)]

mod gatherer;
mod host;
mod openings;
mod output;
mod sink;
mod source;
mod transfers;

pub use host::StdHost;
pub use sink::FileSink;
pub use source::FileSource;
