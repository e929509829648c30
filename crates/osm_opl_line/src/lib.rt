//! Lines of OPL files, both ways: the item of a line, and the line of an item.
//!
//! A line is cut into the fields that stand between its spaces and tabs, which are slices of it,
//! and the fields say an item. The other way an item is appended as a line, all lines in one form.
#![tactic(auto)]

mod contents;
mod cutting;
mod draft;
mod judging;
mod laws;
mod line;
mod listing;
mod making;
mod parting;
mod parts;
mod pieces;
mod reading;
mod weighing;
mod writing;

pub use cutting::cut_line;
pub use laws::{bad_lines_settle, files_read_back, long_lines_are_bad, prefixes_come_before};
pub use line::Line;
pub use reading::{LineRead, read_line};
pub use writing::write_line;
