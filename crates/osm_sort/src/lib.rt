//! The tasks sort and sort-change: the items of a stream by key, equal keys in their old order.
#![tactic(auto)]

mod laws;
mod phase;
mod sort;

pub use laws::{sorts_grow, sorts_keep_their_rule};
pub use sort::Sort;
