//! The task tag-filter: of one kind it passes on the items whose tags match, or those whose tags
//! don't, and all items of the other kinds.
#![tactic(auto)]

mod filter;
mod laws;
mod matching;

pub use filter::TagFilter;
pub use laws::{filters_grow, filters_keep_their_rule};
