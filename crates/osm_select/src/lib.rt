//! The tasks bounding-box and bounding-polygon. They keep the nodes in an area, the ways and
//! relations that touch them, and what their options add.
//!
//! Without options that look ahead each item is judged when it comes. With one, all items are held
//! until their end.
#![tactic(auto)]

mod choosing;
mod holding;
mod ids;
mod keys;
mod laws;
mod links;
mod order;
mod passing;
mod phase;
mod sets;
mod task;

pub use laws::{
    a_small_stream_is_cut, area_streams_grow, area_tasks_keep_their_rule, kinds_prefix_is_longest,
    passed_items_are_judged_by_all_before, relations_are_least,
};
pub use task::AreaTask;
